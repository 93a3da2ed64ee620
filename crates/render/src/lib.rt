// The report of an evaluation.
#![tactic(auto)]

mod counted;
mod evaluation;
mod node;

pub use counted::Counted;
pub use evaluation::report;
pub use node::NodeLine;
