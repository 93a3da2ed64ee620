// The left-to-right outcome of a job: worked on one processor, and the order in which its nodes are worked.
#![tactic(auto)]

mod existence;
mod place;
mod refusal;
mod sequential;
mod traversal;

pub use existence::nodes_with_outcomes;
pub use refusal::EvaluateRefusal;
pub use sequential::evaluate;
pub use traversal::left_to_right;
