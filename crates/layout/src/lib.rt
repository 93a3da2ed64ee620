// Jobs as data: the nodes of a table, their parents, and why a job file is refused.
#![tactic(auto)]

mod node;
mod refusal;

pub use node::{Node, Parent};
pub use refusal::LoadRefusal;
