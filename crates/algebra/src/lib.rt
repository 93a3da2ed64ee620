// Value algebras: what a job computes, what a node's cell holds, and the rules of leaves and forks.
#![tactic(auto)]

mod algebra;
mod cell;
mod fault;
mod fork;
mod leaf;
mod span;

pub use algebra::ValueAlgebra;
pub use cell::Cell;
pub use fault::Fault;
pub use fork::{cell_at, fill_leaf, join_cells, joined_cell};
pub use leaf::leaf_outcome;
pub use span::Span;
