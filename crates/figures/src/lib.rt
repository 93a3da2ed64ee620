// The value algebras that are shipped: trail, summary and float.
#![tactic(auto)]

mod float;
mod summary;
mod trail;

pub use float::{Float, Sums};
pub use summary::{Figures, Summary};
pub use trail::Trail;
