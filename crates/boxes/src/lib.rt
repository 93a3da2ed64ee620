// A mail with a box for each receiver.
#![tactic(auto)]

mod boxes;

pub use boxes::Boxes;
