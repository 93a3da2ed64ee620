// The line: a mail that gives the oldest message first.
#![tactic(auto)]

mod line;

pub use line::Line;
