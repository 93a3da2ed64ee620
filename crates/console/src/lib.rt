// The commands of the program: what was asked for, and the work that it asks for.
#![tactic(auto)]

mod command;
mod evaluation;
mod loaded;
mod number;
mod program;
mod usage;

pub use command::{Command, Plan, Reckoning, parse};
pub use evaluation::{EvaluationError, evaluation_text};
pub use number::decimal;
pub use program::run;
pub use usage::{UsageError, help_text};
