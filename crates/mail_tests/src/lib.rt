// Running tests of the mails, worked out by hand, and a mail that holds nothing.
#![tactic(auto)]

mod shut;

pub use shut::Shut;

#[cfg(test)]
mod bridging;
#[cfg(test)]
mod filling;
#[cfg(test)]
mod ordering;
#[cfg(test)]
mod ranging;
#[cfg(test)]
mod steps;
