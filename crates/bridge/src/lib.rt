// Bridges: two mails as one.
#![tactic(auto)]

mod bridge;

pub use bridge::Bridge;
