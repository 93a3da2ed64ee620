// Running tests of the other crates, on published values, values worked out by hand, and bytes that another program made.
#![tactic(auto)]

#[cfg(test)]
mod checks;
#[cfg(test)]
mod decoding;
#[cfg(test)]
mod evaluating;
#[cfg(test)]
mod falling;
#[cfg(test)]
mod figuring;
#[cfg(test)]
mod loading;
#[cfg(test)]
mod ordering;
#[cfg(test)]
mod outcomes;
#[cfg(test)]
mod recording;
#[cfg(test)]
mod refusing;
#[cfg(test)]
mod rising;
#[cfg(test)]
mod samples;
#[cfg(test)]
mod tables;
#[cfg(test)]
mod texts;
#[cfg(test)]
mod wording;
