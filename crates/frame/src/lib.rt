// Frames of wheel speeds, and the sources that they are read from.
#![tactic(auto)]

mod cause;
mod crc;
mod decode;
mod error;
mod frame;
mod source;

pub use cause::Cause;
pub use crc::crc8;
pub use decode::frame_at;
pub use error::FrameError;
pub use frame::Frame;
pub use source::{Recorder, Source, Trace};
