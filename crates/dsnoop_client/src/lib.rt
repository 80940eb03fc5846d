//! The reader of a shared capture: a PCM stream that reads the card's captured frames through a port.
#![tactic(auto)]

mod after_calls;
mod frames;
mod positions;
mod read;
mod reader;
mod stream;
mod usable;

pub use reader::Reader;
pub use stream::CaptureStream;
