//! WAV files of signed 16-bit samples: bytes to samples and back, at once or in pieces.
//!
//! The format is RIFF WAVE (Multimedia Programming Interface and Data Specifications 1.0).
#![tactic(auto)]

mod bounds;
mod error;
mod fields;
mod format;
mod frames;
mod head;
mod kept_bytes;
mod next_places;
mod place;
mod raw;
mod reader;
mod reading;
mod samples;
mod scan;
mod steps;
mod wav;
mod writing;

pub use bounds::can_have_header;
pub use error::WavError;
pub use head::{header, open_header};
pub use raw::{RawHead, RawReader};
pub use reader::{WavHead, WavReader};
pub use reading::read_wav;
pub use samples::Samples;
pub use wav::Wav;
pub use writing::{append_samples, write_wav};
