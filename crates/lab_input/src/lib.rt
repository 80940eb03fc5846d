//! What a run of the lab reads: its script, the WAV file that its card captures, and the WAV files of its
//! clients.
#![tactic(auto)]

mod input;
mod plug;
mod shape;
mod sound;
mod wavs;

pub use input::{Input, read_input};
