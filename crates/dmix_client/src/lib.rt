//! The client of a mixed playback: a PCM stream that places its frames in the card's ring through a port.
#![tactic(auto)]

mod after_calls;
mod client;
mod commit;
mod control;
mod pause;
mod rewind;
mod rewind_states;
mod ring;
mod status;
mod stream;
mod usable;
mod withdraw;
mod write;

pub use client::Client;
pub use commit::Commit;
pub use stream::PlaybackStream;
