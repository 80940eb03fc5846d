//! The mix ring, and the capture ring beside it, for programs in C, C++ and Rust: a ring, its clients, its readers and its card
//! as handles, with calls that are named and answer as alsa-lib's of a stream that is opened with `SND_PCM_NONBLOCK`.
//! `include/dmixlab.h` is their manual.
//!
//! A handle is three words in the caller's memory, all zero while it is closed. The third is how many samples a frame has that
//! is passed by the handle. Each call tests what it asks, and answers an error number of `errno.h` with a minus sign where that
//! isn't so.
#![tactic(auto)]

mod answers;
mod calls;
mod client_calls;
mod duplex_card;
mod handle;
mod open_ring;
mod opened;
mod params;
mod playback;
mod playing_card;
mod reader_calls;
mod recording;
mod way;
