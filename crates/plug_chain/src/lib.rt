//! Sound of any width, number of channels and rate, made into 16-bit samples of a card's channels and rate.
//!
//! It does what ALSA's `plug` plugin does with its linear, route and rate plugins, by whole numbers alone: samples are
//! widened or rounded down to 16 bits, a table of weights makes the channels, and straight lines between frames make the
//! rate.
#![tactic(auto)]

mod converter;
mod frame;
mod interpolation;
mod laws;
mod plug;
mod rates;
mod table;
mod wide;

pub use laws::{conversions_have_whole_frames, output_frames_lie_before_the_end};
pub use plug::Plug;
pub use table::Table;
pub use wide::Wide;
