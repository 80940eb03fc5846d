//! Bindings: to which channel of the card each channel of a stream goes.
#![tactic(auto)]

mod channels;
mod reading;

pub use channels::Bindings;
