//! What a PCM stream is whichever way its frames go: which direction it has, what it is set up with, and whether a call is
//! admitted in its state.
#![tactic(auto)]

mod direction;
mod pointer;
mod ring_shape;
mod setup;
mod status;

pub use direction::Direction;
pub use pointer::wrap_count;
pub use ring_shape::is_same_ring;
pub use setup::{Setup, can_run_with};
pub use status::Status;
