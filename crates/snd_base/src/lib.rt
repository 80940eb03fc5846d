//! What every layer of the sound crates shares: errors with error numbers as ALSA has them, the geometry of a ring,
//! places in it, a counter of steps.
#![tactic(auto)]

mod errors;
mod geometry;
mod places;
mod steps;

pub use errors::{PcmError, Why, XrunWhy};
pub use geometry::Geometry;
pub use places::{Cursor, Segment};
pub use steps::Steps;
