//! The values that a hardware parameter may still have: intervals and masks, their refinement, and the rounded arithmetic
//! between intervals.
//!
//! They follow alsa-lib (`src/pcm/interval.c` and `src/pcm/mask_inline.h`). Two things are this library's own: an end above
//! 4294967295 becomes that number, closed, in each of the four operations; and a refinement that leaves nothing changes
//! nothing, where alsa-lib marks the interval as empty. No call takes memory.
#![tactic(auto)]

mod arithmetic;
mod empty;
mod interval;
mod mask;

pub use arithmetic::{div, mul, muldivk, mulkdiv};
pub use empty::Empty;
pub use interval::Interval;
pub use mask::Mask;
