//! The snoop ring between threads: a table of 64-bit words into which one writer stores captured frames and from which any
//! number of readers load them, each in a thread of its own, under a rule that holds between any two atomic steps.
#![tactic(auto)]

mod laps;
mod port;
mod ring;
mod rule;
mod seats;
mod view;

pub use ring::SnoopRing;
pub use rule::Captured;
pub use seats::{ReaderSeat, SnoopNote, WriterSeat};
pub use view::{Track, View};
