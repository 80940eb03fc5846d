//! The sum ring between threads: a table of 64-bit words that any number of seats share, each in a thread of its own, under
//! a rule that holds between any two atomic steps.
#![tactic(auto)]

mod laws;
mod place;
mod port;
mod ring;
mod rule;
mod seats;
mod usable;
mod view;
mod withdraw;

pub use laws::late_adds_change_nothing;
pub use ring::SumRing;
pub use rule::Exactly;
pub use seats::{Closed, MixSeat, PlayerSeat, SeatNote};
pub use view::{Key, Sighting, Track, View};
