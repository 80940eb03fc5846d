//! The capture core: the port through which a reader loads captured frames, and a ring with one owner that stores them.
#![tactic(auto)]

mod capture;
mod port;
mod ring;
mod turn;
mod usable;
mod word;

pub use capture::SnoopCore;
pub use port::{Frame, Got, Loaded, SnoopPort};
pub use turn::SnoopTurn;
pub use usable::can_load;
pub use word::{laps, sample, snoop_word};
