//! The mixing core: the port through which a client places samples in a ring, the gate that it asks before each step,
//! and a core over one owner that answers adds, takes and publications as a history of lists does.
#![tactic(auto)]

mod event;
mod gate;
mod marks;
mod port;
mod ring;
mod run;
mod turn;
mod usable;

pub use event::{Event, Reply, Taken};
pub use gate::{Gate, NeverStops, Pass, StepKind, ask};
pub use marks::{Marks, is_before, later};
pub use port::{Ended, Entry, Kind, MixPort, Placed, Position};
pub use ring::Core;
pub use turn::Turn;
pub use usable::can_place;
