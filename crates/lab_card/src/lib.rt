//! The card of a run of a script: what its lines do in a phase, and the meets between the card and the seats of the clients and
//! readers before the phase and after it.
#![tactic(auto)]

mod capture;
mod card;
mod lines;
mod meets;

pub use card::CardActor;
pub use lines::{frame_count, line_count};
pub use meets::{hear_client, hear_reader, inform_client, inform_reader};
