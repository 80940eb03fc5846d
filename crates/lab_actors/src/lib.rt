//! What clients and readers of a script have in common: how they are opened, the gate that counts a `die` down, their lines and the room
//! for the rows, the lines of one that isn't open, and the call that runs each actor with its gate in a thread.
#![tactic(auto)]

mod answer;
mod bound;
mod configuration;
mod countdown;
mod opening;
mod pairs;
mod params;
mod refused;
mod ring;
mod room;
mod session;
mod tally;

pub use answer::{count_answer, done_answer, moved_answer};
pub use countdown::Countdown;
pub use opening::{Opening, client_opening, openings_are_one, reader_opening};
pub use pairs::for_each_pair;
pub use refused::refuse_lines;
pub use ring::ring_of;
pub use room::{is_of, line_count, push_row};
pub use session::{Openings, openings_of};
pub use tally::Tally;
