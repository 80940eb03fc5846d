//! The lab: a script's clients, readers and card over the seats of a sum ring and a snoop ring, from the first item of the script's body
//! to the end of its run.
#![tactic(auto)]

mod border;
mod finish;
mod lab;
mod phase;
mod report_room;
mod seats;
mod steps;

pub use finish::Outcome;
pub use lab::Lab;
