//! The clients of a script in the lab: what the lines of an open one do at any port and with any gate, one client from phase to phase, open
//! or not, and all of them, with the places and channels that they hold.
#![tactic(auto)]

mod at_once;
mod calls;
mod client;
mod clients;
mod closing;
mod end;
mod lines;
mod open_client;
mod opening;
mod phase;
mod reap;
mod segments;
mod steps;
mod stream;

pub use clients::LabClients;
pub use steps::writes_are_few;
