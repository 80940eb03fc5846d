//! The readers of a script in the lab: what the lines of an open one do at any port and with any gate, one reader from phase to phase, open
//! or not, and all of them, with what they recorded.
#![tactic(auto)]

mod at_once;
mod calls;
mod closing;
mod end;
mod frame_runs;
mod lines;
mod opening;
mod phase;
mod reader;
mod readers;
mod reap;
mod room;
mod steps;
mod stream;

pub use readers::LabReaders;
pub use steps::reads_are_few;
