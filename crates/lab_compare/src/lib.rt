//! The body of the command `check`: a report and the files of a run on a shelf, compared with what they must be.
#![tactic(auto)]

mod checking;
mod comparison;

pub use checking::check_run;
