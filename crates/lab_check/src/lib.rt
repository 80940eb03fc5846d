//! Whether a report, and the files with what was played and recorded, are those of a run of a script: who made them doesn't
//! matter. A report and files that pass show of their samples what the report of a run shows.
#![tactic(auto)]

mod channels;
mod check;
mod covering;
mod defects;
mod error;
mod frames;
mod late;
mod laws;
mod lines;
mod pieces;
mod played;
mod reads;
mod recorded;
mod samples;
mod segments;
mod sources;
mod spans;
mod sums;

pub use check::{Checked, check_report};
pub use defects::tested_report;
pub use error::CheckError;
pub use laws::{checked_runs_show, pieces_tell_files, runs_are_checked, shown_runs_say_headline};
pub use lines::{line_of_end, line_of_played};
pub use pieces::canonical_piece;
pub use played::played_samples;
pub use recorded::reader_samples;
