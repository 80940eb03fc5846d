//! What a run of a whole script may be: which reports it may have, and which samples may be played and read.
//!
//! `specs/Rules.antt` has the rules of a phase, `specs/LabRun.antt` the runs of a script. The crate has no code that runs: its
//! functions are laws, as facts for contracts.
#![tactic(auto)]

mod laws;

pub use laws::{
    claims_are_of_owners, client_lines_are_parts, last_frames_are_own, lines_without_calls,
    members_are_unreported, one_run, parts_are_runs, parts_grow, reader_lines_are_parts,
    reports_are_within_rows, runs_are_of_scripts,
};
