//! A run of a script: its lab plays and records, phase by phase, and what it played and recorded is written while it goes on.
#![tactic(auto)]

mod items;
mod run;
mod samples;
mod write;

pub use run::play;
