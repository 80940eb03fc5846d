//! What a call of the program does: its words, its commands and its exit status, over any shelf of files and any outputs.
#![tactic(auto)]

mod commands;
mod made_run;
mod made_summary;
mod making;
mod top;
mod words;

pub use top::dmixlab;
