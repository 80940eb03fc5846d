//! What a run writes: the WAV file with what the card played, one for each reader, and the text of the
//! report. It is written while the run goes on.
#![tactic(auto)]

mod append;
mod begin;
mod file;
mod finish;
mod outputs;
mod text;

pub use file::{OutputFile, OutputName, output_files, played_file, recorded_file};
pub use outputs::{Outputs, outputs_of};
