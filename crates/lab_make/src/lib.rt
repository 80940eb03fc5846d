//! Workloads: WAV files of pseudorandom samples and a script that plays them, each made from a seed
//! and two counts, how they are stored, and the summary of a run of them.
#![tactic(auto)]

mod files;
mod input;
mod kept_text;
mod run_input;
mod script;
mod storage;
mod summary;
mod text;
mod workload;

pub use files::{file_name, made_files};
pub use input::{Made, make};
pub use kept_text::KeptText;
pub use run_input::{MadeInput, made_input};
pub use script::made_script;
pub use storage::{store, store_input};
pub use summary::{Summary, summary_of};
pub use text::made_text;
pub use workload::{Workload, WorkloadError, read_workload};
