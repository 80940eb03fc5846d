//! The laws of runs: what their reports and files say to a reader who knows nothing of the lab, and what holds of them on the way.
//!
//! `headline.rt` has what the card played, what the readers recorded, which place a late row names and which run is the only one;
//! `specs/Headline.antt` has these together. `rows.rt` and `growth.rt` say that rows and samples are of the script and only grow,
//! `actors.rt` what each actor does by itself. The crate has no code that runs: its functions are laws, as facts for contracts.
#![tactic(auto)]

mod actors;
mod growth;
mod headline;
mod rows;

pub use actors::{
    actors_are_alone, calls_are_alike, late_rows_name_samples, readers_read_on, runs_go_on,
};
pub use growth::stages_grow;
pub use headline::{
    actors_do_their_own, channels_have_one_sample, clients_are_isolated, clients_have_own_channels,
    late_rows_miss, mixes_are_of_clients, played_samples_stay, runs_are_exact, runs_are_mixes,
    runs_keep_headline, runs_mix_files, runs_record_captures, scripts_bind_channels,
    scripts_have_one_session, segments_are_of_files, segments_place_once,
    unopened_readers_have_no_runs, worked_rows,
};
pub use rows::{
    outcomes_are_of_scripts, readers_capture_frames, stages_have_rows, stages_have_sizes,
};
