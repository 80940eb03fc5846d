//! The software parameters of a PCM stream: its boundary, and thresholds that are checked against it.
#![tactic(auto)]

mod boundaries;
mod params;

pub use boundaries::boundary;
pub use params::SwParams;
