//! The hardware parameters of a PCM stream.
//!
//! A `Space` has the values that each parameter may still have. It begins as the widest one of a `Slave`, is narrowed by
//! its calls, and is refined by rules between the parameters, until one `Config` is chosen.
#![tactic(auto)]

mod choice;
mod config;
mod formats;
mod narrowing;
mod near;
mod param;
mod param_box;
mod quantity;
mod rule;
mod settle;
mod slave;
mod space;
mod whole_time;

pub use config::Config;
pub use param::Param;
pub use slave::Slave;
pub use space::Space;
