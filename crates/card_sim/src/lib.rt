//! A duplex card: for each frame it stores the captured one and takes the played one, and publishes the positions of both rings
//! period by period.
#![tactic(auto)]

mod card;
mod run;
mod watch;

pub use card::Card;
pub use watch::{NoWatch, Watch};
