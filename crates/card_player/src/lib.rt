//! The card's player at a sum ring: it takes whole frames and publishes the card's position period by period.
#![tactic(auto)]

mod player;

pub use player::CardPlayer;
