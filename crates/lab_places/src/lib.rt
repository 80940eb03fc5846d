//! What the clients of a script hold of a card: the places of its ring, and, where they share it by channels, its channels.
#![tactic(auto)]

mod places;

pub use places::Places;
