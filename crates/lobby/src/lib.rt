//! The lobby of a sum ring: which places of the ring are free, and which of them may be given to a new client.
#![tactic(auto)]

mod load;
mod lobby;
mod seats;

pub use lobby::Lobby;
