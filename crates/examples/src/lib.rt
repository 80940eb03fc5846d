//! Three callers of the library, each proved from the public clauses of the crates that it uses.
#![tactic(auto)]

mod two_clients;
mod two_threads;
mod wav_in_pieces;

pub use two_clients::{Mixed, mix_two};
pub use two_threads::sum_in_threads;
pub use wav_in_pieces::read_pieces;
