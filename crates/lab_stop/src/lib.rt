//! Why a command of the lab stops before it is done: as an enum, as an exit status and the line that
//! says so, and as the first cause that the files give. With it come the calls of a shelf and of a
//! sink that stop a command where they fail; a file is fetched by them piece by piece.
#![tactic(auto)]

mod calls;
mod stop;

pub use calls::{PIECE_BYTES, fetch_most, fetch_piece, fetch_up_to, put, written};
pub use stop::{Stop, status, tell, wav_stop};
