//! The states of a PCM stream, and what each call makes of them.
#![tactic(auto)]

mod calls;
mod states;
mod table;

pub use calls::{Call, Facts, Outcome};
pub use states::State;
pub use table::next;
