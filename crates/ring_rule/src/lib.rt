//! What the rings between threads have in common: where their words are, the positions that a card publishes in word 0, and the
//! notes that seats take of the words that they found.
//!
//! `specs/Words.antt` says where the words are and when one is not past another, `specs/Positions.antt` what was published,
//! `specs/Notes.antt` what is noted, and the files beside them have the laws.
#![tactic(auto)]

mod spots;

pub use spots::{LapStart, Spot};
