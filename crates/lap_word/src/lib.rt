//! The words of the rings: a number of 64 bits that holds a lap, a count of additions and withdrawals and the sum that is left, and
//! one that holds the card's position and whether the card is gone.
#![tactic(auto)]

mod laws;
mod position;
mod samples;
mod word;

pub use laws::{
    clamp_is_nearest, fields_are_unique, position_words_are_read_back, word_stands_for_its_fields,
};
pub use position::{gone_of, position_of, position_word};
pub use samples::clamp;
pub use word::{add, can_add, can_take, can_withdraw, count, lap, pack, sum, taken, withdraw};
