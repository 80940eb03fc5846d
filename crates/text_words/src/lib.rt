//! Texts as lines and words: the lines of a text that have words, the words of a line, which of them are numbers
//! or lists, and tables of words.
#![tactic(auto)]

mod lexing;
mod table;
mod word;

pub use lexing::{TextLine, next_line, next_word};
pub use table::row_of;
pub use word::{
    are_digits, checked_value, decimal_of, digits_value, is_decimal, read_number, split_part,
};
