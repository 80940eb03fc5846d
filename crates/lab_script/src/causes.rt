//! What a word-by-word reading of a line asks for: a word, no word, or that something doesn't hold.
ghost use Rattle.std.specs.Prelude.{◌≡◌, ◌<◌, Bool, true, false, length, IfOk};
ghost use Rattle.lab_script.specs.Causes.{refuse_if, some_or, word_and_rest, end_of, Gives};
ghost use Rattle.text_words.specs.Lexing.{words_between};

use crate::error::ScriptWhy;
use text_words::next_word;

/// A cause, where a test holds.
pub fn refuse_if(test: bool, cause: ScriptWhy) -> Result<(), ScriptWhy>
    ensures { result ≡ refuse_if test cause }
{
    if test { Err(cause) } else { Ok(()) }
}

/// The first word of a line, which must be there, and what follows it.
pub fn first_of(words: &[u8]) -> Result<(&[u8], &[u8]), ScriptWhy>
    ensures { Gives (λ w. (w.0.now, words_between w.1.now)) result
        (word_and_rest (words_between words.now)) }
{
    match next_word(words) {
        Some(found) => Ok(found),
        None => Err(ScriptWhy::Missing),
    }
}

/// The end of a line.
pub fn end_of(words: &[u8]) -> Result<(), ScriptWhy>
    ensures { result ≡ end_of (words_between words.now) }
{
    match next_word(words) {
        Some(_) => Err(ScriptWhy::Extra),
        None => Ok(()),
    }
}
