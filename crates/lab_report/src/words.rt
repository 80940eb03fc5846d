//! The words of a line, one after the other, and the spaces and the line feed between them.
ghost use Rattle.std.specs.Prelude.{◌≡◌, ◌<◌, ◌∷◌, [], length, IfNone, IfSome};
ghost use Rattle.std.specs.List.{position, slice_split};
ghost use Rattle.lab_report.specs.Causes.{Gives};
ghost use Rattle.lab_report.specs.Words.{is_end, front_word, space_of, feed_of, not_word, expect_word, expect_words};
ghost use Rattle.text_words.specs.Word.{is_space};

use crate::error::ReportWhy;
use text_words::{decimal_of, is_decimal};

/// Whether a byte ends a word.
fn is_end(b: u8) -> bool
    ensures { result ≡ is_end b }
{
    b == b' ' || b == b'\n'
}

/// Where a word ends.
fn end_place(rest: &[u8]) -> Option<usize>
    ensures { result ≡ position is_end rest.now }
{
    rest.iter().position(|b| is_end(*b))
}

/// The word at the front of what is left of a line, and the rest.
pub fn word_of(rest: &[u8]) -> Result<(&[u8], &[u8]), ReportWhy>
    ensures { Gives (λ w. (w.0.now, w.1.now)) result (front_word rest.now) }
{
    if rest.is_empty() {
        return Err(ReportWhy::Ended);
    }
    match end_place(rest) {
        Some(end) => Ok((&rest[..end], &rest[end..])),
        None => Ok((rest, &rest[rest.len()..])),
    }
}

/// What follows a space, where a further word must follow.
pub fn space_of(rest: &[u8]) -> Result<&[u8], ReportWhy>
    ensures { Gives (λ r. r.now) result (space_of rest.now) }
{
    match rest {
        [] => Err(ReportWhy::Ended),
        [b' ', more @ ..] => Ok(more),
        _ => Err(ReportWhy::Word),
    }
}

/// The line feed, where no further word may follow.
pub fn feed_of(rest: &[u8]) -> Result<(), ReportWhy>
    ensures { Gives (λ u. u) result (feed_of rest.now) }
{
    match rest {
        [] => Err(ReportWhy::Ended),
        [b'\n', ..] => Ok(()),
        _ => Err(ReportWhy::Extra),
    }
}

/// Why a word isn't the one that must follow: where that is a number, it may be no number at all.
fn not_word(want: &[u8], word: &[u8]) -> ReportWhy
    ensures { result ≡ not_word want.now word.now }
{
    if is_decimal(want) && !decimal_of(4_294_967_295, word).is_some() {
        ReportWhy::Number
    } else {
        ReportWhy::Word
    }
}

/// The rest after a word that must be this one.
pub fn expect_word<'a>(want: &[u8], rest: &'a [u8]) -> Result<&'a [u8], ReportWhy>
    ensures { Gives (λ r. r.now) result (expect_word want.now rest.now) }
{
    let (word, rest) = word_of(rest)?;
    if word == want {
        Ok(rest)
    } else {
        Err(not_word(want, word))
    }
}

/// Where a space is first.
fn space_place(text: &[u8]) -> Option<usize>
    ensures { result ≡ position is_space text.now }
{
    text.iter().position(|b| *b == b' ')
}

/// The first of some words that are joined by a space, and the words after it, where there are some.
fn split_word(words: &[u8]) -> Option<(&[u8], &[u8])>
    ensures some { IfSome result (λ w. slice_split is_space words.now
        ≡ w.0.now ∷ slice_split is_space w.1.now) }
    ensures none { IfNone result (slice_split is_space words.now ≡ words.now ∷ []) }
    ensures shorter { IfSome result (λ w. length w.1.now < length words.now) }
{
    let end = space_place(words)?;
    Some((&words[..end], &words[end + 1..]))
}

/// The rest after words that must be these, each with a space after it. They are joined by a space.
pub fn expect_words<'a>(words: &[u8], rest: &'a [u8]) -> Result<&'a [u8], ReportWhy>
    ensures { Gives (λ r. r.now) result
        (expect_words (slice_split is_space words.now) rest.now) }
{
    let mut words = words;
    let mut rest = rest;
    while let Some((word, more)) = split_word(words) {
        let after = expect_word(word, rest)?;
        rest = space_of(after)?;
        words = more;
    }
    let after = expect_word(words, rest)?;
    space_of(after)
}
