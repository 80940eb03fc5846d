//! What is at one place of a line: a word, a key, a number, a parameter, or the line's end.
ghost use Rattle.std.specs.Prelude.{◌≡◌, ◌≤◌, IfOk, false};
ghost use Rattle.text_words.specs.Lexing.{words_between};
ghost use Rattle.lab_refine.specs.Params.{is_mask};
ghost use Rattle.lab_script.specs.Causes.{word_and_rest};
ghost use Rattle.lab_refine.specs.Grammar.{end_of_line, interval_in, keyed_in, number_in, param_in, result_view};

use crate::params::{is_mask, param_of};
use hw_space::Param;
use lab_script::ScriptWhy;
use text_words::{next_word, read_number};

/// The word that must follow, and the rest of the line.
pub(crate) fn word(line: &[u8]) -> Result<(&[u8], &[u8]), ScriptWhy>
    ensures { result_view (λ w. (w.0.now, words_between w.1.now)) result
        ≡ word_and_rest (words_between line.now) }
{
    match next_word(line) {
        Some(word) => Ok(word),
        None => Err(ScriptWhy::Missing),
    }
}

/// The line's end. A word that follows instead has this cause.
pub(crate) fn end(line: &[u8], why: ScriptWhy) -> Result<(), ScriptWhy>
    ensures { result ≡ end_of_line why (words_between line.now) }
{
    match next_word(line) {
        Some(_) => Err(why),
        None => Ok(()),
    }
}

/// A number from `least` to `most`, and the rest of the line.
#[tactic(auto, unfolding(crate::specs::Grammar::number_in))]
pub(crate) fn number(line: &[u8], least: u64, most: u64) -> Result<(u64, &[u8]), ScriptWhy>
    ensures value { result_view (λ n. (n.0, words_between n.1.now)) result
        ≡ number_in least most (words_between line.now) }
    ensures least { IfOk result (λ n. least ≤ n.0) }
    ensures most { IfOk result (λ n. n.0 ≤ most) }
{
    let (word, rest) = word(line)?;
    let Some(n) = read_number(word) else {
        return Err(ScriptWhy::Number);
    };
    if least <= n && n <= most {
        Ok((n, rest))
    } else {
        Err(ScriptWhy::Range)
    }
}

/// The number after its key, and the rest of the line.
#[tactic(auto, unfolding(crate::specs::Grammar::keyed_in))]
pub(crate) fn keyed<'a>(
    line: &'a [u8],
    key: &[u8],
    least: u64,
    most: u64,
) -> Result<(u64, &'a [u8]), ScriptWhy>
    ensures value { result_view (λ n. (n.0, words_between n.1.now)) result
        ≡ keyed_in key.now least most (words_between line.now) }
    ensures least { IfOk result (λ n. least ≤ n.0) }
    ensures most { IfOk result (λ n. n.0 ≤ most) }
{
    let (word, rest) = word(line)?;
    if word == key {
        number(rest, least, most)
    } else {
        Err(ScriptWhy::Word)
    }
}

/// A parameter, and the rest of the line.
#[tactic(auto, unfolding(crate::specs::Grammar::param_in))]
pub(crate) fn param(line: &[u8]) -> Result<(Param, &[u8]), ScriptWhy>
    ensures { result_view (λ p. (p.0, words_between p.1.now)) result
        ≡ param_in (words_between line.now) }
{
    let (word, rest) = word(line)?;
    match param_of(word) {
        Some(param) => Ok((param, rest)),
        None => Err(ScriptWhy::Word),
    }
}

/// A parameter that is an interval, and the rest of the line.
#[tactic(auto, unfolding(crate::specs::Grammar::interval_in))]
pub(crate) fn interval(line: &[u8]) -> Result<(Param, &[u8]), ScriptWhy>
    ensures interval { IfOk result (λ p. is_mask p.0 ≡ false) }
    ensures value { result_view (λ p. (p.0, words_between p.1.now)) result
        ≡ interval_in (words_between line.now) }
{
    let (param, rest) = param(line)?;
    if is_mask(param) {
        Err(ScriptWhy::Word)
    } else {
        Ok((param, rest))
    }
}
