//! What each line of a text says.
ghost use Rattle.std.specs.Prelude.{◌≡◌, ◌≤◌, IfOk, false};
ghost use Rattle.lab_refine.specs.Params.{is_mask};
ghost use Rattle.text_words.specs.Lexing.{words_between};
ghost use Rattle.lab_refine.specs.Grammar.{IsAsk, IsSlaveLine, ask_of, asked_by, bounded_in, ring_fits, first_word_cause, slave_of, slave_with, verb_of};

use crate::params::most_of;
use crate::place::{end, interval, keyed, number, param, word};
use crate::request::{Ask, SlaveLine};
use hw_space::Param;
use lab_script::ScriptWhy;

/// The word with which a line asks something.
#[derive(Clone, Copy)]
enum Verb {
    Set,
    Min,
    Max,
    Near,
    Integer,
    Show,
    Choose,
}

/// What a line's first word asks.
fn verb_of(word: &[u8]) -> Option<Verb>
    ensures { result ≡ verb_of word.now }
{
    if word == b"set".as_slice() {
        Some(Verb::Set)
    } else if word == b"min".as_slice() {
        Some(Verb::Min)
    } else if word == b"max".as_slice() {
        Some(Verb::Max)
    } else if word == b"near".as_slice() {
        Some(Verb::Near)
    } else if word == b"integer".as_slice() {
        Some(Verb::Integer)
    } else if word == b"show".as_slice() {
        Some(Verb::Show)
    } else if word == b"choose".as_slice() {
        Some(Verb::Choose)
    } else {
        None
    }
}

/// Why a first word can't begin a line here.
fn misplaced(word: &[u8]) -> ScriptWhy
    ensures { result ≡ first_word_cause word.now }
{
    if word == b"slave".as_slice() || verb_of(word).is_some() {
        ScriptWhy::Order
    } else {
        ScriptWhy::Word
    }
}

/// Whether a ring is a multiple of a period, which is at most half of it.
fn fits(period: u64, ring: u64) -> bool
    requires period { 1 ≤ period }
    requires ring { ring ≤ 16384 }
    ensures fits { result ≡ ring_fits period ring }
{
    period <= ring / 2 && ring % period == 0
}

/// The slave of these numbers, where they fit together.
fn slave_with(channels: u64, rate: u64, period: u64, ring: u64) -> Result<SlaveLine, ScriptWhy>
    requires some { 1 ≤ channels }
    requires few { channels ≤ 8 }
    requires slow { 4000 ≤ rate }
    requires fast { rate ≤ 192000 }
    requires period { 16 ≤ period }
    requires short { 64 ≤ ring }
    requires long { ring ≤ 16384 }
    ensures slave { result ≡ slave_with channels rate period ring }
    ensures ranges { IfOk result IsSlaveLine }
{
    if !fits(period, ring) {
        return Err(ScriptWhy::Fit);
    }
    Ok(SlaveLine {
        channels: channels as u8,
        rate: rate as u32,
        period: period as u32,
        ring: ring as u32,
    })
}

/// The slave of a line `slave channels C rate R period P ring N`.
#[tactic(auto, unfolding(crate::specs::Grammar::slave_of, crate::specs::Grammar::slave_keys_in))]
pub(crate) fn read_slave(line: &[u8]) -> Result<SlaveLine, ScriptWhy>
    ensures slave { result ≡ slave_of (words_between line.now) }
    ensures ranges { IfOk result IsSlaveLine }
{
    let (first, keys) = word(line)?;
    if first != b"slave".as_slice() {
        return Err(misplaced(first));
    }
    let (channels, keys) = keyed(keys, b"channels", 1, 8)?;
    let (rate, keys) = keyed(keys, b"rate", 4000, 192_000)?;
    let (period, keys) = keyed(keys, b"period", 16, u64::MAX)?;
    let (ring, rest) = keyed(keys, b"ring", 64, 16_384)?;
    end(rest, ScriptWhy::Extra)?;
    slave_with(channels, rate, period, ring)
}

/// A parameter that is an interval and a value for it, to a line's end.
#[tactic(auto, unfolding(crate::specs::Grammar::bounded_in))]
fn bounded(line: &[u8]) -> Result<(Param, u32), ScriptWhy>
    ensures value { result ≡ bounded_in (words_between line.now) }
    ensures interval { IfOk result (λ v. is_mask v.0 ≡ false) }
{
    let (param, rest) = interval(line)?;
    let (value, rest) = number(rest, 0, 4_294_967_295)?;
    end(rest, ScriptWhy::Extra)?;
    Ok((param, value as u32))
}

/// What the words after a line's first word ask.
#[tactic(auto, unfolding(crate::specs::Grammar::asked_by, crate::specs::Grammar::valued_in, crate::specs::Grammar::whole_interval_in, crate::specs::Grammar::whole_param_in))]
fn asked_by(verb: Verb, line: &[u8]) -> Result<Ask, ScriptWhy>
    ensures value { result ≡ asked_by verb (words_between line.now) }
    ensures can { IfOk result IsAsk }
{
    match verb {
        Verb::Set => {
            let (param, rest) = param(line)?;
            let (value, rest) = number(rest, 0, most_of(param))?;
            end(rest, ScriptWhy::Extra)?;
            Ok(Ask::Set(param, value as u32))
        }
        Verb::Min => {
            let (param, value) = bounded(line)?;
            Ok(Ask::Min(param, value))
        }
        Verb::Max => {
            let (param, value) = bounded(line)?;
            Ok(Ask::Max(param, value))
        }
        Verb::Near => {
            let (param, value) = bounded(line)?;
            Ok(Ask::Near(param, value))
        }
        Verb::Integer => {
            let (param, rest) = interval(line)?;
            end(rest, ScriptWhy::Extra)?;
            Ok(Ask::Integer(param))
        }
        Verb::Show => {
            let (param, rest) = param(line)?;
            end(rest, ScriptWhy::Extra)?;
            Ok(Ask::Show(param))
        }
        Verb::Choose => {
            end(line, ScriptWhy::Extra)?;
            Ok(Ask::Choose)
        }
    }
}

/// What a line asks.
#[tactic(auto, unfolding(crate::specs::Grammar::ask_of))]
pub(crate) fn read_ask(line: &[u8]) -> Result<Ask, ScriptWhy>
    ensures value { result ≡ ask_of (words_between line.now) }
    ensures can { IfOk result IsAsk }
{
    let (first, rest) = word(line)?;
    match verb_of(first) {
        Some(verb) => asked_by(verb, rest),
        None => Err(misplaced(first)),
    }
}
