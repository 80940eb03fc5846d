//! The card's line.
ghost use Rattle.std.specs.Prelude.{◌≡◌};
ghost use Rattle.lab_script.specs.Causes.{Gives};
ghost use Rattle.lab_script.specs.Draft.{card_of, divides};
ghost use Rattle.text_words.specs.Lexing.{words_between};

use crate::error::ScriptWhy;
use crate::keys::{Kind, check_keys, given};
use crate::values::{byte_given, file_where, number_given, share_given, small_given};
use lab_lines::CardLine;
use std::alloc::Global;

/// Whether a card's period divides its ring at least twice.
fn divides(period: u64, ring: u32) -> bool
    ensures { result ≡ divides period ring }
{
    0 < period && period <= u64::from(ring / 2) && u64::from(ring) % period == 0
}

/// The card of what follows `card`, on the line of this number.
#[tactic(auto, unfolding(crate::specs::Draft::card_of))]
pub fn read_card(alloc: Global, number: u32, words: &[u8]) -> Result<CardLine, ScriptWhy>
    ensures { Gives (λ c. c) result (card_of number (words_between words.now)) }
{
    check_keys(alloc, Kind::Card, words)?;
    let period = number_given(b"period", 1024, words);
    let ring = small_given(b"ring", 8192, words);
    if !divides(period, ring) {
        return Err(ScriptWhy::Fit);
    }
    let capture = file_where(alloc, given(b"capture", words))?;
    Ok(CardLine {
        number,
        channels: byte_given(b"channels", 2, words),
        rate: small_given(b"rate", 48_000, words),
        period: period as u32,
        ring,
        places: small_given(b"places", 64, words),
        lap: small_given(b"lap", 0, words),
        capture,
        share: share_given(words),
    })
}
