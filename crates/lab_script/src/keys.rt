//! The keys of the card's line, of a client's and of a reader's: one row a key.
ghost use Rattle.std.specs.Prelude.{◌≡◌, ◌<◌, ◌≤◌, [], map, option_map, length};
ghost use Rattle.std.specs.List.{list_any};
ghost use Rattle.std.specs.Prelude.{bytes_eq};
ghost use Rattle.lab_script.specs.Causes.{Gives};
ghost use Rattle.text_words.specs.Table.{row_of};
ghost use Rattle.lab_script.specs.Keys.{keys_of, key_value, keys_from, word_after};
ghost use Rattle.text_words.specs.Lexing.{words_between};

use crate::causes::refuse_if;
use crate::error::ScriptWhy;
use crate::values::check_value;
use std::alloc::Global;
use text_words::{next_word, row_of};

/// What follows a key: a number in a range, or `never` in its place; a file's name; the numbers
/// of channels, joined by commas; `dmix` or `dshare`; or `linear`.
#[derive(Clone, Copy)]
pub enum Takes {
    Number(u64, u64),
    NumberOrNever(u64, u64),
    File,
    Bindings,
    Share,
    Plug,
}

/// Which line has keys.
#[derive(Clone, Copy)]
pub enum Kind {
    Card,
    Client,
    Reader,
}

/// The greatest number of 19 digits, where a number has no limit of its own.
const ANY: u64 = 9_999_999_999_999_999_999;

/// The keys of the card's line. A period above half the ring is no matter of its range.
const CARD_KEYS: [(&[u8], Takes); 8] = [
    (b"channels", Takes::Number(1, 8)),
    (b"rate", Takes::Number(4000, 192_000)),
    (b"period", Takes::Number(16, ANY)),
    (b"ring", Takes::Number(64, 16_384)),
    (b"places", Takes::Number(1, 64)),
    (b"lap", Takes::Number(0, 4_294_967_294)),
    (b"capture", Takes::File),
    (b"share", Takes::Share),
];

/// The keys of a client's line. A lead that isn't below the ring is no matter of its range.
const CLIENT_KEYS: [(&[u8], Takes); 7] = [
    (b"bindings", Takes::Bindings),
    (b"buffer", Takes::Number(32, 16_384)),
    (b"period", Takes::Number(16, 8192)),
    (b"start", Takes::Number(1, 65_536)),
    (b"stop", Takes::NumberOrNever(1, 65_536)),
    (b"lead", Takes::Number(0, ANY)),
    (b"plug", Takes::Plug),
];

/// The keys of a reader's line.
const READER_KEYS: [(&[u8], Takes); 5] = [
    (b"bindings", Takes::Bindings),
    (b"buffer", Takes::Number(32, 16_384)),
    (b"period", Takes::Number(16, 8192)),
    (b"start", Takes::Number(1, 65_536)),
    (b"stop", Takes::NumberOrNever(1, 65_536)),
];

/// A key of a line of this kind.
fn value_taken(kind: Kind, key: &[u8]) -> Option<Takes>
    ensures { result ≡ row_of (keys_of kind) key.now }
{
    match kind {
        Kind::Card => row_of(&CARD_KEYS, key),
        Kind::Client => row_of(&CLIENT_KEYS, key),
        Kind::Reader => row_of(&READER_KEYS, key),
    }
}

/// Whether a key is earlier on a line.
fn is_in(earlier: &[&[u8]], key: &[u8]) -> bool
    ensures { result ≡ list_any (λ k. bytes_eq key.now k.now) earlier.now }
{
    earlier.iter().any(|k| key == *k)
}

/// A word that must be a key that isn't earlier on its line.
#[tactic(auto, using(crate::proofs::Pairs::list_any_map), unfolding(crate::specs::Keys::key_value))]
fn read_key(kind: Kind, earlier: &[&[u8]], key: &[u8]) -> Result<Takes, ScriptWhy>
    ensures { result ≡ key_value kind (map (λ k. k.now) earlier.now) key.now }
{
    match value_taken(kind, key) {
        None => Err(ScriptWhy::Word),
        Some(takes) => {
            refuse_if(is_in(earlier, key), ScriptWhy::KeyTwice)?;
            Ok(takes)
        }
    }
}

/// Keys and what follows each, up to a line's end.
pub fn check_keys(alloc: Global, kind: Kind, words: &[u8]) -> Result<(), ScriptWhy>
    ensures { Gives (λ u. u) result (keys_from kind [] (words_between words.now)) }
{
    let mut earlier = Vec::new(alloc);
    let mut rest = words;
    while let Some((key, behind)) = next_word(rest) {
        let takes = read_key(kind, earlier.as_slice(), key)?;
        let Some((word, more)) = next_word(behind) else {
            return Err(ScriptWhy::Missing);
        };
        check_value(alloc, takes, word)?;
        earlier.push(key)?;
        rest = more;
    }
    Ok(())
}

/// The word after a key, where the key is given.
pub fn given<'a>(key: &[u8], words: &'a [u8]) -> Option<&'a [u8]>
    ensures { option_map (λ w. w.now) result ≡ word_after key.now (words_between words.now) }
{
    let mut rest = words;
    while let Some((k, behind)) = next_word(rest) {
        let (word, more) = next_word(behind)?;
        if k == key {
            return Some(word);
        }
        rest = more;
    }
    None
}
