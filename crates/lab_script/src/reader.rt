//! The reader of a script's text.
ghost use Rattle.std.specs.Prelude.{◌≡◌, ◌≤◌, ◌+◌, ◌^◌, ◌<◌, length, IfOk, Ok};
ghost use Rattle.lab_script.specs.Causes.{Gives};
ghost use Rattle.lab_script.specs.Draft.{view, card_alone};
ghost use Rattle.text_words.specs.Lexing.{words_between, lines_from};
ghost use Rattle.lab_lines.specs.Limits.{IsScript};
ghost use Rattle.lab_script.specs.Reading.{card_line, after, script_of, script_of_lines, Answers};

use crate::card::read_card;
use crate::draft::Draft;
use crate::error::{ScriptError, ScriptWhy};
use crate::keyword::{Keyword, keyword_of};
use crate::steps::add_words;
use lab_lines::{Body, CardLine, Clients, Readers, Script};
use std::alloc::Global;
use text_words::{next_line, next_word};

/// The card's line, of this number.
fn card_line(alloc: Global, number: u32, words: &[u8]) -> Result<CardLine, ScriptWhy>
    ensures { Gives (λ c. c) result (card_line number (words_between words.now)) }
{
    let Some((word, rest)) = next_word(words) else {
        return Err(ScriptWhy::NoCard);
    };
    match keyword_of(word) {
        Some(Keyword::Card) => read_card(alloc, number, rest),
        Some(_) => Err(ScriptWhy::Order),
        None => Err(ScriptWhy::Word),
    }
}

/// The lines after the card's, of which the first has this number.
fn read_lines(alloc: Global, card: CardLine, number: u32, text: &[u8]) -> Result<Draft, ScriptError>
    requires { number + length text.now < 2 ^ 32 }
    ensures { Answers view result (after (card_alone card) (lines_from number text.now)) }
{
    let mut draft = Draft {
        card,
        clients: Vec::new(alloc),
        readers: Vec::new(alloc),
        body: Vec::new(alloc),
        phase: None,
        lines: Vec::new(alloc),
        phases: 0,
        played: 0,
        gone: false,
    };
    let mut number = number;
    let mut rest = text;
    while let Some(line) = next_line(number, rest) {
        match add_words(alloc, &mut draft, line.number, line.words) {
            Ok(()) => {}
            Err(why) => {
                return Err(ScriptError {
                    line: line.number,
                    why,
                });
            }
        }
        number = line.number + 1;
        rest = line.rest;
    }
    Ok(draft)
}

/// The script of a text that isn't too long.
fn read_whole(alloc: Global, text: &[u8]) -> Result<Script, ScriptError>
    requires { length text.now ≤ 1048576 }
    ensures { Answers (λ s. s) result (script_of_lines (lines_from 1 text.now)) }
{
    let Some(line) = next_line(1, text) else {
        return Err(ScriptError {
            line: 0,
            why: ScriptWhy::NoCard,
        });
    };
    let card = match card_line(alloc, line.number, line.words) {
        Ok(card) => card,
        Err(why) => {
            return Err(ScriptError {
                line: line.number,
                why,
            });
        }
    };
    let draft = read_lines(alloc, card, line.number + 1, line.rest)?;
    match draft.phase {
        Some(line) => Err(ScriptError {
            line,
            why: ScriptWhy::Unended,
        }),
        None => Ok(Script {
            card: draft.card,
            clients: Clients::from_vec(draft.clients),
            readers: Readers::from_vec(draft.readers),
            body: Body::from_vec(draft.body),
        }),
    }
}

/// Reads a script.
///
/// A script is a text of at most 1,048,576 bytes. Lines end with a line feed, which the last may lack;
/// one carriage return at a line's very end is dropped, and then `#` and all after it. Words are
/// separated by spaces and tabs. Lines without words count, and say nothing. A number is 1 to 19
/// decimal digits. A name is 1 to 32 bytes, a lower-case letter and then lower-case letters, digits or
/// `_`, and none of the words `card`, `client`, `reader`, `open`, `close`, `phase` and `end`. A file is
/// 1 to 255 bytes from 33 to 126 without `#`. The lines are, in this order:
///
/// - `card KEYS`, with the keys `channels` (1 to 8, else 2), `rate` (4000 to 192000 Hz, else 48000),
///   `period` (16 frames to half the ring, dividing it, else 1024), `ring` (64 to 16384 frames, else
///   8192), `places` (1 to 64, else 64), `lap` (0 to 4294967294, else 0), `capture` (a file), and
///   `share` (`dmix`, which is also the default, or `dshare`);
/// - up to 64 of `client NAME FILE KEYS` and up to 64 of `reader NAME KEYS`, in any order, with names
///   that differ. Keys of both are `bindings` (numbers joined by commas, as `Bindings::read` takes
///   them), `buffer` (32 to 16384 frames), `period` (16 to 8192 frames), `start` (1 to 65536, else 1)
///   and `stop` (1 to 65536 or `never`). A client also has `lead` (below the ring, else the card's
///   period) and `plug` (`linear`);
/// - `open NAME`, `close NAME`, and up to 4096 phases: `phase`, then any number of lines `ACTOR OP`,
///   then `end`. The card has `play N` and `unplug`; a client has `write N`, `rewind N`, `rewindable`,
///   `resume`, `drain` and `delay`; a reader has `read N`; both have `start`, `sync`, `avail`, `drop`,
///   `prepare`, `pause` and `die K`. N is 0 to 4194304 frames, K 0 to 1000000.
///
/// Keys are in any order, each at most once, each with one word after it. The card plays at most
/// 4194304 frames in all.
///
/// # Errors
///
/// The first word that isn't allowed where it is, or the first line that isn't, with the number of
/// its line from 1 on:
///
/// - `Order`: a line begins with a word of the language, or a declared name, that can't begin a line
///   here; `Word`: a word isn't one of those allowed here; `Missing`: the line ends where a word
///   must follow; `Extra`: a word follows a line that is whole; `Name`, `File`, `Number`: a word
///   isn't of this form; `Range`: a number is out of its range; `KeyTwice`: a key is given a second time;
/// - for a line whose words are all in order, in this order: `NameTwice`; `TooMany` clients, readers or
///   phases; `Fit`: the period doesn't divide the ring at least twice, or the lead isn't below the ring;
///   the causes of `Bindings::read`; `Alone`: a phase has `card unplug` and another line, at the later
///   one; `Unplugged`: the card has a line after it was unplugged; `Frames`: the card plays too many;
///   `LapEnd`: it plays past the last lap of its ring;
/// - `Unended`, on the line of a `phase` without its `end`; `NoCard` on line 0, where no line has words;
///   `TooLong` on line 0.
///
/// `Memory`, where memory ran out.
pub fn read_script(alloc: Global, text: &[u8]) -> Result<Script, ScriptError>
    // The answer is what the text spells, unless memory ran out.
    ensures exact { Answers (λ s. s) result (script_of text.now) }

    // What is read keeps its ranges and limits; names differ, and each actor is declared.
    ensures valid { IfOk result IsScript }
{
    if text.len() > 1_048_576 {
        return Err(ScriptError {
            line: 0,
            why: ScriptWhy::TooLong,
        });
    }
    read_whole(alloc, text)
}
