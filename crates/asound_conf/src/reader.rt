//! The reader of a configuration text.
ghost use Rattle.std.specs.Prelude.{◌≡◌, ◌<◌, ◌+◌, ◌^◌, length, ◌≤◌};
ghost use Rattle.asound_conf.specs.Grammar.{conf_of, last_line, meaning, start};
ghost use Rattle.asound_conf.specs.Reading.{Reads};
ghost use Rattle.asound_conf.specs.Start.{AreAt, AreBefore, IsTokenAt, IsBefore};
ghost use Rattle.asound_conf.specs.Token.{tokens};

use crate::conf::Conf;
use crate::error::{ConfError, ConfWhy};
use crate::reading::Reading;
use crate::token::{Lexeme, Token, next_token};
use std::alloc::Global;

/// Where some bytes are in a text, which ends with them, some others and this rest.
fn start_before(text: &[u8], rest: &[u8], after: usize, bytes: &[u8]) -> u32
    requires small { length text.now < 2 ^ 32 }
    requires before { AreBefore text.now rest.now after bytes.now }
    ensures { AreAt text.now result bytes.now }
{
    (text.len() - (bytes.len() + after + rest.len())) as u32
}

/// Where the bytes of a token are in a text, which ends with them, the quote after them, and what follows.
fn start_of(text: &[u8], lexeme: Lexeme<'_>) -> u32
    requires small { length text.now < 2 ^ 32 }
    requires before { IsBefore text.now lexeme.rest.now lexeme.token }
    ensures { IsTokenAt text.now result lexeme.entry.token }
{
    match lexeme.token {
        Token::Word(word) => start_before(text, lexeme.rest, 0, word),
        Token::Quoted(quoted) => start_before(text, lexeme.rest, 1, quoted),
        Token::Mark(_) | Token::Bad(_) => 0,
    }
}

/// The group of a text that isn't too long.
fn read_tokens(alloc: Global, text: &[u8]) -> Result<Conf, ConfError>
    requires { length text.now < 2 ^ 31 }
    ensures { Reads result (meaning start (last_line text.now) (tokens 0 1 text.now)) }
{
    let mut reading = match Reading::new(alloc, text) {
        Ok(reading) => reading,
        Err(_) => {
            return Err(ConfError {
                line: 0,
                why: ConfWhy::Memory,
            });
        }
    };
    let mut line = 1;
    let mut rest = text;
    while let Some(lexeme) = next_token(line, rest) {
        let start = start_of(text, lexeme);
        if let Err(why) = reading.take(lexeme.line, lexeme.token, start) {
            return Err(ConfError {
                line: lexeme.line,
                why,
            });
        }
        line = lexeme.line;
        rest = lexeme.rest;
    }
    reading.finish()
}

/// Reads a configuration text, as alsa-lib's asound.conf and .asoundrc are (its `conf.c` describes the form).
///
/// A space, a tab, a line feed and a carriage return separate tokens, and so does `#` with all that follows it on its
/// line. The marks are `{ } [ ] = , ;`. A quoted text is between two `"` or two `'` on one line. A word is a run of
/// bytes from 33 to 126 without marks, quotes and `#`.
///
/// A text is items: each a key, an optional `=`, a value, and an optional `,` or `;`. A value is a word, a quoted text,
/// `{` items `}`, or `[` values `]`, whose values have the names 0, 1 and so on. A key is a quoted text, which is one
/// part, or a word whose parts are between its dots; `!` before a part of a word removes the node of this name first.
/// An item goes down its parts, and groups that are missing are added at the end. At the last part a text replaces a
/// text, the items of a group are added to a group that is there, and a node that is missing is added at the end.
///
/// # Errors
///
/// The first token with a defect decides, and of its causes the first in this list; it is named with its line, from 1.
///
/// - `TooLong` on line 0: the text has more than 1048576 bytes.
/// - `Byte`: a byte outside quotes begins no token, or one in quotes is below 32 and no tab.
/// - `Escape`: a backslash is in quotes.
/// - `Unclosed`: a line or the text ends within quotes; or the text ends within `{` or `[`, and this is the line of the
///   innermost that is open.
/// - `Include`: a word begins with `<`.
/// - `Function`, `Prefix`: a part of a key begins with `@`; with `+`, `-` or `?`.
/// - `Key`: a part of a key is empty, or a mark that closes nothing is where a key must be.
/// - `Close`: a mark doesn't close the innermost `{` or `[`.
/// - `Value`: a mark other than `{` and `[`, or the text's end, is where a value must be.
/// - `Deep`: a token needs groups within each other more than 16 deep, the text's own counted.
/// - `Kind`: a text would be put where a group is, or a group where a text is.
/// - `Memory`: memory ran out at this line, or on line 0 before the first.
///
/// A text is read in time that goes with its length: all names are in one table of hashes. Names whose hashes are the same
/// take longer.
#[tactic(auto, unfolding(crate::specs::Grammar::conf_of))]
pub fn read_conf(alloc: Global, text: &[u8]) -> Result<Conf, ConfError>
    // The answer is what the text means, or its first defect, unless memory ran out.
    ensures exact { Reads result (conf_of text.now) }
{
    if text.len() > 1_048_576 {
        return Err(ConfError {
            line: 0,
            why: ConfWhy::TooLong,
        });
    }
    read_tokens(alloc, text)
}
