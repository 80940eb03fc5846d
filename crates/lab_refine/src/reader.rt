//! The reader of a request's text.
ghost use Rattle.std.specs.Prelude.{◌≡◌, ◌+◌, ◌<◌, ◌^◌, [], ◌∷◌, ◌++◌, length, All, IfErr, IfOk, OnOk};
ghost use Rattle.lab_script.specs.declared.error.ScriptWhy.TheVariants as whys;
ghost use Rattle.lab_refine.specs.Grammar.{IsAsk, IsSlaveLine};
ghost use Rattle.text_words.specs.Lexing.{lines_from, words_between};
ghost use Rattle.lab_refine.specs.Reading.{Reads, asked_in, asks_of, on_line, request_of_text};

use crate::grammar::{read_ask, read_slave};
use crate::request::{Ask, Asks, Request};
use lab_script::{ScriptError, ScriptWhy};
use std::alloc::Global;
use text_words::next_line;

/// The most bytes that a text has.
const LONGEST: usize = 1_048_576;

/// What a line says, or its refusal, with its number.
fn on_line<T: Drop>(number: u32, said: Result<T, ScriptWhy>) -> Result<T, ScriptError>
    ensures { result ≡ on_line number said }
{
    match said {
        Ok(said) => Ok(said),
        Err(why) => Err(ScriptError { line: number, why }),
    }
}

/// Appends what a line asks. It fails on this line, and only for want of memory.
fn add(asks: &mut Vec<Ask>, number: u32, ask: Ask) -> Result<(), ScriptError>
    ensures items { OnOk result (asks.new.items ≡ asks.old.items ++ ask ∷ []) }
    ensures memory { IfErr result (λ e. e.why ≡ whys.Memory) }
{
    match asks.push(ask) {
        Ok(()) => Ok(()),
        Err(_) => Err(ScriptError {
            line: number,
            why: ScriptWhy::Memory,
        }),
    }
}

/// What each line of a text asks, whose first line has this number.
fn read_asks(alloc: Global, number: u32, text: &[u8]) -> Result<Vec<Ask>, ScriptError>
    requires { number + length text.now < 2 ^ 32 }
    ensures exact { Reads (λ asks. asks.items) result (asks_of (lines_from number text.now)) }
    ensures can { IfOk result (λ asks. All IsAsk asks.items) }
{
    let mut asks = Vec::new(alloc);
    let mut number = number;
    let mut rest = text;
    while let Some(line) = next_line(number, rest) {
        let ask = on_line(line.number, read_ask(line.words))?;
        add(&mut asks, line.number, ask)?;
        number = line.number + 1;
        rest = line.rest;
    }
    Ok(asks)
}

/// What a text of any length that is in memory asks.
fn read_lines(alloc: Global, text: &[u8]) -> Result<Request, ScriptError>
    requires { length text.now < 2 ^ 31 }
    ensures exact { Reads (λ r. r) result (asked_in (lines_from 1 text.now)) }
    ensures slave { IfOk result (λ r. IsSlaveLine r.slave) }
    ensures asks { IfOk result (λ r. All IsAsk r.asks) }
{
    let Some(line) = next_line(1, text) else {
        return Err(ScriptError {
            line: 0,
            why: ScriptWhy::NoCard,
        });
    };
    let slave = on_line(line.number, read_slave(line.words))?;
    let asks = read_asks(alloc, line.number + 1, line.rest)?;
    Ok(Request {
        slave,
        asks: Asks::from_vec(asks),
    })
}

/// Reads what a text asks of the parameter space that a slave leaves to its clients.
///
/// A line ends with a line feed, which the last may lack. One carriage return at its very end is dropped,
/// and then `#` and all after it; words are separated by spaces or tabs. Lines without words are skipped.
/// A number is 1 to 19 decimal digits. The first line with words is
/// `slave channels C rate R period P ring N`: C from 1 to 8, R from 4000 to 192000 Hz, N from 64 to 16384
/// frames, and P from 16 frames to half of N, dividing N. Each later one is `set PARAM NUMBER`,
/// `min PARAM NUMBER`, `max PARAM NUMBER`, `near PARAM NUMBER`, `integer PARAM`, `show PARAM` or `choose`.
/// PARAM is `access`, `format`, `sample_bits`, `frame_bits`, `channels`, `rate`, `period_time`,
/// `period_size`, `period_bytes`, `periods`, `buffer_time`, `buffer_size` or `buffer_bytes`; an access or a
/// format is only set, to a number from 0 to 63, or shown. Other numbers are from 0 to 4294967295.
///
/// # Errors
///
/// A text of more than 1048576 bytes is `TooLong`, and one without words `NoCard`, both on line 0. In any
/// other the first word that isn't allowed where it is decides, with its line:
///
/// - `Order` for a first word that begins another kind of line, `Word` for any other word that isn't one of
///   those allowed there;
/// - `Missing` where the line ends and a word must follow, `Extra` for a word after a whole line, also
///   after the slave's last value;
/// - `Number` for a word that must be a number and isn't one, `Range` for a number out of its range (of a
///   slave's period: below 16).
///
/// `Fit` is for a slave's line whose words are right, where the period is above half the ring or doesn't
/// divide it. `Memory` is for want of memory.
#[tactic(auto, unfolding(crate::specs::Reading::request_of_text))]
pub fn read_request(alloc: Global, text: &[u8]) -> Result<Request, ScriptError>
    // The answer is what the text asks, or its refusal, unless memory ran out.
    ensures exact { Reads (λ r. r) result (request_of_text text.now) }

    // The slave's numbers are in their ranges, and each line asks what it can.
    ensures slave { IfOk result (λ r. IsSlaveLine r.slave) }
    ensures asks { IfOk result (λ r. All IsAsk r.asks) }
{
    if text.len() > LONGEST {
        return Err(ScriptError {
            line: 0,
            why: ScriptWhy::TooLong,
        });
    }
    read_lines(alloc, text)
}
