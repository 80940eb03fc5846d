//! The answers to the text in a file.
ghost use Rattle.std.specs.Prelude.{All, IfErr, IfOk, string_bytes};
ghost use Rattle.std.specs.Option.{ForSome};
ghost use Rattle.lab_stop.specs.Causes.{cause};
ghost use Rattle.lab_stop.specs.Effects.{AnswersFrom, OnlyReads};
ghost use Rattle.lab_stop.specs.Stops.{EndsOf, EndsReliably, IsReadStop};
ghost use Rattle.lab_refine.specs.Answered.{IsAnswerTo, request_in};
ghost use Rattle.lab_refine.specs.Grammar.{IsAsk, IsSlaveLine};

use crate::answers::answer_request;
use crate::reader::read_request;
use crate::request::Request;
use lab_shelf::Shelf;
use lab_stop::{Stop, fetch_most};
use std::alloc::Global;

/// One byte more than a text may have, so that a longer file is refused as one.
const MOST_FETCHED: u64 = 1_048_577;

/// The answers to the text in a file of the shelf, as [`answer_request`] prints them. The whole text is
/// read before the first answer is made. No file changes.
///
/// # Errors
///
/// - `Read` with the file's name, where the fetch failed; over a reliable shelf only where there is no
///   file of this name.
/// - `Script` with the line and the cause, where [`read_request`] refuses the text.
/// - `Memory`, where memory ran out.
pub fn refine_file<S: Shelf>(shelf: &mut S, alloc: Global, name: &[u8]) -> Result<String, Stop>
    // The text has the answers to what the file asks, and no other text has them.
    ensures answers { IfOk result
        (λ text. IsAnswerTo (S.files shelf.old) name.now (string_bytes text)) }

    // It ends as the first cause says that the file gives, but for a failed fetch and for memory.
    ensures cause { ForSome (S.files shelf.old)
        (λ files. EndsOf result (cause (request_in files name.now))) }
    ensures missing { S.is_reliable shelf.old → ForSome (S.files shelf.old)
        (λ files. EndsReliably result (cause (request_in files name.now))) }
    ensures only { IfErr result IsReadStop }

    // What it leaves of the shelf, and that a failed fetch is counted.
    ensures only_reads { OnlyReads S.Shelf result shelf.old shelf.new }
{
    let request = request_in(shelf, alloc, name)?;
    let text = answer_request(alloc, &request)?;
    Ok(text)
}

/// What the text in a file of the shelf asks.
#[tactic(auto, unfolding(crate::specs::Answered::request_in))]
fn request_in<S: Shelf>(shelf: &mut S, alloc: Global, name: &[u8]) -> Result<Request, Stop>
    ensures request { AnswersFrom S.Shelf (λ r. r) result shelf.old
        (λ files. request_in files name.now) }
    ensures slave { IfOk result (λ r. IsSlaveLine r.slave) }
    ensures asks { IfOk result (λ r. All IsAsk r.asks) }
    ensures only_reads { OnlyReads S.Shelf result shelf.old shelf.new }
{
    let text = fetch_most(shelf, alloc, name, MOST_FETCHED)?;
    let request = read_request(alloc, &text)?;
    Ok(request)
}
