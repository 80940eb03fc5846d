//! The lines below the rows.
ghost use Rattle.std.specs.Prelude.{◌≡◌, ◌≤◌, ◌<◌, length, IfOk};
ghost use Rattle.std.specs.List.{position};
ghost use Rattle.lab_script.specs.Draft.{is_client, is_reader};
ghost use Rattle.lab_report.specs.Causes.{Gives};
ghost use Rattle.lab_report.specs.Reading.{client_and_rest, reader_and_rest, segment_at, segment_end, run_at, played_run};

use crate::error::ReportWhy;
use crate::numbers::next_number;
use crate::words::{feed_of, space_of, word_of};
use lab_lines::{ClientLine, ReaderLine, Script};
use snd_base::Segment;

/// The client of this name, counted from 0.
fn client_named(clients: &[ClientLine], name: &[u8]) -> Option<usize>
    ensures { result ≡ position (is_client name.now) clients.now }
{
    clients
        .iter()
        .position(|client| client.name.as_str().as_bytes() == name)
}

/// The reader of this name, counted from 0.
fn reader_named(readers: &[ReaderLine], name: &[u8]) -> Option<usize>
    ensures { result ≡ position (is_reader name.now) readers.now }
{
    readers
        .iter()
        .position(|reader| reader.name.as_str().as_bytes() == name)
}

/// The client that is named after a space, by its number, and the rest.
fn client_at<'a>(script: &Script, rest: &'a [u8]) -> Result<(usize, &'a [u8]), ReportWhy>
    ensures value { Gives (λ n. (n.0, n.1.now)) result (client_and_rest script.now rest.now) }
    ensures within { IfOk result (λ n. n.0 < length script.now.clients) }
{
    let rest = space_of(rest)?;
    let (word, rest) = word_of(rest)?;
    match client_named(script.clients.as_slice(), word) {
        Some(n) => Ok((n, rest)),
        None => Err(ReportWhy::Word),
    }
}

/// The reader that is named after a space, by its number, and the rest.
fn reader_at<'a>(script: &Script, rest: &'a [u8]) -> Result<(usize, &'a [u8]), ReportWhy>
    ensures value { Gives (λ n. (n.0, n.1.now)) result (reader_and_rest script.now rest.now) }
    ensures within { IfOk result (λ n. n.0 < length script.now.readers) }
{
    let rest = space_of(rest)?;
    let (word, rest) = word_of(rest)?;
    match reader_named(script.readers.as_slice(), word) {
        Some(n) => Ok((n, rest)),
        None => Err(ReportWhy::Word),
    }
}

/// The segment of `SOURCE CARD WHOLE PART`, at the end of a line.
#[tactic(auto, unfolding(crate::specs::Reading::segment_end))]
fn segment_end(rest: &[u8]) -> Result<Segment, ReportWhy>
    ensures { Gives (λ s. s) result (segment_end rest.now) }
{
    let (source, rest) = next_number(u64::MAX, rest)?;
    let (card, rest) = next_number(u64::MAX, rest)?;
    let (whole, rest) = next_number(u64::MAX, rest)?;
    let (part, rest) = next_number(255, rest)?;
    feed_of(rest)?;
    Ok(Segment {
        source,
        card,
        whole,
        part: part as u8,
    })
}

/// The client and segment of `segment NAME SOURCE CARD WHOLE PART`, after its first word.
#[tactic(auto, unfolding(crate::specs::Reading::segment_at))]
pub fn segment_at(script: &Script, rest: &[u8]) -> Result<(u32, Segment), ReportWhy>
    requires { length script.now.clients ≤ 64 }
    ensures { Gives (λ s. s) result (segment_at script.now rest.now) }
{
    let (client, rest) = client_at(script, rest)?;
    let segment = segment_end(rest)?;
    Ok((client as u32, segment))
}

/// The first frame and the number of frames of `played FIRST COUNT`, after its first word.
#[tactic(auto, unfolding(crate::specs::Reading::played_run))]
pub fn played_at(rest: &[u8]) -> Result<(u64, u64), ReportWhy>
    ensures { Gives (λ p. p) result (played_run rest.now) }
{
    let (first, rest) = next_number(u64::MAX, rest)?;
    let (count, rest) = next_number(u64::MAX, rest)?;
    feed_of(rest)?;
    Ok((first, count))
}

/// The reader, the first frame and the number of frames of `run NAME FIRST COUNT`, after its first word.
#[tactic(auto, unfolding(crate::specs::Reading::run_at))]
pub fn run_at(script: &Script, rest: &[u8]) -> Result<(u32, u64, u64), ReportWhy>
    requires { length script.now.readers ≤ 64 }
    ensures { Gives (λ r. r) result (run_at script.now rest.now) }
{
    let (reader, rest) = reader_at(script, rest)?;
    let (first, count) = played_at(rest)?;
    Ok((reader as u32, first, count))
}
