//! The reader of a report's text.
ghost use Rattle.std.specs.Prelude.{◌≡◌, ◌≤◌, All, IfOk, length};
ghost use Rattle.std.specs.Option.{ForSome};
ghost use Rattle.lab_lines.specs.Limits.{IsActor, IsScript};
ghost use Rattle.lab_lines.specs.declared.request.Request.{Request};
ghost use Rattle.lab_report.specs.Causes.{Gives};
ghost use Rattle.lab_report.specs.Reading.{view, nothing, tail_by, below_rows, after_head, version_of, head_at, with_line, report_at, lines_after, report_in_text, Answers};
ghost use Rattle.lab_report.specs.Words.{lines_of};
ghost use Rattle.lab_report.specs.Requests.{requests_of};
ghost use Rattle.lab_report.specs.Text.{report_text, IsReportOf};

use crate::error::{ReportError, ReportWhy};
use crate::lines::first_line;
use crate::request::requests_of;
use crate::rows::row_at;
use crate::tail::{played_at, run_at, segment_at};
use crate::words::{expect_word, feed_of, space_of, word_of};
use lab_lines::{Report, Request, Row, Rows, Runs, Script, Segments};
use snd_base::Segment;
use std::alloc::Global;

/// What is read of a report: whether its head is, its rows, its segments and its runs, what was played,
/// and whether its end is.
#[derive(Drop)]
pub struct Draft {
    pub head: bool,
    pub rows: Vec<Row>,
    pub segments: Vec<(u32, Segment)>,
    pub runs: Vec<(u32, u64, u64)>,
    pub played: Option<(u64, u64)>,
    pub ended: bool,
}

/// A line below the rows, by its first word: segments are before runs.
fn add_tail(draft: &mut Draft, script: &Script, word: &[u8], rest: &[u8]) -> Result<(), ReportWhy>
    requires clients { length script.now.clients ≤ 64 }
    requires readers { length script.now.readers ≤ 64 }
    ensures { Gives (λ u. view draft.new) result
        (tail_by script.now (view draft.old) word.now rest.now) }
{
    if word == b"segment".as_slice() && draft.runs.is_empty() {
        let segment = segment_at(script, rest)?;
        draft.segments.push(segment)?;
    } else if word == b"run".as_slice() {
        let run = run_at(script, rest)?;
        draft.runs.push(run)?;
    } else if word == b"played".as_slice() {
        let played = played_at(rest)?;
        draft.played = Some(played);
    } else {
        return Err(ReportWhy::Word);
    }
    Ok(())
}

/// A line below the rows: `end` once what was played is read.
fn add_below(draft: &mut Draft, script: &Script, line: &[u8]) -> Result<(), ReportWhy>
    requires clients { length script.now.clients ≤ 64 }
    requires readers { length script.now.readers ≤ 64 }
    ensures { Gives (λ u. view draft.new) result
        (below_rows script.now (view draft.old) draft.old.played line.now) }
{
    match draft.played {
        Some(_) => {
            let rest = expect_word(b"end", line)?;
            feed_of(rest)?;
            draft.ended = true;
            Ok(())
        }
        None => {
            let (word, rest) = word_of(line)?;
            add_tail(draft, script, word, rest)
        }
    }
}

/// A line after the head: the row of a request, or where there is none, a line below the rows. The fronts of rows are
/// printed in `front`.
fn add_after_head(
    front: &mut String,
    draft: &mut Draft,
    script: &Script,
    request: Option<Request>,
    line: &[u8],
) -> Result<(), ReportWhy>
    requires clients { length script.now.clients ≤ 64 }
    requires readers { length script.now.readers ≤ 64 }
    requires actor { ForSome request (λ r. IsActor (length script.now.clients)
        (length script.now.readers) r.actor) }
    ensures { Gives (λ u. view draft.new) result
        (after_head script.now (view draft.old) request line.now) }
{
    match request {
        Some(request) => {
            let row = row_at(front, script, request, line)?;
            draft.rows.push(row)?;
            Ok(())
        }
        None => {
            if draft.ended {
                return Err(ReportWhy::Extra);
            }
            add_below(draft, script, line)
        }
    }
}

/// The rest after the word `1`, the version of the form.
fn version_of(rest: &[u8]) -> Result<&[u8], ReportWhy>
    ensures { Gives (λ r. r.now) result (version_of rest.now) }
{
    let (word, rest) = word_of(rest)?;
    if word == b"1".as_slice() {
        Ok(rest)
    } else {
        Err(ReportWhy::Word)
    }
}

/// The line `dmixlab 1`.
fn add_head(draft: &mut Draft, line: &[u8]) -> Result<(), ReportWhy>
    ensures { Gives (λ u. view draft.new) result (head_at (view draft.old) line.now) }
{
    let rest = expect_word(b"dmixlab", line)?;
    let rest = space_of(rest)?;
    let rest = version_of(rest)?;
    feed_of(rest)?;
    draft.head = true;
    Ok(())
}

/// One more line, where the rows are about these requests.
fn add_line(
    front: &mut String,
    draft: &mut Draft,
    script: &Script,
    requests: &[Request],
    line: &[u8],
) -> Result<(), ReportWhy>
    requires clients { length script.now.clients ≤ 64 }
    requires readers { length script.now.readers ≤ 64 }
    requires actors { All (λ (r : Request). IsActor (length script.now.clients)
        (length script.now.readers) r.actor) requests.now }
    ensures { Gives (λ u. view draft.new) result
        (with_line script.now requests.now (view draft.old) line.now) }
{
    if !draft.head {
        return add_head(draft, line);
    }
    let request = requests.get(draft.rows.len()).copied();
    add_after_head(front, draft, script, request, line)
}

/// The report at the end of the text, whose last line has this number.
fn report_at(draft: Draft, number: u32) -> Result<Report, ReportError>
    ensures { result ≡ report_at (view draft) draft.played number }
{
    let refusal = ReportError {
        line: number,
        why: ReportWhy::Ended,
    };
    let Some((first, frames)) = draft.played else {
        return Err(refusal);
    };
    if !draft.ended {
        return Err(refusal);
    }
    Ok(Report {
        rows: Rows::from_vec(draft.rows),
        segments: Segments::from_vec(draft.segments),
        runs: Runs::from_vec(draft.runs),
        first,
        frames,
    })
}

/// Reads the lines of a text, where the rows are about these requests.
fn read_lines(
    alloc: Global,
    script: &Script,
    requests: &[Request],
    text: &[u8],
) -> Result<Report, ReportError>
    requires clients { length script.now.clients ≤ 64 }
    requires readers { length script.now.readers ≤ 64 }
    requires actors { All (λ (r : Request). IsActor (length script.now.clients)
        (length script.now.readers) r.actor) requests.now }
    ensures { Answers result (lines_after script.now requests.now nothing 0 (lines_of text.now)) }
{
    let mut draft = Draft {
        head: false,
        rows: Vec::new(alloc),
        segments: Vec::new(alloc),
        runs: Vec::new(alloc),
        played: None,
        ended: false,
    };
    let mut front = String::new(alloc);
    let mut number: u32 = 0;
    let mut rest = text;
    while let Some((line, more)) = first_line(rest) {
        number = number.saturating_add(1);
        match add_line(&mut front, &mut draft, script, requests, line) {
            Ok(()) => {}
            Err(why) => return Err(ReportError { line: number, why }),
        }
        rest = more;
    }
    report_at(draft, number)
}

/// Reads the text of a report of a run of this script, as `print_report` gives it.
///
/// # Errors
///
/// The first line and word that isn't allowed where it is. `Ended`: the text ends before a word, a line or a
/// line feed that must follow, on its last line, or 0 for an empty text. `Extra`: a word follows a line that
/// is whole, or a line follows `end`. `Number`: a word isn't a number in its one decimal form, without leading
/// zeros and within its type, where only a number may follow. `Word`: any other difference. Lines are counted
/// up to 4294967295.
///
/// `Memory`, where memory ran out.
pub fn read_report(alloc: Global, text: &[u8], script: &Script) -> Result<Report, ReportError>
    requires { IsScript script.now }

    // The answer is what the text says, unless memory ran out.
    ensures exact { Answers result (report_in_text script.now text.now) }

    // What is read is a report of the script: its rows are those of the script's lines, in order.
    ensures of { IfOk result (IsReportOf script.now) }

    // No other text of a report is accepted than the one that is printed.
    ensures one { IfOk result (λ report. text.now ≡ report_text script.now report) }
{
    match requests_of(alloc, script) {
        Ok(requests) => read_lines(alloc, script, requests.as_slice(), text),
        Err(_) => Err(ReportError {
            line: 0,
            why: ReportWhy::Memory,
        }),
    }
}
