//! Printing a report.
ghost use Rattle.std.specs.Prelude.{◌≡◌, ◌++◌, All, string_bytes, IfErr, IfOk, Ok, OnOk};
ghost use Rattle.std.specs.List.{flat_map};
ghost use Rattle.lab_lines.specs.Limits.{IsScript};
ghost use Rattle.lab_report.specs.Reading.{report_in_text};
ghost use Rattle.lab_report.specs.Text.{report_text, row_line, tail_text, IsReportOf, IsRowOf, IsTailOf};

use crate::ranges::numbers_are_in_range;
use crate::text::{push_row, push_run, push_segment};
use lab_lines::{Report, Row, Script};
use snd_base::PcmError;
use std::alloc::{AllocError, Global};

/// For how many bytes of each row's line a text of rows has room from the first.
const LINE_ROOM: usize = 64;

/// Appends the lines of rows.
fn push_rows(text: &mut String, script: &Script, rows: &[Row]) -> Result<(), AllocError>
    requires { All (IsRowOf script.now) rows.now }
    ensures { OnOk result
        (string_bytes text.new ≡ string_bytes text.old ++ flat_map (row_line script.now) rows.now) }
{
    for row in rows {
        push_row(text, script, row)?;
    }
    Ok(())
}

/// Appends what is below the rows.
fn push_tail(text: &mut String, report: &Report, script: &Script) -> Result<(), AllocError>
    requires { IsTailOf script.now report.now }
    ensures { OnOk result
        (string_bytes text.new ≡ string_bytes text.old ++ tail_text script.now report.now) }
{
    for (client, segment) in report.segments.as_slice() {
        push_segment(text, script, *client, segment)?;
    }
    for (reader, first, count) in report.runs.as_slice() {
        push_run(text, script, *reader, *first, *count)?;
    }
    let first = report.first;
    let frames = report.frames;
    writeln!(text, "played {first} {frames}")?;
    text.push_str("end\n")
}

/// Appends the line of a row of a run of this script to the bytes of a report's text.
///
/// The row's actor has to be the script's, and its answer and state such as a report can say: no answer is
/// `PcmError::LapEnd` or `PcmError::Memory`, the cause of an `Invalid` is `Why::Config`, the field `seen` of an
/// `Xrun` is 0, and no state is `State::Suspended`.
///
/// The one error is `PcmError::Memory`.
pub fn print_row(row: &Row, script: &Script, text: &mut Vec<u8>) -> Result<(), PcmError>
    requires { IsRowOf script.now row.now }
    ensures ok { OnOk result (text.new.items ≡ text.old.items ++ row_line script.now row.now) }
    ensures only { IfErr result (λ error. error ≡ PcmError.Memory) }
{
    let mut line = String::new(*text.allocator());
    push_row(&mut line, script, row)?;
    text.extend_from_slice(line.as_bytes())?;
    Ok(())
}

/// The lines of rows of a run of this script, in bytes: what `print_row` appends for each, one after the other. The memory is
/// taken for all at once, and a row takes none of its own where its line isn't long.
///
/// The rows have to be such as `print_row` takes. The one error is `PcmError::Memory`.
pub fn print_rows(alloc: Global, rows: &[Row], script: &Script) -> Result<Vec<u8>, PcmError>
    requires { All (IsRowOf script.now) rows.now }
    ensures text { IfOk result (λ bytes. bytes.items ≡ flat_map (row_line script.now) rows.now) }
    ensures only { IfErr result (λ error. error ≡ PcmError.Memory) }
{
    let mut text = String::with_capacity(alloc, rows.len().saturating_mul(LINE_ROOM))?;
    push_rows(&mut text, script, rows)?;
    Ok(text.into_bytes())
}

/// Appends what is below the rows of a report of a run of this script to the bytes of its text: the lines of
/// the segments, those of the runs, the frames that were played, and the end.
///
/// The segments and runs have to be of the script's clients and readers.
///
/// The one error is `PcmError::Memory`.
pub fn print_tail(report: &Report, script: &Script, text: &mut Vec<u8>) -> Result<(), PcmError>
    requires { IsTailOf script.now report.now }
    ensures ok { OnOk result (text.new.items ≡ text.old.items ++ tail_text script.now report.now) }
    ensures only { IfErr result (λ error. error ≡ PcmError.Memory) }
{
    let mut tail = String::new(*text.allocator());
    push_tail(&mut tail, report, script)?;
    text.extend_from_slice(tail.as_bytes())?;
    Ok(())
}

/// The text of a report of a run of this script, in bytes. Its lines end with a line feed, and their
/// words are joined by one space:
///
/// - `dmixlab 1`
/// - `PHASE NAME OP = ANSWER STATE SEEN` for each row, where NAME is `card` or the name of a client or reader,
///   OP is as in a script (`open` and `close` for an opening and a closing), STATE is as `snd_pcm_state_name`
///   gives it, and SEEN is a position in frames, or `-` where none was seen
/// - `segment NAME SOURCE CARD WHOLE PART` for each segment, in frames, but for PART, in channels
/// - `run NAME FIRST COUNT` for each run, in frames
/// - `played FIRST FRAMES`
/// - `end`
///
/// An ANSWER is `ok`, a number of frames, `stopped`, or the name of the error number (errno.h) that
/// ALSA answers in that case, and what it is about: `EBADFD`, `EPIPE empty`, `EPIPE already`,
/// `EPIPE avail FRAMES`, `EPIPE late FRAME CHANNEL`, `EPIPE overtaken FRAME CHANNEL`, `EAGAIN`,
/// `ENODEV`, `EINVAL`, `EIO`, and `EBUSY UNTIL SEEN`, where UNTIL is `-` if it isn't known.
///
/// The report has to be one of the script: its rows are those of the script's lines, in order, and such as
/// `print_row` takes; its segments and runs are of the script's clients and readers.
///
/// What is printed is read by `read_report` as the same report. The one error is `PcmError::Memory`.
pub fn print_report(alloc: Global, report: &Report, script: &Script) -> Result<Vec<u8>, PcmError>
    requires of { IsReportOf script.now report.now }
    requires script { IsScript script.now }
    ensures text { IfOk result (λ bytes. bytes.items ≡ report_text script.now report.now) }
    ensures back { IfOk result (λ bytes. report_in_text script.now bytes.items ≡ Ok report.now) }
    ensures only { IfErr result (λ error. error ≡ PcmError.Memory) }
{
    numbers_are_in_range(report);
    let mut text = String::new(alloc);
    writeln!(text, "dmixlab 1")?;
    push_rows(&mut text, script, report.rows.as_slice())?;
    push_tail(&mut text, report, script)?;
    Ok(text.into_bytes())
}
