//! What the command `check` does: a report and the files of a run are tested against its script.
ghost use Rattle.std.specs.Prelude.{◌≡◌, IfOk, OnOk, Some, slice_get};
ghost use Rattle.lab_check.specs.Defects.{HasTestedRuns, HasTestedSegments};
ghost use Rattle.lab_input.specs.Read.{input_of};
ghost use Rattle.lab_lines.specs.Limits.{IsScript};
ghost use Rattle.lab_stop.specs.Effects.{AnswersFrom, OnlyTests};
ghost use Rattle.lab_compare.specs.Checking.{IsCheckedRun, IsReportIn, check_in, outputs_in, passed, played_in, recording_in, recordings_in, tested_in};

use crate::comparison::check_file;
use lab_check::{
    CheckError, checked_runs_show, line_of_end, line_of_played, played_samples, reader_samples,
    tested_report,
};
use lab_input::{Input, read_input};
use lab_lines::{ReaderLine, Report};
use lab_output::{played_file, recorded_file};
use lab_shelf::Shelf;
use lab_stop::{Stop, fetch_most};
use std::alloc::Global;

/// One byte more than a report may have.
const MOST_FETCHED: u64 = 67_108_865;

/// How a test ends a command: with `No` and the line where it fails, and with `Memory` where no memory was left for it.
fn passed(end: Result<Report, CheckError>) -> Result<Report, Stop>
    ensures { result ≡ passed end }
{
    match end {
        Ok(report) => Ok(report),
        Err(CheckError::No { line }) => Err(Stop::No { line }),
        Err(CheckError::Memory) => Err(Stop::Memory),
    }
}

/// The report of an input's script in a file, which passes the tests that need no output. One byte more is fetched than a report
/// may have, in pieces. It stops with `No` at the line at which the first test fails.
fn load_report<S: Shelf>(
    shelf: &mut S,
    alloc: Global,
    input: &Input,
    name: &[u8],
) -> Result<Report, Stop>
    requires script { IsScript input.now.script }
    ensures report { AnswersFrom S.Shelf (λ report. report) result shelf.old
        (λ files. tested_in files (input_of input.now) name.now) }
    ensures held { IfOk result (IsReportIn (S.files shelf.old) (input_of input.now) name.now) }
    ensures only_tests { OnlyTests S.Shelf result shelf.old shelf.new }
{
    let text = fetch_most(shelf, alloc, name, MOST_FETCHED)?;
    passed(tested_report(alloc, &input.script, &input.wavs, &text))
}

/// Tests that `OUT.wav` is the canonical file of what the card played by a report.
fn check_played<S: Shelf>(
    shelf: &mut S,
    alloc: Global,
    input: &Input,
    report: &Report,
    out: &[u8],
) -> Result<(), Stop>
    requires script { IsScript input.now.script }
    requires tested { HasTestedSegments input.now.script input.now.wavs.items report.now }
    ensures played { AnswersFrom S.Shelf (λ done. done) result shelf.old
        (λ files. played_in files (input_of input.now) out.now report.now) }
    ensures only_tests { OnlyTests S.Shelf result shelf.old shelf.new }
{
    let file = played_file(alloc, &input.script.card, out)?;
    let samples = played_samples(alloc, &input.script, &input.wavs, report)?;
    check_file(shelf, alloc, line_of_played(report), &file, &samples)
}

/// Tests that the `OUT.NAME.wav` of the reader of this number and line is the canonical file of what it recorded by a report.
fn check_recording<S: Shelf>(
    shelf: &mut S,
    alloc: Global,
    input: &Input,
    report: &Report,
    out: &[u8],
    number: u32,
    reader: &ReaderLine,
) -> Result<(), Stop>
    requires script { IsScript input.now.script }
    requires tested { HasTestedRuns input.now.script report.now }
    requires reader { slice_get input.now.script.readers number ≡ Some reader.now }
    ensures recorded { AnswersFrom S.Shelf (λ done. done) result shelf.old
        (λ files. recording_in files (input_of input.now) out.now report.now number reader.now) }
    ensures only_tests { OnlyTests S.Shelf result shelf.old shelf.new }
{
    let file = recorded_file(alloc, &input.script.card, out, reader)?;
    let capture = input.capture.as_ref();
    let samples = reader_samples(alloc, &input.script, capture, report, number)?;
    check_file(shelf, alloc, line_of_end(report), &file, &samples)
}

/// Tests each reader's file, in the order of the readers' lines.
fn check_recordings<S: Shelf>(
    shelf: &mut S,
    alloc: Global,
    input: &Input,
    report: &Report,
    out: &[u8],
) -> Result<(), Stop>
    requires script { IsScript input.now.script }
    requires tested { HasTestedRuns input.now.script report.now }
    ensures recorded { AnswersFrom S.Shelf (λ done. done) result shelf.old
        (λ files.
        recordings_in files (input_of input.now) out.now report.now 0 input.now.script.readers) }
    ensures only_tests { OnlyTests S.Shelf result shelf.old shelf.new }
{
    let mut number = 0;
    for reader in input.script.readers.as_slice() {
        check_recording(shelf, alloc, input, report, out, number, reader)?;
        number += 1;
    }
    Ok(())
}

/// Tests the outputs, in the order in which a run writes them.
fn check_outputs<S: Shelf>(
    shelf: &mut S,
    alloc: Global,
    input: &Input,
    report: &Report,
    out: &[u8],
) -> Result<(), Stop>
    requires script { IsScript input.now.script }
    requires segments { HasTestedSegments input.now.script input.now.wavs.items report.now }
    requires runs { HasTestedRuns input.now.script report.now }
    ensures outputs { AnswersFrom S.Shelf (λ done. done) result shelf.old
        (λ files. outputs_in files (input_of input.now) out.now report.now) }
    ensures only_tests { OnlyTests S.Shelf result shelf.old shelf.new }
{
    check_played(shelf, alloc, input, report, out)?;
    check_recordings(shelf, alloc, input, report, out)
}

/// Tests a report and the files of a run, which are named by the run's output without its ending, against the script in a file
/// and what that names. Nothing is written.
///
/// It stops with `No` at the report's line at which the first test fails, as `lab_check::check_report` makes them; with the line of what
/// was played where `OUT.wav` isn't the canonical file of that, and with the report's last line where a reader's file isn't that of what it
/// recorded. A file's turn comes once all tests before it are made. It stops as `read_input` does too, and with `Read` where the report or an
/// output can't be fetched.
pub fn check_run<S: Shelf>(
    shelf: &mut S,
    alloc: Global,
    script: &[u8],
    report: &[u8],
    out: &[u8],
) -> Result<(), Stop>
    ensures check { AnswersFrom S.Shelf (λ done. done) result shelf.old
        (λ files. check_in files script.now report.now out.now) }
    ensures done { OnOk result
        (IsCheckedRun (S.files shelf.old) script.now report.now out.now) }
    ensures only_tests { OnlyTests S.Shelf result shelf.old shelf.new }
{
    checked_runs_show();
    let input = read_input(shelf, alloc, script)?;
    let tested = load_report(shelf, alloc, &input, report)?;
    check_outputs(shelf, alloc, &input, &tested, out)
}
