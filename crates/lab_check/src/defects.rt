//! The tests of a report, in order.
ghost use Rattle.std.specs.Prelude.{◌≡◌, ◌<◌, ◌^◌, ◌+◌, IfOk, None};
ghost use Rattle.lab_lines.specs.Limits.{IsScript};
ghost use Rattle.lab_check.specs.Defects.{HasTestedRuns, HasTestedSegments, most_of_report, played_defect, report_defect, row_defect, segment_defect, tested_report};
ghost use Rattle.lab_check.specs.Lines.{line_of_end};
ghost use Rattle.lab_check.specs.Reads.{reader_defect, readers_defect};
ghost use Rattle.lab_check.specs.Results.{ChecksAs};

use crate::error::CheckError;
use crate::frames::{first_frame, frames_played};
use crate::late::wrong_row;
use crate::lines::{first_run_line, first_segment_line, line_of_played};
use crate::reads::{read_defect, run_defect, runs_with_lines};
use crate::segments::wrong_segment;
use lab_lines::{Report, Script};
use lab_report::{ReportError, ReportWhy, read_report};
use std::alloc::{AllocError, Global};
use wav_io::Wav;

/// The most bytes that a report may have.
const REPORT_MOST: usize = 67_108_864;

/// The line of what was played, where it isn't what the script says.
fn played_defect(script: &Script, report: &Report) -> Option<u32>
    requires script { IsScript script.now }
    requires few { line_of_end report.now < 2 ^ 32 }
    ensures { result ≡ played_defect script.now report.now }
{
    if report.first == first_frame(&script.card)
        && report.frames == frames_played(script.body.as_slice())
    {
        None
    } else {
        Some(line_of_played(report))
    }
}

/// The line of the first segment that can't be.
fn segment_defect(script: &Script, wavs: &[Wav], report: &Report) -> Option<u32>
    requires { line_of_end report.now < 2 ^ 32 }
    ensures { result ≡ segment_defect script.now wavs.now report.now }
{
    match wrong_segment(script, wavs, report.segments.as_slice()) {
        Some(place) => Some(first_segment_line(report) + place as u32),
        None => None,
    }
}

/// The line of the first late row that can't be, where all segments can.
#[tactic(auto, using(crate::proofs::Tested::segments_right))]
fn row_defect(
    alloc: Global,
    script: &Script,
    wavs: &[Wav],
    report: &Report,
) -> Result<Option<u32>, AllocError>
    requires script { IsScript script.now }
    requires few { line_of_end report.now < 2 ^ 32 }
    requires segments { segment_defect script.now wavs.now report.now ≡ None }
    ensures { IfOk result (λ defect. defect ≡ row_defect script.now wavs.now report.now) }
{
    match wrong_row(alloc, script, wavs, report)? {
        Some(place) => Ok(Some(2 + place as u32)),
        None => Ok(None),
    }
}

/// The line of the first defect of a reader.
#[tactic(auto, using(crate::proofs::ReaderRuns::runs_below))]
fn reader_defect(alloc: Global, report: &Report, number: u32) -> Result<Option<u32>, AllocError>
    requires few { line_of_end report.now < 2 ^ 32 }
    requires end { report.now.first + report.now.frames + 1 < 2 ^ 64 }
    ensures { IfOk result (λ defect. defect ≡ reader_defect report.now number) }
{
    let end = report.first + report.frames;
    let runs = runs_with_lines(
        alloc,
        number,
        first_run_line(report),
        report.runs.as_slice(),
    )?;
    match run_defect(report.first, end, runs.as_slice()) {
        Some(line) => Ok(Some(line)),
        None => Ok(read_defect(number, runs.as_slice(), report.rows.as_slice())),
    }
}

/// The line of the first defect of so many readers.
#[tactic(auto, using(crate::proofs::ReaderRuns::readers_next))]
fn readers_defect(alloc: Global, report: &Report, count: u32) -> Result<Option<u32>, AllocError>
    requires few { line_of_end report.now < 2 ^ 32 }
    requires end { report.now.first + report.now.frames + 1 < 2 ^ 64 }
    ensures { IfOk result (λ defect. defect ≡ readers_defect report.now 0 count) }
{
    for number in 0..count {
        if let Some(line) = reader_defect(alloc, report, number)? {
            return Ok(Some(line));
        }
    }
    Ok(None)
}

/// The line of the first defect of a report.
#[tactic(auto, using(crate::proofs::Tested::ends_below))]
fn report_defect(
    alloc: Global,
    script: &Script,
    wavs: &[Wav],
    report: &Report,
) -> Result<Option<u32>, AllocError>
    requires script { IsScript script.now }
    requires few { line_of_end report.now < 2 ^ 32 }
    ensures { IfOk result (λ defect. defect ≡ report_defect script.now wavs.now report.now) }
{
    if let Some(line) = played_defect(script, report) {
        return Ok(Some(line));
    }
    if let Some(line) = segment_defect(script, wavs, report) {
        return Ok(Some(line));
    }
    if let Some(line) = row_defect(alloc, script, wavs, report)? {
        return Ok(Some(line));
    }
    readers_defect(alloc, report, script.readers.len() as u32)
}

/// The report of a text, where it passes all tests that need no file of what was played or recorded. `wavs` are the clients'
/// sounds, in the order of the script's lines.
///
/// # Errors
///
/// `No` with the line of the first test that fails, as `check_report` lists them; `Memory`, where memory ran out.
///
/// # Time
///
/// It grows with the text, and with the number of segments for each client and channel of the card, a little more than in
/// proportion since segments are sorted.
#[tactic(auto, using(crate::proofs::Sizes::lines_within, crate::proofs::Tested::tested_segments, crate::proofs::Tested::tested_runs))]
pub fn tested_report(
    alloc: Global,
    script: &Script,
    wavs: &[Wav],
    text: &[u8],
) -> Result<Report, CheckError>
    requires { IsScript script.now }
    ensures answer { ChecksAs (λ report. report) result
        (tested_report script.now wavs.now text.now) }
    ensures segments { IfOk result (λ report. HasTestedSegments script.now wavs.now report) }
    ensures runs { IfOk result (λ report. HasTestedRuns script.now report) }
    ensures few { IfOk result (λ report. line_of_end report < 2 ^ 32) }
{
    if text.len() > REPORT_MOST {
        return Err(CheckError::No { line: 0 });
    }
    match read_report(alloc, text, script) {
        Ok(report) => match report_defect(alloc, script, wavs, &report)? {
            Some(line) => Err(CheckError::No { line }),
            None => Ok(report),
        },
        Err(
            ReportError {
                why: ReportWhy::Memory,
                ..
            },
        ) => Err(CheckError::Memory),
        Err(ReportError { line, .. }) => Err(CheckError::No { line }),
    }
}
