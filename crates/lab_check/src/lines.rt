//! The lines of a report's text.
ghost use Rattle.std.specs.Prelude.{◌≡◌, ◌<◌, ◌^◌};
ghost use Rattle.lab_check.specs.Lines.{first_run_line, first_segment_line, line_of_end, line_of_played};

use lab_lines::Report;

/// The line of the first segment.
pub(crate) fn first_segment_line(report: &Report) -> u32
    requires { line_of_end report.now < 2 ^ 32 }
    ensures { result ≡ first_segment_line report.now }
{
    2 + report.rows.as_slice().len() as u32
}

/// The line of the first run.
pub(crate) fn first_run_line(report: &Report) -> u32
    requires { line_of_end report.now < 2 ^ 32 }
    ensures { result ≡ first_run_line report.now }
{
    first_segment_line(report) + report.segments.as_slice().len() as u32
}

/// The line of a report's text with what was played, from 1 on. It is named where `OUT.wav` isn't as the report says.
///
/// It asks for a report of fewer than 2^32 lines, as each is that `tested_report` gives.
pub fn line_of_played(report: &Report) -> u32
    requires { line_of_end report.now < 2 ^ 32 }
    ensures { result ≡ line_of_played report.now }
{
    first_run_line(report) + report.runs.as_slice().len() as u32
}

/// The last line of a report's text, `end`, from 1 on. It is named where a reader's file isn't as the report says.
///
/// It asks for a report of fewer than 2^32 lines, as each is that `tested_report` gives.
pub fn line_of_end(report: &Report) -> u32
    requires { line_of_end report.now < 2 ^ 32 }
    ensures { result ≡ line_of_end report.now }
{
    line_of_played(report) + 1
}
