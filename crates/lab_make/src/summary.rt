//! The summary of a run of a workload.
ghost use Rattle.std.specs.Prelude.{◌≡◌, ◌+◌, ◌*◌, ◌^◌, ◌≤◌, sum_by};
ghost use Rattle.lab_make.specs.Summary.{IsSummaryOf, is_pipe, sample_sum, words_laid, xrun_count};

use crate::workload::Workload;
use lab_lines::{Answer, Report, Row};
use snd_base::{PcmError, Segment};
use std::fmt;

/// What a run of a workload did, in numbers. It is shown as the lines that `dmixlab make` prints.
#[derive(Clone, Copy, Debug, PartialEq, Eq)]
pub struct Summary {
    /// The seed of the samples.
    pub seed: u64,
    /// How many clients there were.
    pub clients: u32,
    /// In how many turns they wrote and the card played.
    pub phases: u32,
    /// How many frames the card played.
    pub played: u64,
    /// How many segments the clients placed in the ring.
    pub segments: u64,
    /// How many words of the ring the segments filled.
    pub laid: u128,
    /// How many lines of the script were answered EPIPE.
    pub xruns: u64,
    /// The sum of all samples that the card played.
    pub sum: i128,
}

impl fmt::Display for Summary {
    ghost use Rattle.std.specs.Prelude.{Some};
    ghost use Rattle.lab_make.specs.Summary.{summary_text};

    ghost output = { λ summary. Some (summary_text summary) };

    fn fmt<W: fmt::Write>(&self, f: &mut fmt::Formatter<W>) -> fmt::Result {
        write!(
            f,
            "made {} {} {}\nplayed {}\nsegments {}\nlaid {}\nxruns {}\nsum {}\n",
            self.seed,
            self.clients,
            self.phases,
            self.played,
            self.segments,
            self.laid,
            self.xruns,
            self.sum
        )
    }
}

/// Whether an answer is EPIPE, whatever its cause.
fn is_pipe(answer: Answer) -> bool
    ensures { result ≡ is_pipe answer }
{
    match answer {
        Answer::Failed(PcmError::Xrun(_)) => true,
        _ => false,
    }
}

/// How many rows are answered EPIPE.
fn xrun_count(rows: &[Row]) -> usize
    ensures { result ≡ xrun_count rows.now }
{
    let mut xruns = 0;
    for row in rows {
        if is_pipe(row.answer) {
            xruns += 1;
        }
    }
    xruns
}

/// How many words of the ring a segment of a stereo card filled: two for each whole frame, and the
/// channels of its last one.
fn words_of(segment: &Segment) -> u128
    ensures words { result ≡ 2 * segment.now.whole + segment.now.part }
    ensures few { result ≤ 2 ^ 65 + 254 }
{
    2 * u128::from(segment.whole) + u128::from(segment.part)
}

/// How many words of the ring segments of a stereo card filled.
fn words_laid(segments: &[(u32, Segment)]) -> u128
    ensures { result ≡ sum_by words_laid segments.now }
{
    let mut words = 0;
    for (_client, segment) in segments {
        words += words_of(segment);
    }
    words
}

/// The sum of samples.
fn sample_sum(samples: &[i16]) -> i128
    ensures { result ≡ sample_sum samples.now }
{
    let mut sum = 0;
    for sample in samples {
        sum += i128::from(*sample);
    }
    sum
}

/// The summary of a workload, of the report of its run and of the samples that the card played.
pub fn summary_of(workload: &Workload, report: &Report, played: &[i16]) -> Summary
    ensures { IsSummaryOf workload.now report.now played.now result }
{
    Summary {
        seed: workload.seed,
        clients: workload.clients,
        phases: workload.phases,
        played: report.frames,
        segments: report.segments.as_slice().len() as u64,
        laid: words_laid(report.segments.as_slice()),
        xruns: xrun_count(report.rows.as_slice()) as u64,
        sum: sample_sum(played),
    }
}
