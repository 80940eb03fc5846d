//! The samples that readers recorded, by the runs of a report.
ghost use Rattle.std.specs.Prelude.{◌≡◌, ◌<◌, ◌^◌, ◌+◌, ◌*◌, ◌++◌, [], IfOk, None, OnOk, length, map, slice_index_or};
ghost use Rattle.std.specs.List.{flat_map, range_with_len};
ghost use Rattle.std.specs.Option.{option_copied};
ghost use Rattle.lab_lines.specs.Limits.{IsCardLine, IsScript};
ghost use Rattle.lab_check.specs.Defects.{HasTestedRuns};
ghost use Rattle.lab_check.specs.Lines.{line_of_end};
ghost use Rattle.lab_check.specs.Reads.{reader_defect};
ghost use Rattle.lab_check.specs.Recordings.{recordings_of, unlined_runs};
ghost use Rattle.lab_check.specs.Samples.{captured_by, captured_runs, reader_samples, readers_samples};
ghost use Rattle.lab_check.specs.Unread.{RunsFit};

use crate::channels::read_by;
use crate::frames::first_frame;
use crate::lines::first_run_line;
use crate::reads::runs_with_lines;
use crate::sources::line_of_reader;
use bindings::Bindings;
use lab_lines::{CardLine, ReaderLine, Report, Script};
use std::alloc::{AllocError, Global};
use wav_io::Wav;

/// The sample that a card captures at a frame and channel: that of the capture file, or 0 where it has none.
fn captured_by(card: &CardLine, capture: Option<&Wav>, frame: u64, channel: u8) -> i16
    ensures { result ≡ captured_by card.now (option_copied capture.entry) frame channel }
{
    let Some(wav) = capture else {
        return 0;
    };
    let channels = u64::from(wav.channels);
    let channel = u64::from(channel);
    let samples = wav.samples.as_slice();
    let place = frame.saturating_sub(first_frame(card));
    if channel >= channels || place >= samples.len() as u64 / channels {
        return 0;
    }
    samples[(place * channels + channel) as usize]
}

/// Appends the captured samples of a frame, through bindings.
fn push_frame(
    samples: &mut Vec<i16>,
    card: &CardLine,
    capture: Option<&Wav>,
    bindings: Bindings,
    frame: u64,
) -> Result<(), AllocError>
    ensures { OnOk result (samples.new.items ≡ samples.old.items
        ++ map (captured_by card.now (option_copied capture.entry) frame) bindings) }
{
    for client in 0..bindings.len() {
        samples.push(captured_by(card, capture, frame, bindings.card_channel(client)))?;
    }
    Ok(())
}

/// Appends the captured samples of the frames of a run, through bindings.
fn push_run(
    samples: &mut Vec<i16>,
    card: &CardLine,
    capture: Option<&Wav>,
    bindings: Bindings,
    first: u64,
    count: u64,
) -> Result<(), AllocError>
    requires { first + count < 2 ^ 64 }
    ensures { OnOk result (samples.new.items ≡ samples.old.items
        ++ flat_map (λ frame. map (captured_by card.now (option_copied capture.entry) frame)
        bindings) (range_with_len first count)) }
{
    for index in 0..count {
        push_frame(samples, card, capture, bindings, first + index)?;
    }
    Ok(())
}

/// The captured samples of some runs, each with its line, through bindings.
fn recorded_runs(
    alloc: Global,
    card: &CardLine,
    capture: Option<&Wav>,
    bindings: Bindings,
    runs: &[(u32, u64, u64)],
) -> Result<Vec<i16>, AllocError>
    requires { RunsFit runs.now }
    ensures { IfOk result (λ samples. samples.items
        ≡ captured_runs card.now (option_copied capture.entry) bindings (unlined_runs runs.now)) }
{
    let mut samples = Vec::new(alloc);
    for (_, first, count) in runs {
        push_run(&mut samples, card, capture, bindings, *first, *count)?;
    }
    Ok(samples)
}

/// What the reader of this number and line recorded.
fn samples_of_reader(
    alloc: Global,
    card: &CardLine,
    capture: Option<&Wav>,
    report: &Report,
    number: u32,
    line: &ReaderLine,
) -> Result<Vec<i16>, AllocError>
    requires card { IsCardLine card.now }
    requires few { line_of_end report.now < 2 ^ 32 }
    requires end { report.now.first + report.now.frames + 1 < 2 ^ 64 }
    requires reader { reader_defect report.now number ≡ None }
    ensures { IfOk result (λ samples. samples.items
        ≡ reader_samples card.now (option_copied capture.entry) report.now number line.now) }
{
    let runs = runs_with_lines(
        alloc,
        number,
        first_run_line(report),
        report.runs.as_slice(),
    )?;
    recorded_runs(alloc, card, capture, read_by(card, line), runs.as_slice())
}

/// The samples that the reader of this number recorded, interleaved, as a report says that `tested_report` gave for this script:
/// the frames of its runs as the card captured them, through the reader's bindings. `capture` is the sound of the card's capture
/// file, where it has one; where that has no sample, 0 is captured. They are so few that a WAV file holds them.
///
/// The only error is want of memory.
pub fn reader_samples(
    alloc: Global,
    script: &Script,
    capture: Option<&Wav>,
    report: &Report,
    number: u32,
) -> Result<Vec<i16>, AllocError>
    requires script { IsScript script.now }
    requires tested { HasTestedRuns script.now report.now }
    requires number { number < length script.now.readers }
    ensures samples { IfOk result (λ samples. samples.items
        ≡ slice_index_or (readers_samples script.now.card (option_copied capture.entry) report.now 0
        script.now.readers) number []) }
    ensures few { IfOk result (λ samples. length samples.items * 2 + 36 < 2 ^ 32) }
{
    let line = line_of_reader(script, number);
    samples_of_reader(alloc, &script.card, capture, report, number, line)
}

/// What each reader of a script recorded.
pub(crate) fn readers_samples(
    alloc: Global,
    script: &Script,
    capture: Option<&Wav>,
    report: &Report,
) -> Result<Vec<Vec<i16>>, AllocError>
    requires script { IsScript script.now }
    requires tested { HasTestedRuns script.now report.now }
    ensures { IfOk result (λ recorded. recordings_of recorded.items
        ≡ readers_samples script.now.card (option_copied capture.entry) report.now 0
        script.now.readers) }
{
    let mut recorded = Vec::new(alloc);
    let mut number = 0;
    for line in script.readers.as_slice() {
        let samples = samples_of_reader(alloc, &script.card, capture, report, number, line)?;
        recorded.push(samples)?;
        number += 1;
    }
    Ok(recorded)
}
