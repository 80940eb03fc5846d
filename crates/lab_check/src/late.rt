//! Whether the late rows of a report can be.
ghost use Rattle.std.specs.Prelude.{◌≡◌, ◌≤◌, ◌<◌, ◌^◌, ◌+◌, ◌*◌, All, IfOk, List, ℕ, length, map, not, slice_get, true};
ghost use Rattle.std.specs.List.{list_any, position};
ghost use Rattle.wav_io.specs.Sound.{Sound};
ghost use Rattle.lab_lines.specs.declared.report.Report.{Report};
ghost use Rattle.lab_lines.specs.declared.script.Script.{Script};
ghost use Rattle.lab_lines.specs.Limits.{IsScript};
ghost use Rattle.run_laws.specs.LateRows.{is_rewind};
ghost use Rattle.lab_check.specs.Late.{covers, is_covered, is_right_row, late_place};
ghost use Rattle.lab_check.specs.Segments.{is_right_segment};
ghost use Rattle.lab_check.specs.Spans.{AreIndexes, has_client_sample, is_in_index, is_in_some, is_in_span};

use crate::channels::bound_by;
use crate::covering::last_on;
use crate::sources::source_of;
use crate::spans::{FrameSpan, SpanIndex, push_span, span_of};
use lab_lines::{Actor, Answer, Op, Report, Row, Script};
use snd_base::{PcmError, Segment, XrunWhy};
use std::alloc::{AllocError, Global};
use wav_io::Wav;

/// The frame and channel that a late answer names.
fn late_place(answer: Answer) -> Option<(u64, u8)>
    ensures { result ≡ late_place answer }
{
    match answer {
        Answer::Failed(PcmError::Xrun(XrunWhy::Late { frame, channel, .. })) => {
            Some((frame, channel))
        }
        _ => None,
    }
}

/// Whether a rewind is asked for.
fn is_rewind(op: Op) -> bool
    ensures { result ≡ is_rewind op }
{
    match op {
        Op::Rewind(_) => true,
        _ => false,
    }
}

/// The frames at which a segment has a sample on a channel, where it is of the client of this number.
fn client_span(
    script: &Script,
    wavs: &[Wav],
    number: u32,
    channel: u8,
    client: u32,
    segment: &Segment,
) -> Option<FrameSpan>
    requires { is_right_segment script.now wavs.now (client, segment.now) ≡ true }
    ensures { (frame : ℕ) → frame < 2 ^ 64 → is_in_some frame result
        ≡ covers script.now wavs.now number frame channel (client, segment.now) }
{
    if client != number {
        return None;
    }
    match source_of(script, wavs, client) {
        Some((line, wav)) => {
            let last = last_on(bound_by(line, wav), segment, channel);
            span_of(segment.card, last)
        }
        None => None,
    }
}

/// The frames at which the segments of a client have samples on a channel.
fn client_spans(
    alloc: Global,
    script: &Script,
    wavs: &[Wav],
    segments: &[(u32, Segment)],
    number: u32,
    channel: u8,
) -> Result<Vec<FrameSpan>, AllocError>
    requires { All (λ segment. is_right_segment script.now wavs.now segment ≡ true) segments.now }
    ensures { IfOk result (λ spans. (frame : ℕ) → frame < 2 ^ 64
        → list_any (is_in_span frame) spans.items
        ≡ has_client_sample script.now wavs.now segments.now number channel frame) }
{
    let mut spans = Vec::new(alloc);
    for (client, segment) in segments {
        let span = client_span(script, wavs, number, channel, *client, segment);
        push_span(&mut spans, span)?;
    }
    Ok(spans)
}

/// The same, sorted, for each client and channel: channel by channel of the first client, and so on.
fn span_indexes(
    alloc: Global,
    script: &Script,
    wavs: &[Wav],
    segments: &[(u32, Segment)],
) -> Result<Vec<SpanIndex>, AllocError>
    requires script { IsScript script.now }
    requires right { All (λ segment. is_right_segment script.now wavs.now segment ≡ true)
        segments.now }
    ensures { IfOk result (λ indexes.
        AreIndexes script.now wavs.now segments.now indexes.items) }
{
    let channels = u32::from(script.card.channels);
    let count = script.clients.as_slice().len() as u32 * channels;
    let mut indexes = Vec::new(alloc);
    for place in 0..count {
        let number = place / channels;
        let channel = (place % channels) as u8;
        let spans = client_spans(alloc, script, wavs, segments, number, channel)?;
        indexes.push(SpanIndex::new(alloc, spans)?)?;
    }
    Ok(indexes)
}

/// Whether a frame is in a span of the index at a place, where there is one.
fn is_in_index(indexes: &[SpanIndex], place: usize, frame: u64) -> bool
    ensures { result ≡ is_in_index frame (slice_get indexes.now place) }
{
    match indexes.get(place) {
        Some(index) => index.has(frame),
        None => false,
    }
}

/// Whether a segment of an actor has a sample at a frame and channel, of a card with so many channels.
fn is_covered(indexes: &[SpanIndex], channels: u8, actor: Actor, frame: u64, channel: u8) -> bool
    ensures { (script : Script) (wavs : List Sound) (report : Report)
        → channels ≡ script.card.channels → channel < channels
        → AreIndexes script wavs report.segments indexes.now
        → result ≡ is_covered script wavs report actor frame channel }
{
    let Actor::Client(number) = actor else {
        return false;
    };
    let place = number as usize * channels as usize + channel as usize;
    is_in_index(indexes, place, frame)
}

/// Whether a row that is answered late names a channel of the card, and a place without a sample of its client, or, of a
/// rewind, one with a sample. Every other row is right.
fn is_right_row(script: &Script, indexes: &[SpanIndex], row: &Row) -> bool
    ensures { (wavs : List Sound) (report : Report)
        → AreIndexes script.now wavs report.segments indexes.now
        → result ≡ is_right_row script.now wavs report row.now }
{
    match late_place(row.answer) {
        None => true,
        Some((frame, channel)) => {
            let channels = script.card.channels;
            channel < channels
                && is_covered(indexes, channels, row.actor, frame, channel) == is_rewind(row.op)
        }
    }
}

/// Whether each row of a report can be, in order.
fn right_rows(
    alloc: Global,
    script: &Script,
    wavs: &[Wav],
    report: &Report,
) -> Result<Vec<bool>, AllocError>
    requires script { IsScript script.now }
    requires right { All (λ segment. is_right_segment script.now wavs.now segment ≡ true)
        report.now.segments }
    ensures { IfOk result (λ rights. rights.items
        ≡ map (is_right_row script.now wavs.now report.now) report.now.rows) }
{
    let indexes = span_indexes(alloc, script, wavs, report.segments.as_slice())?;
    let mut rights = Vec::new(alloc);
    for row in report.rows.as_slice() {
        rights.push(is_right_row(script, indexes.as_slice(), row))?;
    }
    Ok(rights)
}

/// The place of the first row that can't be.
pub(crate) fn wrong_row(
    alloc: Global,
    script: &Script,
    wavs: &[Wav],
    report: &Report,
) -> Result<Option<usize>, AllocError>
    requires script { IsScript script.now }
    requires right { All (λ segment. is_right_segment script.now wavs.now segment ≡ true)
        report.now.segments }
    ensures { IfOk result (λ place. place
        ≡ position (λ row. not (is_right_row script.now wavs.now report.now row)) report.now.rows) }
{
    let rights = right_rows(alloc, script, wavs, report)?;
    Ok(rights.iter().position(|right| !*right))
}
