//! The numbers of a report are within their types: a fact for contracts, which each number's type gives where it is read.
ghost use Rattle.std.specs.Prelude.{◌≤◌};
ghost use Rattle.lab_report.specs.Ranges.{IsAnswerInRange, IsErrorInRange, IsOpInRange, IsReportInRange, IsWide, IsWideWhere, IsXrunInRange};

use lab_lines::{Answer, Op, Report};
use snd_base::{PcmError, XrunWhy};

/// Reads a number.
fn read_number(number: u64)
    ensures { IsWide number }
{}

/// Reads a position, where there is one.
fn read_seen(seen: Option<u64>)
    ensures { IsWideWhere seen }
{
    if let Some(position) = seen {
        read_number(position);
    }
}

/// Reads a channel, or a number of channels.
fn read_channels(channels: u8)
    ensures { channels ≤ 255 }
{}

/// Reads what a line asks for.
fn read_op(op: Op)
    ensures { IsOpInRange op }
{
    match op {
        Op::Play(n) | Op::Write(n) | Op::Read(n) | Op::Rewind(n) | Op::Die(n) => {
            read_number(u64::from(n))
        }
        _ => {}
    }
}

/// Reads why there was an xrun.
fn read_xrun(why: XrunWhy)
    ensures { IsXrunInRange why }
{
    match why {
        XrunWhy::Empty | XrunWhy::Already => {}
        XrunWhy::Avail { avail, .. } => read_number(avail),
        XrunWhy::Late { frame, channel, .. } | XrunWhy::Overtaken { frame, channel, .. } => {
            read_number(frame);
            read_channels(channel);
        }
    }
}

/// Reads a refusal.
fn read_error(error: PcmError)
    ensures { IsErrorInRange error }
{
    match error {
        PcmError::Xrun(why) => read_xrun(why),
        PcmError::Busy { until, seen } => {
            read_seen(until);
            read_number(seen);
        }
        _ => {}
    }
}

/// Reads an answer.
fn read_answer(answer: Answer)
    ensures { IsAnswerInRange answer }
{
    match answer {
        Answer::Done => {}
        Answer::Count(n) => read_number(n),
        Answer::Failed(error) => read_error(error),
    }
}

/// The numbers of each report that a program has are within their types, so that its text is read back as
/// the same report (`print_report`).
///
/// It reads each number, and does nothing else.
pub fn numbers_are_in_range(report: &Report)
    ensures { IsReportInRange report.now }
{
    for row in report.rows.as_slice() {
        read_number(u64::from(row.phase));
        read_op(row.op);
        read_answer(row.answer);
        read_seen(row.seen);
    }
    for (_client, segment) in report.segments.as_slice() {
        read_number(segment.source);
        read_number(segment.card);
        read_number(segment.whole);
        read_channels(segment.part);
    }
    for (_reader, first, count) in report.runs.as_slice() {
        read_number(*first);
        read_number(*count);
    }
    read_number(report.first);
    read_number(report.frames);
}
