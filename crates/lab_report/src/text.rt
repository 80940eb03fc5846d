//! The texts of a report's parts.
ghost use Rattle.std.specs.Prelude.{◌≡◌, ◌++◌, ◌<◌, length, string_bytes, OnOk};
ghost use Rattle.lab_lines.specs.Limits.{IsActor};
ghost use Rattle.lab_report.specs.Text.{client_name, reader_name, actor_name, number_or_dash, xrun_text, error_front, error_rest, answer_text, front_text, row_line, segment_line, run_line, HasErrorText, HasText, IsRowOf};

use lab_lines::{Actor, Answer, Request, Row, Script};
use lab_script::push_op;
use snd_base::{PcmError, Segment, XrunWhy};
use std::alloc::AllocError;

/// The name of the client of this number.
fn client_name(script: &Script, number: u32) -> &str
    requires { number < length script.now.clients }
    ensures { result.now ≡ client_name script.now number }
{
    script.clients.as_slice()[number as usize].name.as_str()
}

/// The name of the reader of this number.
fn reader_name(script: &Script, number: u32) -> &str
    requires { number < length script.now.readers }
    ensures { result.now ≡ reader_name script.now number }
{
    script.readers.as_slice()[number as usize].name.as_str()
}

/// The name of who does something.
fn actor_name(script: &Script, actor: Actor) -> &str
    requires { IsActor (length script.now.clients) (length script.now.readers) actor }
    ensures { result.now ≡ actor_name script.now actor }
{
    match actor {
        Actor::Card => "card",
        Actor::Client(number) => client_name(script, number),
        Actor::Reader(number) => reader_name(script, number),
    }
}

/// Appends a number, or `-` where there is none.
fn push_number(text: &mut String, number: Option<u64>) -> Result<(), AllocError>
    ensures { OnOk result (string_bytes text.new ≡ string_bytes text.old ++ number_or_dash number) }
{
    match number {
        Some(value) => write!(text, "{value}"),
        None => text.push_str("-"),
    }
}

/// Appends why there was an xrun.
fn push_xrun(text: &mut String, why: XrunWhy) -> Result<(), AllocError>
    ensures { OnOk result (string_bytes text.new ≡ string_bytes text.old ++ xrun_text why) }
{
    match why {
        XrunWhy::Empty => text.push_str("empty"),
        XrunWhy::Already => text.push_str("already"),
        XrunWhy::Avail { avail, .. } => write!(text, "avail {avail}"),
        XrunWhy::Late { frame, channel, .. } => write!(text, "late {frame} {channel}"),
        XrunWhy::Overtaken { frame, channel, .. } => write!(text, "overtaken {frame} {channel}"),
    }
}

/// What a refusal's text begins with: the name of its error number, or `stopped`.
fn error_front(error: PcmError) -> &'static str
    requires { HasErrorText error }
    ensures { result.now ≡ error_front error }
{
    match error {
        PcmError::BadState => "EBADFD",
        PcmError::Xrun(_) => "EPIPE ",
        PcmError::Again => "EAGAIN",
        PcmError::NoDevice => "ENODEV",
        PcmError::Invalid(_) => "EINVAL",
        PcmError::Busy { .. } => "EBUSY ",
        PcmError::NotSupported => "EIO",
        PcmError::Stopped => "stopped",
        PcmError::LapEnd | PcmError::Memory => unreachable!(),
    }
}

/// Appends what a refusal's text says after its front.
fn push_rest(text: &mut String, error: PcmError) -> Result<(), AllocError>
    ensures { OnOk result (string_bytes text.new ≡ string_bytes text.old ++ error_rest error) }
{
    match error {
        PcmError::Xrun(why) => push_xrun(text, why),
        PcmError::Busy { until, seen } => {
            push_number(text, until)?;
            write!(text, " {seen}")
        }
        _ => Ok(()),
    }
}

/// Appends an answer. A refusal is the name of its error number, and what is said after it.
#[tactic(auto, using(crate::proofs::RowLine::error_text_parts))]
fn push_answer(text: &mut String, answer: Answer) -> Result<(), AllocError>
    requires { HasText answer }
    ensures { OnOk result (string_bytes text.new ≡ string_bytes text.old ++ answer_text answer) }
{
    match answer {
        Answer::Done => text.push_str("ok"),
        Answer::Count(number) => write!(text, "{number}"),
        Answer::Failed(error) => {
            text.push_str(error_front(error))?;
            push_rest(text, error)
        }
    }
}

/// Appends what a row is about, up to its `=`.
pub fn push_front(text: &mut String, script: &Script, request: Request) -> Result<(), AllocError>
    requires { IsActor (length script.now.clients) (length script.now.readers) request.actor }
    ensures { OnOk result
        (string_bytes text.new ≡ string_bytes text.old ++ front_text script.now request) }
{
    let phase = request.phase;
    let name = actor_name(script, request.actor);
    write!(text, "{phase} {name} ")?;
    push_op(request.op, text)?;
    write!(text, " =")
}

/// Appends the line of a row.
pub fn push_row(text: &mut String, script: &Script, row: &Row) -> Result<(), AllocError>
    requires { IsRowOf script.now row.now }
    ensures { OnOk result
        (string_bytes text.new ≡ string_bytes text.old ++ row_line script.now row.now) }
{
    push_front(text, script, row.request())?;
    write!(text, " ")?;
    push_answer(text, row.answer)?;
    let state = row.state;
    write!(text, " {state} ")?;
    push_number(text, row.seen)?;
    writeln!(text)
}

/// Appends the line of a segment of the client of this number.
pub fn push_segment(
    text: &mut String,
    script: &Script,
    client: u32,
    segment: &Segment,
) -> Result<(), AllocError>
    requires { client < length script.now.clients }
    ensures { OnOk result
        (string_bytes text.new ≡ string_bytes text.old
        ++ segment_line script.now (client, segment.now)) }
{
    let name = client_name(script, client);
    let source = segment.source;
    let card = segment.card;
    let whole = segment.whole;
    let part = segment.part;
    write!(text, "segment {name} {source} {card}")?;
    writeln!(text, " {whole} {part}")
}

/// Appends the line of a run of the reader of this number.
pub fn push_run(
    text: &mut String,
    script: &Script,
    reader: u32,
    first: u64,
    count: u64,
) -> Result<(), AllocError>
    requires { reader < length script.now.readers }
    ensures { OnOk result
        (string_bytes text.new ≡ string_bytes text.old
        ++ run_line script.now (reader, first, count)) }
{
    let name = reader_name(script, reader);
    writeln!(text, "run {name} {first} {count}")
}
