//! The answers and states of rows, as they are read.
ghost use Rattle.std.specs.Prelude.{◌≡◌};
ghost use Rattle.lab_report.specs.Answers.{frame_and_channel, xrun_by, longer_answer, answer_at, state_at};
ghost use Rattle.lab_report.specs.Causes.{Gives};

use crate::error::ReportWhy;
use crate::numbers::{next_number, number_or_dash_at};
use crate::words::{space_of, word_of};
use lab_lines::Answer;
use pcm_states::State;
use snd_base::{PcmError, Why, XrunWhy};
use text_words::{decimal_of, row_of};

/// The answers of one word.
const PLAIN_ANSWERS: [(&[u8], Answer); 7] = [
    (b"ok", Answer::Done),
    (b"EBADFD", Answer::Failed(PcmError::BadState)),
    (b"EAGAIN", Answer::Failed(PcmError::Again)),
    (b"ENODEV", Answer::Failed(PcmError::NoDevice)),
    (b"EINVAL", Answer::Failed(PcmError::Invalid(Why::Config))),
    (b"EIO", Answer::Failed(PcmError::NotSupported)),
    (b"stopped", Answer::Failed(PcmError::Stopped)),
];

/// The states that a row can have, by their names.
const STATES: [(&[u8], State); 8] = [
    (b"OPEN", State::Open),
    (b"SETUP", State::Setup),
    (b"PREPARED", State::Prepared),
    (b"RUNNING", State::Running),
    (b"XRUN", State::Xrun),
    (b"DRAINING", State::Draining),
    (b"PAUSED", State::Paused),
    (b"DISCONNECTED", State::Disconnected),
];

/// A frame and a channel.
fn place_of(rest: &[u8]) -> Result<((u64, u8), &[u8]), ReportWhy>
    ensures { Gives (λ p. (p.0, p.1.now)) result (frame_and_channel rest.now) }
{
    let (frame, rest) = next_number(u64::MAX, rest)?;
    let (channel, rest) = next_number(255, rest)?;
    Ok(((frame, channel as u8), rest))
}

/// Why there was an xrun, by its first word.
fn xrun_by<'a>(word: &[u8], rest: &'a [u8]) -> Result<(XrunWhy, &'a [u8]), ReportWhy>
    ensures { Gives (λ x. (x.0, x.1.now)) result (xrun_by word.now rest.now) }
{
    if word == b"empty".as_slice() {
        Ok((XrunWhy::Empty, rest))
    } else if word == b"already".as_slice() {
        Ok((XrunWhy::Already, rest))
    } else if word == b"avail".as_slice() {
        let (avail, rest) = next_number(u64::MAX, rest)?;
        Ok((XrunWhy::Avail { avail, seen: 0 }, rest))
    } else if word == b"late".as_slice() {
        let ((frame, channel), rest) = place_of(rest)?;
        let why = XrunWhy::Late {
            frame,
            channel,
            seen: 0,
        };
        Ok((why, rest))
    } else if word == b"overtaken".as_slice() {
        let ((frame, channel), rest) = place_of(rest)?;
        let why = XrunWhy::Overtaken {
            frame,
            channel,
            seen: 0,
        };
        Ok((why, rest))
    } else {
        Err(ReportWhy::Word)
    }
}

/// An answer of more than one word, or a number of frames: `EPIPE` and why there was an xrun, or `EBUSY`, until when no
/// place is free, and the position.
fn longer_answer<'a>(word: &[u8], rest: &'a [u8]) -> Result<(Answer, &'a [u8]), ReportWhy>
    ensures { Gives (λ a. (a.0, a.1.now)) result (longer_answer word.now rest.now) }
{
    if word == b"EPIPE".as_slice() {
        let rest = space_of(rest)?;
        let (word, rest) = word_of(rest)?;
        let (why, rest) = xrun_by(word, rest)?;
        Ok((Answer::Failed(PcmError::Xrun(why)), rest))
    } else if word == b"EBUSY".as_slice() {
        let rest = space_of(rest)?;
        let (until, rest) = number_or_dash_at(rest)?;
        let (seen, rest) = next_number(u64::MAX, rest)?;
        Ok((Answer::Failed(PcmError::Busy { until, seen }), rest))
    } else {
        match decimal_of(u64::MAX, word) {
            Some(n) => Ok((Answer::Count(n), rest)),
            None => Err(ReportWhy::Word),
        }
    }
}

/// An answer, and the rest.
pub fn answer_at(rest: &[u8]) -> Result<(Answer, &[u8]), ReportWhy>
    ensures { Gives (λ a. (a.0, a.1.now)) result (answer_at rest.now) }
{
    let (word, rest) = word_of(rest)?;
    match row_of(&PLAIN_ANSWERS, word) {
        Some(answer) => Ok((answer, rest)),
        None => longer_answer(word, rest),
    }
}

/// A state, and the rest.
pub fn state_at(rest: &[u8]) -> Result<(State, &[u8]), ReportWhy>
    ensures { Gives (λ s. (s.0, s.1.now)) result (state_at rest.now) }
{
    let (word, rest) = word_of(rest)?;
    match row_of(&STATES, word) {
        Some(state) => Ok((state, rest)),
        None => Err(ReportWhy::Word),
    }
}
