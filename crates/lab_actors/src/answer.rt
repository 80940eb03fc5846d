//! The answers of calls, as a report has them.
ghost use Rattle.std.specs.Prelude.{◌≡◌};
ghost use Rattle.lab_run.specs.Client.{count_answer, done_answer, reported_error};

use lab_lines::Answer;
use snd_base::{PcmError, Why, XrunWhy};

/// An error as a report has it: without the word or position that was found, and without which argument was invalid.
fn reported(error: PcmError) -> PcmError
    ensures { result ≡ reported_error error }
{
    match error {
        PcmError::Xrun(why) => PcmError::Xrun(reported_xrun(why)),
        PcmError::Invalid(_) => PcmError::Invalid(Why::Config),
        other => other,
    }
}

/// An xrun as a report has it.
fn reported_xrun(why: XrunWhy) -> XrunWhy
    ensures { PcmError.Xrun result ≡ reported_error (PcmError.Xrun why) }
{
    match why {
        XrunWhy::Avail { avail, .. } => XrunWhy::Avail { avail, seen: 0 },
        XrunWhy::Late { frame, channel, .. } => XrunWhy::Late {
            frame,
            channel,
            seen: 0,
        },
        XrunWhy::Overtaken { frame, channel, .. } => XrunWhy::Overtaken {
            frame,
            channel,
            seen: 0,
        },
        other => other,
    }
}

/// The answer of a call without a number: `Done`, or `Failed` with the error as a report has it.
pub fn done_answer(end: Result<(), PcmError>) -> Answer
    ensures { result ≡ done_answer end }
{
    match end {
        Ok(()) => Answer::Done,
        Err(error) => Answer::Failed(reported(error)),
    }
}

/// The answer of a call with a number of frames: `Count`, or `Failed` with the error as a report has it.
pub fn count_answer(end: Result<u64, PcmError>) -> Answer
    ensures { result ≡ count_answer end }
{
    match end {
        Ok(frames) => Answer::Count(frames),
        Err(error) => Answer::Failed(reported(error)),
    }
}

/// The answer of a call that writes or reads frames: `Count`, or `Failed` with the error as a report has it.
pub fn moved_answer(end: Result<u32, PcmError>) -> Answer
    ensures { result ≡ count_answer end }
{
    match end {
        Ok(frames) => Answer::Count(frames as u64),
        Err(error) => Answer::Failed(reported(error)),
    }
}
