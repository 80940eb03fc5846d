//! Whether a reader's rows read the frames of its runs.
ghost use Rattle.std.specs.Prelude.{◌≡◌, ◌≤◌, ◌<◌, ◌^◌, ◌+◌, IfOk, IfSome, None, length, option_map};
ghost use Rattle.lab_run.specs.Phases.{is_reader};
ghost use Rattle.lab_run.specs.Stretches.{ends_by_row, got_by};
ghost use Rattle.lab_check.specs.Reads.{after_row, end_defect, is_next, is_run_within, reads_end, run_defect, runs_with_lines, taken_by};
ghost use Rattle.lab_check.specs.Unread.{RunsFit, unread_of, with_head};

use lab_lines::{Actor, Answer, Op, Row};
use snd_base::PcmError;
use std::alloc::{AllocError, Global};

/// The runs of a reader, each with its line; the first of all runs is on this one.
pub(crate) fn runs_with_lines(
    alloc: Global,
    number: u32,
    line: u32,
    runs: &[(u32, u64, u64)],
) -> Result<Vec<(u32, u64, u64)>, AllocError>
    requires { line + length runs.now < 2 ^ 32 }
    ensures { IfOk result (λ own. own.items ≡ runs_with_lines number line runs.now) }
{
    let mut own = Vec::new(alloc);
    let mut at = line;
    for (reader, first, count) in runs {
        if *reader == number {
            own.push((at, *first, *count))?;
        }
        at += 1;
    }
    Ok(own)
}

/// Whether a run has a frame, and all of them from a least one on and before the end.
fn is_run_within(least: u64, end: u64, first: u64, count: u64) -> bool
    ensures { result ≡ is_run_within least end first count }
{
    count > 0 && least <= first && first <= end && count <= end - first
}

/// The line of the first run that isn't among the captured frames, which are from `least` to before `end`, or isn't behind the
/// run before it.
pub(crate) fn run_defect(least: u64, end: u64, runs: &[(u32, u64, u64)]) -> Option<u32>
    requires { end + 1 < 2 ^ 64 }
    ensures { result ≡ run_defect least end runs.now }
{
    let mut from = least;
    for (line, first, count) in runs {
        if !is_run_within(from, end, *first, *count) {
            return Some(*line);
        }
        from = *first + *count + 1;
    }
    None
}

/// What is left of a reader's runs: the frame at which its stretch goes on, what is left of the run that is being taken, and the
/// runs after it.
#[derive(Clone, Copy)]
pub struct RunsLeft<'a> {
    next: Option<u64>,
    head: Option<(u32, u64, u64)>,
    more: &'a [(u32, u64, u64)],
}

/// How many frames a row of a reader got.
fn got_by(op: Op, answer: Answer) -> u64
    ensures { result ≡ got_by op answer }
{
    match (op, answer) {
        (Op::Read(_), Answer::Count(count)) => count,
        _ => 0,
    }
}

/// Whether a row ends a stretch.
fn ends_by_row(op: Op, answer: Answer) -> bool
    ensures { result ≡ ends_by_row op answer }
{
    match (op, answer) {
        (Op::Drop | Op::Closes, _) => true,
        (_, Answer::Failed(PcmError::Xrun(_) | PcmError::Stopped)) => true,
        _ => false,
    }
}

/// Whether a stretch that goes on at a frame goes on with this one.
fn is_next(next: Option<u64>, first: u64) -> bool
    ensures { result ≡ is_next next first }
{
    match next {
        None => true,
        Some(frame) => first == frame,
    }
}

/// All of some runs, the first of which is to be taken.
fn all_left(next: Option<u64>, runs: &[(u32, u64, u64)]) -> RunsLeft<'_>
    ensures { unread_of result ≡ (next, runs.now) }
{
    match runs {
        [] => RunsLeft {
            next,
            head: None,
            more: runs,
        },
        [head, more @ ..] => RunsLeft {
            next,
            head: Some(*head),
            more,
        },
    }
}

/// What is left after a row that got so many frames, if they are the next ones of the run that is being taken.
fn taken_by<'a>(rest: RunsLeft<'a>, ends: bool, got: u64) -> Option<RunsLeft<'a>>
    requires { RunsFit (with_head rest.head rest.more.now) }
    ensures after { option_map unread_of result
        ≡ taken_by ends got rest.entry.next (with_head rest.entry.head rest.entry.more.now) }
    ensures below { IfSome result (λ left. RunsFit (with_head left.head left.more.now)) }
{
    if got == 0 {
        let next = if ends { None } else { rest.next };
        return Some(RunsLeft {
            next,
            head: rest.head,
            more: rest.more,
        });
    }
    match rest.head {
        None => None,
        Some((line, first, count)) => {
            if !is_next(rest.next, first) || count < got {
                return None;
            }
            let next = if ends { None } else { Some(first + got) };
            if got == count {
                return Some(all_left(next, rest.more));
            }
            Some(RunsLeft {
                next,
                head: Some((line, first + got, count - got)),
                more: rest.more,
            })
        }
    }
}

/// What is left after a row of the reader, if it can have read what it says.
fn after_row<'a>(rest: RunsLeft<'a>, op: Op, answer: Answer) -> Option<RunsLeft<'a>>
    requires { RunsFit (with_head rest.head rest.more.now) }
    ensures after { option_map unread_of result ≡ after_row (unread_of rest.entry) op answer }
    ensures below { IfSome result (λ left. RunsFit (with_head left.head left.more.now)) }
{
    taken_by(rest, ends_by_row(op, answer), got_by(op, answer))
}

/// Whether an actor is the reader of a number.
fn is_reader(number: u32, actor: Actor) -> bool
    ensures { result ≡ is_reader number actor }
{
    match actor {
        Actor::Reader(own) => own == number,
        _ => false,
    }
}

/// The line of the first row of a reader that can't have read what it says, or of the first of its runs that isn't wholly taken.
pub(crate) fn read_defect(number: u32, runs: &[(u32, u64, u64)], rows: &[Row]) -> Option<u32>
    requires few { length rows.now + 2 < 2 ^ 32 }
    requires below { RunsFit runs.now }
    ensures { result ≡ end_defect (reads_end number 2 (None, runs.now) rows.now) }
{
    let mut rest = all_left(None, runs);
    let mut line = 2;
    for row in rows {
        if is_reader(number, row.actor) {
            match after_row(rest, row.op, row.answer) {
                Some(left) => rest = left,
                None => return Some(line),
            }
        }
        line += 1;
    }
    match rest.head {
        Some((line, _, _)) => Some(line),
        None => None,
    }
}
