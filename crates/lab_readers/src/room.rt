//! The room that a reader's lines want.
ghost use Rattle.std.specs.Prelude.{◌≡◌, ◌+◌, IfSome, if◌then◌else◌, max};
ghost use Rattle.lab_lines.specs.declared.line.Line.{Line};
ghost use Rattle.lab_run.specs.Phases.{ops_by, played_at, played_in};
ghost use Rattle.lab_actors.specs.Lines.{is_actor};
ghost use Rattle.lab_readers.specs.Room.{asked_by, frames_wanted};

use lab_actors::is_of;
use lab_lines::{Actor, Line, Op};

/// The greatest start threshold that a script's reader has.
const MOST_START: u64 = 65536;

/// How many frames a line of a client or reader asks to read. A line of another actor asks for none.
fn frames_of(line: &Line, actor: Actor) -> u32
    ensures { result ≡ (if is_actor actor line.now.actor then asked_by line.now.op else 0) }
{
    if !is_of(line, actor) {
        return 0;
    }
    match line.op {
        Op::Read(frames) => frames,
        _ => 0,
    }
}

/// How many frames the card plays by a line.
fn frames_played(line: &Line) -> u32
    ensures { result ≡ played_at line.now }
{
    match (line.actor, line.op) {
        (Actor::Card, Op::Play(frames)) => frames,
        _ => 0,
    }
}

/// How many frames the card plays in a phase, where that is a `u64`.
fn phase_frames(lines: &[Line]) -> Option<u64>
    ensures { IfSome result (λ frames. frames ≡ played_in lines.now) }
{
    let mut frames: u64 = 0;
    for index in 0..lines.len() {
        frames = frames.checked_add(frames_played(&lines[index]) as u64)?;
    }
    Some(frames)
}

/// The most frames for which a reader with this start threshold gets room in a phase, at a ring of so many frames, where that
/// is a `u64`.
pub(crate) fn most_wanted(lines: &[Line], ring: u32, start: u64) -> Option<u64>
    ensures { IfSome result (λ most. most ≡ ring + played_in lines.now + max start 65536) }
{
    let held = phase_frames(lines)?.checked_add(ring as u64)?;
    held.checked_add(start.max(MOST_START))
}

/// How many frames an actor's lines of a phase get room for: as many as they ask to read, and no more than `most`.
pub(crate) fn frames_wanted(lines: &[Line], actor: Actor, most: u64) -> u64
    ensures { result ≡ frames_wanted most (ops_by (is_actor actor) lines.now) }
{
    let mut frames: u64 = 0;
    for index in 0..lines.len() {
        frames += (frames_of(&lines[index], actor) as u64).min(most - frames);
    }
    frames
}
