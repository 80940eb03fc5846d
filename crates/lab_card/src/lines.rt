//! The lines of a card in a phase.
ghost use Rattle.std.specs.Prelude.{◌≡◌, ◌↔◌, IsTrue, ◌+◌, ◌^◌, ◌<◌, ◌≤◌, ◌∷◌, [], length};
ghost use Rattle.lab_lines.specs.Script.{is_of_card, played_by};
ghost use Rattle.lab_run.specs.Phases.{card_row, ops_by};
ghost use Rattle.lab_card.specs.CardLines.{frames_by};

use lab_lines::{Actor, Answer, Line, Op, Row};
use pcm_states::State;

/// Whether a line is the card's.
pub(crate) fn is_of_card(line: &Line) -> bool
    ensures { result ≡ is_of_card line.now.actor }
{
    match line.actor {
        Actor::Card => true,
        _ => false,
    }
}

/// How many of a phase's lines are the card's: it has so many rows of the phase.
pub fn line_count(lines: &[Line]) -> usize
    ensures value { result ≡ length (ops_by is_of_card lines.now) }
    ensures most { result ≤ length lines.now }
{
    let mut count = 0;
    for index in 0..lines.len() {
        count += is_of_card(&lines[index]) as usize;
    }
    count
}

/// How many frames the card plays by what is asked for.
fn played_by(asked: Op) -> u32
    ensures { result ≡ played_by asked }
{
    match asked {
        Op::Play(frames) => frames,
        _ => 0,
    }
}

/// How many frames the card plays by a line: none by the line of another actor.
fn played_at(line: &Line) -> u32
    ensures { result ≡ frames_by (ops_by is_of_card (line.now ∷ [])) }
{
    if is_of_card(line) {
        played_by(line.op)
    } else {
        0
    }
}

/// Whether the card plays at most so many frames in a phase.
pub(crate) fn plays_at_most(lines: &[Line], most: u64) -> bool
    ensures { IsTrue result ↔ (frames_by (ops_by is_of_card lines.now) ≤ most) }
{
    let mut left = most;
    for index in 0..lines.len() {
        let frames = played_at(&lines[index]) as u64;
        if left < frames {
            return false;
        }
        left -= frames;
    }
    true
}

/// How many frames the card plays in a phase. The caller knows that they are fewer than 2^63.
pub fn frame_count(lines: &[Line]) -> u64
    requires { frames_by (ops_by is_of_card lines.now) < 2 ^ 63 }
    ensures { result ≡ frames_by (ops_by is_of_card lines.now) }
{
    let mut count = 0;
    for index in 0..lines.len() {
        count += played_at(&lines[index]) as u64;
    }
    count
}

/// The row of a line of the card, which was at a position after it.
pub(crate) fn row_of(phase: u32, asked: Op, position: u64, after: u64) -> Row
    requires { after ≡ position + played_by asked }
    ensures { result ≡ card_row phase position asked }
{
    let (answer, state) = match asked {
        Op::Unplug => (Answer::Done, State::Disconnected),
        other => (Answer::Count(played_by(other) as u64), State::Running),
    };
    Row {
        phase,
        actor: Actor::Card,
        op: asked,
        answer,
        state,
        seen: Some(after),
    }
}
