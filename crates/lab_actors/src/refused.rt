//! The lines of an actor that isn't open.
ghost use Rattle.std.specs.Prelude.{◌≡◌, ◌++◌, ℕ};
ghost use Rattle.lab_run.specs.Phases.{ops_by};
ghost use Rattle.lab_actors.specs.Refused.{AreRefused, refused_rows};
ghost use Rattle.lab_actors.specs.Room.{HasSpace};
ghost use Rattle.lab_actors.specs.Lines.{is_actor, line_count};

use crate::room::{is_of, push_row};
use lab_lines::{Actor, Answer, Line, Row};
use lab_run::lines_without_calls;
use pcm_states::State;
use snd_base::PcmError;

/// Appends the rows of a client's or reader's lines in a phase in which it isn't open: each is answered `BadState` (EBADFD),
/// in OPEN, and nothing is done. There is room for them (`line_count`).
///
/// The rows are the actor's part of a run: `part` says so.
pub fn refuse_lines(rows: &mut Vec<Row>, actor: Actor, phase: u32, lines: &[Line])
    requires { HasSpace (line_count actor lines.now) rows.old }
    ensures rows { rows.new.items ≡ rows.old.items
        ++ refused_rows phase actor (ops_by (is_actor actor) lines.now) }
    ensures part { (number : ℕ) → AreRefused phase number (ops_by (is_actor actor) lines.now) }
{
    lines_without_calls();
    for index in 0..lines.len() {
        let line = &lines[index];
        if is_of(line, actor) {
            let row = Row {
                phase,
                actor,
                op: line.op,
                answer: Answer::Failed(PcmError::BadState),
                state: State::Open,
                seen: None,
            };
            push_row(rows, row);
        }
    }
}
