//! Which lines are an actor's, and the room for their rows.
ghost use Rattle.std.specs.Prelude.{◌≡◌, ◌<◌, ◌≤◌, ◌+◌, ◌++◌, ◌∷◌, [], length, vec_capacity, vec_len};
ghost use Rattle.lab_lines.specs.declared.line.Line.{Line};
ghost use Rattle.lab_actors.specs.Lines.{is_actor, line_count};

use lab_lines::{Actor, Line, Row};

/// Whether a line is a client's or a reader's.
pub fn is_of(line: &Line, actor: Actor) -> bool
    ensures { result ≡ is_actor actor line.now.actor }
{
    match (actor, line.actor) {
        (Actor::Client(number), Actor::Client(other)) => other == number,
        (Actor::Reader(number), Actor::Reader(other)) => other == number,
        _ => false,
    }
}

/// How many of a phase's lines are a client's or a reader's: it has so many rows of the phase.
pub fn line_count(lines: &[Line], actor: Actor) -> usize
    ensures value { result ≡ line_count actor lines.now }
    ensures most { result ≤ length lines.now }
{
    let mut count = 0;
    for index in 0..lines.len() {
        count += is_of(&lines[index], actor) as usize;
    }
    count
}

/// Appends a row, for which there is room.
pub fn push_row(rows: &mut Vec<Row>, row: Row)
    requires { vec_len rows.old < vec_capacity rows.old }
    ensures items { rows.new.items ≡ rows.old.items ++ row ∷ [] }
    ensures room { vec_capacity rows.old ≤ vec_capacity rows.new }
    ensures one { vec_len rows.new ≡ vec_len rows.old + 1 }
{
    rows.push(row).unwrap();
}
