//! How many frames the lines of a phase write, and how many clients have some.
ghost use Rattle.std.specs.Prelude.{◌≡◌, ◌↔◌, All, IsTrue, count_by};
ghost use Rattle.lab_lines.specs.declared.line.Line.{Line};
ghost use Rattle.lab_clients.specs.Lines.{IsFew};
ghost use Rattle.lab_clients.specs.Steps.{has_lines};

use crate::client::LabClient;
use lab_lines::{Line, Op};

/// Whether a line writes no more than 4,194,304 frames, as many as a call takes.
fn is_few(asked: Op) -> bool
    ensures { IsTrue result ↔ IsFew asked }
{
    match asked {
        Op::Write(frames) => frames <= 4194304,
        _ => true,
    }
}

/// Whether each line of a phase writes no more than 4,194,304 frames, as many as a call takes.
pub fn writes_are_few(lines: &[Line]) -> bool
    ensures { IsTrue result ↔ All (λ (line : Line). IsFew line.op) lines.now }
{
    lines.iter().all(|line| is_few(line.op))
}

/// How many clients have lines among those of a phase.
pub(crate) fn busy_count(clients: &[LabClient<'_>], lines: &[Line]) -> usize
    ensures { result ≡ count_by (has_lines lines.now) clients.now }
{
    clients
        .iter()
        .filter(|client| client.has_lines(lines))
        .count()
}
