//! How many frames the lines of a phase read, and how many readers have some.
ghost use Rattle.std.specs.Prelude.{◌↔◌, All, IsTrue, ◌≡◌, ◌≤◌, count_by, length};
ghost use Rattle.lab_lines.specs.declared.line.Line.{Line};
ghost use Rattle.lab_readers.specs.Lines.{IsFewRead};
ghost use Rattle.lab_readers.specs.Steps.{has_lines};

use crate::reader::LabReader;
use lab_lines::{Line, Op};

/// Whether a line asks to read no more than 4,194,304 frames, as many as a call takes.
fn is_few(asked: Op) -> bool
    ensures { IsTrue result ↔ IsFewRead asked }
{
    match asked {
        Op::Read(frames) => frames <= 4194304,
        _ => true,
    }
}

/// Whether each line of a phase reads no more than 4,194,304 frames, as many as a call takes.
pub fn reads_are_few(lines: &[Line]) -> bool
    ensures { IsTrue result ↔ All (λ (line : Line). IsFewRead line.op) lines.now }
{
    lines.iter().all(|line| is_few(line.op))
}

/// How many readers have lines among those of a phase.
pub(crate) fn busy_count(readers: &[LabReader<'_>], lines: &[Line]) -> usize
    ensures value { result ≡ count_by (has_lines lines.now) readers.now }
    ensures most { result ≤ length readers.now }
{
    let mut count = 0;
    for index in 0..readers.len() {
        if readers[index].has_lines(lines) {
            count += 1;
        }
    }
    count
}
