//! All readers of a script in a phase at once, each in a thread.
ghost use Rattle.std.specs.Prelude.{◌≡◌, ◌≤◌, All, length};
ghost use Rattle.lab_lines.specs.declared.line.Line.{Line};
ghost use Rattle.lab_readers.specs.Lines.{IsFewRead};
ghost use Rattle.lab_actors.specs.Walks.{AreEach};
ghost use Rattle.lab_readers.specs.Steps.{IsReady, RunsAt};

use crate::reader::LabReader;
use lab_actors::for_each_pair;
use lab_lines::Line;
use mix_core::Gate;
use std::marker::{Send, Sync};
use std::thread::Threads;

/// All readers do their lines at once, each with its gate and in a thread of its own where one can be made.
pub(crate) fn run_at_once<R: Threads + Sync, G: Gate + Send>(
    rt: &R,
    readers: &mut [LabReader<'_>],
    gates: &mut [G],
    phase: u32,
    lines: &[Line],
)
    requires few { All (λ (line : Line). IsFewRead line.op) lines.now }
    requires gates { length readers.old ≤ length gates.old }
    requires ready { All (IsReady lines.now) readers.old }
    ensures { AreEach (RunsAt G.Gate gates.old gates.new phase lines.now) 0
        readers.old readers.new }
{
    for_each_pair(
        rt,
        readers,
        gates,
        &|_number, reader, gate| {
            reader.run_lines(gate, phase, lines);
        },
    );
}
