//! The frames that a reader read, as runs of frames one after the other.
ghost use Rattle.std.specs.Prelude.{◌≡◌, ◌+◌, ◌^◌, ◌<◌, ◌≤◌, ◌↔◌, ◌∷◌, [], ◌++◌, IsTrue, OnErr, OnOk, vec_capacity, vec_len};
ghost use Rattle.std.specs.List.{range_with_len};
ghost use Rattle.lab_run.specs.LabRun.{runs_of};
ghost use Rattle.lab_readers.specs.FrameRuns.{frames_of_runs};

use std::alloc::{AllocError, Global};
use std::marker::Model;

/// The frames that a reader read, in the order of reading, as runs: each has the number of its first frame and how many
/// frames it has, one after the other. A run is as long as it can be: a new one begins only where a frame isn't the one
/// after the last.
///
/// Contracts see the runs, and for how many more of them there is room.
#[derive(Drop)]
pub struct FrameRuns {
    runs: Vec<(u64, u64)>,
}

impl Model for FrameRuns {
    ghost use Rattle.std.specs.Prelude.{◌-◌, vec_capacity, vec_len};
    ghost use Rattle.lab_readers.specs.FrameRuns.{AreApart, RunList};

    ghost Value = { RunList };

    ghost view = { λ r. record {
      runs = r.runs.items;
      room = vec_capacity r.runs - vec_len r.runs;
    } };

    ghost invariant = { λ r. AreApart r.runs.items };
}

/// Whether a frame is the one after a run.
fn is_next(run: (u64, u64), frame: u64) -> bool
    ensures { IsTrue result ↔ (run.0 + run.1 ≡ frame) }
{
    run.0 <= frame && frame - run.0 == run.1
}

/// Appends a run, for which there is room.
fn push_run(runs: &mut Vec<(u64, u64)>, run: (u64, u64))
    requires { vec_len runs.old < vec_capacity runs.old }
    ensures items { runs.new.items ≡ runs.old.items ++ run ∷ [] }
    ensures room { vec_capacity runs.old ≤ vec_capacity runs.new }
    ensures one { vec_len runs.new ≡ vec_len runs.old + 1 }
{
    runs.push(run).unwrap();
}

impl FrameRuns {
    /// No frames.
    pub(crate) fn new(alloc: Global) -> FrameRuns
        ensures { result.runs ≡ [] }
    {
        FrameRuns {
            runs: Vec::new(alloc),
        }
    }

    /// The runs, each by its first frame and how many frames it has. They are the runs that a report has of these frames.
    pub(crate) fn as_slice(&self) -> &[(u64, u64)]
        ensures value { result.now ≡ self.now.runs }
        ensures runs { runs_of (frames_of_runs self.now.runs) ≡ result.now }
    {
        self.runs.as_slice()
    }

    /// Takes room for so many runs more. It refuses only where no memory is left.
    pub(crate) fn reserve(&mut self, count: usize) -> Result<(), AllocError>
        ensures room { OnOk result (count ≤ self.new.room) }
        ensures same { self.new.runs ≡ self.old.runs }
        ensures same_room { OnErr result (self.new.room ≡ self.old.room) }
    {
        self.runs.reserve(count)
    }

    /// Appends frames from a first one on, which are one run more at most, for which there is room: where they begin after
    /// the last frame, its run goes on with them.
    pub(crate) fn push(&mut self, first: u64, count: u64)
        requires room { 1 ≤ self.old.room }
        requires fits { first + count < 2 ^ 64 }
        ensures frames { frames_of_runs self.new.runs ≡ frames_of_runs self.old.runs
            ++ range_with_len first count }
        ensures room { self.old.room ≤ self.new.room + 1 }
    {
        if count == 0 {
            return;
        }
        let Some(last) = self.runs.pop() else {
            push_run(&mut self.runs, (first, count));
            return;
        };
        if is_next(last, first) {
            push_run(&mut self.runs, (last.0, last.1 + count));
            return;
        }
        push_run(&mut self.runs, last);
        push_run(&mut self.runs, (first, count));
    }
}
