//! The room for what the end of a run leaves.
use snd_base::Segment;
use std::alloc::{AllocError, Global};

/// The lists of what a run leaves at its end, but its rows: the report's segments and runs, and the samples of each reader. They are empty
/// until then. Their room is taken before, so that the end takes no memory: a report has no more segments than rows, and no more runs
/// than rows.
#[derive(Drop)]
pub(crate) struct ReportRoom {
    pub(crate) segments: Vec<(u32, Segment)>,
    pub(crate) runs: Vec<(u32, u64, u64)>,
    pub(crate) recorded: Vec<Vec<i16>>,
}

impl ReportRoom {
    ghost use Rattle.std.specs.Prelude.{IfOk, OnOk, ℕ};
    ghost use Rattle.lab_phase.specs.ReportRoom.{HasReportRoom, KeepsRoom};

    /// The room for a report without rows, of so many readers. It refuses only where no memory is left.
    pub(crate) fn new(alloc: Global, readers: usize) -> Result<ReportRoom, AllocError>
        ensures { IfOk result (HasReportRoom 0 readers) }
    {
        let recorded = Vec::with_capacity(alloc, readers)?;
        Ok(ReportRoom {
            segments: Vec::new(alloc),
            runs: Vec::new(alloc),
            recorded,
        })
    }

    /// Takes the room for a report of so many rows. It refuses only where no memory is left; the room that there was stays.
    pub(crate) fn reserve(&mut self, rows: usize) -> Result<(), AllocError>
        ensures room { OnOk result ((before readers : ℕ) → HasReportRoom before readers self.old
            → HasReportRoom rows readers self.new) }
        ensures kept { KeepsRoom self.old self.new }
    {
        self.segments.reserve(rows)?;
        self.runs.reserve(rows)
    }
}
