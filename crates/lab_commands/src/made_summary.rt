//! The summary that is put.
ghost use Rattle.std.specs.Prelude.{◌≡◌, ◌≢◌, Err, IfErr, OnErr, OnOk};
ghost use Rattle.lab_phase.specs.Ended.{outcome_in};
ghost use Rattle.lab_stop.specs.Stops.{IsWriteStop, WriteFaults};
ghost use Rattle.lab_stop.specs.declared.stop.Stop.TheVariants as stops;
ghost use Rattle.lab_commands.specs.Made.{HasPutSummary, HasPutSummaryPart};

use lab_make::{Workload, summary_of};
use lab_phase::Outcome;
use lab_shelf::Sink;
use lab_stop::{Stop, put};
use std::alloc::Global;

/// Puts the summary of a workload's run. It stops with `Write` where the sink fails, which counts
/// that, and with `Memory` only where no memory is left; the sink took the first bytes of it then.
pub(crate) fn put_summary<K: Sink>(
    alloc: Global,
    workload: &Workload,
    outcome: &Outcome,
    out: &mut K,
) -> Result<(), Stop>
    ensures done { OnOk result
        (HasPutSummary workload.now (outcome_in outcome.now) (K.taken out.old) (K.taken out.new)) }
    ensures part { OnErr result
        (HasPutSummaryPart workload.now (outcome_in outcome.now) (K.taken out.old)
        (K.taken out.new)) }
    ensures only { IfErr result IsWriteStop }
    ensures faults { WriteFaults result (K.faults out.old) (K.faults out.new) }
    ensures reliable { K.is_reliable out.old → result ≢ Err stops.Write }
{
    let summary = summary_of(workload, &outcome.report, outcome.played.as_slice());
    let text = format!(in alloc; "{summary}")?;
    put(out, text.as_bytes())
}
