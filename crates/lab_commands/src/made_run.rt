//! The run of a workload.
ghost use Rattle.std.specs.Prelude.{[], ◌≡◌, ◌≢◌, ◌≤◌, ℕ, Err, IfErr, IfOk, IsSome, List, OnErr, Some, length};
ghost use Rattle.lab_input.specs.Read.{input_of};
ghost use Rattle.lab_phase.specs.Ended.{outcome_in};
ghost use Rattle.lab_phase.specs.PhaseRuns.{stops_by};
ghost use Rattle.lab_play.specs.Played.{HasPlayedAsking, HasPlayedPart};
ghost use Rattle.lab_play.specs.Stops.{rises};
ghost use Rattle.lab_lines.specs.Limits.{IsScript};
ghost use Rattle.lab_stop.specs.Stops.{IsWriteStop, OutputFaults};
ghost use Rattle.lab_stop.specs.declared.stop.Stop.TheVariants as stops;
ghost use Rattle.lab_commands.specs.Made.{output_name};

use lab_input::Input;
use lab_make::KeptText;
use lab_phase::Outcome;
use lab_play::play;
use lab_shelf::Shelf;
use lab_stop::Stop;
use mix_core::Gate;
use std::alloc::Global;
use std::marker::{Send, Sync};
use std::thread::Threads;

/// What a run of a workload leaves, and the text of its report.
pub(crate) struct MadeRun {
    /// The report, and what the card played.
    pub(crate) outcome: Outcome,
    /// The text of the report.
    pub(crate) report: Vec<u8>,
}

// One call wherever it is let go. A derive drops each part in turn there, and the proof goes through all of them.
impl Drop for MadeRun {
    fn drop(self) {
        let MadeRun {
            outcome: _,
            report: _,
        } = self;
    }
}

/// Runs an input, writes the run's files, of which `made.wav` is the first, and keeps the text of the
/// report in memory.
///
/// It stops with `Write` exactly where the shelf fails, which counts that, and with `Memory` only where
/// no memory is left; the text in memory never fails. The caller has 128 gates, as for `lab_play::play`.
pub(crate) fn run_input<R: Threads + Sync, S: Shelf, G: Gate + Send>(
    rt: &R,
    alloc: Global,
    input: &Input,
    shelf: &mut S,
    gates: &mut [G],
) -> Result<MadeRun, Stop>
    requires script { IsScript input.now.script }
    requires files { length input.now.wavs.items ≡ length input.now.script.clients }
    requires gates { 128 ≤ length gates.old }
    ensures done { IfOk result (λ made. HasPlayedAsking G.asked gates.old gates.new
        (input_of input.now) output_name
        (rises (stops_by G.stops gates.old) (stops_by G.stops gates.new)) (outcome_in made.outcome)
        (S.files shelf.old) (S.files shelf.new) (Some []) (Some made.report.items)) }
    ensures part { OnErr result ((report : List ℕ) × HasPlayedPart (input_of input.now) output_name
        (rises (stops_by G.stops gates.old) (stops_by G.stops gates.new))
        (S.files shelf.old) (S.files shelf.new) (Some []) (Some report)) }
    ensures only { IfErr result IsWriteStop }
    ensures fetch_faults { S.fetch_faults shelf.new ≡ S.fetch_faults shelf.old }
    ensures faults { OutputFaults result (S.write_faults shelf.old) (S.write_faults shelf.new) 0 0 }
    ensures reliable { S.is_reliable shelf.old → S.is_reliable shelf.new }
    ensures never { S.is_reliable shelf.old → IsSome (S.files shelf.old)
        → result ≢ Err stops.Write }
{
    let mut text = KeptText::new(alloc);
    let outcome = play(rt, alloc, input, b"made", shelf, &mut text, gates)?;
    Ok(MadeRun {
        outcome,
        report: text.into_bytes(),
    })
}
