//! The command: a workload is made, stored and run.
ghost use Rattle.std.specs.Prelude.{◌≡◌, ◌≢◌, ◌≤◌, ◌⊎◌, Err, IfErr, IsSome, OnErr, OnOk, length};
ghost use Rattle.lab_make.specs.Workload.{IsWorkload};
ghost use Rattle.lab_phase.specs.PhaseRuns.{stops_by};
ghost use Rattle.lab_play.specs.Played.{IsUntouched};
ghost use Rattle.lab_play.specs.Stops.{rises};
ghost use Rattle.lab_stop.specs.Stops.{IsWriteStop, OutputFaults};
ghost use Rattle.lab_stop.specs.declared.stop.Stop.TheVariants as stops;
ghost use Rattle.lab_commands.specs.Made.{IsMadeAsking, IsMadePart};

use crate::made_run::run_input;
use crate::made_summary::put_summary;
use lab_make::{Workload, made_input, store, store_input};
use lab_shelf::{Shelf, Sink};
use lab_stop::Stop;
use mix_core::Gate;
use run_laws::{actors_do_their_own, runs_are_exact, scripts_have_one_session};
use std::alloc::Global;
use std::marker::{Send, Sync};
use std::thread::Threads;

/// Makes a workload, stores and runs it, and puts the summary of its run.
///
/// Stored are, in this order: `made-K.wav` with the sound of client K, from 0, for each client;
/// `made.script` with the script; `made.wav` with what the card plays, begun with an open head,
/// appended to at the end of each phase and finished at the end of the run; and `made.report` with the
/// text of the report. The run is that of `lab_play::play` on the same script and sounds, which are
/// held and not fetched. At last the summary is put on `out`, in the lines that
/// `lab_make::Summary` is shown in.
///
/// It stops with `Write` where the shelf or `out` fails, which counts that, and with `Memory` only
/// where no memory is left.
///
/// The caller has a workload within the limits of `lab_make::read_workload`, and 128 gates, as for
/// `lab_play::play`.
pub fn make_workload<R: Threads + Sync, S: Shelf, K: Sink, G: Gate + Send>(
    rt: &R,
    alloc: Global,
    workload: &Workload,
    shelf: &mut S,
    out: &mut K,
    gates: &mut [G],
) -> Result<(), Stop>
    requires workload { IsWorkload workload.now }
    requires gates { 128 ≤ length gates.old }

    // The workload, a run of it and their summary are written, and nothing else; the run asked its gates as often as it counts.
    ensures done { OnOk result (IsMadeAsking G.asked gates.old gates.new workload.now
        (rises (stops_by G.stops gates.old) (stops_by G.stops gates.new))
        (S.files shelf.old) (S.files shelf.new) (K.taken out.old) (K.taken out.new)) }

    // Otherwise nothing was written, or the first part of that.
    ensures part { OnErr result
        (IsUntouched (S.files shelf.old) (S.files shelf.new) (K.taken out.old) (K.taken out.new)
        ⊎ IsMadePart workload.now (rises (stops_by G.stops gates.old) (stops_by G.stops gates.new))
        (S.files shelf.old) (S.files shelf.new) (K.taken out.old) (K.taken out.new)) }
    ensures only { IfErr result IsWriteStop }
    ensures fetch_faults { S.fetch_faults shelf.new ≡ S.fetch_faults shelf.old }
    ensures faults { OutputFaults result (S.write_faults shelf.old) (S.write_faults shelf.new)
        (K.faults out.old) (K.faults out.new) }

    // Over a reliable shelf whose files are known, and a reliable output, nothing fails but for want of memory.
    ensures never { S.is_reliable shelf.old → K.is_reliable out.old → IsSome (S.files shelf.old)
        → result ≢ Err stops.Write }
{
    runs_are_exact();
    actors_do_their_own();
    scripts_have_one_session();
    let made = made_input(alloc, workload)?;
    store_input(
        shelf,
        alloc,
        made.input.wavs.as_slice(),
        made.text.as_slice(),
    )?;
    let finished_run = run_input(rt, alloc, &made.input, shelf, gates)?;
    store(shelf, b"made.report", finished_run.report.as_slice())?;
    put_summary(alloc, workload, &finished_run.outcome, out)
}
