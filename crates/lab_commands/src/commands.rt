//! The commands: each reads what its words name, and writes what came of it.
ghost use Rattle.std.specs.Prelude.{◌≡◌, ◌≤◌, ℕ, List, None, OnOk, Option, Some, length};
ghost use Rattle.std.specs.Option.{ForSome};
ghost use Rattle.lab_conf.specs.Described.{device_in};
ghost use Rattle.lab_input.specs.Input.{input_in};
ghost use Rattle.lab_make.specs.Workload.{IsWorkload};
ghost use Rattle.lab_phase.specs.PhaseRuns.{Stops, stops_by};
ghost use Rattle.lab_play.specs.Stops.{rises};
ghost use Rattle.lab_refine.specs.Answered.{request_in};
ghost use Rattle.lab_stop.specs.Causes.{cause};
ghost use Rattle.lab_stop.specs.Stops.{EndsOf, EndsReliably, InputFaults, OutputFaults, Refuses, status_of};
ghost use Rattle.lab_compare.specs.Checking.{check_in};
ghost use Rattle.lab_commands.specs.Words.{check, conf, make, refine, run};
ghost use Rattle.lab_commands.specs.Top.{AskedIn, CommandLeaves};

use crate::making::make_workload;
use lab_check::runs_are_checked;
use lab_compare::check_run;
use lab_conf::describe_device;
use lab_input::read_input;
use lab_make::Workload;
use lab_play::play;
use lab_refine::refine_file;
use lab_report::numbers_are_in_range;
use lab_shelf::{Shelf, Sink};
use lab_stop::{Stop, put};
use mix_core::Gate;
use run_laws::{actors_do_their_own, runs_are_exact};
use std::alloc::Global;
use std::marker::{Send, Sync};
use std::thread::Threads;

/// Runs the script in a file, and writes what it played and recorded, and the report.
pub(crate) fn run_command<R: Threads + Sync, S: Shelf, K: Sink, G: Gate + Send>(
    rt: &R,
    alloc: Global,
    shelf: &mut S,
    out: &mut K,
    gates: &mut [G],
    script: &[u8],
    name: &[u8],
) -> Result<(), Stop>
    requires gates { 128 ≤ length gates.old }
    ensures leaves { CommandLeaves result (Some (run script.now name.now))
        (rises (stops_by G.stops gates.old) (stops_by G.stops gates.new))
        (S.files shelf.old) (S.files shelf.new) (K.taken out.old) (K.taken out.new) }
    ensures asked { OnOk result
        (AskedIn G.asked gates.old gates.new (Some (run script.now name.now))
        (rises (stops_by G.stops gates.old) (stops_by G.stops gates.new))
        (S.files shelf.old) (S.files shelf.new) (K.taken out.old) (K.taken out.new)) }
    ensures cause { ForSome (S.files shelf.old)
        (λ files. EndsOf result (cause (input_in files script.now))) }
    ensures reliable { S.is_reliable shelf.old → K.is_reliable out.old → ForSome (S.files shelf.old)
        (λ files. EndsReliably result (cause (input_in files script.now))) }
    ensures statuses { status_of result ≤ 6 }
    ensures words { Refuses result (Some (run script.now name.now)) }
    ensures reads { InputFaults result (S.fetch_faults shelf.old) (S.fetch_faults shelf.new) }
    ensures writes { OutputFaults result (S.write_faults shelf.old) (S.write_faults shelf.new)
        (K.faults out.old) (K.faults out.new) }
{
    runs_are_exact();
    actors_do_their_own();
    runs_are_checked();
    let input = read_input(shelf, alloc, script)?;
    let outcome = play(rt, alloc, &input, name, shelf, out, gates)?;
    numbers_are_in_range(&outcome.report);
    Ok(())
}

/// Tests a report and the files of a run, whose names begin with `name`, against the script in a file. Nothing is written or put.
pub(crate) fn check_command<S: Shelf>(
    alloc: Global,
    shelf: &mut S,
    script: &[u8],
    report: &[u8],
    name: &[u8],
) -> Result<(), Stop>
    ensures leaves { (gates : Stops) (taken : Option (List ℕ)) → CommandLeaves result
        (Some (check script.now report.now name.now)) gates
        (S.files shelf.old) (S.files shelf.new) taken taken }
    ensures cause { ForSome (S.files shelf.old)
        (λ files. EndsOf result (cause (check_in files script.now report.now name.now))) }
    ensures reliable { S.is_reliable shelf.old → ForSome (S.files shelf.old)
        (λ files. EndsReliably result (cause (check_in files script.now report.now name.now))) }
    ensures statuses { status_of result ≤ 7 }
    ensures words { Refuses result (Some (check script.now report.now name.now)) }
    ensures reads { InputFaults result (S.fetch_faults shelf.old) (S.fetch_faults shelf.new) }
    ensures writes { (puts : ℕ) → OutputFaults result
        (S.write_faults shelf.old) (S.write_faults shelf.new) puts puts }
{
    check_run(shelf, alloc, script, report, name)
}

/// Makes a workload, stores and runs it, and puts the summary of its run.
pub(crate) fn make_command<R: Threads + Sync, S: Shelf, K: Sink, G: Gate + Send>(
    rt: &R,
    alloc: Global,
    shelf: &mut S,
    out: &mut K,
    gates: &mut [G],
    workload: &Workload,
) -> Result<(), Stop>
    requires workload { IsWorkload workload.now }
    requires gates { 128 ≤ length gates.old }
    ensures leaves { CommandLeaves result (Some (make workload.now))
        (rises (stops_by G.stops gates.old) (stops_by G.stops gates.new))
        (S.files shelf.old) (S.files shelf.new) (K.taken out.old) (K.taken out.new) }
    ensures asked { OnOk result (AskedIn G.asked gates.old gates.new (Some (make workload.now))
        (rises (stops_by G.stops gates.old) (stops_by G.stops gates.new))
        (S.files shelf.old) (S.files shelf.new) (K.taken out.old) (K.taken out.new)) }
    ensures cause { EndsOf result None }
    ensures reliable { S.is_reliable shelf.old → K.is_reliable out.old → ForSome (S.files shelf.old)
        (λ files. EndsReliably result None) }
    ensures statuses { status_of result ≤ 6 }
    ensures words { Refuses result (Some (make workload.now)) }
    ensures reads { InputFaults result (S.fetch_faults shelf.old) (S.fetch_faults shelf.new) }
    ensures writes { OutputFaults result (S.write_faults shelf.old) (S.write_faults shelf.new)
        (K.faults out.old) (K.faults out.new) }
{
    make_workload(rt, alloc, workload, shelf, out, gates)
}

/// Puts the answers to the text in a file.
pub(crate) fn refine_command<S: Shelf, K: Sink>(
    alloc: Global,
    shelf: &mut S,
    out: &mut K,
    name: &[u8],
) -> Result<(), Stop>
    ensures leaves { (gates : Stops) → CommandLeaves result (Some (refine name.now)) gates
        (S.files shelf.old) (S.files shelf.new) (K.taken out.old) (K.taken out.new) }
    ensures cause { ForSome (S.files shelf.old)
        (λ files. EndsOf result (cause (request_in files name.now))) }
    ensures reliable { S.is_reliable shelf.old → K.is_reliable out.old → ForSome (S.files shelf.old)
        (λ files. EndsReliably result (cause (request_in files name.now))) }
    ensures statuses { status_of result ≤ 6 }
    ensures words { Refuses result (Some (refine name.now)) }
    ensures reads { InputFaults result (S.fetch_faults shelf.old) (S.fetch_faults shelf.new) }
    ensures writes { OutputFaults result (S.write_faults shelf.old) (S.write_faults shelf.new)
        (K.faults out.old) (K.faults out.new) }
{
    let text = refine_file(shelf, alloc, name)?;
    put(out, text.as_bytes())
}

/// Puts the lines of the device of a name in the configuration in a file.
pub(crate) fn conf_command<S: Shelf, K: Sink>(
    alloc: Global,
    shelf: &mut S,
    out: &mut K,
    file: &[u8],
    name: &[u8],
) -> Result<(), Stop>
    ensures leaves { (gates : Stops) → CommandLeaves result (Some (conf file.now name.now)) gates
        (S.files shelf.old) (S.files shelf.new) (K.taken out.old) (K.taken out.new) }
    ensures cause { ForSome (S.files shelf.old)
        (λ files. EndsOf result (cause (device_in files file.now name.now))) }
    ensures reliable { S.is_reliable shelf.old → K.is_reliable out.old → ForSome (S.files shelf.old)
        (λ files. EndsReliably result (cause (device_in files file.now name.now))) }
    ensures statuses { status_of result ≤ 6 }
    ensures words { Refuses result (Some (conf file.now name.now)) }
    ensures reads { InputFaults result (S.fetch_faults shelf.old) (S.fetch_faults shelf.new) }
    ensures writes { OutputFaults result (S.write_faults shelf.old) (S.write_faults shelf.new)
        (K.faults out.old) (K.faults out.new) }
{
    let text = describe_device(shelf, alloc, file, name)?;
    put(out, text.as_bytes())
}
