//! A whole run: the rings, the lab, its items, and the end of what is written.
ghost use Rattle.std.specs.Prelude.{◌≡◌, ◌≢◌, ◌≤◌, ◌++◌, ℕ, All, Err, IfErr, IfOk, IsSome, List, OnErr, OnOk, length};
ghost use Rattle.std.specs.Option.{option_map};
ghost use Rattle.sum_table.specs.Rings as sum;
ghost use Rattle.snoop_table.specs.Rings as snoop;
ghost use Rattle.lab_lines.specs.Limits.{IsScript};
ghost use Rattle.lab_input.specs.Input.{RunInput};
ghost use Rattle.lab_input.specs.Read.{input_of};
ghost use Rattle.lab_shelf.specs.Changes.{Changes};
ghost use Rattle.lab_shelf.specs.Files.{TookPart};
ghost use Rattle.lab_stop.specs.Effects.{StoresAndPuts};
ghost use Rattle.lab_stop.specs.declared.stop.Stop.TheVariants as stops;
ghost use Rattle.lab_phase.specs.AtStage.{items_done};
ghost use Rattle.lab_phase.specs.Ended.{outcome_in};
ghost use Rattle.lab_phase.specs.PhaseRuns.{stops_by};
ghost use Rattle.lab_output.specs.Files.{MayHold, nothing};
ghost use Rattle.lab_output.specs.Going.{AreOutputs, IsGoingOn};
ghost use Rattle.lab_output.specs.Text.{head_text};
ghost use Rattle.lab_play.specs.Ends.{CanEnd, EndsWith, IsKnownAtEnd, IsNewRun, IsSomeNewRun, StopsAtEnd};
ghost use Rattle.lab_play.specs.Played.{HasPlayedAsking, HasPlayedPart};
ghost use Rattle.lab_play.specs.Playing.{HasStopped, scene};
ghost use Rattle.lab_play.specs.Stops.{rises};

use crate::items::do_items;
use crate::samples::samples_are_of_16_bits;
use lab_actors::ring_of;
use lab_input::Input;
use lab_lines::Script;
use lab_output::{Outputs, outputs_of};
use lab_phase::{Lab, Outcome};
use lab_run::one_run;
use lab_shelf::{Shelf, Sink};
use lab_stop::Stop;
use mix_core::Gate;
use run_laws::{
    outcomes_are_of_scripts, played_samples_stay, runs_go_on, runs_keep_headline,
    scripts_bind_channels, stages_grow,
};
use snd_base::Geometry;
use snoop_table::SnoopRing;
use std::alloc::Global;
use std::marker::{Send, Sync};
use std::thread::Threads;
use sum_table::SumRing;

/// Runs a script on what was read for it, and writes the run's files and the text of its report.
///
/// The files are begun with open heads, in this order: `OUT.wav` with what the card plays, and `OUT.NAME.wav` with what each reader records.
/// At the end of each phase what was played and recorded in it is appended, and then its rows are put on `out`. At the end each file gets its
/// true head, and then the rest of the report is put. `name` is OUT.
///
/// It gives the report, what the card played and what each reader recorded, which are what was written. It stops with `Write` where the shelf or
/// `out` fails, which counts that, and with `Memory` only where no memory is left.
///
/// The caller has read the input (`lab_input::read_input`), and has 128 gates: the first 64 are the clients', by the numbers of their lines, and
/// the ones after them the readers'. Each client and reader asks its own gate before each of its steps, and no other.
pub fn play<R: Threads + Sync, S: Shelf, K: Sink, G: Gate + Send>(
    rt: &R,
    alloc: Global,
    input: &Input,
    name: &[u8],
    shelf: &mut S,
    out: &mut K,
    gates: &mut [G],
) -> Result<Outcome, Stop>
    requires script { IsScript input.now.script }
    requires files { length input.now.wavs.items ≡ length input.now.script.clients }
    requires gates { 128 ≤ length gates.old }

    // The files and the report's text are those of a run of the script, in which each gate stopped its actor at most so often, and was
    // asked as often as the run counts.
    ensures done { IfOk result (λ outcome. HasPlayedAsking G.asked gates.old gates.new
        (input_of input.now) name.now
        (rises (stops_by G.stops gates.old) (stops_by G.stops gates.new)) (outcome_in outcome)
        (S.files shelf.old) (S.files shelf.new) (K.taken out.old) (K.taken out.new)) }

    // Otherwise nothing was written, or what is written is of such a run that reached a stage, whose card had played the mix of the segments so far. Where no
    // gate stopped an actor and no phase is mixed, it is on the way to the script's one run.
    ensures part { OnErr result (HasPlayedPart (input_of input.now) name.now
        (rises (stops_by G.stops gates.old) (stops_by G.stops gates.new))
        (S.files shelf.old) (S.files shelf.new) (K.taken out.old) (K.taken out.new)) }

    ensures stores_and_puts { StoresAndPuts S.Shelf K.Sink result (shelf.old, out.old)
        (shelf.new, out.new) }

    // Over a reliable shelf whose files are known, and a reliable output, nothing fails but for want of memory.
    ensures never { S.is_reliable shelf.old → K.is_reliable out.old → IsSome (S.files shelf.old)
        → result ≢ Err stops.Write }
{
    one_run();
    runs_go_on();
    stages_grow();
    scripts_bind_channels();
    played_samples_stay();
    samples_are_of_16_bits(input.wavs.as_slice());
    let script = &input.script;
    let outputs = outputs_of(alloc, script, name)?;
    let mut rings = rings_of(alloc, ring_of(&script.card), script.card.places)?;
    let (player, mix) = rings.sum.seats();
    let (writer, reader) = rings.snoop.seats();
    let lab = match Lab::new(
        alloc,
        script,
        &input.wavs,
        input.capture.as_ref(),
        player,
        mix,
        writer,
        reader,
    ) {
        Ok(lab) => lab,
        Err(_) => return Err(Stop::Memory),
    };
    play_all(rt, alloc, script, lab, outputs, shelf, out, gates)
}

/// The rings of a card.
struct Rings {
    /// What clients place.
    sum: SumRing,
    /// What the card captures.
    snoop: SnoopRing,
}

// One call wherever it is let go. A derive drops each part in turn there, and the proof goes through all of them.
impl Drop for Rings {
    fn drop(self) {
        let Rings { sum: _, snoop: _ } = self;
    }
}

/// The rings of a card, with nothing placed and nothing captured.
fn rings_of(alloc: Global, geometry: Geometry, places: u32) -> Result<Rings, Stop>
    requires least { 1 ≤ places }
    requires most { places ≤ 64 }
    ensures sum { IfOk result (λ rings. sum.IsNewRing rings.sum geometry places) }
    ensures snoop { IfOk result (λ rings. snoop.IsNewRing rings.snoop geometry) }
    ensures only { IfErr result (λ stop. stop ≡ stops.Memory) }
{
    let Ok(sum) = SumRing::new(alloc, geometry, places) else {
        return Err(Stop::Memory);
    };
    let Ok(snoop) = SnoopRing::new(alloc, geometry) else {
        return Err(Stop::Memory);
    };
    Ok(Rings { sum, snoop })
}

/// Begins what is written, does all items of the script's body, and ends what is written.
///
/// The caller has a lab of the script before the first item of its body, and outputs of which nothing is written.
fn play_all<R: Threads + Sync, S: Shelf, K: Sink, G: Gate + Send>(
    rt: &R,
    alloc: Global,
    script: &Script,
    mut lab: Lab<'_, '_>,
    mut outputs: Outputs,
    shelf: &mut S,
    out: &mut K,
    gates: &mut [G],
) -> Result<Outcome, Stop>
    requires new { IsSomeNewRun script.now lab outputs }
    requires gates { 128 ≤ length gates.old }
    ensures done { IfOk result (λ outcome. (input : RunInput) (name : List ℕ)
        → IsNewRun input name lab.entry outputs
        → HasPlayedAsking G.asked gates.old gates.new input name
        (rises (stops_by G.stops gates.old) (stops_by G.stops gates.new)) (outcome_in outcome)
        (S.files shelf.old) (S.files shelf.new) (K.taken out.old) (K.taken out.new)) }
    ensures part { OnErr result ((input : RunInput) (name : List ℕ)
        → IsNewRun input name lab.entry outputs
        → HasStopped input name (rises (stops_by G.stops gates.old) (stops_by G.stops gates.new))
        (S.files shelf.old) (S.files shelf.new) (K.taken out.old) (K.taken out.new)) }
    ensures stores_and_puts { StoresAndPuts S.Shelf K.Sink result (shelf.old, out.old)
        (shelf.new, out.new) }
    ensures never { S.is_reliable shelf.old → K.is_reliable out.old → IsSome (S.files shelf.old)
        → result ≢ Err stops.Write }
{
    begin(&outputs, shelf, out)?;
    match do_items(rt, alloc, script, &mut lab, &mut outputs, shelf, out, gates) {
        Ok(()) => end(alloc, script, lab, &outputs, shelf, out),
        Err(stop) => {
            lab.stop();
            Err(stop)
        }
    }
}

/// Begins each file with an open head, and puts the first line of the report.
fn begin<S: Shelf, K: Sink>(outputs: &Outputs, shelf: &mut S, out: &mut K) -> Result<(), Stop>
    requires outputs { AreOutputs outputs.now }
    requires new { All (λ n. n ≡ 0) outputs.now.samples.items }
    ensures going_on { OnOk result
        (IsGoingOn outputs.now.files.items outputs.now.samples.items
        (nothing outputs.now.files.items)
        (S.files shelf.old) (S.files shelf.new)) }
    ensures taken { OnOk result
        (K.taken out.new ≡ option_map (λ taken. taken ++ head_text) (K.taken out.old)) }
    ensures changes { OnErr result
        (Changes (MayHold outputs.now.files.items (nothing outputs.now.files.items))
        (S.files shelf.old) (S.files shelf.new)) }
    ensures text { OnErr result (TookPart (K.taken out.old) (K.taken out.new) head_text) }
    ensures stores_and_puts { StoresAndPuts S.Shelf K.Sink result (shelf.old, out.old)
        (shelf.new, out.new) }
    ensures never { S.is_reliable shelf.old → K.is_reliable out.old → result ≢ Err stops.Write }
{
    outputs.begin(shelf)?;
    outputs.put_head(out)
}

/// Ends the run: gives each file its true head, puts the rest of the report, and gives what the run leaves.
fn end<S: Shelf, K: Sink>(
    alloc: Global,
    script: &Script,
    lab: Lab<'_, '_>,
    outputs: &Outputs,
    shelf: &mut S,
    out: &mut K,
) -> Result<Outcome, Stop>
    requires playing { CanEnd script.now
        (scene lab outputs.now (S.files shelf.old) (K.taken out.old)) }
    requires all { items_done lab ≡ length script.now.body }
    ensures done { IfOk result (λ outcome. EndsWith
        (scene lab.entry outputs.now (S.files shelf.old) (K.taken out.old)) (outcome_in outcome)
        (S.files shelf.new) (K.taken out.new)) }
    ensures part { OnErr result
        (StopsAtEnd (scene lab.entry outputs.now (S.files shelf.old) (K.taken out.old))
        (S.files shelf.new) (K.taken out.new)) }
    ensures stores_and_puts { StoresAndPuts S.Shelf K.Sink result (shelf.old, out.old)
        (shelf.new, out.new) }
    ensures never { S.is_reliable shelf.old → K.is_reliable out.old
        → IsKnownAtEnd (scene lab.entry outputs.now (S.files shelf.old) (K.taken out.old))
        → result ≢ Err stops.Write }
{
    outcomes_are_of_scripts();
    runs_keep_headline();
    let outcome = lab.finish();
    outputs.finish(shelf)?;
    outputs.put_tail(out, alloc, script, &outcome.report)?;
    Ok(outcome)
}
