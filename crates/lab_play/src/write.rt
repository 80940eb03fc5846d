//! What a phase writes: the samples that its card played and its readers recorded, and then its rows.
ghost use Rattle.std.specs.Prelude.{[], ◌≡◌, ◌≢◌, ◌≤◌, ℤ, List, Option, Err, IsSome, OnErr, OnOk, length, slice_index_or};
ghost use Rattle.lab_run.specs.Stage.{Stage};
ghost use Rattle.lab_shelf.specs.Changes.{Changes};
ghost use Rattle.lab_shelf.specs.Files.{Files};
ghost use Rattle.lab_stop.specs.declared.stop.Stop.TheVariants as stops;
ghost use Rattle.lab_stop.specs.Effects.{OnlyWrites, StoresAndPuts};
ghost use Rattle.lab_phase.specs.AtStage.{IsAtStage, readers_in};
ghost use Rattle.lab_readers.specs.AtStage.{readers_of};
ghost use Rattle.lab_output.specs.Files.{MayHold};
ghost use Rattle.lab_output.specs.Going.{AreLonger, AreOutputs, IsGoingOn};
ghost use Rattle.lab_play.specs.Appending.{CanAppend};
ghost use Rattle.lab_play.specs.Playing.{CanWritePhase, WritesPhase, IsKnownUnwritten, StopsWritingPhase, scene, sounds_at};

use lab_lines::Script;
use lab_output::Outputs;
use lab_phase::Lab;
use lab_shelf::{Shelf, Sink};
use lab_stop::Stop;
use run_laws::{stages_have_rows, stages_have_sizes};
use std::alloc::Global;

/// The samples so far of the output of this number: of 0 what the card played, and of the others what each reader recorded.
///
/// The caller has the number of an output, of which a script has one and at most 64 more.
fn samples_of<'a>(lab: &'a Lab<'_, '_>, number: usize) -> &'a [i16]
    requires number { number ≤ length (readers_of (readers_in lab.now)) }
    requires few { number ≤ 64 }
    ensures { (stage : Stage) → IsAtStage lab.now stage
        → result.now ≡ slice_index_or (sounds_at lab.now stage) number [] }
{
    if number == 0 {
        lab.played()
    } else {
        lab.recorded(number as u32 - 1)
    }
}

/// Appends to each output what the lab has more of it than was written so far.
fn append_all<S: Shelf>(
    alloc: Global,
    lab: &Lab<'_, '_>,
    outputs: &mut Outputs,
    shelf: &mut S,
) -> Result<(), Stop>
    requires { CanAppend lab.now outputs.old (S.files shelf.old) }
    ensures going_on { (before : Option Files) (stage : Stage) (sounds : List (List ℤ))
        → IsAtStage lab.now stage → AreLonger sounds (sounds_at lab.now stage)
        → IsGoingOn outputs.old.files.items outputs.old.samples.items sounds before
        (S.files shelf.old)
        → OnOk result (IsGoingOn outputs.new.files.items outputs.new.samples.items
        (sounds_at lab.now stage) before (S.files shelf.new)) }
    ensures changes { (before : Option Files) (stage : Stage) (sounds : List (List ℤ))
        → IsAtStage lab.now stage → AreLonger sounds (sounds_at lab.now stage)
        → IsGoingOn outputs.old.files.items outputs.old.samples.items sounds before
        (S.files shelf.old)
        → Changes (MayHold outputs.old.files.items (sounds_at lab.now stage)) before
        (S.files shelf.new) }
    ensures outputs { AreOutputs outputs.new }
    ensures files { outputs.new.files ≡ outputs.old.files }
    ensures rows { outputs.new.rows ≡ outputs.old.rows }
    ensures only_writes { OnlyWrites S.Shelf result shelf.old shelf.new }
    ensures never { (before : Option Files) (stage : Stage) (sounds : List (List ℤ))
        → IsAtStage lab.now stage → AreLonger sounds (sounds_at lab.now stage)
        → IsGoingOn outputs.old.files.items outputs.old.samples.items sounds before
        (S.files shelf.old)
        → IsSome before → S.is_reliable shelf.old → result ≢ Err stops.Write }
{
    for number in 0..outputs.files.len() {
        outputs.append(shelf, alloc, number, samples_of(lab, number))?;
    }
    Ok(())
}

/// Writes what a phase played, recorded and answered.
pub(crate) fn write_phase<S: Shelf, K: Sink>(
    alloc: Global,
    script: &Script,
    lab: &Lab<'_, '_>,
    outputs: &mut Outputs,
    shelf: &mut S,
    out: &mut K,
) -> Result<(), Stop>
    requires { CanWritePhase script.now (scene lab.now outputs.old (S.files shelf.old)
        (K.taken out.old)) }
    ensures done { OnOk result (WritesPhase
        (scene lab.now outputs.old (S.files shelf.old) (K.taken out.old))
        (scene lab.now outputs.new (S.files shelf.new) (K.taken out.new))) }
    ensures part { OnErr result (StopsWritingPhase
        (scene lab.now outputs.old (S.files shelf.old) (K.taken out.old))
        (S.files shelf.new) (K.taken out.new)) }
    ensures stores_and_puts { StoresAndPuts S.Shelf K.Sink result (shelf.old, out.old)
        (shelf.new, out.new) }
    ensures never { S.is_reliable shelf.old → K.is_reliable out.old
        → IsKnownUnwritten (scene lab.now outputs.old (S.files shelf.old) (K.taken out.old))
        → result ≢ Err stops.Write }
{
    stages_have_rows();
    stages_have_sizes();
    append_all(alloc, lab, outputs, shelf)?;
    outputs.put_rows(out, alloc, script, lab.rows())
}
