//! The items of a script's body, one after the other.
ghost use Rattle.std.specs.Prelude.{◌≡◌, ◌≢◌, ◌+◌, ◌≤◌, Err, IfErr, OnErr, OnOk, length};
ghost use Rattle.lab_stop.specs.Effects.{StoresAndPuts};
ghost use Rattle.lab_stop.specs.declared.stop.Stop.TheVariants as stops;
ghost use Rattle.lab_phase.specs.AtStage.{DoesItem, IsBorderItem, IsLab, IsNextItem, IsSameScript, items_done, played_of};
ghost use Rattle.lab_phase.specs.PhaseRuns.{HaveAsked, stops_by};
ghost use Rattle.lab_play.specs.Playing.{CanPlay, GoesOnWriting, IsKnownRun, StaysWritten, StopsAt, scene};

use crate::write::write_phase;
use lab_lines::{Item, Script};
use lab_output::Outputs;
use lab_phase::Lab;
use lab_shelf::{Shelf, Sink};
use lab_stop::Stop;
use mix_core::Gate;
use run_laws::stages_grow;
use std::alloc::Global;
use std::marker::{Send, Sync};
use std::thread::Threads;

/// Does all items of the script's body, in order, and writes what each phase played, recorded and
/// answered. It stops with `Write` where the shelf or the output fails, and with `Memory` only
/// where no memory is left; the lab is at a stage then, between two items.
///
/// Each client and reader asks its own gate before each of its steps, and no other, as often as the
/// run counts.
///
/// The caller has a lab before the first item of the script's body, whose outputs are begun, and
/// 128 gates: the first 64 are the clients', by their numbers, and those after them the readers'.
pub(crate) fn do_items<R: Threads + Sync, S: Shelf, K: Sink, G: Gate + Send>(
    rt: &R,
    alloc: Global,
    script: &Script,
    lab: &mut Lab<'_, '_>,
    outputs: &mut Outputs,
    shelf: &mut S,
    out: &mut K,
    gates: &mut [G],
) -> Result<(), Stop>
    requires playing { CanPlay script.now (stops_by G.stops gates.old)
        (scene lab.old outputs.old (S.files shelf.old) (K.taken out.old)) }
    requires first { items_done lab.old ≡ 0 }
    requires gates { 128 ≤ length gates.old }
    ensures done { OnOk result (GoesOnWriting (HaveAsked G.asked gates.old gates.new)
        (stops_by G.stops gates.old)
        (scene lab.old outputs.old (S.files shelf.old) (K.taken out.old))
        (stops_by G.stops gates.new)
        (scene lab.new outputs.new (S.files shelf.new) (K.taken out.new))) }
    ensures all { OnOk result (items_done lab.new ≡ length script.now.body) }
    ensures same { OnOk result (IsSameScript lab.old lab.new) }
    ensures part { OnErr result (StopsAt
        (stops_by G.stops gates.old)
        (scene lab.old outputs.old (S.files shelf.old) (K.taken out.old))
        (stops_by G.stops gates.new) lab.new (S.files shelf.new) (K.taken out.new)) }
    ensures stores_and_puts { StoresAndPuts S.Shelf K.Sink result (shelf.old, out.old)
        (shelf.new, out.new) }
    ensures never { S.is_reliable shelf.old → K.is_reliable out.old
        → IsKnownRun (stops_by G.stops gates.old)
        (scene lab.old outputs.old (S.files shelf.old) (K.taken out.old))
        → result ≢ Err stops.Write }
{
    let items = script.body.as_slice();
    for index in 0..items.len() {
        do_item(
            rt,
            alloc,
            script,
            &items[index],
            lab,
            outputs,
            shelf,
            out,
            gates,
        )?;
    }
    Ok(())
}

/// Does the script's next item: an opening or a closing, or a phase, of which all that was played, recorded and answered is written then.
fn do_item<R: Threads + Sync, S: Shelf, K: Sink, G: Gate + Send>(
    rt: &R,
    alloc: Global,
    script: &Script,
    item: &Item,
    lab: &mut Lab<'_, '_>,
    outputs: &mut Outputs,
    shelf: &mut S,
    out: &mut K,
    gates: &mut [G],
) -> Result<(), Stop>
    requires playing { CanPlay script.now (stops_by G.stops gates.old)
        (scene lab.old outputs.old (S.files shelf.old) (K.taken out.old)) }
    requires next { IsNextItem lab.old item.now }
    requires gates { 128 ≤ length gates.old }
    ensures done { OnOk result (GoesOnWriting (HaveAsked G.asked gates.old gates.new)
        (stops_by G.stops gates.old)
        (scene lab.old outputs.old (S.files shelf.old) (K.taken out.old))
        (stops_by G.stops gates.new)
        (scene lab.new outputs.new (S.files shelf.new) (K.taken out.new))) }
    ensures next { OnOk result (items_done lab.new ≡ items_done lab.old + 1) }
    ensures same { OnOk result (IsSameScript lab.old lab.new) }
    ensures part { OnErr result (StopsAt
        (stops_by G.stops gates.old)
        (scene lab.old outputs.old (S.files shelf.old) (K.taken out.old))
        (stops_by G.stops gates.new) lab.new (S.files shelf.new) (K.taken out.new)) }
    ensures stores_and_puts { StoresAndPuts S.Shelf K.Sink result (shelf.old, out.old)
        (shelf.new, out.new) }
    ensures never { S.is_reliable shelf.old → K.is_reliable out.old
        → IsKnownRun (stops_by G.stops gates.old)
        (scene lab.old outputs.old (S.files shelf.old) (K.taken out.old))
        → result ≢ Err stops.Write }
{
    stages_grow();
    match item {
        Item::Phase(lines) => match lab.run_phase(rt, lines.as_slice(), gates) {
            Ok(()) => write_phase(alloc, script, lab, outputs, shelf, out),
            Err(_) => Err(Stop::Memory),
        },
        Item::Opens { .. } | Item::Closes { .. } => do_border(lab, item),
    }
}

/// Does an opening or a closing. Its row is put with those of the next phase, or at the end. Where it is refused for want of memory the lab
/// is at its stage.
fn do_border(lab: &mut Lab<'_, '_>, item: &Item) -> Result<(), Stop>
    requires at { IsLab lab.old }
    requires next { IsNextItem lab.old item.now }
    requires border { IsBorderItem item.now }
    ensures does { OnOk result (DoesItem lab.old item.now lab.new) }
    ensures played { OnOk result (played_of lab.new ≡ played_of lab.old) }
    ensures written { StaysWritten lab.old lab.new }
    ensures only { IfErr result (λ stop. stop ≡ stops.Memory) }
{
    stages_grow();
    match lab.border(item) {
        Ok(()) => Ok(()),
        Err(_) => Err(Stop::Memory),
    }
}
