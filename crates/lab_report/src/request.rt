//! What the rows of a report are about: each line of a script once, in the order of the rows.
ghost use Rattle.std.specs.Prelude.{◌≡◌, ◌<◌, ◌∷◌, ◌++◌, [], IfOk, OnOk, length, map};
ghost use Rattle.lab_lines.specs.Limits.{IsScript};
ghost use Rattle.lab_lines.specs.Script.{phases_of};
ghost use Rattle.lab_report.specs.Requests.{request_of, in_order, item_requests, requests_of};

use crate::places::{PLACES, empty_places, sort_lines};
use lab_lines::{Actor, Item, Line, Op, Request, Script};
use std::alloc::{AllocError, Global};

/// Appends the request of an opening or a closing, after so many phases.
fn push_border(
    requests: &mut Vec<Request>,
    phases: u32,
    actor: Actor,
    op: Op,
) -> Result<(), AllocError>
    ensures { OnOk result
        (requests.new.items ≡ requests.old.items
        ++ (record { phase = phases; actor = actor; op = op }) ∷ []) }
{
    requests.push(Request {
        phase: phases,
        actor,
        op,
    })?;
    Ok(())
}

/// Appends the requests of a phase.
fn push_phase(requests: &mut Vec<Request>, phase: u32, lines: &[Line]) -> Result<(), AllocError>
    ensures { OnOk result
        (requests.new.items ≡ requests.old.items ++ map (request_of phase) (in_order lines.now)) }
{
    let mut all_places = empty_places(*requests.allocator())?;
    let places = all_places.as_mut_slice();
    sort_lines(places, phase, lines)?;
    for place in 0..PLACES {
        requests.extend_from_slice(places[place].as_slice())?;
    }
    Ok(())
}

/// Appends the requests of an item of a script's body, after so many phases.
fn push_item(requests: &mut Vec<Request>, phases: u32, item: &Item) -> Result<(), AllocError>
    requires { phases < 4294967295 }
    ensures { OnOk result
        (requests.new.items ≡ requests.old.items ++ item_requests phases item.now) }
{
    match item {
        Item::Opens { actor, .. } => push_border(requests, phases, *actor, Op::Opens),
        Item::Closes { actor, .. } => push_border(requests, phases, *actor, Op::Closes),
        Item::Phase(phase) => push_phase(requests, phases + 1, phase.as_slice()),
    }
}

/// How many phases an item is.
fn phases_in(item: &Item) -> u32
    ensures { result ≡ length (phases_of (item.now ∷ [])) }
{
    match item {
        Item::Phase(_) => 1,
        _ => 0,
    }
}

/// What the rows of a report of this script are about, in their order: that of the script's body, and in a
/// phase the card's lines, then those of each client, then those of each reader.
///
/// The one error is that memory ran out.
pub fn requests_of(alloc: Global, script: &Script) -> Result<Vec<Request>, AllocError>
    requires { IsScript script.now }
    ensures { IfOk result (λ all. all.items ≡ requests_of script.now) }
{
    let mut requests = Vec::new(alloc);
    let mut phases = 0;
    for item in script.body.as_slice() {
        push_item(&mut requests, phases, item)?;
        phases += phases_in(item);
    }
    Ok(requests)
}
