//! The requests of a phase, sorted by the places of their actors.
ghost use Rattle.std.specs.Prelude.{◌≡◌, ◌∷◌, ◌++◌, ℕ, [], IfOk, OnOk, slice_index_or, vec_len};
ghost use Rattle.lab_report.specs.Requests.{place_of_actor, AddsRequest, AreSorted};

use lab_lines::{Actor, Line, Request};
use std::alloc::{AllocError, Global};
use std::marker::Model;

/// How many places actors can have in a phase: the card's, 64 of clients and 64 of readers.
pub const PLACES: usize = 129;

/// The requests of an actor's lines in a phase, in order. Contracts see the list of them.
#[derive(Drop)]
pub struct OwnRequests {
    requests: Vec<Request>,
}

impl Model for OwnRequests {
    ghost use Rattle.std.specs.Prelude.{List};
    ghost use Rattle.lab_lines.specs.declared.request.Request.{Request};

    ghost Value = { List Request };

    ghost view = { λ own. own.requests.items };
}

impl OwnRequests {
    /// No requests.
    fn new(alloc: Global) -> OwnRequests
        ensures { result ≡ [] }
    {
        OwnRequests {
            requests: Vec::new(alloc),
        }
    }

    /// The requests, in order.
    pub fn as_slice(&self) -> &[Request]
        ensures { result.now ≡ self.now }
    {
        self.requests.as_slice()
    }

    /// Appends a request.
    fn push(&mut self, request: Request) -> Result<(), AllocError>
        ensures { OnOk result (self.new ≡ self.old ++ request ∷ []) }
    {
        self.requests.push(request)?;
        Ok(())
    }
}

/// All places, without requests.
pub fn empty_places(alloc: Global) -> Result<Vec<OwnRequests>, AllocError>
    ensures none { IfOk result (λ places. (k : ℕ) → slice_index_or places.items k [] ≡ []) }
    ensures count { IfOk result (λ places. vec_len places ≡ 129) }
{
    let mut places = Vec::with_capacity(alloc, PLACES)?;
    for _place in 0..PLACES {
        places.push(OwnRequests::new(alloc))?;
    }
    Ok(places)
}

/// The place of an actor among the rows of a phase: the card is first, then the clients, then the readers.
fn place_of(actor: Actor) -> usize
    ensures { result ≡ place_of_actor actor }
{
    match actor {
        Actor::Card => 0,
        Actor::Client(number) => 1 + number as usize,
        Actor::Reader(number) => 65 + number as usize,
    }
}

/// Appends the request of a line to those of its actor's place, where there is one.
fn push_line(places: &mut [OwnRequests], phase: u32, line: &Line) -> Result<(), AllocError>
    ensures { OnOk result (AddsRequest phase line.now places.old places.new) }
{
    let place = place_of(line.actor);
    if place >= places.len() {
        return Ok(());
    }
    places[place].push(Request {
        phase,
        actor: line.actor,
        op: line.op,
    })?;
    Ok(())
}

/// Gives each place, which has none yet, the requests of its lines in a phase. It goes once through the lines.
pub fn sort_lines(places: &mut [OwnRequests], phase: u32, lines: &[Line]) -> Result<(), AllocError>
    requires { (k : ℕ) → slice_index_or places.old k [] ≡ [] }
    ensures { OnOk result (AreSorted phase lines.now places.new) }
{
    for line in lines {
        push_line(places, phase, line)?;
    }
    Ok(())
}
