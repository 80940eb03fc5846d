//! The clients at the beginning of a run, and at its end.
ghost use Rattle.std.specs.Prelude.{◌≡◌, IfErr, IfOk, length};
ghost use Rattle.lab_clients.specs.End.{AreNewClients};

use crate::client::LabClient;
use crate::clients::LabClients;
use lab_lines::Share;
use lab_places::Places;
use snd_base::{PcmError, Segment};
use std::alloc::Global;
use sum_table::MixSeat;

impl<'r> LabClients<'r> {
    ghost use Rattle.std.specs.Prelude.{◌≡◌, ◌++◌, IfErr, IfOk, List, None, [], length, ℕ};
    ghost use Rattle.std.specs.List.{flat_map};
    ghost use Rattle.sum_table.specs.Joins.{OneRing};
    ghost use Rattle.sum_table.specs.Seats.{key_of, places_of_seat, ring_of, view_of};
    ghost use Rattle.lab_run.specs.Client.{Client};
    ghost use Rattle.lab_run.specs.Items.{Held, held_of};
    ghost use Rattle.lab_run.specs.LabRun.{all_segments};
    ghost use Rattle.lab_run.specs.Rules.{AtPort};
    ghost use Rattle.lab_run.specs.Stage.{Session, first_stage};
    ghost use Rattle.lab_actors.specs.Room.{HasSpace};
    ghost use Rattle.lab_places.specs.Held.{IsSameCard, key_of_places, ring_of_places};
    ghost use Rattle.lab_clients.specs.AtStage.{AreAt, IsNewCardOf, clients_of, places_of};
    ghost use Rattle.lab_clients.specs.End.{HasEnded, IsPlacedAll, segments_by};
    ghost use Rattle.lab_clients.specs.Opening.{AreOfRun, open_at};

    /// So many clients, none of which is open, with the places of a new ring, by the seat that has all of them. The caller shows that
    /// nothing was placed by the seat.
    ///
    /// It refuses, with `Memory`, only where no memory is left; the seat has ended then.
    pub fn new(
        alloc: Global,
        count: u32,
        seat: MixSeat<'r>,
        share: Share,
    ) -> Result<LabClients<'r>, PcmError>
        requires { (view_of seat).laid ≡ [] }
        ensures first { IfOk result (λ clients. (session : Session)
            → IsNewCardOf session seat.entry share → length session.clients ≡ count
            → AreAt session (held_of (first_stage session)) (first_stage session).clients clients) }
        ensures ring { IfOk result
            (λ clients. ring_of_places (places_of clients) ≡ ring_of seat.entry) }
        ensures key { IfOk result
            (λ clients. key_of_places (places_of clients) ≡ key_of seat.entry) }
        ensures count { IfOk result (λ clients. length (clients_of clients) ≡ count) }
        ensures only { IfErr result (λ e. e ≡ PcmError.Memory) }
    {
        let places = Places::new(alloc, seat, share)?;
        let clients = new_clients(alloc, count)?;
        Ok(LabClients { places, clients })
    }

    /// Appends the segments of all clients, each with its client's number, by client and then by time. It takes no memory.
    ///
    /// The caller has room for them.
    pub fn segments_into(&self, all: &mut Vec<(u32, Segment)>)
        requires { HasSpace (length (flat_map segments_by (clients_of self.now))) all.old }
        ensures { (session : Session) (held : Held) (xs : List (AtPort × Client))
            → AreAt session held xs self.now → all.new.items ≡ all.old.items ++ all_segments xs }
    {
        for index in 0..self.clients.len() {
            self.clients[index].segments_into(all);
        }
    }

    /// At the end of a run: closes the clients that are still open, and joins the seats of all places. The one seat has all that was placed
    /// for the clients: seat by seat what the segments say that were made through the seat, and at each frame and channel the sum of them
    /// all.
    pub fn into_seat(mut self) -> MixSeat<'r>
        requires { AreOfRun self }
        ensures placed { (session : Session) (held : Held) (xs : List (AtPort × Client))
            → AreAt session held xs self.entry → IsPlacedAll session xs (view_of result).laid }
        ensures places { (session : Session) (held : Held) (xs : List (AtPort × Client))
            → AreAt session held xs self.entry → places_of_seat result ≡ length held.lobby.places }
        ensures one_ring { OneRing (ring_of result) (key_of result)
            (ring_of_places (places_of self.entry)) (key_of_places (places_of self.entry)) }
    {
        self.close_all();
        let LabClients { places, clients: _ } = self;
        places.into_lobby().close()
    }

    // Closes the clients that are open.
    fn close_all(&mut self)
        requires { AreOfRun self.old }
        ensures closed { (number : ℕ) → open_at (clients_of self.new) number ≡ None }
        ensures ended { (session : Session) (held : Held) (xs : List (AtPort × Client))
            → AreAt session held xs self.old → HasEnded session held xs self.new }
        ensures card { IsSameCard (places_of self.old) (places_of self.new) }
    {
        for number in 0..self.clients.len() {
            if self.clients[number].is_open() {
                self.give_back(number);
            }
        }
    }
}

// So many clients, none of which is open.
fn new_clients<'r>(alloc: Global, count: u32) -> Result<Vec<LabClient<'r>>, PcmError>
    ensures new { IfOk result (λ clients. AreNewClients 0 clients.items) }
    ensures count { IfOk result (λ clients. length clients.items ≡ count) }
    ensures only { IfErr result (λ e. e ≡ PcmError.Memory) }
{
    let mut clients = Vec::with_capacity(alloc, count as usize)?;
    for number in 0..count {
        clients.push(LabClient::new(alloc, number))?;
    }
    Ok(clients)
}
