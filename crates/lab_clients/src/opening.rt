//! Openings of clients, between two phases.
use crate::clients::LabClients;
use dmix_client::Client;
use lab_actors::Opening;
use lab_lines::{Actor, Answer, Op, Row};
use pcm_states::State;
use snd_base::{Geometry, PcmError, Why};
use std::alloc::Global;
use sum_table::PlayerSeat;

impl LabClients<'_> {
    ghost use Rattle.std.specs.Prelude.{◌≡◌, ◌<◌, IfErr, IfOk, IfSome, None, OnErr, OnOk, Some, length};
    ghost use Rattle.std.specs.Option.{option_copied};
    ghost use Rattle.sum_table.specs.Joins.{OneRing};
    ghost use Rattle.sum_table.specs.Players.{player_geometry, player_key, player_ring, position_of_player};
    ghost use Rattle.lobby.specs.Loads.{PlayerStays};
    ghost use Rattle.lab_lines.specs.declared.line.Actor.TheVariants as actor;
    ghost use Rattle.lab_run.specs.Stage.{Session, Stage, after_open};
    ghost use Rattle.lab_actors.specs.Usable.{IsUsable};
    ghost use Rattle.lab_places.specs.Held.{IsSameCard, key_of_places, next_place, ring_of_places};
    ghost use Rattle.lab_clients.specs.AtStage.{AreAfter, clients_of, places_of};
    ghost use Rattle.lab_clients.specs.Opening.{AreBeforeOpening, AreOfRun, HasKeptLastAt, IsMadeFor, open_at};
    ghost use Rattle.lab_clients.specs.Steps.{IsSameWithRows};
    ghost use Rattle.lab_actors.specs.Walks.{AreEach};

    /// Does the line of a script's body that opens the client of a number, with what its line and its file leave it, after so many
    /// phases: beside the player, whose position the card published last. The answer is the line's row. It is `BadState` where the client
    /// is open already; else EINVAL where there is nothing to open it with; else what the channels and the places answer; else the client
    /// is open at its place.
    ///
    /// The caller shows that there is the client, that the player is of the ring, and that a stream can be set up so there.
    ///
    /// It refuses, with `Memory`, only where no memory is left; then the clients and the places are as they were, but for their room.
    pub fn open(
        &mut self,
        alloc: Global,
        number: u32,
        opening: Option<&Opening>,
        phase: u32,
        player: &mut PlayerSeat<'_>,
    ) -> Result<Row, PcmError>
        requires run { AreOfRun self.old }
        requires number { number < length (clients_of self.old) }
        requires one_ring { OneRing (player_ring player.old) (player_key player.old)
            (ring_of_places (places_of self.old)) (key_of_places (places_of self.old)) }
        requires usable { IfSome (option_copied opening)
            (IsUsable (key_of_places (places_of self.old)).geometry.channels
            (key_of_places (places_of self.old)).geometry.frames) }
        ensures after { IfOk result (λ row. (session : Session) (stage : Stage)
            → AreBeforeOpening session stage number (option_copied opening.entry)
            (position_of_player player.old) phase self.old
            → AreAfter session stage (after_open session stage (actor.Client number))
            row self.new) }
        ensures same { OnErr result
            (AreEach IsSameWithRows 0 (clients_of self.old) (clients_of self.new)) }
        ensures places { OnErr result (places_of self.new ≡ places_of self.old) }
        ensures card { IsSameCard (places_of self.old) (places_of self.new) }
        ensures player { PlayerStays player.old player.new }
        ensures only { IfErr result (λ e. e ≡ PcmError.Memory) }
    {
        let client = &self.clients[number as usize];
        if client.is_open() {
            return Ok(client.row(phase, Op::Opens, Answer::Failed(PcmError::BadState)));
        }
        let Some(opening) = opening else {
            let why = PcmError::Invalid(Why::Config);
            return Ok(client.row(phase, Op::Opens, Answer::Failed(why)));
        };
        self.open_with(alloc, number, opening, phase, player)
    }

    // The same for a client that isn't open, where there is something to open it with. Its stream is made before it is given a place,
    // for that place.
    fn open_with(
        &mut self,
        alloc: Global,
        number: u32,
        opening: &Opening,
        phase: u32,
        player: &mut PlayerSeat<'_>,
    ) -> Result<Row, PcmError>
        requires run { AreOfRun self.old }
        requires number { number < length (clients_of self.old) }
        requires closed { open_at (clients_of self.old) number ≡ None }
        requires one_ring { OneRing (player_ring player.old) (player_key player.old)
            (ring_of_places (places_of self.old)) (key_of_places (places_of self.old)) }
        requires usable { IsUsable (key_of_places (places_of self.old)).geometry.channels
            (key_of_places (places_of self.old)).geometry.frames opening.now }
        ensures after { IfOk result (λ row. (session : Session) (stage : Stage)
            → AreBeforeOpening session stage number (Some opening.now)
            (position_of_player player.old) phase self.old
            → AreAfter session stage (after_open session stage (actor.Client number))
            row self.new) }
        ensures same { OnErr result
            (AreEach IsSameWithRows 0 (clients_of self.old) (clients_of self.new)) }
        ensures places { OnErr result (places_of self.new ≡ places_of self.old) }
        ensures card { IsSameCard (places_of self.old) (places_of self.new) }
        ensures player { PlayerStays player.old player.new }
        ensures only { IfErr result (λ e. e ≡ PcmError.Memory) }
    {
        let position = player.position();
        let stream = self.make_stream(alloc, number, opening, player.geometry(), position)?;
        Ok(self.open_made(alloc, number, stream, opening, phase, player))
    }

    // Makes the stream of an opening at a position of the card.
    fn make_stream(
        &mut self,
        alloc: Global,
        number: u32,
        opening: &Opening,
        ring: Geometry,
        position: u64,
    ) -> Result<Client, PcmError>
        requires number { number < length (clients_of self.old) }
        requires closed { open_at (clients_of self.old) number ≡ None }
        requires usable { IsUsable ring.channels ring.frames opening.now }
        ensures stream { IfOk result (λ stream.
            IsMadeFor ring (next_place position (places_of self.old)) opening.now stream.stream) }
        ensures kept { OnOk result (HasKeptLastAt number (clients_of self.new)) }
        ensures closed { open_at (clients_of self.new) number ≡ None }
        ensures same { AreEach IsSameWithRows 0 (clients_of self.old) (clients_of self.new) }
        ensures places { places_of self.new ≡ places_of self.old }
        ensures only { IfErr result (λ e. e ≡ PcmError.Memory) }
    {
        let place = self.places.next_place(position).unwrap_or(0);
        self.clients[number as usize].make_stream(alloc, ring, place, opening)
    }

    // Opens a client whose stream was made, at a place. It takes no memory.
    fn open_made(
        &mut self,
        alloc: Global,
        number: u32,
        stream: Client,
        opening: &Opening,
        phase: u32,
        player: &mut PlayerSeat<'_>,
    ) -> Row
        requires run { AreOfRun self.old }
        requires number { number < length (clients_of self.old) }
        requires closed { open_at (clients_of self.old) number ≡ None }
        requires kept { HasKeptLastAt number (clients_of self.old) }
        requires stream { IsMadeFor (player_geometry player.old)
            (next_place (position_of_player player.old) (places_of self.old))
            opening.now stream.stream }
        requires one_ring { OneRing (player_ring player.old) (player_key player.old)
            (ring_of_places (places_of self.old)) (key_of_places (places_of self.old)) }
        requires usable { IsUsable (key_of_places (places_of self.old)).geometry.channels
            (key_of_places (places_of self.old)).geometry.frames opening.now }
        ensures after { (session : Session) (stage : Stage)
            → AreBeforeOpening session stage number (Some opening.now)
            (position_of_player player.old) phase self.old
            → AreAfter session stage (after_open session stage (actor.Client number))
            result self.new }
        ensures card { IsSameCard (places_of self.old) (places_of self.new) }
        ensures player { PlayerStays player.old player.new }
    {
        let position = player.position();
        let seat = match self.places.open(&opening.bindings, player) {
            Ok(seat) => seat,
            Err(e) => {
                let client = &self.clients[number as usize];
                return client.row(phase, Op::Opens, Answer::Failed(e));
            }
        };
        let client = &mut self.clients[number as usize];
        client.open(alloc, stream, seat, opening, position);
        client.row(phase, Op::Opens, Answer::Done)
    }
}
