//! All clients of a script in the lab, in a phase: the steps of it, in their order.
use crate::at_once::run_at_once;
use crate::clients::LabClients;
use crate::steps::busy_count;
use card_sim::Card;
use lab_lines::{Line, Row};
use mix_core::Gate;
use snd_base::PcmError;
use std::marker::{Send, Sync};
use std::thread::Threads;
use wav_io::Wav;

impl LabClients<'_> {
    ghost use Rattle.std.specs.Prelude.{◌≡◌, ◌++◌, ◌≤◌, All, IfErr, OnErr, OnOk, count_by, length, vec_capacity};
    ghost use Rattle.std.specs.List.{flat_map};
    ghost use Rattle.lab_lines.specs.declared.line.Line.{Line};
    ghost use Rattle.lab_clients.specs.Lines.{IsFew};
    ghost use Rattle.lab_actors.specs.Room.{HasSpace};
    ghost use Rattle.lab_card.specs.Meets.{IsSameCard};
    ghost use Rattle.lab_clients.specs.OneClient.{rows_of};
    ghost use Rattle.lab_clients.specs.AtStage.{clients_of, places_of};
    ghost use Rattle.lab_clients.specs.Steps.{AreOfCard, AreReady, AreSameFrom, HasGivenRows, HasTakenRoom, IsHeardBy, IsInformedBy, IsSameWithRows, RunsAt, has_lines};
    ghost use Rattle.lab_actors.specs.Walks.{AreEach};

    /// How many clients there are, open or not.
    pub fn len(&self) -> usize
        ensures { result ≡ length (clients_of self.now) }
    {
        self.clients.len()
    }

    /// How many clients have lines among those of a phase, open or not.
    pub fn busy_count(&self, lines: &[Line]) -> usize
        ensures { result ≡ count_by (has_lines lines.now) (clients_of self.now) }
    {
        busy_count(self.clients.as_slice(), lines)
    }

    /// Takes the room that the lines of a phase want, so that `run_lines` and `run_lines_at_once` take no memory. It refuses, with
    /// `Memory`, only where no memory is left; then the clients are as they were, but for their room.
    pub fn take_room(&mut self, lines: &[Line]) -> Result<(), PcmError>
        ensures places { places_of self.new ≡ places_of self.old }
        ensures room { OnOk result
            (AreEach (HasTakenRoom lines.now) 0 (clients_of self.old) (clients_of self.new)) }
        ensures same { OnErr result
            (AreEach IsSameWithRows 0 (clients_of self.old) (clients_of self.new)) }
        ensures only { IfErr result (λ e. e ≡ PcmError.Memory) }
    {
        for index in 0..self.clients.len() {
            self.clients[index].take_room(lines)?;
        }
        Ok(())
    }

    /// Before the lines of a phase: the seat of each open client meets a note of the card.
    ///
    /// The caller has a card of the seats' ring.
    pub fn inform(&mut self, card: &mut Card<'_, '_>)
        requires { AreOfCard card.old (clients_of self.old) }
        ensures card { IsSameCard card.old card.new }
        ensures places { places_of self.new ≡ places_of self.old }
        ensures informed { AreEach (IsInformedBy card.old) 0
            (clients_of self.old) (clients_of self.new) }
    {
        for index in 0..self.clients.len() {
            self.clients[index].inform(card);
        }
    }

    /// All clients do their lines of a phase, one client after the other, each with its file and with the gate of its number. A
    /// client that isn't open is refused each of its lines with `BadState`. The gates beyond the clients are as they were.
    ///
    /// The caller has taken the room of the lines (`take_room`), and has at least as many gates as clients, and the files that they were
    /// opened with; no write is of more than 4,194,304 frames (`writes_are_few`).
    pub fn run_lines<G: Gate>(&mut self, gates: &mut [G], wavs: &[Wav], phase: u32, lines: &[Line])
        requires few { All (λ (line : Line). IsFew line.op) lines.now }
        requires gates { length (clients_of self.old) ≤ length gates.old }
        requires files { length wavs.now ≡ length (clients_of self.old) }
        requires ready { AreReady wavs.now lines.now (clients_of self.old) }
        ensures places { places_of self.new ≡ places_of self.old }
        ensures run { AreEach (RunsAt G.Gate gates.old gates.new wavs.now phase lines.now) 0
            (clients_of self.old) (clients_of self.new) }
        ensures others { AreSameFrom (length (clients_of self.old)) gates.old gates.new }
    {
        for index in 0..self.clients.len() {
            self.clients[index].run_lines(&mut gates[index], &wavs[index], phase, lines);
        }
    }

    /// Does what `run_lines` does, with each client in a thread of its own where one can be made. It returns once all clients are done.
    pub fn run_lines_at_once<R: Threads + Sync, G: Gate + Send>(
        &mut self,
        rt: &R,
        gates: &mut [G],
        wavs: &[Wav],
        phase: u32,
        lines: &[Line],
    )
        requires few { All (λ (line : Line). IsFew line.op) lines.now }
        requires gates { length (clients_of self.old) ≤ length gates.old }
        requires files { length wavs.now ≡ length (clients_of self.old) }
        requires ready { AreReady wavs.now lines.now (clients_of self.old) }
        ensures places { places_of self.new ≡ places_of self.old }
        ensures run { AreEach (RunsAt G.Gate gates.old gates.new wavs.now phase lines.now) 0
            (clients_of self.old) (clients_of self.new) }
        ensures others { AreSameFrom (length (clients_of self.old)) gates.old gates.new }
    {
        run_at_once(rt, self.clients.as_mut_slice(), gates, wavs, phase, lines);
    }

    /// After the lines of a phase: the card meets a note of the seat of each open client.
    ///
    /// The caller has a card of the seats' ring.
    pub fn hear(&mut self, card: &mut Card<'_, '_>)
        requires { AreOfCard card.old (clients_of self.old) }
        ensures card { IsSameCard card.old card.new }
        ensures places { places_of self.new ≡ places_of self.old }
        ensures heard { AreEach (IsHeardBy card.old) 0
            (clients_of self.old) (clients_of self.new) }
    {
        for index in 0..self.clients.len() {
            self.clients[index].hear(card);
        }
    }

    /// Moves the rows of all clients to the end of the lab's, client by client: they have none then. It takes no memory.
    ///
    /// The caller has room for them.
    pub fn take_rows(&mut self, rows: &mut Vec<Row>)
        requires { HasSpace (length (flat_map rows_of (clients_of self.old))) rows.old }
        ensures places { places_of self.new ≡ places_of self.old }
        ensures rows { rows.new.items
            ≡ rows.old.items ++ flat_map rows_of (clients_of self.old) }
        ensures room { vec_capacity rows.old ≤ vec_capacity rows.new }
        ensures clients { AreEach HasGivenRows 0 (clients_of self.old) (clients_of self.new) }
    {
        for index in 0..self.clients.len() {
            self.clients[index].take_rows(rows);
        }
    }
}
