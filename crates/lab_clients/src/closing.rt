//! Closings of clients, between two phases.
use crate::clients::LabClients;
use lab_lines::{Actor, Answer, Op, Row};
use lab_run::last_frames_are_own;
use pcm_states::State;
use snd_base::PcmError;

impl LabClients<'_> {
    ghost use Rattle.std.specs.Prelude.{◌<◌, IsSome, List, length};
    ghost use Rattle.lab_lines.specs.declared.line.Actor.TheVariants as actor;
    ghost use Rattle.lab_run.specs.Client.{Client};
    ghost use Rattle.lab_run.specs.Items.{Held};
    ghost use Rattle.lab_run.specs.Rules.{AtPort};
    ghost use Rattle.lab_run.specs.Stage.{Session, Stage, after_close};
    ghost use Rattle.lab_places.specs.Held.{IsSameCard};
    ghost use Rattle.lab_clients.specs.AtStage.{AreAfter, AreAt, clients_of, places_of};
    ghost use Rattle.lab_clients.specs.Opening.{AreAtStage, AreOfRun, IsClosedAt, clients_but, held_but, open_at};

    /// Does the line of a script's body that closes the client of a number, after so many phases. The answer is the line's row: `BadState`
    /// where the client isn't open. It takes no memory.
    ///
    /// The caller shows that there is the client.
    pub fn close(&mut self, number: u32, phase: u32) -> Row
        requires run { AreOfRun self.old }
        requires number { number < length (clients_of self.old) }
        ensures after { (session : Session) (stage : Stage)
            → AreAtStage session stage phase self.old
            → AreAfter session stage (after_close session stage (actor.Client number))
            result self.new }
        ensures card { IsSameCard (places_of self.old) (places_of self.new) }
    {
        let client = &self.clients[number as usize];
        if !client.is_open() {
            return client.row(phase, Op::Closes, Answer::Failed(PcmError::BadState));
        }
        let seen = client.seen();
        self.give_back(number as usize);
        Row {
            phase,
            actor: Actor::Client(number),
            op: Op::Closes,
            answer: Answer::Done,
            state: State::Open,
            seen,
        }
    }

    // Closes the client of a number, which is open: its place and its channels are given back.
    pub(crate) fn give_back(&mut self, number: usize)
        requires run { AreOfRun self.old }
        requires open { IsSome (open_at (clients_of self.old) number) }
        ensures closed { (session : Session) (held : Held) (xs : List (AtPort × Client))
            → AreAt session held xs self.old
            → AreAt session (held_but session held xs number)
            (clients_but session xs number) self.new }
        ensures clients { IsClosedAt number (clients_of self.old) (clients_of self.new) }
        ensures card { IsSameCard (places_of self.old) (places_of self.new) }
    {
        last_frames_are_own();
        let (seat, bindings, opened_at) = self.clients[number].close();
        self.places.close(seat, &bindings, opened_at);
    }
}
