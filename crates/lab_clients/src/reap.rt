//! The clients that their gates stopped in a phase are closed after it.
use crate::clients::LabClients;
use lab_run::last_frames_are_own;

impl LabClients<'_> {
    ghost use Rattle.std.specs.Prelude.{◌≡◌, ◌<◌, IsSome, List, ℕ, length, map};
    ghost use Rattle.lab_run.specs.Client.{Client};
    ghost use Rattle.lab_run.specs.Items.{Held, held_after, reaped_client};
    ghost use Rattle.lab_run.specs.Rules.{AtPort};
    ghost use Rattle.lab_run.specs.Stage.{Session};
    ghost use Rattle.lab_places.specs.Held.{IsSameCard};
    ghost use Rattle.lab_clients.specs.AtStage.{AreAt, AreDone, clients_of, places_of};
    ghost use Rattle.lab_clients.specs.Opening.{clients_but, held_but, open_at};
    ghost use Rattle.lab_clients.specs.Reaped.{AreDoneInRun};

    /// After the lines of a phase: closes each client that its gate stopped, and takes its place and its channels back, as a run reaps it.
    /// It takes no memory.
    ///
    /// The caller shows that the clients did their lines of the phase, and gave their rows to the lab.
    pub fn reap(&mut self)
        requires { AreDoneInRun self.old }
        ensures reaped { (session : Session) (held : Held) (xs : List (AtPort × Client))
            → AreDone session held xs self.old
            → AreAt session (held_after session 0 xs held)
            (map (reaped_client session.ring) xs) self.new }
        ensures card { IsSameCard (places_of self.old) (places_of self.new) }
    {
        for number in 0..self.clients.len() {
            if self.clients[number].is_stopped() {
                self.reap_open(number);
            }
        }
    }

    // Closes the client of a number, which is open, and takes its place and its channels back.
    fn reap_open(&mut self, number: usize)
        requires run { AreDoneInRun self.old }
        requires inside { number < length (clients_of self.old) }
        requires open { IsSome (open_at (clients_of self.old) number) }
        ensures closed { (session : Session) (held : Held) (xs : List (AtPort × Client))
            → AreDone session held xs self.old
            → AreDone session (held_but session held xs number)
            (clients_but session xs number) self.new }
        ensures len { length (clients_of self.new) ≡ length (clients_of self.old) }
        ensures card { IsSameCard (places_of self.old) (places_of self.new) }
    {
        last_frames_are_own();
        let (seat, bindings, opened_at) = self.clients[number].close();
        self.places.reap(seat, &bindings, opened_at);
    }
}
