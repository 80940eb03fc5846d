//! A client of the lab, whether it is open or not.
use crate::lines::ClientActor;
use crate::open_client::OpenClient;
use crate::segments::{present_segment, push_segment, push_segments};
use crate::stream::set_up;
use bindings::Bindings;
use card_sim::Card;
use dmix_client::Client;
use lab_actors::{Opening, line_count, refuse_lines};
use lab_card::{hear_client, inform_client};
use lab_lines::{Actor, Answer, Line, Op, Row};
use mix_core::{Gate, MixPort};
use pcm_states::State;
use snd_base::{Geometry, PcmError, Segment};
use std::alloc::Global;
use std::mem;
use sum_table::MixSeat;
use wav_io::Wav;

/// A client of a script, by its number in the order of the clients' lines, whether it is open or not. While it isn't, its segments and
/// rows are here; else they are the open client's.
///
/// Its meaning is the client that it is in a run (`client_in`), and how it is at its port there (`IsAt`).
#[repr(C)]
pub struct LabClient<'r> {
    number: u32,
    own: Option<OpenClient<'r>>,
    ended: Vec<Segment>,
    // The segment that its last closing ended, so that a closing takes no memory; the next opening puts it to the others.
    last: Option<Segment>,
    rows: Vec<Row>,
    // So that no two clients of a list have a cache line in common while each is used by a thread of its own: processors fetch two
    // lines of 64 bytes at once.
    apart: [u64; 16],
}

// One call wherever it is let go. A derive drops each part in turn there, and the proof goes through all of them.
impl<'r> Drop for LabClient<'r> {
    fn drop(self) {
        let LabClient {
            number: _,
            own: _,
            ended: _,
            last: _,
            rows: _,
            apart: _,
        } = self;
    }
}

impl<'r> LabClient<'r> {
    ghost use Rattle.std.specs.Prelude.{◌≡◌, ◌++◌, ◌+◌, ◌≤◌, [], All, IfErr, IfOk, IfSome, IsSome, OnOk, length, map, vec_capacity, vec_len};
    ghost use Rattle.sum_table.specs.Seats.{geometry_of, member_of};
    ghost use Rattle.std.specs.Option.{option_to_list};
    ghost use Rattle.lab_actors.specs.Usable.{IsUsable};
    ghost use Rattle.lab_lines.specs.declared.line.Line.{Line};
    ghost use Rattle.lab_run.specs.Client.{row_by, segments_of};
    ghost use Rattle.lab_run.specs.GateAsks.{AsksGate};
    ghost use Rattle.lab_run.specs.Items.{is_stopped};
    ghost use Rattle.lab_run.specs.Stage.{opened_client};
    ghost use Rattle.lab_clients.specs.Lines.{IsFew};
    ghost use Rattle.lab_actors.specs.Room.{HasSpace};
    ghost use Rattle.lab_card.specs.Meets.{IsSameCard};
    ghost use Rattle.lab_clients.specs.OneClient.{CanRun, HasRoom, IsClientHeard, IsClientInformed, IsOfCard, IsSameBut, RunsLines, client_in, ended_segments, ended_of, is_open, last_by, number_of, open_of, rows_of, seen_by};
    ghost use Rattle.lab_clients.specs.declared.open_client.OpenClient.{OpenClient};
    ghost use Rattle.lab_clients.specs.OneOpening.{HasClosed, HasKeptLast, HasOpened};
    ghost use Rattle.lab_clients.specs.Steps.{has_lines};

    /// The client of a number, which isn't open.
    pub(crate) fn new(alloc: Global, number: u32) -> LabClient<'r>
        ensures number { number_of result ≡ number }
        ensures client { client_in result ≡ record { own = None; ended = [] } }
        ensures rows { rows_of result ≡ [] }
    {
        LabClient {
            number,
            own: None,
            ended: Vec::new(alloc),
            last: None,
            rows: Vec::new(alloc),
            apart: [0; 16],
        }
    }

    /// Whether it is open.
    pub(crate) fn is_open(&self) -> bool
        ensures { result ≡ is_open self.now }
    {
        self.own.is_some()
    }

    /// Whether it is open and its gate stopped it.
    pub(crate) fn is_stopped(&self) -> bool
        ensures { result ≡ is_stopped (client_in self.now).own }
    {
        match &self.own {
            Some(own) => own.actor.client.is_stopped(),
            None => false,
        }
    }

    /// Whether some of a phase's lines are its own.
    pub(crate) fn has_lines(&self, lines: &[Line]) -> bool
        ensures { result ≡ has_lines lines.now self.now }
    {
        line_count(lines, Actor::Client(self.number)) > 0
    }

    /// Takes the room that its lines of a phase want, so that `run_lines` takes no memory. It refuses, with `Memory`, only where no memory
    /// is left. Whatever it answers, the client is as it was.
    pub(crate) fn take_room(&mut self, lines: &[Line]) -> Result<(), PcmError>
        ensures room { OnOk result (HasRoom lines.now self.new) }
        ensures same { IsSameBut self.old self.new }
        ensures rows { rows_of self.new ≡ rows_of self.old }
        ensures only { IfErr result (λ e. e ≡ PcmError.Memory) }
    {
        match &mut self.own {
            Some(own) => own.actor.take_room(lines),
            None => {
                let count = line_count(lines, Actor::Client(self.number));
                self.rows.reserve(count)?;
                Ok(())
            }
        }
    }

    /// Before a phase: where it is open, its seat meets a note of the card (`inform_client`).
    ///
    /// The caller has a card of the seat's ring.
    pub(crate) fn inform(&mut self, card: &mut Card<'_, '_>)
        requires { IsOfCard card.old self.old }
        ensures card { IsSameCard card.old card.new }
        ensures informed { IsClientInformed card.old self.old self.new }
    {
        if let Some(own) = &mut self.own {
            inform_client(card, &mut own.seat);
        }
    }

    /// Does its lines of a phase with its gate, at its seat (`ClientActor::run_lines`); where it isn't open, each of them is refused
    /// with `BadState` and nothing is done.
    ///
    /// The caller has taken the room of the lines (`take_room`), and has the client with its file; no write is of more than 4,194,304
    /// frames.
    pub(crate) fn run_lines<G: Gate>(&mut self, gate: &mut G, wav: &Wav, phase: u32, lines: &[Line])
        requires few { All (λ (line : Line). IsFew line.op) lines.now }
        requires ready { CanRun wav.now self.old }
        requires room { HasRoom lines.now self.old }
        ensures { AsksGate G.Gate gate.old gate.new (λ before after asks.
            RunsLines before after asks phase wav.now lines.now self.old self.new) }
    {
        match &mut self.own {
            Some(own) => own.actor.run_lines(&mut own.seat, gate, wav, phase, lines),
            None => refuse_lines(&mut self.rows, Actor::Client(self.number), phase, lines),
        }
    }

    /// After a phase: where it is open, the card meets a note of its seat (`hear_client`).
    ///
    /// The caller has a card of the seat's ring.
    pub(crate) fn hear(&mut self, card: &mut Card<'_, '_>)
        requires { IsOfCard card.old self.old }
        ensures card { IsSameCard card.old card.new }
        ensures heard { IsClientHeard card.new self.old self.new }
    {
        if let Some(own) = &mut self.own {
            hear_client(card, &mut own.seat);
        }
    }

    /// Moves its rows to the end of the lab's, for which there is room: it has none then.
    pub(crate) fn take_rows(&mut self, all: &mut Vec<Row>)
        requires { vec_len all.old + length (rows_of self.old) ≤ vec_capacity all.old }
        ensures rows { all.new.items ≡ all.old.items ++ rows_of self.old }
        ensures room { vec_capacity all.old ≤ vec_capacity all.new }
        ensures none { rows_of self.new ≡ [] }
        ensures same { IsSameBut self.old self.new }
    {
        match &mut self.own {
            Some(own) => all.append(&mut own.actor.rows).unwrap(),
            None => all.append(&mut self.rows).unwrap(),
        }
    }

    /// The row of a line of it that isn't in a phase, as it is after the line: an opening or a closing.
    pub(crate) fn row(&self, phase: u32, op: Op, answer: Answer) -> Row
        ensures { result ≡ row_by phase (number_of self.now) op (client_in self.now).own answer }
    {
        let (state, seen) = match &self.own {
            Some(own) => (own.actor.client.state(), own.actor.client.seen()),
            None => (State::Open, None),
        };
        Row {
            phase,
            actor: Actor::Client(self.number),
            op,
            answer,
            state,
            seen,
        }
    }

    /// The position of the card that its stream loaded last, where it is open and loaded one.
    pub(crate) fn seen(&self) -> Option<u64>
        ensures { result ≡ seen_by (client_in self.now).own }
    {
        match &self.own {
            Some(own) => own.actor.client.seen(),
            None => None,
        }
    }

    // The segments of its stretches that ended, but that of its last closing.
    fn ended(&self) -> &[Segment]
        ensures { result.now ≡ ended_segments self.now (open_of self.now) }
    {
        match &self.own {
            Some(own) => own.actor.ended.as_slice(),
            None => self.ended.as_slice(),
        }
    }

    // The segment of its present stretch, or that of its last closing, where it has a sample.
    fn last_segment(&self) -> Option<Segment>
        ensures { option_to_list result ≡ last_by self.now (open_of self.now) }
    {
        match &self.own {
            Some(own) => present_segment(&own.actor.client),
            None => self.last,
        }
    }

    /// Appends all its segments with its number: those of the stretches that ended, and then that of the present one. It takes no memory.
    ///
    /// The caller has room for them.
    pub(crate) fn segments_into(&self, all: &mut Vec<(u32, Segment)>)
        requires { HasSpace (length (segments_of (client_in self.now))) all.old }
        ensures segments { all.new.items ≡ all.old.items
            ++ map (λ s. (number_of self.now, s)) (segments_of (client_in self.now)) }
        ensures room { vec_capacity all.old ≤ vec_capacity all.new }
    {
        push_segments(all, self.number, self.ended());
        push_segment(all, self.number, self.last_segment());
    }

    // Puts the segment that its last closing ended to the others.
    fn keep_last(&mut self) -> Result<(), PcmError>
        ensures kept { OnOk result (self.new.ended.items ≡ ended_of self.old) }
        ensures none { OnOk result (self.new.last ≡ None) }
        ensures same_ended { ended_of self.new ≡ ended_of self.old }
        ensures same_number { self.new.number ≡ self.old.number }
        ensures same_open { self.new.own ≡ self.old.own }
        ensures same_rows { self.new.rows ≡ self.old.rows }
        ensures only { IfErr result (λ e. e ≡ PcmError.Memory) }
    {
        if let Some(segment) = self.last {
            self.ended.push(segment)?;
            self.last = None;
        }
        Ok(())
    }

    /// Makes the stream of its opening, of a member of a ring of this geometry, with what its line and its file leave it, and puts the
    /// segment of its last closing to the others, so that `open` takes no memory. It refuses, with `Memory`, only where no memory is left.
    /// Whatever it answers, the client is as it was.
    ///
    /// The caller shows that it isn't open, and that the stream can be set up so at the ring.
    pub(crate) fn make_stream(
        &mut self,
        alloc: Global,
        geometry: Geometry,
        member: u32,
        opening: &Opening,
    ) -> Result<Client, PcmError>
        requires closed { open_of self.old ≡ None }
        requires usable { IsUsable geometry.channels geometry.frames opening.now }
        ensures stream { IfOk result
            (λ client. client.stream ≡ opened_client geometry member opening.now) }
        ensures kept { OnOk result (HasKeptLast self.new) }
        ensures closed { open_of self.new ≡ None }
        ensures same { IsSameBut self.old self.new }
        ensures same_rows { rows_of self.new ≡ rows_of self.old }
        ensures only { IfErr result (λ e. e ≡ PcmError.Memory) }
    {
        let client = set_up(alloc, geometry, member, opening)?;
        self.keep_last()?;
        Ok(client)
    }

    /// Opens it at the seat of a place and at the card's position, with a stream that was made for the place (`make_stream`), which is
    /// PREPARED and has accepted nothing. It takes no memory.
    ///
    /// The caller shows that it isn't open, and that the stream is of the seat's place.
    pub(crate) fn open(
        &mut self,
        alloc: Global,
        client: Client,
        seat: MixSeat<'r>,
        opening: &Opening,
        opened_at: u64,
    )
        requires closed { open_of self.old ≡ None }
        requires kept { HasKeptLast self.old }
        requires stream { client.stream
            ≡ opened_client (geometry_of seat) (member_of seat) opening.now }
        ensures { HasOpened seat.entry opening.now opened_at self.old self.new }
    {
        let _last = seat.last();
        let actor = ClientActor {
            number: self.number,
            client,
            left: None,
            ended: mem::replace(&mut self.ended, Vec::new(alloc)),
            rows: mem::replace(&mut self.rows, Vec::new(alloc)),
        };
        self.own = Some(OpenClient {
            actor,
            bindings: opening.bindings,
            seat,
            opened_at,
        });
    }

    /// Closes it, and gives the seat of its place back, with its bindings and the card's position at its opening. The segment of its
    /// present stretch, where it has a sample, is among those that ended. It takes no memory.
    ///
    /// The caller shows that it is open.
    pub(crate) fn close(&mut self) -> (MixSeat<'r>, Bindings, u64)
        requires { IsSome (open_of self.old) }
        ensures { IfSome (open_of self.old)
            (λ (o : OpenClient). HasClosed self.old o result.0 result.1 result.2 self.new) }
    {
        let own = self.own.take().unwrap();
        let _last = own.seat.last();
        let OpenClient {
            actor,
            bindings,
            seat,
            opened_at,
        } = own;
        self.last = present_segment(&actor.client);
        let ClientActor { ended, rows, .. } = actor;
        self.ended = ended;
        self.rows = rows;
        (seat, bindings, opened_at)
    }
}
