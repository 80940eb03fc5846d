//! A reader of the lab, whether it is open or not.
ghost use Rattle.std.specs.Prelude.{◌≡◌, ◌≢◌, ◌++◌, ◌≤◌, ◌↔◌, [], All, IfErr, IsSome, IsTrue, None, OnErr, OnOk, Some, length, vec_capacity};
ghost use Rattle.snd_base.specs.declared.geometry.Geometry.{Geometry};
ghost use Rattle.snoop_table.specs.Readers.{geometry_of};
ghost use Rattle.lab_lines.specs.declared.line.Line.{Line};
ghost use Rattle.lab_run.specs.GateAsks.{AsksGate};
ghost use Rattle.lab_run.specs.Items.{is_reader_stopped};
ghost use Rattle.lab_run.specs.LabRun.{runs_of};
ghost use Rattle.lab_run.specs.Reader.{row_by};
ghost use Rattle.lab_card.specs.Meets.{IsSameCard};
ghost use Rattle.lab_actors.specs.Room.{HasSpace};
ghost use Rattle.lab_actors.specs.Usable.{IsUsable};
ghost use Rattle.lab_readers.specs.Lines.{IsFewRead};
ghost use Rattle.lab_readers.specs.OneReader.{CanRun, HasRoom, IsOfCard, actor_of, number_of, ops_of, reader_in, rows_of, seat_of};
ghost use Rattle.lab_readers.specs.OneOpening.{HasClosed, HasOpened, IsNeverOpen};
ghost use Rattle.lab_readers.specs.OpenReader.{RunsLines, IsReaderHeard, IsReaderInformed, IsSameBut};

use crate::frame_runs::FrameRuns;
use crate::lines::ReaderActor;
use crate::stream::set_up;
use card_sim::Card;
use dsnoop_client::Reader;
use lab_actors::{Opening, line_count, refuse_lines};
use lab_card::{hear_reader, inform_reader};
use lab_lines::{Actor, Answer, Line, Op, Row};
use mix_core::Gate;
use pcm_states::State;
use snd_base::{Geometry, PcmError};
use snoop_core::SnoopPort;
use snoop_table::ReaderSeat;
use std::alloc::Global;

/// A reader of a script, by its number in the order of the readers' lines: its stream with all that it read and with the rows
/// of its lines, and, while it is open, its seat at the card's snoop ring. While it isn't open, the stream is that of its last
/// opening, and nothing is done with it.
///
/// Its meaning is what a run of the script has of it: `reader_in`.
#[repr(C)]
pub struct LabReader<'r> {
    actor: ReaderActor,
    seat: Option<ReaderSeat<'r>>,
    // How many samples it had read when it was opened last.
    read_before: usize,
    // So that no two readers of a list have a cache line in common while each is used by a thread of its own: processors fetch two
    // lines of 64 bytes at once.
    apart: [u64; 16],
}

// One call wherever it is let go. A derive drops each part in turn there, and the proof goes through all of them.
impl<'r> Drop for LabReader<'r> {
    fn drop(self) {
        let LabReader {
            actor: _,
            seat: _,
            read_before: _,
            apart: _,
        } = self;
    }
}

impl<'r> LabReader<'r> {
    /// A reader that was never open, of a number and of a ring of a geometry.
    pub(crate) fn new(alloc: Global, number: u32, geometry: Geometry) -> LabReader<'r>
        ensures { IsNeverOpen number result }
    {
        LabReader {
            actor: ReaderActor {
                number,
                reader: Reader::new(alloc, geometry),
                left: None,
                frames: FrameRuns::new(alloc),
                samples: Vec::new(alloc),
                rows: Vec::new(alloc),
            },
            seat: None,
            read_before: 0,
            apart: [0; 16],
        }
    }

    /// Its number in the order of the readers' lines.
    pub(crate) fn number(&self) -> u32
        ensures { result ≡ number_of self.now }
    {
        self.actor.number
    }

    /// Whether it is open.
    pub(crate) fn is_open(&self) -> bool
        ensures { IsTrue result ↔ IsSome (seat_of self.now) }
    {
        self.seat.is_some()
    }

    /// Whether it is open and was stopped, by its gate or by a `die`.
    pub(crate) fn is_stopped(&self) -> bool
        ensures { result ≡ is_reader_stopped (reader_in self.now).own }
    {
        match &self.seat {
            Some(_) => self.actor.reader.is_stopped(),
            None => false,
        }
    }

    /// Whether some of a phase's lines are its own.
    pub(crate) fn has_lines(&self, lines: &[Line]) -> bool
        ensures { IsTrue result ↔ (ops_of self.now lines.now ≢ []) }
    {
        line_count(lines, Actor::Reader(self.actor.number)) != 0
    }

    /// The row of a line of it that isn't in a phase, as it is after the line: an opening or a closing.
    pub(crate) fn row(&self, phase: u32, op: Op, answer: Answer) -> Row
        ensures { result ≡ row_by phase (number_of self.now) op (reader_in self.now).own answer }
    {
        let (state, seen) = match &self.seat {
            Some(_) => (self.actor.reader.state(), self.actor.reader.seen()),
            None => (State::Open, None),
        };
        Row {
            phase,
            actor: Actor::Reader(self.actor.number),
            op,
            answer,
            state,
            seen,
        }
    }

    /// All samples that it read, interleaved.
    pub(crate) fn samples(&self) -> &[i16]
        ensures { result.now ≡ (actor_of self.now).samples.items }
    {
        self.actor.samples.as_slice()
    }

    /// All samples that it read, interleaved. Its seat, where it is open, is let go.
    pub(crate) fn into_samples(self) -> Vec<i16>
        ensures { result ≡ (actor_of self.entry).samples }
    {
        let LabReader {
            actor,
            seat: _,
            read_before: _,
            apart: _,
        } = self;
        actor.samples
    }

    /// All frames that it read, as runs: each by its first frame and how many frames it has. They are the runs that a report has
    /// of it.
    pub(crate) fn runs(&self) -> &[(u64, u64)]
        ensures value { result.now ≡ (actor_of self.now).frames.runs }
        ensures report { runs_of (reader_in self.now).frames ≡ result.now }
    {
        self.actor.frames.as_slice()
    }

    /// Takes the room that its lines of a phase want, so that `run_lines` takes no memory. It refuses, with `Memory`, only where no memory
    /// is left. Whatever it answers, the reader is as it was.
    pub(crate) fn take_room(&mut self, lines: &[Line]) -> Result<(), PcmError>
        ensures room { OnOk result (HasRoom lines.now self.new) }
        ensures same { IsSameBut self.old self.new }
        ensures rows { rows_of self.new ≡ rows_of self.old }
        ensures only { IfErr result (λ e. e ≡ PcmError.Memory) }
    {
        if let Some(seat) = &self.seat {
            return self.actor.take_room(lines, seat.geometry().frames);
        }
        let count = line_count(lines, Actor::Reader(self.actor.number));
        self.actor.rows.reserve(count)?;
        Ok(())
    }

    /// Before a phase: where it is open, its seat meets a note of the card (`inform_reader`).
    ///
    /// The caller has a card of the seat's ring.
    pub(crate) fn inform(&mut self, card: &mut Card<'_, '_>)
        requires { IsOfCard card.old self.old }
        ensures card { IsSameCard card.old card.new }
        ensures informed { IsReaderInformed card.old self.old self.new }
    {
        if let Some(seat) = &mut self.seat {
            inform_reader(card, seat);
        }
    }

    /// After a phase: where it is open, the card meets a note of its seat (`hear_reader`).
    ///
    /// The caller has a card of the seat's ring.
    pub(crate) fn hear(&mut self, card: &mut Card<'_, '_>)
        requires { IsOfCard card.old self.old }
        ensures card { IsSameCard card.old card.new }
        ensures heard { IsReaderHeard card.new self.old self.new }
    {
        if let Some(seat) = &mut self.seat {
            hear_reader(card, seat);
        }
    }

    /// Does its lines of a phase with its gate, at its seat (`ReaderActor::run_lines`); where it isn't open, each of them is refused
    /// with `BadState` and nothing is done.
    ///
    /// The caller has taken the room of the lines (`take_room`), and has a reader that can use its seat; no read is of more than 4,194,304
    /// frames.
    pub(crate) fn run_lines<G: Gate>(&mut self, gate: &mut G, phase: u32, lines: &[Line])
        requires few { All (λ (line : Line). IsFewRead line.op) lines.now }
        requires usable { CanRun self.old }
        requires room { HasRoom lines.now self.old }
        ensures { AsksGate G.Gate gate.old gate.new (λ stops after asks.
            RunsLines phase stops after asks lines.now self.old self.new) }
    {
        match &mut self.seat {
            Some(seat) => self.actor.run_lines(seat, gate, phase, lines),
            None => {
                let own = Actor::Reader(self.actor.number);
                refuse_lines(&mut self.actor.rows, own, phase, lines);
            }
        }
    }

    /// Moves its rows to the end of the lab's, for which there is room: it has none then.
    pub(crate) fn take_rows(&mut self, all: &mut Vec<Row>)
        requires { HasSpace (length (rows_of self.old)) all.old }
        ensures rows { all.new.items ≡ all.old.items ++ rows_of self.old }
        ensures room { vec_capacity all.old ≤ vec_capacity all.new }
        ensures none { rows_of self.new ≡ [] }
        ensures same { IsSameBut self.old self.new }
    {
        all.append(&mut self.actor.rows).unwrap();
    }

    /// Opens it, which isn't open, at a seat, with what it is opened with. It refuses, with `Memory`, only where no memory is
    /// left; it isn't open then, and the seat has ended.
    ///
    /// The caller has an opening that fits the seat's ring.
    pub(crate) fn open(
        &mut self,
        alloc: Global,
        seat: ReaderSeat<'r>,
        opening: &Opening,
    ) -> Result<(), PcmError>
        requires closed { seat_of self.old ≡ None }
        requires usable { let ring = geometry_of seat in
            IsUsable ring.channels ring.frames opening.now }
        ensures opened { OnOk result (HasOpened seat.entry opening.now self.old self.new) }
        ensures same { OnErr result (self.new ≡ self.old) }
        ensures only { IfErr result (λ e. e ≡ PcmError.Memory) }
    {
        let reader = set_up(alloc, seat.geometry(), opening)?;
        self.actor.reader = reader;
        self.actor.left = None;
        self.read_before = self.actor.samples.len();
        self.seat = Some(seat);
        Ok(())
    }

    /// Closes it, which is open, and hands its seat back. All that it read stays.
    pub(crate) fn close(&mut self) -> ReaderSeat<'r>
        requires { IsSome (seat_of self.old) }
        ensures { HasClosed result self.old self.new }
    {
        self.seat.take().unwrap()
    }
}
