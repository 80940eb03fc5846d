//! An open reader of a script, and what its lines do in a phase.
ghost use Rattle.std.specs.Prelude.{◌≡◌, ◌<◌, ◌≤◌, ◌∷◌, [], All, IfErr, OnOk, vec_capacity};
ghost use Rattle.dsnoop_client.specs.View.{CanUse};
ghost use Rattle.lab_lines.specs.declared.line.Line.{Line};
ghost use Rattle.lab_run.specs.Phases.{is_reader, ops_by, played_in};
ghost use Rattle.lab_run.specs.Stretches.{got_by};
ghost use Rattle.lab_actors.specs.Countdown.{KeepsGate, at_gate_of, by_gate_of, left_of};
ghost use Rattle.lab_readers.specs.Lines.{HasReaderAnswered, IsFewRead};
ghost use Rattle.lab_readers.specs.Parts.{HasGot, HasRoomForLines, HasRowsFor, ReaderLine, ReaderPart, ReaderTurn, TakesRow};
ghost use Rattle.lab_readers.specs.Room.{spare_frames};

use crate::calls::call_fitting;
use crate::frame_runs::FrameRuns;
use crate::room::{frames_wanted, most_wanted};
use dsnoop_client::Reader;
use lab_actors::{Countdown, Tally, is_of, line_count, push_row};
use lab_lines::{Actor, Answer, Line, Op, Row};
use lab_run::{lines_without_calls, parts_grow, reader_lines_are_parts};
use mix_core::Gate;
use snd_base::PcmError;
use snoop_core::SnoopPort;
use std::marker::Brand;
use std::sync::ledger::{Blank, Ledger};

/// An open reader of a script, by its number in the order of the readers' lines: its stream; how many asks a `die` lets pass
/// yet, where there was one; the frames that it read; their samples, interleaved; and the rows of its lines.
#[derive(Drop)]
pub struct ReaderActor {
    pub(crate) number: u32,
    pub(crate) reader: Reader,
    pub(crate) left: Option<u32>,
    pub(crate) frames: FrameRuns,
    pub(crate) samples: Vec<i16>,
    pub(crate) rows: Vec<Row>,
}

/// How many frames a line read, by its answer.
fn frames_read(asked: Op, answer: Answer) -> u64
    ensures { result ≡ got_by asked answer }
{
    match (asked, answer) {
        (Op::Read(_), Answer::Count(frames)) => frames,
        _ => 0,
    }
}

/// What a line of an open reader is answered: after a stop nothing is done any more, and a `die` lets so many asks pass.
fn answer_line<P: SnoopPort, G: Gate, L: Ledger>(
    reader: &mut Reader,
    port: &mut P,
    gate: &mut Countdown<'_, G, L>,
    samples: &mut Vec<i16>,
    asked: Op,
) -> Answer
    requires few { IsFewRead asked }
    requires usable { CanUse reader.old (P.view port.old) }
    ensures answered { HasReaderAnswered P.SnoopPort left_of (by_gate_of G.stops) at_gate_of
        (port.old, gate.old) (port.new, gate.new)
        reader.old reader.new samples.old.items samples.new.items
        asked (spare_frames reader.old samples.old) result }
    ensures own_gate { KeepsGate G.asked gate.old gate.new }
    ensures room { vec_capacity samples.old ≤ vec_capacity samples.new }
{
    lines_without_calls();
    if reader.is_stopped() {
        return Answer::Failed(PcmError::Stopped);
    }
    if let Op::Die(asks) = asked {
        gate.let_pass(asks);
        return Answer::Done;
    }
    reader_lines_are_parts::<P, Countdown<'_, G, L>>();
    call_fitting(reader, port, gate, samples, asked)
}

impl ReaderActor {
    /// Takes the room that the lines of a phase want, so that `run_lines` takes no memory: a row and a run for each, and the
    /// samples of the frames that they may get, at a ring of so many frames. These are no more than the lines ask to read; and no
    /// more than the ring has, than the card plays in the phase, and than the greatest start threshold (65,536) together, since
    /// no frame comes twice. It refuses, with `Memory`, only where no memory is left, or where
    /// these are more samples than an address space has; then nothing but the room is changed.
    pub(crate) fn take_room(&mut self, lines: &[Line], ring: u32) -> Result<(), PcmError>
        ensures room { OnOk result (HasRoomForLines ring self.new lines.now) }
        ensures same_rows { self.new.rows.items ≡ self.old.rows.items }
        ensures same_frames { self.new.frames.runs ≡ self.old.frames.runs }
        ensures same_samples { self.new.samples.items ≡ self.old.samples.items }
        ensures same { (self.new.number ≡ self.old.number) × (self.new.reader ≡ self.old.reader)
            × (self.new.left ≡ self.old.left) }
        ensures only { IfErr result (λ e. e ≡ PcmError.Memory) }
    {
        let own = Actor::Reader(self.number);
        let count = line_count(lines, own);
        let start = self.reader.params().start_threshold;
        let most = most_wanted(lines, ring, start).ok_or(PcmError::Memory)?;
        let frames = frames_wanted(lines, own, most) as usize;
        let samples = frames
            .checked_mul(self.reader.channels() as usize)
            .ok_or(PcmError::Memory)?;
        self.rows.reserve(count)?;
        self.frames.reserve(count)?;
        self.samples.reserve(samples)?;
        Ok(())
    }

    /// Does one line.
    fn do_line<P: SnoopPort, G: Gate, L: Ledger>(
        &mut self,
        port: &mut P,
        gate: &mut Countdown<'_, G, L>,
        phase: u32,
        asked: Op,
    )
        requires few { IsFewRead asked }
        requires usable { CanUse self.old.reader (P.view port.old) }
        requires room { HasRowsFor self.old 1 }
        ensures line { ReaderLine P.SnoopPort left_of (by_gate_of G.stops) at_gate_of
            (port.old, gate.old) (port.new, gate.new)
            phase self.old self.new asked }
        ensures usable { CanUse self.new.reader (P.view port.new) }
        ensures own_gate { KeepsGate G.asked gate.old gate.new }
        ensures room { TakesRow self.old self.new }
        ensures got { HasGot (P.view port.old) (P.view port.new) self.old self.new (asked ∷ []) }
    {
        let answer = answer_line(&mut self.reader, port, gate, &mut self.samples, asked);
        let count = frames_read(asked, answer);
        self.frames.push(self.reader.next() - count, count);
        let row = Row {
            phase,
            actor: Actor::Reader(self.number),
            op: asked,
            answer,
            state: self.reader.state(),
            seen: self.reader.seen(),
        };
        push_row(&mut self.rows, row);
    }

    /// Does the lines of this reader, in order.
    fn do_lines<P: SnoopPort, G: Gate, L: Ledger>(
        &mut self,
        port: &mut P,
        gate: &mut Countdown<'_, G, L>,
        phase: u32,
        lines: &[Line],
    )
        requires few { All (λ (line : Line). IsFewRead line.op) lines.now }
        requires usable { CanUse self.old.reader (P.view port.old) }
        requires room { HasRoomForLines (P.view port.old).geometry.frames self.old lines.now }
        ensures part { ReaderPart P.SnoopPort left_of (by_gate_of G.stops) at_gate_of
            (port.old, gate.old) (port.new, gate.new)
            phase (played_in lines.now) self.old self.new
            (ops_by (is_reader self.old.number) lines.now) }
        ensures usable { CanUse self.new.reader (P.view port.new) }
        ensures own_gate { KeepsGate G.asked gate.old gate.new }
    {
        parts_grow();
        // There is a channel at least, so that the room counts the frames.
        let _channels = self.reader.channels();
        for index in 0..lines.len() {
            let line = &lines[index];
            if is_of(line, Actor::Reader(self.number)) {
                self.do_line(port, gate, phase, line.op);
            }
        }
    }

    // The same at the ledger of a blank.
    fn run_at<P: SnoopPort, G: Gate, L: Ledger>(
        &mut self,
        port: &mut P,
        gate: &mut G,
        phase: u32,
        lines: &[Line],
        blank: Blank,
    )
        requires name { blank.name ≡ L.name }
        requires parts { blank.parts ≡ L.parts }
        requires two { 1 < blank.parts }
        requires few { All (λ (line : Line). IsFewRead line.op) lines.now }
        requires usable { CanUse self.old.reader (P.view port.old) }
        requires room { HasRoomForLines (P.view port.old).geometry.frames self.old lines.now }
        ensures part { ReaderTurn P.SnoopPort G.Gate (port.old, gate.old) (port.new, gate.new)
            phase (played_in lines.now) self.old self.new
            (ops_by (is_reader self.old.number) lines.now) }
        ensures usable { CanUse self.new.reader (P.view port.new) }
    {
        let tally: Tally<L> = Tally::open(blank);
        let mut countdown = Countdown::new(gate, self.left, tally);
        self.do_lines(port, &mut countdown, phase, lines);
        self.left = countdown.end();
    }

    /// Does the lines of a phase that are this reader's, in order, at its port and with its gate.
    ///
    /// The caller has taken the room of the lines (`take_room`), and has the reader at a port that it can use
    /// (`Reader::can_use`); no read is of more than 4,194,304 frames (`reads_are_few`).
    ///
    /// Each line makes one call of the stream and appends its row. A read appends the frames that it read, and their samples.
    /// A `die` lets the next asks
    /// pass, as many as it says, and the one after them stops the reader; a later `die` takes its place. After a stop, every
    /// line is answered with `Stopped` and nothing is done. What the lines did is the reader's part of a run: `part` says so, where
    /// the port saw no more frames meanwhile than the card plays in the phase.
    pub(crate) fn run_lines<P: SnoopPort, G: Gate>(
        &mut self,
        port: &mut P,
        gate: &mut G,
        phase: u32,
        lines: &[Line],
    )
        requires few { All (λ (line : Line). IsFewRead line.op) lines.now }
        requires usable { CanUse self.old.reader (P.view port.old) }
        requires room { HasRoomForLines (P.view port.old).geometry.frames self.old lines.now }
        ensures part { ReaderTurn P.SnoopPort G.Gate (port.old, gate.old) (port.new, gate.new)
            phase (played_in lines.now) self.old self.new
            (ops_by (is_reader self.old.number) lines.now) }
        ensures usable { CanUse self.new.reader (P.view port.new) }
    {
        self.run_at::<P, G, Brand>(port, gate, phase, lines, Blank::new(2));
    }
}
