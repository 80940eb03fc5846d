//! All readers of a script in the lab, in a phase: the steps of it, in their order.
use crate::at_once::run_at_once;
use crate::readers::LabReaders;
use crate::steps::busy_count;
use card_sim::Card;
use lab_lines::{Line, Row};
use mix_core::Gate;
use snd_base::PcmError;
use std::marker::{Send, Sync};
use std::thread::Threads;

impl LabReaders<'_> {
    ghost use Rattle.std.specs.Prelude.{◌≡◌, ◌++◌, ◌≤◌, All, IfErr, OnOk, count_by, length, vec_capacity};
    ghost use Rattle.std.specs.List.{flat_map};
    ghost use Rattle.lab_lines.specs.declared.line.Line.{Line};
    ghost use Rattle.lab_readers.specs.Lines.{IsFewRead};
    ghost use Rattle.lab_actors.specs.Room.{HasSpace};
    ghost use Rattle.lab_card.specs.Meets.{IsSameCard};
    ghost use Rattle.lab_readers.specs.OneReader.{IsOfCard, rows_of};
    ghost use Rattle.lab_readers.specs.AtStage.{readers_of};
    ghost use Rattle.lab_readers.specs.Steps.{EachReader, IsSameWithRows, HasGivenRows, HasTakenRoom, IsHeardBy, IsInformedBy, IsReady, RunsAt, has_lines};

    /// How many readers there are, open or not.
    pub fn len(&self) -> usize
        ensures { result ≡ length (readers_of self.now) }
    {
        self.readers.len()
    }

    /// How many readers have lines among those of a phase, open or not.
    pub fn busy_count(&self, lines: &[Line]) -> usize
        ensures value { result ≡ count_by (has_lines lines.now) (readers_of self.now) }
        ensures most { result ≤ length (readers_of self.now) }
    {
        busy_count(self.readers.as_slice(), lines)
    }

    /// Takes the room that the lines of a phase want, so that `run_lines` and `run_lines_at_once` take no memory. It refuses, with
    /// `Memory`, only where no memory is left; then too the readers are as they were, but for their room.
    pub fn take_room(&mut self, lines: &[Line]) -> Result<(), PcmError>
        ensures room { OnOk result (EachReader (HasTakenRoom lines.now) self.old self.new) }
        ensures same { EachReader IsSameWithRows self.old self.new }
        ensures only { IfErr result (λ e. e ≡ PcmError.Memory) }
    {
        for index in 0..self.readers.len() {
            self.readers[index].take_room(lines)?;
        }
        Ok(())
    }

    /// Before the lines of a phase: the seat of each open reader meets a note of the card.
    ///
    /// The caller has a card of the seats' ring.
    pub fn inform(&mut self, card: &mut Card<'_, '_>)
        requires { All (IsOfCard card.old) (readers_of self.old) }
        ensures card { IsSameCard card.old card.new }
        ensures informed { EachReader (IsInformedBy card.old) self.old self.new }
    {
        for index in 0..self.readers.len() {
            self.readers[index].inform(card);
        }
    }

    /// All readers do their lines of a phase, one reader after the other, each with the gate of its number. A reader that isn't open is
    /// refused each of its lines with `BadState`.
    ///
    /// The caller has taken the room of the lines (`take_room`), and then had each meet a note of the card (`inform`); there are at least
    /// as many gates as readers, and no read is of more than 4,194,304 frames (`reads_are_few`).
    pub fn run_lines<G: Gate>(&mut self, gates: &mut [G], phase: u32, lines: &[Line])
        requires few { All (λ (line : Line). IsFewRead line.op) lines.now }
        requires gates { length (readers_of self.old) ≤ length gates.old }
        requires ready { All (IsReady lines.now) (readers_of self.old) }
        ensures { EachReader (RunsAt G.Gate gates.old gates.new phase lines.now)
            self.old self.new }
    {
        for index in 0..self.readers.len() {
            self.readers[index].run_lines(&mut gates[index], phase, lines);
        }
    }

    /// Does what `run_lines` does, with each reader in a thread of its own where one can be made. It returns once all readers are done.
    pub fn run_lines_at_once<R: Threads + Sync, G: Gate + Send>(
        &mut self,
        rt: &R,
        gates: &mut [G],
        phase: u32,
        lines: &[Line],
    )
        requires few { All (λ (line : Line). IsFewRead line.op) lines.now }
        requires gates { length (readers_of self.old) ≤ length gates.old }
        requires ready { All (IsReady lines.now) (readers_of self.old) }
        ensures { EachReader (RunsAt G.Gate gates.old gates.new phase lines.now)
            self.old self.new }
    {
        run_at_once(rt, self.readers.as_mut_slice(), gates, phase, lines);
    }

    /// After the lines of a phase: the card meets a note of the seat of each open reader.
    ///
    /// The caller has a card of the seats' ring.
    pub fn hear(&mut self, card: &mut Card<'_, '_>)
        requires { All (IsOfCard card.old) (readers_of self.old) }
        ensures card { IsSameCard card.old card.new }
        ensures heard { EachReader (IsHeardBy card.old) self.old self.new }
    {
        for index in 0..self.readers.len() {
            self.readers[index].hear(card);
        }
    }

    /// Moves the rows of all readers to the end of the lab's, reader by reader: they have none then. It takes no memory.
    ///
    /// The caller has room for them.
    pub fn take_rows(&mut self, rows: &mut Vec<Row>)
        requires { HasSpace (length (flat_map rows_of (readers_of self.old))) rows.old }
        ensures rows { rows.new.items
            ≡ rows.old.items ++ flat_map rows_of (readers_of self.old) }
        ensures room { vec_capacity rows.old ≤ vec_capacity rows.new }
        ensures readers { EachReader HasGivenRows self.old self.new }
    {
        for index in 0..self.readers.len() {
            self.readers[index].take_rows(rows);
        }
    }
}
