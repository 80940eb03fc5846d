//! The phases of the script's body.
ghost use Rattle.std.specs.Prelude.{◌≡◌, [], IfErr, OnErr, OnOk, length};
ghost use Rattle.lab_lines.specs.Script.{is_of_card};
ghost use Rattle.lab_run.specs.Phases.{ops_by};
ghost use Rattle.lab_card.specs.declared.card.CardActor.{CardActor};
ghost use Rattle.lab_card.specs.Room.{FitsRing};
ghost use Rattle.lab_clients.specs.declared.clients.LabClients.{LabClients};
ghost use Rattle.lab_readers.specs.declared.readers.LabReaders.{LabReaders};
ghost use Rattle.lab_phase.specs.PhaseInput.{CanMeet, asks_of};
ghost use Rattle.lab_phase.specs.PhaseSteps.{AreSameButRoom, GiveFewRows, HaveRoom, IsSameButRoom};
ghost use Rattle.lab_phase.specs.PhaseRuns.{HaveRunLines, PlaysAlone};

use crate::lab::Lab;
use crate::steps::{CLIENT_GATES, PhaseInput, run_all, take_room, take_rows};
use lab_card::{CardActor, line_count};
use lab_clients::LabClients;
use lab_lines::{Line, Row};
use lab_readers::LabReaders;
use lab_run::{last_frames_are_own, members_are_unreported, parts_are_runs, runs_are_of_scripts};
use mix_core::Gate;
use snd_base::PcmError;
use std::marker::{Send, Sync};
use std::thread::Threads;

/// The room of the card's lines and of their rows is taken; then the card does the lines, and gives its rows to the lab. It refuses, with
/// `Memory`, only where no memory is left; then no line was done, and the card and the rows are as they were, but for their room.
fn play_alone(
    card: &mut CardActor<'_>,
    rows: &mut Vec<Row>,
    asked: &PhaseInput<'_>,
) -> Result<(), PcmError>
    requires fits { FitsRing card.old (ops_by is_of_card asked.now.lines.now) }
    requires none { card.old.rows.items ≡ [] }
    ensures plays { OnOk result
        (PlaysAlone (asks_of asked.now) rows.old.items rows.new.items card.old card.new) }
    ensures kept { OnErr result (IsSameButRoom card.old card.new) }
    ensures rows { OnErr result (rows.new.items ≡ rows.old.items) }
    ensures only { IfErr result (λ e. e ≡ PcmError.Memory) }
{
    rows.reserve(asked.lines.len())?;
    card.take_room(asked.lines)?;
    card.run_lines(asked.capture, asked.phase, asked.lines);
    rows.append(&mut card.rows).unwrap();
    Ok(())
}

/// The card, the clients and the readers take the room of their lines, and the lab that of their rows; then they meet, do the lines, meet
/// again, and give their rows to the lab. It refuses, with `Memory`, only where no memory is left; then no line was done, and all are as
/// they were, but for their room.
fn run_together<R: Threads + Sync, G: Gate + Send>(
    rt: &R,
    card: &mut CardActor<'_>,
    clients: &mut LabClients<'_>,
    readers: &mut LabReaders<'_>,
    rows: &mut Vec<Row>,
    gates: &mut [G],
    asked: &PhaseInput<'_>,
) -> Result<(), PcmError>
    requires fits { FitsRing card.old (ops_by is_of_card asked.now.lines.now) }
    requires meet { (a : CardActor) (cs : LabClients) (rs : LabReaders)
        → HaveRoom asked.now.lines.now card.old a clients.old cs readers.old rs
        → CanMeet (length gates.old) asked.now a cs rs }
    requires few_rows { GiveFewRows G.Gate gates.old (asks_of asked.now)
        card.old clients.old readers.old }
    ensures run { OnOk result (HaveRunLines G.Gate gates.old gates.new (asks_of asked.now)
        rows.old.items rows.new.items card.old card.new clients.old clients.new
        readers.old readers.new) }
    ensures kept { OnErr result (AreSameButRoom
        card.old card.new clients.old clients.new readers.old readers.new) }
    ensures rows { OnErr result (rows.new.items ≡ rows.old.items) }
    ensures gates { OnErr result (gates.new ≡ gates.old) }
    ensures only { IfErr result (λ e. e ≡ PcmError.Memory) }
{
    take_room(card, clients, readers, rows, asked.lines)?;
    clients.inform(&mut card.card);
    readers.inform(&mut card.card);
    let (client_gates, reader_gates) = gates.split_at_mut(CLIENT_GATES);
    run_all(
        rt,
        card,
        clients,
        readers,
        client_gates,
        reader_gates,
        asked,
    );
    clients.hear(&mut card.card);
    readers.hear(&mut card.card);
    take_rows(rows, card, clients, readers);
    Ok(())
}

impl<'r> Lab<'r, '_> {
    ghost use Rattle.std.specs.Prelude.{◌≡◌, ◌≤◌, ◌<◌, IfErr, OnErr, OnOk, length};
    ghost use Rattle.lab_lines.specs.declared.line.Item.TheVariants as item;
    ghost use Rattle.lab_lines.specs.Script.{is_of_card};
    ghost use Rattle.lab_run.specs.Phases.{ops_by};
    ghost use Rattle.lab_clients.specs.Reaped.{AreDoneInRun};
    ghost use Rattle.lab_readers.specs.AtStage.{AreOfRing};
    ghost use Rattle.lab_phase.specs.AtStage.{IsLab, IsNextItem};
    ghost use Rattle.lab_phase.specs.PhaseRuns.{CountsPhase, DoesPhase, HaveAsked, HaveSameAsks, IsLabWith, IsSameLab, Reaps, RunsPhase, Stops, stops_by};

    /// Does the next phase of the script's body: the card and all clients and readers do their lines, at once where two of them have some,
    /// each in a thread of its own where one can be made. Before the lines each client and reader gets a note of the card's position, and
    /// after them the card gets one of each; then those are closed that their gates stopped. The room for all that the phase leaves is taken
    /// first. It refuses, with `Memory`, only where no memory is left; then no line was done, and the lab is as it was, but for its room.
    ///
    /// Each client and reader asks its own gate before each of its steps, and no other, as often as the run counts.
    ///
    /// The caller has the lines of the script's next item, and 128 gates, the same in each call: the first 64 are the clients', by their
    /// numbers, and the ones after them the readers'. Nothing else stopped an actor since the lab began.
    pub fn run_phase<R: Threads + Sync, G: Gate + Send>(
        &mut self,
        rt: &R,
        lines: &[Line],
        gates: &mut [G],
    ) -> Result<(), PcmError>
        requires at { IsLabWith (stops_by G.stops gates.old) self.old }
        requires next { IsNextItem self.old (item.Phase lines.now) }
        requires gates { 128 ≤ length gates.old }
        ensures does { OnOk result
            (DoesPhase (HaveAsked G.asked gates.old gates.new) (stops_by G.stops gates.old)
            (stops_by G.stops gates.new) self.old lines.now self.new) }
        ensures kept { OnErr result (IsSameLab self.old self.new) }
        ensures gates { OnErr result (gates.new ≡ gates.old) }
        ensures only { IfErr result (λ e. e ≡ PcmError.Memory) }
    {
        runs_are_of_scripts();
        self.rows.reserve(lines.len())?;
        self.room.reserve(self.rows.capacity())?;
        self.do_lines(rt, lines, gates)?;
        self.count_phase();
        Ok(())
    }

    // The actors do the lines of a phase. Where these are all the card's, no other actor does anything in it; else those are reaped that were
    // stopped in it.
    fn do_lines<R: Threads + Sync, G: Gate + Send>(
        &mut self,
        rt: &R,
        lines: &[Line],
        gates: &mut [G],
    ) -> Result<(), PcmError>
        requires at { IsLabWith (stops_by G.stops gates.old) self.old }
        requires next { IsNextItem self.old (item.Phase lines.now) }
        requires gates { 128 ≤ length gates.old }
        ensures runs { OnOk result
            (RunsPhase (HaveAsked G.asked gates.old gates.new) (stops_by G.stops gates.old)
            (stops_by G.stops gates.new) self.old lines.now self.new) }
        ensures kept { OnErr result (IsSameLab self.old self.new) }
        ensures gates { OnErr result (gates.new ≡ gates.old) }
        ensures only { IfErr result (λ e. e ≡ PcmError.Memory) }
    {
        if line_count(lines) == lines.len() {
            return self.run_card(lines);
        }
        runs_are_of_scripts();
        last_frames_are_own();
        members_are_unreported();
        parts_are_runs();
        let asked = PhaseInput {
            wavs: self.wavs,
            capture: self.capture,
            phase: self.phases + 1,
            lines,
        };
        let Some(card) = &mut self.card else {
            unreachable!()
        };
        run_together(
            rt,
            card,
            &mut self.clients,
            &mut self.readers,
            &mut self.rows,
            gates,
            &asked,
        )?;
        self.reap();
        Ok(())
    }

    // A phase whose lines are all the card's.
    fn run_card(&mut self, lines: &[Line]) -> Result<(), PcmError>
        requires at { IsLab self.old }
        requires next { IsNextItem self.old (item.Phase lines.now) }
        requires alone { length (ops_by is_of_card lines.now) ≡ length lines.now }
        ensures runs { OnOk result
            ((stops : Stops) → RunsPhase HaveSameAsks stops stops self.old lines.now self.new) }
        ensures kept { OnErr result (IsSameLab self.old self.new) }
        ensures only { IfErr result (λ e. e ≡ PcmError.Memory) }
    {
        runs_are_of_scripts();
        let asked = PhaseInput {
            wavs: self.wavs,
            capture: self.capture,
            phase: self.phases + 1,
            lines,
        };
        match &mut self.card {
            Some(card) => play_alone(card, &mut self.rows, &asked),
            None => unreachable!(),
        }
    }

    // Closes the clients and readers that their gates stopped.
    fn reap(&mut self)
        requires clients { AreDoneInRun self.old.clients }
        requires readers { AreOfRing self.old.readers }
        ensures { Reaps self.old self.new }
    {
        self.clients.reap();
        self.readers.reap();
    }

    // Counts a phase, which is an item of the body.
    fn count_phase(&mut self)
        requires few { self.old.phases < 4294967295 }
        requires next { self.old.next < length self.old.script.now.body }
        ensures { CountsPhase self.old self.new }
    {
        let _items = self.script.body.as_slice().len();
        self.phases += 1;
        self.next += 1;
    }
}
