//! The openings and closings of a script's body.
use crate::lab::Lab;
use crate::seats::{open_beside, put_card};
use lab_lines::{Actor, Item, Row};
use snd_base::PcmError;

impl<'r> Lab<'r, '_> {
    ghost use Rattle.std.specs.Prelude.{◌≡◌, ◌<◌, IfErr, IfOk, OnErr, OnOk, length};
    ghost use Rattle.lab_lines.specs.declared.line.Actor.TheVariants as whose;
    ghost use Rattle.lab_lines.specs.Limits.{IsBorder};
    ghost use Rattle.lab_run.specs.Stage.{after_close, after_open};
    ghost use Rattle.lab_actors.specs.Room.{HasSpace};
    ghost use Rattle.lab_phase.specs.AtStage.{AddsRow, DoesItem, DoesRow, HasEndRoom, IsNextItem, IsBorderItem, IsLab, border_after, played_of, session_of};
    ghost use Rattle.lab_phase.specs.PhaseRuns.{StaysAtStage};

    /// Does an `open` or a `close` of the script's body, which has one row. The room for the row, and for a report with it, is taken first. It refuses, with `Memory`,
    /// only where no memory is left; then nothing was opened, and the lab is at its stage.
    ///
    /// The caller has the script's next item, which is no phase.
    pub fn border(&mut self, item: &Item) -> Result<(), PcmError>
        requires at { IsLab self.old }
        requires next { IsNextItem self.old item.now }
        requires border { IsBorderItem item.now }
        ensures does { OnOk result (DoesItem self.old item.now self.new) }
        ensures played { OnOk result (played_of self.new ≡ played_of self.old) }
        ensures kept { OnErr result (StaysAtStage self.old self.new) }
        ensures only { IfErr result (λ e. e ≡ PcmError.Memory) }
    {
        self.take_row_room()?;
        self.do_border(item)
    }

    // Takes the room of a row, and of a report with it.
    fn take_row_room(&mut self) -> Result<(), PcmError>
        requires at { IsLab self.old }
        ensures room { OnOk result (HasSpace 1 self.new.rows) }
        ensures report { OnOk result (HasEndRoom 1 self.new) }
        ensures kept { StaysAtStage self.old self.new }
        ensures only { IfErr result (λ e. e ≡ PcmError.Memory) }
    {
        self.rows.reserve(1)?;
        self.room.reserve(self.rows.capacity())?;
        Ok(())
    }

    // Does an `open` or a `close` for whose row there is room.
    fn do_border(&mut self, item: &Item) -> Result<(), PcmError>
        requires room { HasSpace 1 self.old.rows }
        requires report { HasEndRoom 1 self.old }
        requires at { IsLab self.old }
        requires next { IsNextItem self.old item.now }
        requires border { IsBorderItem item.now }
        ensures does { OnOk result (DoesItem self.old item.now self.new) }
        ensures played { OnOk result (played_of self.new ≡ played_of self.old) }
        ensures kept { OnErr result (StaysAtStage self.old self.new) }
        ensures only { IfErr result (λ e. e ≡ PcmError.Memory) }
    {
        let row = self.do_item(item)?;
        self.add_row(row);
        Ok(())
    }

    // Does an `open` or a `close`, and gives its row.
    fn do_item(&mut self, item: &Item) -> Result<Row, PcmError>
        requires at { IsLab self.old }
        requires next { IsNextItem self.old item.now }
        requires border { IsBorderItem item.now }
        ensures does { IfOk result
            (λ row. DoesRow (λ stage. border_after (session_of self.old) stage item.now)
            self.old row self.new) }
        ensures played { played_of self.new ≡ played_of self.old }
        ensures kept { OnErr result (StaysAtStage self.old self.new) }
        ensures only { IfErr result (λ e. e ≡ PcmError.Memory) }
    {
        match *item {
            Item::Opens { actor, .. } => self.open(actor),
            Item::Closes { actor, .. } => Ok(self.close(actor)),
            Item::Phase(_) => unreachable!(),
        }
    }

    // Appends the row of an item, for which there is room; the item is done then.
    fn add_row(&mut self, row: Row)
        requires next { self.old.next < length self.old.script.now.body }
        requires room { HasSpace 1 self.old.rows }
        ensures { AddsRow row self.old self.new }
    {
        let _items = self.script.body.as_slice().len();
        self.rows.push(row).unwrap();
        self.next += 1;
    }

    // Opens a client or a reader.
    fn open(&mut self, actor: Actor) -> Result<Row, PcmError>
        requires at { IsLab self.old }
        requires actor { IsBorder (length self.old.script.now.clients)
            (length self.old.script.now.readers) actor }
        ensures does { IfOk result
            (λ row. DoesRow (λ stage. after_open (session_of self.old) stage actor)
            self.old row self.new) }
        ensures played { played_of self.new ≡ played_of self.old }
        ensures kept { OnErr result (StaysAtStage self.old self.new) }
        ensures only { IfErr result (λ e. e ≡ PcmError.Memory) }
    {
        match actor {
            Actor::Client(number) => self.open_client(number),
            Actor::Reader(number) => self.open_reader(number),
            Actor::Card => unreachable!(),
        }
    }

    // Opens a client beside the card.
    fn open_client(&mut self, number: u32) -> Result<Row, PcmError>
        requires at { IsLab self.old }
        requires number { number < length self.old.script.now.clients }
        ensures does { IfOk result
            (λ row. DoesRow (λ stage. after_open (session_of self.old) stage (whose.Client number))
            self.old row self.new) }
        ensures played { played_of self.new ≡ played_of self.old }
        ensures kept { OnErr result (StaysAtStage self.old self.new) }
        ensures only { IfErr result (λ e. e ≡ PcmError.Memory) }
    {
        let actor = self.card.take().unwrap();
        let opening = self.openings.clients[number as usize].as_ref();
        let (actor, opened) = open_beside(
            self.alloc,
            actor,
            &mut self.clients,
            number,
            opening,
            self.phases,
        );
        put_card(&mut self.card, actor);
        opened
    }

    // Opens a reader.
    fn open_reader(&mut self, number: u32) -> Result<Row, PcmError>
        requires at { IsLab self.old }
        requires number { number < length self.old.script.now.readers }
        ensures does { IfOk result
            (λ row. DoesRow (λ stage. after_open (session_of self.old) stage (whose.Reader number))
            self.old row self.new) }
        ensures played { played_of self.new ≡ played_of self.old }
        ensures kept { OnErr result (StaysAtStage self.old self.new) }
        ensures only { IfErr result (λ e. e ≡ PcmError.Memory) }
    {
        let opening = self.openings.readers[number as usize].as_ref();
        self.readers.open(self.alloc, number, opening, self.phases)
    }

    // Closes a client or a reader.
    fn close(&mut self, actor: Actor) -> Row
        requires at { IsLab self.old }
        requires actor { IsBorder (length self.old.script.now.clients)
            (length self.old.script.now.readers) actor }
        ensures does { DoesRow (λ stage. after_close (session_of self.old) stage actor)
            self.old result self.new }
        ensures played { played_of self.new ≡ played_of self.old }
    {
        match actor {
            Actor::Client(number) => self.clients.close(number, self.phases),
            Actor::Reader(number) => self.readers.close(number, self.phases),
            Actor::Card => unreachable!(),
        }
    }
}
