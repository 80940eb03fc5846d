//! Seats are split and joined, meet notes, and end.
use super::desk::Desk;
use super::note::SnoopNote;
use super::parts::{Both, Copied};
use super::plays::Learn;
use super::reader::ReaderSeat;
use super::writer::WriterSeat;
use ring_rule::LapStart;

impl<'a> ReaderSeat<'a> {
    ghost use Rattle.std.specs.Prelude.{◌≡◌};
    ghost use Rattle.snoop_table.specs.Joins.{HasClosed, HasJoined, HasMet, HasNote, HasSplit, OneRing, note_geometry, note_ring};
    ghost use Rattle.snoop_table.specs.Readers.{geometry_of, ring_of};
    ghost use Rattle.snoop_table.specs.Writers.{writer_geometry, writer_ring};

    /// A new seat, for another reader. It has seen, noted and got as much as this one.
    pub fn split(&mut self) -> ReaderSeat<'a>
        ensures { HasSplit self.old self.new result }
    {
        let ring = self.ring;
        let geometry = self.geometry;
        let seat = ring.split_seat::<Copied>(&mut self.seat);
        ReaderSeat {
            ring,
            seat,
            geometry,
            seen: self.seen,
            start: self.start,
        }
    }

    /// Takes over all that the other seat has seen, noted and got. The caller shows that both seats are of one ring.
    pub fn join(&mut self, other: ReaderSeat<'_>)
        requires { OneRing (ring_of other) (geometry_of other)
            (ring_of self.old) (geometry_of self.old) }
        ensures { HasJoined self.old self.new other.entry }
    {
        let ReaderSeat {
            ring: _,
            seat,
            geometry: _,
            seen,
            start: _,
        } = other;
        self.ring.join_seat::<Both>(&mut self.seat, seat);
        self.seen = self.seen.max(seen);
    }

    /// A note of all that this seat has seen, for another seat of the ring to meet.
    pub fn note(&mut self) -> SnoopNote<'a>
        ensures { HasNote self.old self.new result }
    {
        SnoopNote { seat: self.split() }
    }

    /// Meets a note: from now on this seat has seen what the note has seen. So no later position is before the greatest one
    /// of the note, and once the note has seen the card gone, every later position is gone. The caller shows that both are
    /// of one ring.
    pub fn meet(&mut self, note: SnoopNote<'_>)
        requires { OneRing (note_ring note) (note_geometry note)
            (ring_of self.old) (geometry_of self.old) }
        ensures { HasMet self.old self.new note.entry }
    {
        let SnoopNote { seat } = note;
        self.join(seat);
    }

    /// Ends this seat and the writer's, and answers the position that the writer published last, or the number of the first
    /// frame. The caller shows that both seats are of one ring.
    pub fn close(self, writer: WriterSeat<'_>) -> u64
        requires { OneRing (writer_ring writer) (writer_geometry writer)
            (ring_of self) (geometry_of self) }
        ensures { HasClosed self.entry writer.entry result }
    {
        let ReaderSeat {
            ring,
            mut seat,
            geometry: _,
            seen: _,
            start: _,
        } = self;
        let WriterSeat { desk } = writer;
        let Desk {
            ring: _,
            seat: other,
            geometry: _,
            place: _,
            position,
            gone: _,
        } = desk;
        ring.join_seat::<Both>(&mut seat, other);
        ring.load::<Learn>(&mut seat, 0);
        position
    }
}

impl<'a> Desk<'a> {
    ghost use Rattle.snoop_table.specs.Joins.{DeskGave, DeskHeard, OneRing};
    ghost use Rattle.snoop_table.specs.Readers.{geometry_of, ring_of};
    ghost use Rattle.snoop_table.specs.Writers.{desk_geometry, desk_ring};

    // A seat that has seen as much as the writer.
    fn give(&mut self) -> ReaderSeat<'a>
        ensures { DeskGave self.old self.new result }
    {
        let ring = self.ring;
        let geometry = self.geometry;
        let seat = ring.split_seat::<Copied>(&mut self.seat);
        ReaderSeat {
            ring,
            seat,
            geometry,
            seen: self.position,
            start: LapStart::first(&geometry),
        }
    }

    // Takes over what another seat has seen.
    fn hear(&mut self, other: ReaderSeat<'_>)
        requires { OneRing (ring_of other) (geometry_of other)
            (desk_ring self.old) (desk_geometry self.old) }
        ensures { DeskHeard self.old self.new other.entry }
    {
        let ReaderSeat {
            ring: _,
            seat,
            geometry: _,
            seen: _,
            start: _,
        } = other;
        self.ring.join_seat::<Both>(&mut self.seat, seat);
        self.ring.load::<Learn>(&mut self.seat, 0);
    }
}

impl<'a> WriterSeat<'a> {
    ghost use Rattle.snoop_table.specs.Joins.{HasHeard, HasWriterNote, OneRing, note_geometry, note_ring};
    ghost use Rattle.snoop_table.specs.Writers.{writer_geometry, writer_ring};

    /// A note of all that the writer has seen, and so of each position that it published, for a seat of the ring to meet.
    pub fn note(&mut self) -> SnoopNote<'a>
        ensures { HasWriterNote self.old self.new result }
    {
        SnoopNote {
            seat: self.desk.give(),
        }
    }

    /// Meets a note, and learns that what it has seen is what this writer did: each frame that it got is the one that this
    /// writer stored under its number. The caller shows that both are of one ring.
    pub fn meet(&mut self, note: SnoopNote<'_>)
        requires { OneRing (note_ring note) (note_geometry note)
            (writer_ring self.old) (writer_geometry self.old) }
        ensures { HasHeard self.old self.new note.entry }
    {
        let SnoopNote { seat } = note;
        self.desk.hear(seat);
    }
}
