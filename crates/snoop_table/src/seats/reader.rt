//! The seat of a reader at the snoop ring, and its single steps.
ghost use Rattle.std.specs.Prelude.{◌≡◌};
ghost use Rattle.ring_rule.specs.Spots.{IsLapStart};
ghost use Rattle.snoop_table.specs.Known.{IsReader, SitsAt};

use super::plays::{Locate, Look, Place};
use crate::rule::{Seat, Shared};
use mix_core::Position;
use ring_rule::LapStart;
use snd_base::Geometry;
use std::marker::Brand;

/// A reader's seat at a snoop ring, which it borrows: with it a reader loads captured frames, in any thread.
///
/// Its meaning is its view: the positions that it saw, for each word at most one noted word, and the frames that it got. A seat
/// is a port (`SnoopPort`).
#[derive(Drop)]
pub struct ReaderSeat<'a> {
    pub(super) ring: &'a Shared,
    pub(super) seat: Seat,
    pub(crate) geometry: Geometry,
    pub(crate) seen: u64,
    pub(crate) start: LapStart,
    ghost same_ring: { SitsAt seat.table_id ring.now.table_id geometry ring.now.key seat.me.1 },
    ghost known: { IsReader seat.me.0 geometry seen },
    ghost lap_start: { IsLapStart geometry start },
}

impl ReaderSeat<'_> {
    ghost use Rattle.std.specs.Prelude.{◌≡◌, ◌<◌, ℕ};
    ghost use Rattle.ring_rule.specs.Words.{index_of};
    ghost use Rattle.snoop_table.specs.Readers.{HasLocated, HasLooked, geometry_of, view_of};
    ghost use Rattle.snoop_table.specs.Steps.{IsNext};

    // Loads the position, in one step.
    pub(crate) fn locate(&mut self) -> Position
        ensures { HasLocated self.old self.new result }
    {
        let word = self.ring.load::<Locate>(&mut self.seat, 0);
        let position = Position {
            frame: lap_word::position_of(word),
            gone: lap_word::gone_of(word),
        };
        self.seen = position.frame;
        position
    }

    // Loads the word of the next channel of a frame, which has this index, in one step, and notes it.
    #[inline(always)]
    pub(crate) fn look(&mut self, index: usize, frame: u64, channel: u8) -> u64
        requires next { IsNext (view_of self.old) frame channel }
        requires index { index ≡ index_of (geometry_of self.old) frame channel }
        ensures { HasLooked self.old self.new frame channel result }
    {
        self.look_at::<Brand>(index, frame, channel)
    }

    #[inline(always)]
    fn look_at<B: Place>(&mut self, index: usize, frame: u64, channel: u8) -> u64
        requires frame { B.frame ≡ frame }
        requires channel { B.channel ≡ channel }
        requires next { IsNext (view_of self.old) frame channel }
        requires index { index ≡ index_of (geometry_of self.old) frame channel }
        ensures { HasLooked self.old self.new frame channel result }
    {
        self.ring.load::<Look<B>>(&mut self.seat, index)
    }
}
