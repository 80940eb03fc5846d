//! How far a seat has placed samples, and what it may still withdraw.
ghost use Rattle.std.specs.Prelude.{◌≡◌, ◌+◌, ◌<◌, ◌^◌};
ghost use Rattle.snd_base.specs.Places.{IsFrom, cursor_after};
ghost use Rattle.mix_core.specs.declared.port.Kind.TheVariants.{Added, Withdrawn};
ghost use Rattle.sum_table.specs.Cuts.{joined_marks};
ghost use Rattle.sum_table.specs.Extent.{Extent, extent_after, joined_extent, start_extent};
ghost use Rattle.sum_table.specs.Known.{greater};

use mix_core::{Kind, Marks, later};
use snd_base::{Cursor, Geometry};
use std::marker::Model;

/// How far a seat has placed samples: its marks, and the greatest frame that it placed in.
///
/// Mostly the cursor and the high are both right after the sample that was added last, and that sample's frame is the
/// greatest one. Then only its frame and channel are kept, so that an add stores these two alone: the compare-exchange of the
/// next one waits for all stores before it.
#[derive(Drop)]
pub struct Reach {
    geometry: Geometry,
    frame: u64,
    channel: u8,
    floor: Cursor,
    apart: Option<Apart>,
}

/// The cursor, the high and the greatest frame placed in, where they aren't those of the sample that was added last: before
/// the first add, after a withdrawal, and after a join.
#[derive(Clone, Copy, Debug, PartialEq, Eq)]
pub struct Apart {
    pub cursor: Cursor,
    pub high: Cursor,
    pub last: Option<u64>,
}

impl Model for Reach {
    ghost use Rattle.std.specs.Prelude.{◌<◌, ◌+◌, ◌^◌};
    ghost use Rattle.sum_table.specs.Extent.{Extent, extent_of};

    ghost Value = { Extent };

    ghost view = { λ r. extent_of r.geometry r.frame r.channel r.floor r.apart };

    ghost invariant = { λ r. (r.channel < r.geometry.channels) × (r.frame + 1 < 2 ^ 64) };
}

impl Reach {
    /// Before anything was placed.
    pub(super) fn start(geometry: Geometry) -> Reach
        ensures { result ≡ start_extent geometry }
    {
        Reach::apart(geometry, Marks::start(&geometry), None)
    }

    /// The seat's marks.
    pub(crate) fn marks(&self) -> Marks
        ensures { result ≡ self.now.marks }
    {
        match self.apart {
            None => {
                let next = Cursor::behind(&self.geometry, self.frame, self.channel);
                Marks {
                    cursor: next,
                    floor: self.floor,
                    high: next,
                }
            }
            Some(apart) => Marks {
                cursor: apart.cursor,
                floor: self.floor,
                high: apart.high,
            },
        }
    }

    /// The greatest frame that the seat placed in.
    pub(super) fn last(&self) -> Option<u64>
        ensures { result ≡ self.now.last }
    {
        match self.apart {
            None => Some(self.frame),
            Some(apart) => apart.last,
        }
    }

    /// Goes on by an entry of a kind at a frame and channel.
    #[inline(always)]
    pub(super) fn lay(&mut self, kind: Kind, frame: u64, channel: u8)
        requires channel { channel < self.old.geometry.channels }
        requires frame { frame + 1 < 2 ^ 64 }
        requires from_cursor { kind ≡ Added → IsFrom self.old.marks.cursor frame channel }
        ensures { self.new ≡ extent_after kind self.old frame channel }
    {
        match kind {
            Kind::Added => self.add(frame, channel),
            Kind::Withdrawn => self.withdraw(frame, channel),
        }
    }

    #[inline(always)]
    fn add(&mut self, frame: u64, channel: u8)
        requires channel { channel < self.old.geometry.channels }
        requires frame { frame + 1 < 2 ^ 64 }
        requires from_cursor { IsFrom self.old.marks.cursor frame channel }
        ensures { self.new ≡ extent_after Added self.old frame channel }
    {
        if self.apart.is_some() {
            return self.add_apart(frame, channel);
        }
        self.frame = frame;
        self.channel = channel;
    }

    #[cold]
    #[inline(never)]
    fn add_apart(&mut self, frame: u64, channel: u8)
        requires channel { channel < self.old.geometry.channels }
        requires frame { frame + 1 < 2 ^ 64 }
        ensures { self.new ≡ extent_after Added self.old frame channel }
    {
        let marks = self.marks().added(&self.geometry, frame, channel);
        let last = greater(self.last(), Some(frame));
        *self = Reach::behind(self.geometry, frame, channel, marks, last);
    }

    fn withdraw(&mut self, frame: u64, channel: u8)
        ensures { self.new ≡ extent_after Withdrawn self.old frame channel }
    {
        let marks = self.marks().withdrawn(frame, channel);
        let last = greater(self.last(), Some(frame));
        *self = Reach::apart(self.geometry, marks, last);
    }

    /// Goes on to the later one of this and another seat's, which has so many places.
    pub(super) fn join(&mut self, other: &Reach, places: u32)
        ensures { self.new ≡ joined_extent self.old other.now places }
    {
        let marks = joined(self.marks(), other.marks(), places);
        let last = greater(self.last(), other.last());
        *self = Reach::apart(self.geometry, marks, last);
    }

    fn apart(geometry: Geometry, marks: Marks, last: Option<u64>) -> Reach
        ensures geometry { result.geometry ≡ geometry }
        ensures marks { result.marks ≡ marks }
        ensures last { result.last ≡ last }
    {
        let Marks {
            cursor,
            floor,
            high,
        } = marks;
        Reach {
            geometry,
            frame: 0,
            channel: 0,
            floor,
            apart: Some(Apart { cursor, high, last }),
        }
    }

    // After an add at a frame and channel.
    fn behind(geometry: Geometry, frame: u64, channel: u8, marks: Marks, last: Option<u64>) -> Reach
        requires channel { channel < geometry.channels }
        requires frame { frame + 1 < 2 ^ 64 }
        requires cursor { marks.cursor ≡ cursor_after geometry frame channel }
        ensures geometry { result.geometry ≡ geometry }
        ensures marks { result.marks ≡ marks }
        ensures last { result.last ≡ last }
    {
        if marks.cursor != marks.high || last != Some(frame) {
            return Reach::apart(geometry, marks, last);
        }
        Reach {
            geometry,
            frame,
            channel,
            floor: marks.floor,
            apart: None,
        }
    }
}

// The greater one of two frames, where there are any.
fn greater(a: Option<u64>, b: Option<u64>) -> Option<u64>
    ensures { result ≡ greater a b }
{
    match (a, b) {
        (Some(a), Some(b)) => Some(a.max(b)),
        (Some(a), None) => Some(a),
        (None, b) => b,
    }
}

// The marks of two seats that are joined, the second with so many places.
fn joined(a: Marks, b: Marks, places: u32) -> Marks
    ensures { result ≡ joined_marks a b places }
{
    if places == 0 {
        return a;
    }
    let high = later(a.high, b.high);
    Marks {
        cursor: high,
        floor: high,
        high,
    }
}
