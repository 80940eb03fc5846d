//! How far a member has placed samples, and what it may still withdraw.
ghost use Rattle.std.specs.Prelude.{◌≡◌, ◌<◌, ◌^◌, ◌+◌, ◌↔◌, IsTrue};
ghost use Rattle.mix_core.specs.Marks.{added_at, is_before, start_marks, withdrawn_at};

use snd_base::{Cursor, Geometry};

/// How far a member has got: its cursor, the first frame and channel that it may add to; its floor, the frame and channel
/// before which it withdraws nothing any more; and its high, the greatest cursor that it had.
#[derive(Clone, Copy, Debug, PartialEq, Eq)]
pub struct Marks {
    pub cursor: Cursor,
    pub floor: Cursor,
    pub high: Cursor,
}

impl Marks {
    /// The marks before anything was placed: all at the first frame.
    pub fn start(geometry: &Geometry) -> Marks
        ensures { result ≡ start_marks geometry.now }
    {
        let first = Cursor {
            frame: geometry.first_frame(),
            channel: 0,
        };
        Marks {
            cursor: first,
            floor: first,
            high: first,
        }
    }

    /// The marks after an add at a frame and channel.
    pub fn added(&self, geometry: &Geometry, frame: u64, channel: u8) -> Marks
        requires channel { channel < geometry.now.channels }
        requires frame { frame + 1 < 2 ^ 64 }
        ensures { result ≡ added_at geometry.now self.now frame channel }
    {
        let cursor = Cursor::behind(geometry, frame, channel);
        let floor = if is_before(self.cursor, self.high) {
            self.high
        } else {
            self.floor
        };
        Marks {
            cursor,
            floor,
            high: later(self.high, cursor),
        }
    }

    /// The marks after a withdrawal at a frame and channel.
    pub fn withdrawn(&self, frame: u64, channel: u8) -> Marks
        ensures { result ≡ withdrawn_at self.now frame channel }
    {
        Marks {
            cursor: Cursor { frame, channel },
            floor: self.floor,
            high: self.high,
        }
    }
}

/// Whether a cursor is before another, by frame and then by channel.
pub fn is_before(a: Cursor, b: Cursor) -> bool
    ensures { result ≡ is_before a b }
{
    a.frame < b.frame || a.frame == b.frame && a.channel < b.channel
}

/// The later one of two cursors.
pub fn later(a: Cursor, b: Cursor) -> Cursor
    ensures { result ≡ Rattle.mix_core.specs.Marks.later_of a b }
{
    if is_before(a, b) { b } else { a }
}
