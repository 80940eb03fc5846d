//! Where the writer stores next.
ghost use Rattle.std.specs.Prelude.{◌≡◌, ◌+◌, ◌<◌, ◌^◌};
ghost use Rattle.snd_base.specs.Places.{cursor_after};
ghost use Rattle.snoop_table.specs.Known.{IsWritePlace};

use snd_base::{Cursor, Geometry};

/// The frame and channel that the writer stores next, the index of their word among the ring's words, and the laps that the
/// word is to have: one more than the frame's lap. So the writer divides nowhere.
#[derive(Clone, Copy, Debug, PartialEq, Eq)]
pub struct WritePlace {
    pub next: Cursor,
    pub index: usize,
    pub laps: u64,
}

impl WritePlace {
    /// The ring's first frame, and its channel 0.
    pub(super) fn first(geometry: &Geometry) -> WritePlace
        ensures place { IsWritePlace geometry.now result }
        ensures frame { result.next.frame ≡ Rattle.snd_base.specs.Places.first_frame geometry.now }
        ensures channel { result.next.channel ≡ 0 }
    {
        let frame = geometry.first_frame();
        WritePlace {
            next: Cursor { frame, channel: 0 },
            index: 1,
            laps: geometry.first_lap as u64 + 1,
        }
    }

    /// The place right after this one.
    #[inline(always)]
    pub(super) fn behind(&self, geometry: &Geometry) -> WritePlace
        requires place { IsWritePlace geometry.now self.now }
        requires channel { self.now.next.channel < geometry.now.channels }
        requires frame { self.now.next.frame + 1 < 2 ^ 63 }
        ensures place { IsWritePlace geometry.now result }
        ensures next { result.next ≡ cursor_after geometry.now self.now.next.frame
            self.now.next.channel }
    {
        let Cursor { frame, channel } = self.next;
        if channel + 1 < geometry.channels {
            return WritePlace {
                next: Cursor {
                    frame,
                    channel: channel + 1,
                },
                index: self.index + 1,
                laps: self.laps,
            };
        }
        let next = Cursor {
            frame: frame + 1,
            channel: 0,
        };
        if self.index < geometry.frames as usize * geometry.channels as usize {
            return WritePlace {
                next,
                index: self.index + 1,
                laps: self.laps,
            };
        }
        WritePlace {
            next,
            index: 1,
            laps: self.laps + 1,
        }
    }
}
