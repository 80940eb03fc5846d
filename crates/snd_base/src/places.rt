//! Places in a ring: a frame and a channel, ordered by frame and then by channel.
ghost use Rattle.std.specs.Prelude.{◌≡◌, ◌<◌, ◌^◌, ◌+◌};
ghost use Rattle.snd_base.specs.Places.{cursor_after, first_free};

use crate::geometry::Geometry;

/// A frame, by its absolute number, and a channel of it: the first one that is not used yet.
#[derive(Clone, Copy, Debug, PartialEq, Eq)]
pub struct Cursor {
    pub frame: u64,
    pub channel: u8,
}

impl Cursor {
    /// The cursor that is right after a frame and channel: at the frame's next channel, or, after its last one,
    /// at channel 0 of the next frame.
    pub fn behind(geometry: &Geometry, frame: u64, channel: u8) -> Cursor
        requires channel { channel < geometry.now.channels }
        requires frame { frame + 1 < 2 ^ 64 }
        ensures { result ≡ cursor_after geometry.now frame channel }
    {
        if channel + 1 < geometry.channels {
            Cursor {
                frame,
                channel: channel + 1,
            }
        } else {
            Cursor {
                frame: frame + 1,
                channel: 0,
            }
        }
    }

    /// The first frame whose given channel is at this cursor or after it.
    pub fn first_free(&self, channel: u8) -> u64
        requires { self.now.frame + 1 < 2 ^ 64 }
        ensures { result ≡ first_free self.now channel }
    {
        if channel < self.channel {
            self.frame + 1
        } else {
            self.frame
        }
    }
}

/// What one stretch of a client placed in the ring, from one `prepare` to the next.
///
/// Frames from `source` of the client's own samples are from frame `card` of the card on: `whole` whole frames, and
/// then `part` channels of one more frame, in rising order of the card's channels.
#[derive(Clone, Copy, Debug, PartialEq, Eq)]
pub struct Segment {
    pub source: u64,
    pub card: u64,
    pub whole: u64,
    pub part: u8,
}
