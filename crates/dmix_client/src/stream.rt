//! What a client is at a moment, but for the samples in its local ring.
use pcm_stream::{Setup, Status};
use snd_base::Geometry;

/// Who a client is: the geometry of its ring, the number of its port, and how many frames past the position a start begins.
#[derive(Clone, Copy, Debug, PartialEq, Eq)]
pub struct Identity {
    pub geometry: Geometry,
    pub member: u32,
    pub lead: u32,
}

/// What a client has written and placed since the last `prepare`. All counts are in frames, and never wrap.
///
/// `written` frames were accepted and `committed` of them placed whole, with `part` channels of the next one. The first frame
/// is at the card's frame `card`, once it is `started`; of all frames that the client accepted it is the one after `source`
/// others. A resume bases these counts anew: what was pending is all that is written then.
#[derive(Clone, Copy, Debug, PartialEq, Eq)]
pub struct Stretch {
    pub written: u64,
    pub committed: u64,
    pub part: u8,
    pub card: u64,
    pub started: bool,
    pub source: u64,
}

/// A client at a moment, but for the samples in its local ring: who it is, what it is set up with, its state, and what it has
/// written and placed.
///
/// `seen` is the position, a frame number, that it loaded last, and `fed` how many frames it accepted in all.
#[derive(Clone, Copy, Debug, PartialEq, Eq)]
pub struct PlaybackStream {
    pub identity: Identity,
    pub setup: Setup,
    pub status: Status,
    pub stretch: Stretch,
    pub seen: Option<u64>,
    pub fed: u64,
}
