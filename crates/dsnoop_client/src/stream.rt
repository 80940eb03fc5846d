//! What a reader is at a moment.
use pcm_stream::{Setup, Status};
use snd_base::Geometry;

/// A reader at a moment: the geometry of its ring, what it is set up with, its state, and how far it has read.
///
/// `seen` is the position that it loaded last, and `next`, once it was started, the frame that its next read begins with.
/// Both are frame numbers, which never wrap.
#[derive(Clone, Copy, Debug, PartialEq, Eq)]
pub struct CaptureStream {
    pub geometry: Geometry,
    pub setup: Setup,
    pub status: Status,
    pub seen: Option<u64>,
    pub next: u64,
}
