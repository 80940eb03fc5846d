//! What a seat of the snoop ring knows. No value of these types is made: they are what proofs speak of.
use snd_base::Geometry;
use snoop_core::Frame;
use std::collections::LinkedList;

/// What the writer did: the list of all samples that it stored, in the order of frames and channels, the positions that it
/// published, and whether it unplugged the card.
pub struct Track {
    pub stored: LinkedList<i16>,
    pub published: LinkedList<u64>,
    pub gone: bool,
}

/// What one seat knows of the ring, and what it did there.
///
/// `positions` are the positions that it saw, `seen` the greatest one, `seen_gone` whether it saw the card gone. `noted` has at
/// each word's index at most one word, the last that was seen there. `got` has all frames that it got or took over from seats
/// that were joined into it, and `loading` the samples of the frame that it loads now. The writer's part is `track`.
pub struct View {
    pub geometry: Geometry,
    pub positions: LinkedList<u64>,
    pub seen: u64,
    pub seen_gone: bool,
    pub noted: LinkedList<Option<u64>>,
    pub got: LinkedList<Frame>,
    pub loading: Frame,
    pub track: Option<Track>,
}
