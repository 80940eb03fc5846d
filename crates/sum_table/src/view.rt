//! What a seat of the sum ring knows. No value of these types is made but a `Key`: they are what proofs speak of.
ghost use Rattle.std.specs.Prelude.{◌≤◌};

use mix_core::{Entry, Event, Marks, Reply, Taken};
use snd_base::Geometry;
use std::collections::LinkedList;

/// What is settled when a ring is made: its geometry, and how many places all its seats have together.
#[derive(Clone, Copy, Debug, PartialEq, Eq)]
pub struct Key {
    pub geometry: Geometry,
    pub places: u32,
    pub ghost most: { places ≤ 64 },
}

/// What the player did: the list of everything that it took, the positions that it published, and whether it unplugged
/// the card.
pub struct Track {
    pub taken: LinkedList<Taken>,
    pub published: LinkedList<u64>,
    pub gone: bool,
}

/// A word that a seat found at an index: it loaded the word, or its exchange found the word in place of the expected one.
pub struct Sighting {
    pub index: usize,
    pub word: u64,
}

/// What one seat knows of the ring, and what it did there.
///
/// `laid` has all entries that the seat placed or took over from seats that were joined into it, and `mine` those that it
/// placed itself; `free` are the standing adds that it may still withdraw. `positions` are the positions that it saw, `seen`
/// the greatest one, `seen_gone` whether it saw the card gone. `sightings` are all words that the seat itself found, in
/// order, and `noted` has at each word's index at most one word, the last that was seen there. `history` is the ring's
/// history up to the seat's last step, and `heard` that of the seat that was joined into it last. The player's part is
/// `track`. A seat that was joined into another has `ended`.
pub struct View {
    pub key: Key,
    pub places: u32,
    pub laid: LinkedList<Entry>,
    pub mine: LinkedList<Entry>,
    pub marks: Marks,
    pub free: LinkedList<Entry>,
    pub positions: LinkedList<u64>,
    pub seen: u64,
    pub seen_gone: bool,
    pub sightings: LinkedList<Sighting>,
    pub noted: LinkedList<Option<u64>>,
    pub history: LinkedList<(Event, Reply)>,
    pub heard: LinkedList<(Event, Reply)>,
    pub track: Option<Track>,
    pub ended: bool,
}
