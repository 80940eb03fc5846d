//! Whole frames out of the parts of the data.

ghost use Rattle.std.specs.Prelude.{◌≡◌, ◌<◌, ◌≤◌, ◌⊎◌, ◌++◌, ◌*◌, ℕ, [], length};
ghost use Rattle.wav_io.specs.Frames.{IsCut};

use crate::kept_bytes::Kept;
use std::mem;

/// Whole frames: one that was divided between two pieces or none, and then those that are in one piece.
#[derive(Drop)]
pub struct Whole<'a> {
    pub first: Kept,
    pub others: &'a [u8],
}

/// Completes a part of a frame of `size` bytes, where the bytes after it are enough. It gives the frame or nothing, and
/// the bytes that follow.
fn complete<'a>(part: &mut Kept, size: usize, body: &'a [u8]) -> (Kept, &'a [u8])
    requires room { size ≤ 40 }
    requires part { length part.old < size }
    ensures all { result.0 ++ (part.new ++ result.1.now) ≡ part.old ++ body.now }
    ensures first { (n : ℕ) × (length result.0 ≡ n * size) }
    ensures less { length part.new < size }
    ensures one { (part.new ≡ []) ⊎ (result.1.now ≡ []) }
{
    if part.is_empty() {
        return (Kept::new(), body);
    }
    let behind = part.fill(size, body);
    if part.len() < size {
        return (Kept::new(), behind);
    }
    (mem::replace(part, Kept::new()), behind)
}

/// The whole frames of `size` bytes in a part of a frame and the bytes after it. What is left is the new part.
pub fn cut<'a>(part: &mut Kept, size: usize, body: &'a [u8]) -> Whole<'a>
    requires room { size ≤ 40 }
    requires part { length part.old < size }
    ensures all { IsCut size part.old body.now (result.first ++ result.others.now) part.new }
    ensures first { (n : ℕ) × (length result.first ≡ n * size) }
{
    let (first, behind) = complete(part, size, body);
    let (others, rest) = behind.split_at(behind.len() / size * size);
    part.fill(size, rest);
    Whole { first, others }
}
