//! A few bytes that are kept from one piece of a file to the next.

ghost use Rattle.std.specs.Prelude.{◌≡◌, ◌==◌, ◌+◌, ◌≤◌, ◌++◌, [], length, min};

use std::marker::Model;

/// Up to 40 bytes that are kept from one piece of a file to the next. Contracts see them as a list.
#[derive(Drop)]
pub struct Kept {
    bytes: [u8; 40],
    len: usize,
}

impl Model for Kept {
    ghost use Rattle.std.specs.Prelude.{List, ℕ, ◌≤◌, take};

    ghost Value = { List ℕ };

    ghost view = { λ k. take k.len k.bytes };

    ghost invariant = { λ k. k.len ≤ 40 };
}

impl Kept {
    /// No byte.
    pub fn new() -> Kept
        ensures { result ≡ [] }
    {
        Kept {
            bytes: [0; 40],
            len: 0,
        }
    }

    /// How many bytes there are.
    pub fn len(&self) -> usize
        ensures { result ≡ length self.now }
    {
        self.len
    }

    /// Whether there is no byte.
    pub fn is_empty(&self) -> bool
        ensures { result ≡ (length self.now == 0) }
    {
        self.len == 0
    }

    /// The bytes.
    pub fn as_slice(&self) -> &[u8]
        ensures { result.now ≡ self.now }
    {
        &self.bytes[..self.len]
    }

    /// Drops all bytes.
    pub fn clear(&mut self)
        ensures { self.new ≡ [] }
    {
        self.len = 0;
    }

    /// Takes bytes until there are so many or the given ones end, and gives the others.
    pub fn fill<'a>(&mut self, want: usize, bytes: &'a [u8]) -> &'a [u8]
        requires room { want ≤ 40 }
        requires fits { length self.old ≤ want }
        ensures all { self.new ++ result.now ≡ self.old ++ bytes.now }
        ensures len { length self.new ≡ min want (length self.old + length bytes.now) }
    {
        let count = (want - self.len).min(bytes.len());
        let (front, behind) = bytes.split_at(count);
        let end = self.len + count;
        self.bytes[self.len..end].copy_from_slice(front);
        self.len = end;
        behind
    }
}
