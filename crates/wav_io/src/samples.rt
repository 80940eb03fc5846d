//! Samples that contracts see as a list of numbers.

ghost use Rattle.std.specs.Prelude.{◌≡◌, ◌==◌, ◌↔◌, [], length, IsTrue};

use std::marker::Model;

/// Signed 16-bit samples, of whichever shape. Contracts see them as the list of their numbers.
#[derive(Debug, Drop)]
pub struct Samples {
    items: Vec<i16>,
}

impl Model for Samples {
    ghost use Rattle.std.specs.Prelude.{List, ℤ};

    ghost Value = { List ℤ };

    ghost view = { λ s. s.items.items };
}

impl Samples {
    /// The samples of a `Vec`. Takes no memory.
    pub fn from_vec(items: Vec<i16>) -> Samples
        ensures { result ≡ items.items }
    {
        Samples { items }
    }

    /// The samples as a `Vec`. Takes no memory.
    pub fn into_vec(self) -> Vec<i16>
        ensures { result.items ≡ self }
    {
        self.items
    }

    /// The samples as a slice.
    pub fn as_slice(&self) -> &[i16]
        ensures { result.now ≡ self.now }
    {
        self.items.as_slice()
    }

    /// How many samples there are, in all channels together.
    pub fn len(&self) -> usize
        ensures { result ≡ length self.now }
    {
        self.items.len()
    }

    /// Whether there is no sample.
    pub fn is_empty(&self) -> bool
        ensures { IsTrue result ↔ (self.now ≡ []) }
    {
        self.items.is_empty()
    }
}
