//! A report's text that is kept in memory.
ghost use Rattle.std.specs.Prelude.{◌≡◌, ◌≢◌, ◌++◌, [], Err, OnErr, OnOk, Some, ⊤};
ghost use Rattle.lab_shelf.specs.Counts.{IsFaultCount};
ghost use Rattle.lab_shelf.specs.Files.{TookPart};

use lab_shelf::{ShelfFault, Sink};
use std::alloc::Global;
use std::marker::Model;

/// A sink that keeps what it takes. It never fails, but for want of memory.
#[derive(Drop)]
pub struct KeptText {
    bytes: Vec<u8>,
}

impl Model for KeptText {
    ghost use Rattle.std.specs.Prelude.{ℕ, List};

    ghost Value = { List ℕ };

    ghost view = { λ s. s.bytes.items };
}

impl KeptText {
    /// A text of no byte.
    pub fn new(alloc: Global) -> KeptText
        ensures { result ≡ [] }
    {
        KeptText {
            bytes: Vec::new(alloc),
        }
    }

    /// The text that was taken.
    pub fn into_bytes(self) -> Vec<u8>
        ensures { result.items ≡ self }
    {
        self.bytes
    }
}

impl Sink for KeptText {
    ghost taken = { λ s. Some s };

    ghost faults = { λ _. 0 };

    ghost is_reliable = { λ _. ⊤ };

    fn put(&mut self, bytes: &[u8]) -> Result<(), ShelfFault>
        ensures ok { OnOk result (Some self.new ≡ Some (self.old ++ bytes.now)) }
        ensures err { OnErr result (TookPart (Some self.old) (Some self.new) bytes.now) }
        ensures faults { IsFaultCount result 0 0 }
        ensures puts { ⊤ → result ≢ Err ShelfFault.Failed }
    {
        self.bytes.extend_from_slice(bytes)?;
        Ok(())
    }
}
