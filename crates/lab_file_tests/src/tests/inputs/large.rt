//! A shelf with a large file, which is nowhere as a whole, and which counts its fetches.
ghost use Rattle.std.specs.Prelude.{◌≡◌, ◌≤◌, None, IfOk, vec_len};
ghost use Rattle.lab_shelf.specs.Counts.{IsFaultCount};

use lab_shelf::{Shelf, ShelfFault};
use std::alloc::{AllocError, Global};

/// A WAV file of one frame, mono at 48000 Hz.
const SMALL: &[u8] = &[
    0x52, 0x49, 0x46, 0x46, 38, 0, 0, 0, 0x57, 0x41, 0x56, 0x45, 0x66, 0x6d, 0x74, 0x20, 16, 0, 0,
    0, 1, 0, 1, 0, 0x80, 0xbb, 0, 0, 0, 0x77, 1, 0, 2, 0, 16, 0, 0x64, 0x61, 0x74, 0x61, 2, 0, 0,
    0, 7, 0,
];

/// A shelf with a script `s`, and a WAV file `large` of so many bytes, of which all but the first 46
/// are 0. Every other name is a file of these 46. It can't be written.
#[derive(Drop)]
pub struct LargeShelf {
    script: Vec<u8>,
    zeros: Vec<u8>,
    bytes: u64,
    pub fetches: u64,
}

impl LargeShelf {
    pub fn new(alloc: Global, script: &[u8], bytes: u64) -> Result<LargeShelf, AllocError> {
        Ok(LargeShelf {
            script: Vec::from_slice(alloc, script)?,
            zeros: vec![in alloc; 0u8; 65_536]?,
            bytes,
            fetches: 0,
        })
    }
}

/// A piece of a file that has so many bytes: first these, and then zeros.
fn piece_of(
    alloc: Global,
    first: &[u8],
    zeros: &[u8],
    bytes: u64,
    from: u64,
    most: u64,
) -> Result<Vec<u8>, ShelfFault>
    ensures most { IfOk result (λ piece. vec_len piece ≤ most) }
    ensures faults { IsFaultCount result 0 0 }
{
    let count = bytes.saturating_sub(from).min(most).min(zeros.len() as u64) as usize;
    let mut piece = Vec::from_slice(alloc, &zeros[..count])?;
    if from == 0 {
        let known = first.len().min(count);
        piece[..known].copy_from_slice(&first[..known]);
    }
    Ok(piece)
}

impl Shelf for LargeShelf {
    ghost files = { λ _. None };

    ghost fetch_faults = { λ _. 0 };

    ghost write_faults = { λ _. 0 };

    fn fetch(
        &mut self,
        alloc: Global,
        name: &[u8],
        from: u64,
        most: u64,
    ) -> Result<Vec<u8>, ShelfFault> {
        self.fetches = self.fetches.saturating_add(1);
        if name == b"s".as_slice() {
            let bytes = self.script.len() as u64;
            piece_of(alloc, &self.script, &self.zeros, bytes, from, most)
        } else {
            let bytes = if name == b"large".as_slice() {
                self.bytes
            } else {
                46
            };
            piece_of(alloc, SMALL, &self.zeros, bytes, from, most)
        }
    }

    fn store(&mut self, _name: &[u8], _bytes: &[u8]) -> Result<(), ShelfFault> {
        Err(ShelfFault::Memory)
    }

    fn begin(&mut self, _name: &[u8], _head: &[u8]) -> Result<(), ShelfFault> {
        Err(ShelfFault::Memory)
    }

    fn append(&mut self, _name: &[u8], _bytes: &[u8]) -> Result<(), ShelfFault> {
        Err(ShelfFault::Memory)
    }

    fn finish(&mut self, _name: &[u8], _head: &[u8]) -> Result<(), ShelfFault> {
        Err(ShelfFault::Memory)
    }
}
