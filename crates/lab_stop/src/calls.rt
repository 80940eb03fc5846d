//! Calls of a shelf and of a sink that stop a command where they fail.
ghost use Rattle.std.specs.Prelude.{◌≡◌, ◌≤◌, IfOk, vec_len};
ghost use Rattle.lab_stop.specs.Causes.{first_bytes, fetched_from, piece_bytes};
ghost use Rattle.lab_stop.specs.Effects.{AnswersFrom, OnlyReads, PutsText};
ghost use Rattle.lab_stop.specs.Writing.{written};

use crate::stop::Stop;
use lab_shelf::{Shelf, ShelfFault, Sink};
use std::alloc::Global;

/// How many bytes each piece of a file has, but for the last, which has fewer.
pub const PIECE_BYTES: usize = 65_536;

/// The bytes of a file of the shelf from the byte `from` on: `most` of them, or as many as there are.
/// They are fetched at once, and no byte behind them is.
///
/// It stops with `Read` and the file's name exactly where the shelf fails, which counts that, and with
/// `Memory` only where no memory is left.
pub fn fetch_up_to<S: Shelf>(
    shelf: &mut S,
    alloc: Global,
    name: &[u8],
    from: u64,
    most: u64,
) -> Result<Vec<u8>, Stop>
    ensures bytes { AnswersFrom S.Shelf (λ v. v.items) result shelf.old
        (λ files. fetched_from files name.now from most) }
    ensures most { IfOk result (λ v. vec_len v ≤ most) }
    ensures only_reads { OnlyReads S.Shelf result shelf.old shelf.new }
{
    // The name is copied first, so that a fetch that fails is never answered as want of memory.
    let named = Vec::from_slice(alloc, name)?;
    match shelf.fetch(alloc, name, from, most) {
        Ok(bytes) => Ok(bytes),
        Err(ShelfFault::Failed) => Err(Stop::Read { name: named }),
        Err(ShelfFault::Memory) => Err(Stop::Memory),
    }
}

/// The piece of a file of the shelf that begins at the byte `from`: `PIECE_BYTES` bytes, or as many
/// as there are. A piece that has fewer is the file's last; after a full one there may be another,
/// also one of no byte.
///
/// It stops with `Read` and the file's name exactly where the shelf fails, which counts that, and with
/// `Memory` only where no memory is left.
pub fn fetch_piece<S: Shelf>(
    shelf: &mut S,
    alloc: Global,
    name: &[u8],
    from: u64,
) -> Result<Vec<u8>, Stop>
    ensures bytes { AnswersFrom S.Shelf (λ v. v.items) result shelf.old
        (λ files. fetched_from files name.now from piece_bytes) }
    ensures most { IfOk result (λ v. vec_len v ≤ piece_bytes) }
    ensures only_reads { OnlyReads S.Shelf result shelf.old shelf.new }
{
    fetch_up_to(shelf, alloc, name, from, PIECE_BYTES as u64)
}

/// The first bytes of a file of the shelf, at most so many. They are fetched piece by piece, up to
/// the piece that has the last of them.
///
/// It stops with `Read` and the file's name exactly where the shelf fails, which counts that, and with
/// `Memory` only where no memory is left.
pub fn fetch_most<S: Shelf>(
    shelf: &mut S,
    alloc: Global,
    name: &[u8],
    most: u64,
) -> Result<Vec<u8>, Stop>
    ensures bytes { AnswersFrom S.Shelf (λ v. v.items) result shelf.old
        (λ files. first_bytes files name.now most) }
    ensures most { IfOk result (λ v. vec_len v ≤ most) }
    ensures only_reads { OnlyReads S.Shelf result shelf.old shelf.new }
{
    let mut bytes = fetch_piece(shelf, alloc, name, 0)?;
    let mut is_last = bytes.len() < PIECE_BYTES;
    while !is_last && (bytes.len() as u64) < most {
        let piece = fetch_piece(shelf, alloc, name, bytes.len() as u64)?;
        is_last = piece.len() < PIECE_BYTES;
        bytes.extend_from_slice(&piece)?;
    }
    bytes.truncate(most as usize);
    Ok(bytes)
}

/// How a call of a shelf or a sink that writes ends a command: with `Write` where the call failed, and
/// with `Memory` where no memory was left for it.
pub fn written(end: Result<(), ShelfFault>) -> Result<(), Stop>
    ensures { result ≡ written end }
{
    match end {
        Ok(()) => Ok(()),
        Err(ShelfFault::Failed) => Err(Stop::Write),
        Err(ShelfFault::Memory) => Err(Stop::Memory),
    }
}

/// Puts a text on a sink. It stops with `Write` exactly where the sink fails, which counts that, and with
/// `Memory` only where no memory is left; the sink took the first bytes of the text then.
pub fn put<K: Sink>(out: &mut K, text: &[u8]) -> Result<(), Stop>
    ensures puts_text { PutsText K.Sink text.now result out.old out.new }
{
    written(out.put(text))
}
