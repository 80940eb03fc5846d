//! Whether a file of the shelf is the canonical WAV file of some samples, piece by piece.
ghost use Rattle.std.specs.Prelude.{◌≡◌, ◌+◌, ◌*◌, ◌<◌, ◌^◌, ◌&&◌, length};
ghost use Rattle.std.specs.Str.{bytes_eq};
ghost use Rattle.lab_output.specs.Files.{IsOutputFile};
ghost use Rattle.lab_stop.specs.Effects.{AnswersFrom, OnlyReads, OnlyTests};
ghost use Rattle.lab_compare.specs.Checking.{is_same_in, same_in};

use lab_check::{canonical_piece, pieces_tell_files};
use lab_output::OutputFile;
use lab_shelf::Shelf;
use lab_stop::{PIECE_BYTES, Stop, fetch_up_to};
use std::alloc::Global;

/// How many bytes the head of a canonical file has.
const HEAD_BYTES: u64 = 44;

/// Whether a piece is the one that it must be, and all before it are.
fn is_same_so_far(before: bool, piece: &[u8], expected: &[u8]) -> bool
    ensures { result ≡ (before && bytes_eq piece.now expected.now) }
{
    before && piece == expected
}

/// Whether a file of the shelf is the canonical WAV file of these samples, interleaved: its bytes, and none behind them.
///
/// It is fetched in pieces of `PIECE_BYTES`, at most one byte past the end that it must have, and only the piece of the
/// canonical file that stands there is made. All pieces are fetched, also behind one that differs, so that a fetch that fails is
/// answered as one.
fn is_same_file<S: Shelf>(
    shelf: &mut S,
    alloc: Global,
    file: &OutputFile,
    samples: &[i16],
) -> Result<bool, Stop>
    requires file { IsOutputFile file.now }
    requires size { length samples.now * 2 + 36 < 2 ^ 32 }
    ensures same { AnswersFrom S.Shelf (λ same. same) result shelf.old
        (λ files. is_same_in files file.now samples.now) }
    ensures only_reads { OnlyReads S.Shelf result shelf.old shelf.new }
{
    pieces_tell_files();
    let size = HEAD_BYTES + 2 * samples.len() as u64;
    let mut from = 0;
    let mut same = true;
    let mut is_last = false;
    while !is_last && from <= size {
        let most = (size + 1 - from).min(PIECE_BYTES as u64);
        let expected = canonical_piece(alloc, file.channels, file.rate, samples, from, most)?;
        let piece = fetch_up_to(shelf, alloc, file.name.as_slice(), from, most)?;
        same = is_same_so_far(same, &piece, &expected);
        is_last = (piece.len() as u64) < most;
        from += most;
    }
    Ok(same)
}

/// Tests that a file of the shelf is the canonical WAV file of these samples, interleaved. It stops with `No` and this line
/// of the report where it is another.
pub(crate) fn check_file<S: Shelf>(
    shelf: &mut S,
    alloc: Global,
    line: u32,
    file: &OutputFile,
    samples: &[i16],
) -> Result<(), Stop>
    requires file { IsOutputFile file.now }
    requires size { length samples.now * 2 + 36 < 2 ^ 32 }
    ensures same { AnswersFrom S.Shelf (λ done. done) result shelf.old
        (λ files. same_in files line file.now samples.now) }
    ensures only_tests { OnlyTests S.Shelf result shelf.old shelf.new }
{
    let same = is_same_file(shelf, alloc, file, samples)?;
    if same { Ok(()) } else { Err(Stop::No { line }) }
}
