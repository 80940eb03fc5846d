//! The copy of a WAV file.
ghost use Rattle.std.specs.Prelude.{◌≡◌, IfSome, IsTrue};
ghost use Rattle.std.specs.Bool.{OnTrue};
ghost use Rattle.std.specs.Option.{ForSome, option_map};
ghost use Rattle.lab_shelf.specs.Files.{with_file};
ghost use Rattle.wav_io.specs.Canonical.{canonical};
ghost use Rattle.bench.specs.Copy.{HoldsSound, IsCopied};

use lab_shelf::Shelf;
use std::alloc::Global;
use std::io;
use wav_io::{Wav, read_wav, write_wav};

/// Reads a WAV file of at most 67,108,864 bytes. `None` where it isn't there or isn't a WAV file of 16-bit PCM, and where
/// memory runs out.
fn read<S: Shelf>(shelf: &mut S, alloc: Global, from: &[u8]) -> Option<Wav>
    ensures held { IfSome result (λ wav. ForSome (S.files shelf.old)
        (λ files. HoldsSound files from.now wav)) }
    ensures files { S.files shelf.new ≡ S.files shelf.old }
{
    match shelf.fetch(alloc, from, 0, 67_108_865) {
        Ok(bytes) => read_wav(alloc, &bytes).ok(),
        Err(_) => None,
    }
}

/// Stores a sound in its canonical form, and answers whether that was done: not where its rate is 2^28 Hz or more, where
/// its samples take 4 GiB, where it can't be stored, and where memory runs out.
fn store<S: Shelf>(shelf: &mut S, alloc: Global, to: &[u8], wav: &Wav) -> bool
    ensures { OnTrue result (S.files shelf.new
        ≡ option_map (λ files. with_file files to.now (canonical wav.now)) (S.files shelf.old)) }
{
    if wav.rate >= 268_435_456 || wav.samples.len() >= 2_147_483_600 {
        return false;
    }
    match write_wav(alloc, wav) {
        Ok(bytes) => shelf.store(to, &bytes).is_ok(),
        Err(_) => false,
    }
}

/// Reads a WAV file, and stores it under another name in its canonical form. It answers whether both were done.
pub(crate) fn copy<S: Shelf>(shelf: &mut S, alloc: Global, from: &[u8], to: &[u8]) -> bool
    ensures { OnTrue result (IsCopied (S.files shelf.old) (S.files shelf.new) from.now to.now) }
{
    match read(shelf, alloc, from) {
        Some(wav) => store(shelf, alloc, to, &wav),
        None => false,
    }
}

/// `bench copy IN OUT` copies a file, and `bench copy IN` only reads it. An error comes where that wasn't done.
pub(crate) fn run<S: Shelf>(shelf: &mut S, alloc: Global, words: &[String]) -> io::Result<()> {
    let done = match words {
        [from] => read(shelf, alloc, from.as_bytes()).is_some(),
        [from, to] => copy(shelf, alloc, from.as_bytes(), to.as_bytes()),
        _ => false,
    };
    if done {
        Ok(())
    } else {
        Err(io::ErrorKind::InvalidData.into())
    }
}
