//! A WAV's content from a file of bytes.

ghost use Rattle.std.specs.Prelude.{◌≡◌, ◌≤◌, length, IsOk, Err};
ghost use Rattle.wav_io.specs.declared.error.WavError.{WavError};
ghost use Rattle.wav_io.specs.declared.error.WavError.TheVariants.{Memory};
ghost use Rattle.wav_io.specs.Sound.{Sound};
ghost use Rattle.wav_io.specs.Canonical.{canonical, HasFile};
ghost use Rattle.wav_io.specs.Reading.{wav_file, most_bytes, Reads};

use crate::error::WavError;
use crate::reader::WavReader;
use crate::samples::Samples;
use crate::wav::Wav;
use std::alloc::Global;

fn read_whole(alloc: Global, bytes: &[u8]) -> Result<Wav, WavError>
    ensures exact { Reads result (wav_file bytes.now) }
    ensures memory { result ≡ Err Memory → IsOk (wav_file bytes.now) }
{
    let mut reader = WavReader::new();
    let mut samples = Vec::new(alloc);
    if let Err(error) = reader.feed(bytes, &mut samples) {
        return Err(error);
    }
    match reader.finish() {
        Ok(head) => Ok(Wav {
            channels: head.channels,
            rate: head.rate,
            samples: Samples::from_vec(samples),
        }),
        Err(error) => Err(error),
    }
}

/// The content of a WAV file (RIFF WAVE, signed 16-bit little-endian PCM of 1 to 8 channels) of at most 67,108,864 bytes.
///
/// The chunks after `RIFF`, four bytes that aren't looked at, and `WAVE` are gone through in their order. Each is a name
/// of four bytes, a size of four, a body of that size, and a pad byte where the size is odd; fewer than eight bytes are
/// the end. The first `data` chunk has the samples, interleaved, as many bytes as its size says or as there are; whole
/// frames are taken and a rest is dropped, and nothing after it is looked at. The `fmt ` chunk before it says the
/// channels and the rate in Hz; an extensible format (tag 65534) is read where its sub-format begins with tag 1. Other
/// chunks are skipped.
///
/// `NotRiff` comes first, and then `NotWave`. Of the others the first in the order of the chunks comes, as `WavError`
/// says of each; in a format chunk the size is judged first, and then the tag, an extensible format's size and tag, the
/// channels, the rate and the bits. A longer file is `TooLong`, but where its first 67,108,864 bytes show another
/// refusal that doesn't need the file's end. `Memory` comes only where there is no refusal.
pub fn read_wav(alloc: Global, bytes: &[u8]) -> Result<Wav, WavError>
    // What is read, and which refusal it is.
    ensures exact { Reads result (wav_file bytes.now) }

    // A refusal comes also where memory is short; memory is wanted for samples alone.
    ensures refused { (e : WavError) → wav_file bytes.now ≡ Err e → result ≡ Err e }
    ensures memory { result ≡ Err Memory → IsOk (wav_file bytes.now) }

    // A canonical file is read as what it was written from.
    ensures only { (s : Sound) → HasFile s → bytes.now ≡ canonical s → length bytes.now ≤ most_bytes
        → Reads result (Ok s) }
{
    read_whole(alloc, bytes)
}
