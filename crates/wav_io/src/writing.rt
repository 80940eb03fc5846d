//! A WAV file from its content.

ghost use Rattle.std.specs.Prelude.{◌≡◌, ◌++◌, ◌+◌, ◌*◌, ◌^◌, ◌<◌, ◌≤◌, length, Ok, All, FitsSigned, IfOk, OnOk, OnErr, IfErr};
ghost use Rattle.std.specs.Int.{w16};
ghost use Rattle.std.specs.List.{flat_map};
ghost use Rattle.wav_io.specs.declared.error.WavError.TheVariants.{Memory};
ghost use Rattle.wav_io.specs.Canonical.{sample_bytes, canonical, HasFile};
ghost use Rattle.wav_io.specs.Reading.{most_bytes, wav_file};
ghost use Rattle.wav_io.specs.Sound.{Sound};

use crate::error::WavError;
use crate::head::header;
use crate::wav::Wav;
use std::alloc::{AllocError, Global};

/// Puts the two bytes of each sample into their places. No bound is tested, so that the compiler can do several at a time.
fn encode(bytes: &mut [u8], samples: &[i16])
    requires { length bytes.old ≡ 2 * length samples.now }
    ensures put { bytes.new ≡ flat_map sample_bytes samples.now }
    ensures fit { All (FitsSigned w16) samples.now }
{
    for i in 0..samples.len() {
        let pair = samples[i].to_le_bytes();
        bytes[2 * i] = pair[0];
        bytes[2 * i + 1] = pair[1];
    }
}

/// Appends the samples as a WAV file has them, two bytes each, the low one first. The only error is want of memory; then
/// nothing is appended.
pub fn append_samples(bytes: &mut Vec<u8>, samples: &[i16]) -> Result<(), AllocError>
    ensures ok { OnOk result (bytes.new.items ≡ bytes.old.items
        ++ flat_map sample_bytes samples.now) }
    ensures fit { OnOk result (All (FitsSigned w16) samples.now) }
    ensures err { OnErr result (bytes.new.items ≡ bytes.old.items) }
{
    let before = bytes.len();
    bytes.resize(before + 2 * samples.len(), 0)?;
    encode(&mut bytes[before..], samples);
    Ok(())
}

fn write_file(alloc: Global, wav: &Wav) -> Result<Vec<u8>, WavError>
    requires rate { wav.now.rate < 2 ^ 28 }
    requires size { length wav.now.samples * 2 + 36 < 2 ^ 32 }
    ensures file { IfOk result (λ bytes. bytes.items ≡ canonical wav.now) }
    ensures err { IfErr result (λ e. e ≡ Memory) }
    ensures fits { OnOk result (HasFile wav.now) }
{
    let samples = wav.samples.as_slice();
    let frames = samples.len() / wav.channels as usize;
    let head = header(wav.channels, wav.rate, frames as u32);
    let mut bytes = Vec::with_capacity(alloc, 44 + 2 * samples.len())?;
    bytes.extend_from_slice(&head)?;
    append_samples(&mut bytes, samples)?;
    Ok(bytes)
}

/// The canonical file of a WAV's content (RIFF WAVE, 16-bit PCM).
///
/// It is the head of 44 bytes that `header` gives, and then the samples as they are, interleaved, two bytes each and
/// little-endian. As for `header`, the rate is below `2^28` Hz, and the size after `RIFF`, two bytes for each sample
/// and 36, is below `2^32` (`Wav::can_write`); a `Wav` has 1 to 8 channels and a rate anyway. The only error is `WavError::Memory`.
/// A file of more than 67,108,864 bytes is written too, but `read_wav` refuses it.
pub fn write_wav(alloc: Global, wav: &Wav) -> Result<Vec<u8>, WavError>
    requires rate { wav.now.rate < 2 ^ 28 }
    requires size { length wav.now.samples * 2 + 36 < 2 ^ 32 }
    ensures file { IfOk result (λ bytes. bytes.items ≡ canonical wav.now) }
    ensures err { IfErr result (λ e. e ≡ Memory) }

    // No other content has this file, and where the file isn't too long it is read as this content.
    ensures one { IfOk result (λ bytes. (s : Sound) → HasFile s → bytes.items ≡ canonical s
        → s ≡ wav.now) }
    ensures back { IfOk result (λ bytes. length bytes.items ≤ most_bytes
        → wav_file bytes.items ≡ Ok wav.now) }
{
    write_file(alloc, wav)
}
