//! A WAV's content from a file that comes in pieces.

ghost use Rattle.std.specs.Prelude.{◌≡◌, ◌≢◌, ◌<◌, ◌≤◌, ◌%◌, ◌++◌, ℕ, ℤ, List, [], length, None, Some, Ok, Err, IsOk, IfOk, IfErr, IfSome, OnOk, OnErr};
ghost use Rattle.wav_io.specs.declared.error.WavError.TheVariants.{Memory};
ghost use Rattle.wav_io.specs.Fields.{samples_of_bytes};
ghost use Rattle.wav_io.specs.Reading.{wav_file};
ghost use Rattle.wav_io.specs.Formats.{IsFormat};
ghost use Rattle.wav_io.specs.Frames.{IsCut};
ghost use Rattle.wav_io.specs.Readers.{error_of, sound_to_come, with_samples, wav_frame};
ghost use Rattle.wav_io.specs.Sound.{Sound};

use crate::error::WavError;
use crate::fields::decode;
use crate::format::{Depths, Format};
use crate::frames::{Whole, cut};
use crate::kept_bytes::Kept;
use crate::scan::Scan;
use std::alloc::AllocError;
use std::marker::Model;

/// The channels and the rate of a WAV file.
#[derive(Clone, Copy, Debug, PartialEq, Eq)]
pub struct WavHead {
    /// Samples per frame, 1 to 8.
    pub channels: u16,
    /// Frames per second (Hz), not 0.
    pub rate: u32,
    ghost some_channel: { 1 ≤ channels },
    ghost few_channels: { channels ≤ 8 },
    ghost some_rate: { 1 ≤ rate },
}

/// Reads a WAV file (RIFF WAVE, signed 16-bit little-endian PCM of 1 to 8 channels) in pieces, as `read_wav` reads it
/// whole: however its bytes are divided, the answer is that of `read_wav`, and so are the samples.
///
/// The pieces are given to `feed` in their order, and then `finish` is called. After an error every later call answers the
/// same error. Beside the samples, a reader takes no memory.
#[derive(Drop)]
pub struct WavReader {
    scan: Scan,
    part: Kept,
    is_starved: bool,
}

impl Model for WavReader {
    ghost use Rattle.wav_io.specs.Readers.{Reader, IsFileReader, wav_frame};

    ghost Value = { Reader };

    ghost view = { λ r. record { scan = r.scan; part = r.part; starved = r.is_starved } };

    ghost invariant = { λ r. IsFileReader wav_frame (record {
      scan = r.scan;
      part = r.part;
      starved = r.is_starved;
    }) };
}

/// Appends the samples of the bytes, two bytes each.
fn push_samples(samples: &mut Vec<i16>, bytes: &[u8]) -> Result<(), AllocError>
    ensures ok { OnOk result (samples.new.items ≡ samples.old.items ++ samples_of_bytes bytes.now) }
    ensures err { OnErr result (samples.new.items ≡ samples.old.items) }
{
    let before = samples.len();
    let count = bytes.len() / 2;
    samples.resize(before + count, 0)?;
    decode(&mut samples[before..], bytes);
    Ok(())
}

/// Appends the samples of whole frames, two bytes each; none of them where memory is short.
fn push_whole(samples: &mut Vec<i16>, whole: &Whole<'_>) -> Result<(), AllocError>
    ensures ok { OnOk result (samples.new.items ≡ samples.old.items
        ++ (samples_of_bytes whole.now.first ++ samples_of_bytes whole.now.others.now)) }
    ensures err { OnErr result (samples.new.items ≡ samples.old.items) }
{
    let before = samples.len();
    push_samples(samples, whole.first.as_slice())?;
    let outcome = push_samples(samples, whole.others);
    if outcome.is_err() {
        samples.truncate(before);
    }
    outcome
}

/// Appends the samples of the frames that more of the data makes whole; none of them where memory is short.
fn push_part(
    samples: &mut Vec<i16>,
    part: &mut Kept,
    format: Format,
    body: &[u8],
) -> Result<(), AllocError>
    requires in_order { IsFormat format }
    requires part { length part.old < wav_frame format }
    ensures ok { OnOk result ((whole : List ℕ)
        × (samples.new.items ≡ samples.old.items ++ samples_of_bytes whole)
        × IsCut (wav_frame format) part.old body.now whole part.new) }
    ensures less { length part.new < wav_frame format }
    ensures err { OnErr result (samples.new.items ≡ samples.old.items) }
{
    let whole = cut(part, 2 * format.channels as usize, body);
    push_whole(samples, &whole)
}

impl WavReader {
    /// A reader before the first piece of a file. Takes no memory.
    pub fn new() -> WavReader
        ensures whole { (bytes : List ℕ) → sound_to_come result bytes ≡ wav_file bytes }
        ensures no_error { error_of result ≡ None }
    {
        WavReader {
            scan: Scan::new(),
            part: Kept::new(),
            is_starved: false,
        }
    }

    /// Takes the next piece of the file, and appends the samples of the frames that became whole, interleaved.
    ///
    /// An error is that of `read_wav`, as soon as the bytes so far show it: `TooLong` once more than 67,108,864 bytes came,
    /// and `Memory` where there is no room for the samples, but not where the file is refused. It appends nothing.
    pub fn feed(&mut self, piece: &[u8], samples: &mut Vec<i16>) -> Result<(), WavError>
        // Whatever follows, the samples so far and those to come stay those of one file.
        ensures same { result ≢ Err Memory → (more : List ℕ) →
            with_samples samples.old.items (sound_to_come self.old (piece.now ++ more))
            ≡ with_samples samples.new.items (sound_to_come self.new more) }
        ensures ok { OnOk result ((front : List ℤ)
            × (samples.new.items ≡ samples.old.items ++ front)) }
        ensures err { OnErr result (samples.new.items ≡ samples.old.items) }

        // Memory is wanted for samples alone, and an error comes again.
        ensures memory { result ≡ Err Memory → error_of self.old ≡ None
            → IsOk (sound_to_come self.old piece.now) }
        ensures again { IfSome (error_of self.old) (λ e. result ≡ Err e) }
        ensures stays { IfErr result (λ e. error_of self.new ≡ Some e) }
        ensures after { IfErr result (λ e. (more : List ℕ) → sound_to_come self.new more ≡ Err e) }
        ensures no_error { OnOk result (error_of self.new ≡ None) }
    {
        if self.is_starved {
            return Err(WavError::Memory);
        }
        let data = match self.scan.advance(Depths::Sixteen, piece) {
            Ok(data) => data,
            Err(error) => return Err(error),
        };
        let data = match data {
            Some(data) => data,
            None => return Ok(()),
        };
        match push_part(samples, &mut self.part, data.format, data.body) {
            Ok(()) => Ok(()),
            Err(_) => {
                self.is_starved = true;
                Err(WavError::Memory)
            }
        }
    }

    /// The channels and the rate of the file that ends here, or why it is refused: the error that was answered, or what
    /// `read_wav` answers where the file is cut short. Takes no memory.
    pub fn finish(self) -> Result<WavHead, WavError>
        ensures ok { IfOk result (λ head. sound_to_come self []
            ≡ Ok (record { channels = head.channels; rate = head.rate; samples = [] })) }
        ensures err { IfErr result (λ e. sound_to_come self [] ≡ Err e) }
        ensures again { IfSome (error_of self) (λ e. result ≡ Err e) }
        ensures memory { result ≡ Err Memory → error_of self ≡ Some Memory }

        // The samples of a file are whole frames.
        ensures frames { (bytes : List ℕ) (s : Sound) → wav_file bytes ≡ Ok s
            → length s.samples % s.channels ≡ 0 }
    {
        if self.is_starved {
            return Err(WavError::Memory);
        }
        match self.scan.finish(Depths::Sixteen) {
            Ok(format) => Ok(WavHead {
                channels: format.channels,
                rate: format.rate,
            }),
            Err(error) => Err(error),
        }
    }
}
