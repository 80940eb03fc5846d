//! The bytes of a WAV's samples from a file that comes in pieces.

ghost use Rattle.std.specs.Prelude.{◌≡◌, ◌≢◌, ◌*◌, ◌/◌, ◌<◌, ◌≤◌, ◌%◌, ◌++◌, ◌↔◌, ℕ, List, [], length, true, false, None, Some, Ok, Err, IsOk, IsSome, IsTrue, IfOk, IfErr, IfSome, OnOk, OnErr};
ghost use Rattle.wav_io.specs.declared.error.WavError.TheVariants.{Memory};
ghost use Rattle.wav_io.specs.declared.format.Depths.TheVariants.{UpTo32};
ghost use Rattle.wav_io.specs.Formats.{IsFormat, is_accepted};
ghost use Rattle.wav_io.specs.Frames.{IsCut};
ghost use Rattle.wav_io.specs.Reading.{most_bytes};
ghost use Rattle.wav_io.specs.Readers.{IsOfHead, Raw, error_of, has_begun, raw_file, raw_to_come, with_bytes, raw_frame};

use crate::error::WavError;
use crate::format::{Depths, Format};
use crate::frames::{Whole, cut};
use crate::kept_bytes::Kept;
use crate::place::Place;
use crate::scan::Scan;
use std::alloc::AllocError;
use std::marker::Model;

/// The channels, the rate and the bits of a WAV file.
#[derive(Clone, Copy, Debug, PartialEq, Eq)]
pub struct RawHead {
    /// Samples per frame, 1 to 8.
    pub channels: u16,
    /// Frames per second (Hz), not 0.
    pub rate: u32,
    /// Bits of a sample: 8, 16, 24 or 32.
    pub bits: u16,
    ghost some_channel: { 1 ≤ channels },
    ghost few_channels: { channels ≤ 8 },
    ghost some_rate: { 1 ≤ rate },
    ghost whole_bytes: { is_accepted UpTo32 bits ≡ true },
}

/// Reads the bytes of a WAV file's samples (RIFF WAVE, PCM of 1 to 8 channels with 8, 16, 24 or 32 bits) in pieces. It takes
/// and refuses what a `WavReader` does, but for the bits.
///
/// The pieces are given to `feed` in their order, and then `finish` is called. After an error every later call answers the
/// same error. Beside the bytes that it appends, a reader takes no memory.
#[derive(Drop)]
pub struct RawReader {
    scan: Scan,
    part: Kept,
    is_starved: bool,
}

impl Model for RawReader {
    ghost use Rattle.wav_io.specs.Readers.{Reader, IsFileReader, raw_frame};

    ghost Value = { Reader };

    ghost view = { λ r. record { scan = r.scan; part = r.part; starved = r.is_starved } };

    ghost invariant = { λ r. IsFileReader raw_frame (record {
      scan = r.scan;
      part = r.part;
      starved = r.is_starved;
    }) };
}

/// The bytes of a frame.
fn frame_size(format: Format) -> usize
    requires { IsFormat format }
    ensures value { result ≡ raw_frame format }
    ensures some { 0 < result }
    ensures few { result ≤ 40 }
{
    format.channels as usize * (format.bits / 8) as usize
}

/// Appends the bytes of whole frames; none of them where memory is short.
fn push_whole(body: &mut Vec<u8>, whole: &Whole<'_>) -> Result<(), AllocError>
    ensures ok { OnOk result (body.new.items ≡ body.old.items
        ++ (whole.now.first ++ whole.now.others.now)) }
    ensures err { OnErr result (body.new.items ≡ body.old.items) }
{
    let before = body.len();
    body.extend_from_slice(whole.first.as_slice())?;
    let outcome = body.extend_from_slice(whole.others);
    if outcome.is_err() {
        body.truncate(before);
    }
    outcome
}

/// Appends the bytes of the frames that more of the data makes whole; none of them where memory is short.
fn push_part(
    body: &mut Vec<u8>,
    part: &mut Kept,
    format: Format,
    more: &[u8],
) -> Result<(), AllocError>
    requires in_order { IsFormat format }
    requires part { length part.old < raw_frame format }
    ensures ok { OnOk result ((whole : List ℕ) × (body.new.items ≡ body.old.items ++ whole)
        × IsCut (raw_frame format) part.old more.now whole part.new) }
    ensures less { length part.new < raw_frame format }
    ensures err { OnErr result (body.new.items ≡ body.old.items) }
{
    let whole = cut(part, frame_size(format), more);
    push_whole(body, &whole)
}

impl RawReader {
    /// A reader before the first piece of a file. Takes no memory.
    pub fn new() -> RawReader
        ensures whole { (bytes : List ℕ) → raw_to_come result bytes ≡ raw_file bytes }
        ensures no_error { error_of result ≡ None }
    {
        RawReader {
            scan: Scan::new(),
            part: Kept::new(),
            is_starved: false,
        }
    }

    /// Takes the next piece of the file, and appends the data's bytes of the frames that became whole. A frame has
    /// `channels * bits / 8` bytes.
    ///
    /// An error comes as soon as the bytes so far show it: `TooLong` once more than 67,108,864 bytes came, and `Memory`
    /// where there is no room for the bytes, but not where the file is refused. It appends nothing.
    pub fn feed(&mut self, piece: &[u8], body: &mut Vec<u8>) -> Result<(), WavError>
        // Whatever follows, the bytes so far and those to come stay those of one file.
        ensures same { result ≢ Err Memory → (more : List ℕ) →
            with_bytes body.old.items (raw_to_come self.old (piece.now ++ more))
            ≡ with_bytes body.new.items (raw_to_come self.new more) }
        ensures ok { OnOk result ((front : List ℕ) × (body.new.items ≡ body.old.items ++ front)) }
        ensures err { OnErr result (body.new.items ≡ body.old.items) }
        ensures begins { OnOk result (has_begun self.new ≡ false
            → body.new.items ≡ body.old.items) }

        // Memory is wanted for the bytes alone, and an error comes again.
        ensures memory { result ≡ Err Memory → error_of self.old ≡ None
            → IsOk (raw_to_come self.old piece.now) }
        ensures again { IfSome (error_of self.old) (λ e. result ≡ Err e) }
        ensures stays { IfErr result (λ e. error_of self.new ≡ Some e) }
        ensures after { IfErr result (λ e. (more : List ℕ) → raw_to_come self.new more ≡ Err e) }
        ensures no_error { OnOk result (error_of self.new ≡ None) }
    {
        if self.is_starved {
            return Err(WavError::Memory);
        }
        let data = match self.scan.advance(Depths::UpTo32, piece) {
            Ok(data) => data,
            Err(error) => return Err(error),
        };
        let data = match data {
            Some(data) => data,
            None => return Ok(()),
        };
        match push_part(body, &mut self.part, data.format, data.body) {
            Ok(()) => Ok(()),
            Err(_) => {
                self.is_starved = true;
                Err(WavError::Memory)
            }
        }
    }

    /// The channels, the rate and the bits of the file, once its data began: `Some` from the first `feed` on that appends
    /// something, or earlier. Each answer to come has them, unless the file is too long; if the file ends here, it is read.
    /// `None` comes before, and after an error that a file gives. Takes no memory.
    pub fn head(&self) -> Option<RawHead>
        ensures begun { IsSome result ↔ IsTrue (has_begun self.now) }
        ensures to_come { IfSome result (λ head. error_of self.now ≡ None →
            (more : List ℕ) → IsOfHead head.channels head.rate head.bits
            (raw_to_come self.now more)) }
        ensures ends { IfSome result (λ _. error_of self.now ≡ None
            → IsOk (raw_to_come self.now [])) }
    {
        match self.scan.place {
            Place::DataBody { format, .. } => Some(RawHead {
                channels: format.channels,
                rate: format.rate,
                bits: format.bits,
            }),
            _ => None,
        }
    }

    /// The channels, the rate and the bits of the file that ends here, or why it is refused: the error that was answered,
    /// or what a file that is cut short gives. Takes no memory.
    pub fn finish(self) -> Result<RawHead, WavError>
        ensures ok { IfOk result (λ head. raw_to_come self [] ≡ Ok
            (record { channels = head.channels; rate = head.rate; bits = head.bits; body = [] })) }
        ensures err { IfErr result (λ e. raw_to_come self [] ≡ Err e) }
        ensures again { IfSome (error_of self) (λ e. result ≡ Err e) }
        ensures memory { result ≡ Err Memory → error_of self ≡ Some Memory }

        // The bytes of a file are whole frames, and no more than a file may have.
        ensures frames { (bytes : List ℕ) (s : Raw) → raw_file bytes ≡ Ok s
            → length s.body % (s.channels * (s.bits / 8)) ≡ 0 }
        ensures few { (bytes : List ℕ) (s : Raw) → raw_file bytes ≡ Ok s
            → length s.body ≤ most_bytes }
    {
        if self.is_starved {
            return Err(WavError::Memory);
        }
        match self.scan.finish(Depths::UpTo32) {
            Ok(format) => Ok(RawHead {
                channels: format.channels,
                rate: format.rate,
                bits: format.bits,
            }),
            Err(error) => Err(error),
        }
    }
}
