//! Why a WAV file isn't read or written.

ghost use Rattle.std.specs.Prelude.{◌≡◌, Some};
ghost use Rattle.wav_io.specs.declared.error.WavError.TheVariants.{Memory};
ghost use Rattle.wav_io.specs.ErrorText.{error_name, error_number, error_text};

use std::alloc::{AllocError, AllocFailed};
use std::fmt;
use thiserror::Error;

/// Why a WAV file isn't read or written. Each prints as its name, with its number after a space where it has one.
#[derive(Clone, Copy, Debug, PartialEq, Eq, Error)]
pub enum WavError {
    /// The file doesn't begin with `RIFF`, or has fewer than 4 bytes.
    NotRiff,
    /// The file begins with `RIFF`, but bytes 8 to 11 aren't `WAVE`, or there are fewer than 12 bytes.
    NotWave,
    /// There is no format chunk (`fmt `) before the first data chunk (`data`), or before the file's end.
    NoFormat,
    /// A second format chunk is before the first data chunk, whatever its size or body.
    FormatTwice,
    /// The format chunk has fewer than 16 bytes, or as an extensible one (tag 65534) fewer than 40, or the file ends
    /// within it.
    ShortFormat,
    /// The samples are of this format and not PCM (tag 1). Of an extensible format the tag is its sub-format's first
    /// two bytes.
    Tag(u16),
    /// A sample has this number of bits, and not 16.
    Bits(u16),
    /// A frame has this number of channels: none, or more than 8.
    Channels(u16),
    /// The rate is 0 Hz.
    RateZero,
    /// There is a format chunk, and no data chunk up to the file's end.
    NoData,
    /// The file has more than 67,108,864 bytes, and so many show no other refusal that doesn't need the file's end.
    TooLong,
    /// There wasn't enough memory. Reading answers so only where the file isn't refused.
    Memory,
}

impl WavError {
    /// Its name, as it is printed.
    fn name(&self) -> &'static str
        ensures { result.now ≡ error_name self.now }
    {
        match self {
            WavError::NotRiff => "NotRiff",
            WavError::NotWave => "NotWave",
            WavError::NoFormat => "NoFormat",
            WavError::FormatTwice => "FormatTwice",
            WavError::ShortFormat => "ShortFormat",
            WavError::Tag(_) => "Tag",
            WavError::Bits(_) => "Bits",
            WavError::Channels(_) => "Channels",
            WavError::RateZero => "RateZero",
            WavError::NoData => "NoData",
            WavError::TooLong => "TooLong",
            WavError::Memory => "Memory",
        }
    }

    /// Its number, where it has one.
    fn number(&self) -> Option<u16>
        ensures { result ≡ error_number self.now }
    {
        match self {
            WavError::Tag(number) | WavError::Bits(number) | WavError::Channels(number) => {
                Some(*number)
            }
            _ => None,
        }
    }
}

impl fmt::Display for WavError {
    ghost output = { λ error. Some (error_text error) };

    fn fmt<W: fmt::Write>(&self, f: &mut fmt::Formatter<W>) -> fmt::Result {
        f.write_str(self.name())?;
        match self.number() {
            Some(number) => write!(f, " {number}"),
            None => Ok(()),
        }
    }
}

impl From<AllocError> for WavError {
    ghost from_gives = { λ _ e. e ≡ Memory };

    fn from(_e: AllocError) -> WavError {
        WavError::Memory
    }
}

impl<T: Drop> From<AllocFailed<T>> for WavError {
    ghost from_gives = { λ _ e. e ≡ Memory };

    fn from(_e: AllocFailed<T>) -> WavError {
        WavError::Memory
    }
}
