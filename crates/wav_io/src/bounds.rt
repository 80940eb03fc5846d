//! Tests for what a canonical WAV file asks of its content.
ghost use Rattle.std.specs.Prelude.{◌↔◌, ◌+◌, ◌*◌, ◌^◌, ◌<◌, IsTrue, length};
ghost use Rattle.wav_io.specs.Canonical.{HasHeader};

use crate::wav::Wav;

/// The least rate that a canonical file can't have: 2 to the power 28, in Hz.
const RATE_END: u32 = 268435456;

/// The greatest number of samples of a canonical file: with it the size after `RIFF` is below 2 to the power 32.
const MOST_SAMPLES: u64 = 2147483629;

/// Whether a canonical file can have this head, as `header` asks: 1 to 8 channels, a rate from 1 to `2^28 - 1` Hz, and so few
/// frames that the size after `RIFF` is below `2^32`. With 0 frames it is what `open_header` asks.
pub fn can_have_header(channels: u16, rate: u32, frames: u32) -> bool
    ensures { IsTrue result ↔ HasHeader channels rate frames }
{
    1 <= channels
        && channels <= 8
        && 1 <= rate
        && rate < RATE_END
        && frames as u64 * channels as u64 <= MOST_SAMPLES
}

impl Wav {
    /// Whether its canonical file can be written, as `write_wav` asks: the rate is below `2^28` Hz, and the size after
    /// `RIFF`, two bytes for each sample and 36, is below `2^32`.
    pub fn can_write(&self) -> bool
        ensures { IsTrue result ↔ ((self.now.rate < 2 ^ 28)
            × (length self.now.samples * 2 + 36 < 2 ^ 32)) }
    {
        self.rate < RATE_END && self.samples.len() as u64 <= MOST_SAMPLES
    }
}
