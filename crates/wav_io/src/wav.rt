//! What a WAV file holds.

use crate::samples::Samples;
use std::marker::Model;

/// The content of a WAV file (RIFF WAVE, 16-bit PCM). Contracts see it as the record `Sound` of its fields.
///
/// There are 1 to 8 channels, the rate isn't 0, and the samples are whole frames: their number is a multiple of the
/// channels.
#[derive(Debug, Drop)]
pub struct Wav {
    /// Samples per frame, 1 to 8.
    pub channels: u16,
    /// Frames per second (Hz), not 0.
    pub rate: u32,
    /// The samples, interleaved: frame by frame, and in a frame channel by channel.
    pub samples: Samples,
}

impl Model for Wav {
    ghost use Rattle.wav_io.specs.Sound.{Sound, IsWholeSound};

    ghost Value = { Sound };

    ghost view = { λ w. record { channels = w.channels; rate = w.rate; samples = w.samples } };

    ghost invariant = { λ w. IsWholeSound (record {
      channels = w.channels;
      rate = w.rate;
      samples = w.samples;
    }) };
}
