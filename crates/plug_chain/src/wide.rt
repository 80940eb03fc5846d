//! The formats that a plug reads, and the 16-bit sample of each.
ghost use Rattle.std.specs.Prelude.{◌≡◌, length};
ghost use Rattle.plug_chain.specs.Samples.{bytes_of, wide_sample};

use pcm_format::{Format, read_sample};

/// How a sample is stored, in a file or a stream that a plug reads (`snd_pcm_format_t` of alsa/pcm.h, and the signed
/// formats of RIFF WAVE).
#[derive(Clone, Copy, Debug, PartialEq, Eq)]
pub enum Wide {
    /// One signed byte.
    S8,
    /// One byte, where 128 is silence.
    U8,
    /// A signed number of 16 bits, the low byte first.
    S16Le,
    /// A signed number of 16 bits, the high byte first.
    S16Be,
    /// A signed number of 24 bits in three bytes, the low byte first (ALSA's `S24_3LE`).
    S24Packed,
    /// A signed number of 32 bits, the low byte first.
    S32Le,
}

impl Wide {
    /// How many bytes a sample has: 1 to 4.
    pub fn bytes(self) -> u8
        ensures { result ≡ bytes_of self }
    {
        match self {
            Wide::S8 | Wide::U8 => 1,
            Wide::S16Le | Wide::S16Be => 2,
            Wide::S24Packed => 3,
            Wide::S32Le => 4,
        }
    }

    /// The sample of 16 bits that these bytes represent: a number of more bits is rounded down to its high 16 bits.
    pub(crate) fn sample(self, bytes: &[u8]) -> i16
        requires { length bytes.now ≡ bytes_of self }
        ensures { result ≡ wide_sample self bytes.now }
    {
        match self {
            Wide::S8 => read_sample(Format::S8, bytes),
            Wide::U8 => read_sample(Format::U8, bytes),
            Wide::S16Le => read_sample(Format::S16Le, bytes),
            Wide::S16Be => read_sample(Format::S16Be, bytes),
            Wide::S24Packed => read_sample(Format::S16Le, &bytes[1..]),
            Wide::S32Le => read_sample(Format::S16Le, &bytes[2..]),
        }
    }
}
