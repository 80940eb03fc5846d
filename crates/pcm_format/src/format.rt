//! The formats of a sample.
ghost use Rattle.std.specs.Prelude.{◌≡◌};
ghost use Rattle.pcm_format.specs.Samples.{format_number, bits_of, silence_of};

/// How a sample is stored, with the numbers of ALSA (`snd_pcm_format_t` of alsa/pcm.h).
#[derive(Clone, Copy, Debug, PartialEq, Eq)]
pub enum Format {
    /// One signed byte.
    S8 = 0,
    /// One byte, where 128 is silence.
    U8,
    /// A signed number of 16 bits, the low byte first.
    S16Le,
    /// A signed number of 16 bits, the high byte first.
    S16Be,
}

impl Format {
    /// The number of the format, from 0 to 3 (`snd_pcm_format_t` of alsa/pcm.h).
    pub fn number(self) -> u32
        ensures { result ≡ format_number self }
    {
        self as u32
    }

    /// How many bits a sample has: 8 or 16 (`snd_pcm_format_physical_width` of alsa/pcm.h).
    pub fn bits(self) -> u32
        ensures { result ≡ bits_of self }
    {
        match self {
            Format::S8 | Format::U8 => 8,
            Format::S16Le | Format::S16Be => 16,
        }
    }

    /// The byte that silence repeats: 128 for `U8`, else 0 (`snd_pcm_format_silence` of alsa/pcm.h).
    pub fn silence(self) -> u8
        ensures { result ≡ silence_of self }
    {
        match self {
            Format::U8 => 128,
            Format::S8 | Format::S16Le | Format::S16Be => 0,
        }
    }
}
