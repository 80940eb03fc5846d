//! What a format chunk says.

ghost use Rattle.std.specs.Prelude.{◌≡◌};
ghost use Rattle.wav_io.specs.Formats.{is_accepted};

/// The channels, the rate and the bits of a format chunk that is in order.
#[derive(Clone, Copy)]
pub struct Format {
    /// Samples per frame.
    pub channels: u16,
    /// Frames per second (Hz).
    pub rate: u32,
    /// Bits of a sample.
    pub bits: u16,
}

/// The bits of a sample that a reader takes.
#[derive(Clone, Copy)]
pub enum Depths {
    /// 16.
    Sixteen,
    /// 8, 16, 24 or 32.
    UpTo32,
}

impl Depths {
    /// Whether a sample of so many bits is taken.
    pub fn accepts(self, bits: u16) -> bool
        ensures { result ≡ is_accepted self bits }
    {
        match self {
            Depths::Sixteen => bits == 16,
            Depths::UpTo32 => bits == 8 || bits == 16 || bits == 24 || bits == 32,
        }
    }
}
