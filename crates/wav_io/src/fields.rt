//! Little-endian numbers and samples in bytes.

ghost use Rattle.std.specs.Prelude.{◌≡◌, ◌+◌, ◌/◌, ◌≤◌, length};
ghost use Rattle.std.specs.Int.{cast_signed, w16, w32};
ghost use Rattle.wav_io.specs.Fields.{number_at, samples_of_bytes};

/// The 16-bit number at a place.
pub fn u16_at(bytes: &[u8], place: usize) -> u16
    requires { place + 2 ≤ length bytes.now }
    ensures { result ≡ number_at w16 place bytes.now }
{
    u16::from_le_bytes([bytes[place], bytes[place + 1]])
}

/// The 32-bit number at a place.
pub fn u32_at(bytes: &[u8], place: usize) -> u32
    requires { place + 4 ≤ length bytes.now }
    ensures { result ≡ number_at w32 place bytes.now }
{
    u32::from_le_bytes([
        bytes[place],
        bytes[place + 1],
        bytes[place + 2],
        bytes[place + 3],
    ])
}

/// The sample in the two bytes from a place on. They are a slice of their own, so that the compiler loads them as one number.
#[inline(always)]
fn sample_at(bytes: &[u8], place: usize) -> i16
    requires { place + 2 ≤ length bytes.now }
    ensures { result ≡ cast_signed w16 (number_at w16 place bytes.now) }
{
    let pair = &bytes[place..place + 2];
    i16::from_le_bytes([pair[0], pair[1]])
}

/// Puts the samples of the bytes, two bytes each, into as many places. No bound is tested, so that the compiler can do
/// several at a time.
pub fn decode(samples: &mut [i16], bytes: &[u8])
    requires { length samples.old ≡ length bytes.now / 2 }
    ensures { samples.new ≡ samples_of_bytes bytes.now }
{
    for i in 0..samples.len() {
        samples[i] = sample_at(bytes, 2 * i);
    }
}
