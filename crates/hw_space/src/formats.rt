//! Formats and the bits of their samples.
ghost use Rattle.std.specs.Prelude.{◌≡◌, ◌<◌};
ghost use Rattle.hw_space.specs.Formats.{contains, includes, bits_of_formats, formats_of_bits};

use pcm_interval::{Interval, Mask};

/// The formats with 8 bits: S8 (0) and U8 (1).
const FORMATS_OF_8_BITS: u64 = 3;

/// The formats with 16 bits: S16_LE (2) and S16_BE (3).
const FORMATS_OF_16_BITS: u64 = 12;

/// The sample bits that the formats of a mask leave: from the least bits to the greatest.
#[tactic(auto, unfolding(crate::specs::Formats::bits_of_formats))]
pub fn bits_of_formats(formats: &Mask) -> Interval
    ensures { result ≡ bits_of_formats formats.now }
{
    let some_8 = contains(formats, 0) || contains(formats, 1);
    let some_16 = contains(formats, 2) || contains(formats, 3);
    Interval {
        min: if some_8 { 8 } else { 16 },
        max: if some_16 { 16 } else { 8 },
        openmin: false,
        openmax: false,
        integer: true,
    }
}

/// The formats whose bits lie in an interval.
#[tactic(auto, unfolding(crate::specs::Formats::formats_of_bits))]
pub fn formats_of_bits(bits: &Interval) -> Mask
    ensures { result ≡ formats_of_bits bits.now }
{
    let of_8 = if includes(bits, 8) {
        FORMATS_OF_8_BITS
    } else {
        0
    };
    let of_16 = if includes(bits, 16) {
        FORMATS_OF_16_BITS
    } else {
        0
    };
    Mask { bits: of_8 + of_16 }
}

/// Whether a mask has a number below 64.
fn contains(mask: &Mask, number: u32) -> bool
    requires { number < 64 }
    ensures { result ≡ contains mask.now number }
{
    (mask.bits >> number) % 2 == 1
}

/// Whether a whole number lies between the ends of an interval.
fn includes(interval: &Interval, number: u32) -> bool
    ensures { result ≡ includes interval.now number }
{
    let above = interval.min < number || (interval.min == number && !interval.openmin);
    let below = number < interval.max || (number == interval.max && !interval.openmax);
    above && below
}
