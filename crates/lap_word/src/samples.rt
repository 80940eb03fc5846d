//! A sum that is saturated to the range of a sample.
ghost use Rattle.std.specs.Prelude.{◌≡◌};
ghost use Rattle.lap_word.specs.Clamp.{clamp_of};

/// The sample of 16 bits that is nearest to `sum`: `sum` itself from -32768 to 32767, and
/// otherwise the end of that range that it passes.
///
/// ALSA's dmix saturates so when it moves its sums to the card (`snd_pcm_dmix` in alsa-lib); here it
/// is done once, to a whole sum.
pub fn clamp(sum: i32) -> i16
    ensures nearest { result ≡ clamp_of sum }
{
    if sum < -32768 {
        -32768
    } else if sum > 32767 {
        32767
    } else {
        sum as i16
    }
}
