//! What holds of every sample and of every place. These functions do nothing: their clauses are facts.
ghost use Rattle.std.specs.Prelude.{◌≡◌, ℕ, ◌+◌, ◌*◌, ◌<◌, ◌≤◌, ℤ, pos, ◌+ℤ◌, ◌*ℤ◌, ◌≤ℤ◌, ◌<ℤ◌, FitsSigned};
ghost use Rattle.std.specs.Int.{w16};
ghost use Rattle.pcm_format.specs.declared.areas.Areas.{Areas};
ghost use Rattle.pcm_format.specs.declared.format.Format.TheVariants.{S8, U8, S16Le, S16Be};
ghost use Rattle.pcm_format.specs.Places.{HoldsRange, place_of};
ghost use Rattle.pcm_format.specs.Samples.{high_part, bytes_of_sample, sample_of_bytes};

/// A sample that is printed in a format of 16 bits and read back is that sample. In a format of 8
/// bits it is read back as the multiple of 256 at or below it.
pub fn printed_samples_are_read_back()
    ensures s8 { (z : ℤ) → FitsSigned w16 z → sample_of_bytes S8 (bytes_of_sample S8 z)
        ≡ high_part z *ℤ pos 256 }
    ensures u8 { (z : ℤ) → FitsSigned w16 z → sample_of_bytes U8 (bytes_of_sample U8 z)
        ≡ high_part z *ℤ pos 256 }
    ensures s16_le { (z : ℤ) → FitsSigned w16 z → sample_of_bytes S16Le (bytes_of_sample S16Le z)
        ≡ z }
    ensures s16_be { (z : ℤ) → FitsSigned w16 z → sample_of_bytes S16Be (bytes_of_sample S16Be z)
        ≡ z }
{}

/// The high part of a sample is the sample divided by 256, rounded down.
pub fn high_part_is_rounded_down()
    ensures at_most { (z : ℤ) → (high_part z *ℤ pos 256) ≤ℤ z }
    ensures near { (z : ℤ) → z <ℤ ((high_part z *ℤ pos 256) +ℤ pos 256) }
{}

/// No two samples of a buffer are at one place.
pub fn places_are_apart()
    ensures frames { (areas : Areas) → (f g c d : ℕ)
        → f < areas.frames → g < areas.frames → c < areas.channels → d < areas.channels
        → place_of areas f c ≡ place_of areas g d → f ≡ g }
    ensures channels { (areas : Areas) → (f g c d : ℕ)
        → f < areas.frames → g < areas.frames → c < areas.channels → d < areas.channels
        → place_of areas f c ≡ place_of areas g d → c ≡ d }
{}

/// A buffer that has all samples of its frames holds every range of them.
pub fn whole_buffers_hold_every_range()
    ensures { (areas : Areas) → (samples first count : ℕ)
        → areas.channels * areas.frames ≤ samples → first + count ≤ areas.frames
        → HoldsRange areas samples first count }
{}
