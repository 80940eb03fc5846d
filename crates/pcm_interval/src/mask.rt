//! Masks: sets of small numbers.
ghost use Rattle.std.specs.Prelude.{◌≡◌, ◌↔◌, OnOk, OnErr, IfOk, IsErr, IsFalse};
ghost use Rattle.pcm_interval.specs.Masks.{common_mask};

use crate::empty::Empty;

/// The numbers below 64 that a hardware parameter may still have, one bit for each (alsa-lib's `snd_mask_t`).
#[derive(Clone, Copy, Debug, PartialEq, Eq)]
pub struct Mask {
    pub bits: u64,
}

impl Mask {
    /// Narrows this mask to the numbers that `other` has too (alsa-lib's `snd_mask_refine`).
    ///
    /// `Ok(true)` says that the mask changed, and `Ok(false)` that it did not. `Empty` comes exactly where no number is left,
    /// and then the mask is as before.
    #[tactic(auto, unfolding(crate::specs::Masks::common_mask))]
    pub fn refine(&mut self, other: &Mask) -> Result<bool, Empty>
        ensures ok { OnOk result (self.new ≡ common_mask self.old other.now) }
        ensures unchanged { IfOk result (λ changed. IsFalse changed ↔ (self.new ≡ self.old)) }
        ensures empty { IsErr result ↔ ((common_mask self.old other.now).bits ≡ 0) }
        ensures err { OnErr result (self.new ≡ self.old) }
    {
        let bits = self.bits & other.bits;
        if bits == 0 {
            return Err(Empty);
        }
        let changed = bits != self.bits;
        self.bits = bits;
        Ok(changed)
    }
}
