//! Intervals of numbers, whose ends may be open.
ghost use Rattle.std.specs.Prelude.{◌≡◌, ◌↔◌, ◌||◌, ℕ, OnOk, OnErr, IfOk, IsErr, IsFalse};
ghost use Rattle.pcm_interval.specs.Intervals.{is_empty, larger_lower_is_open, smaller_upper_is_open, common_part, with_ends_closed, normal_form, refinement, IsEmpty, IsNonEmpty, IsMember};

use crate::empty::Empty;

/// The numbers from `min` to `max` that a hardware parameter may still have (alsa-lib's `snd_interval_t`).
///
/// `min` is not among them where `openmin` says so, and `max` is not where `openmax` does. They are all fractions
/// between the ends, or the whole numbers alone where `integer` says so.
#[derive(Clone, Copy, Debug, PartialEq, Eq)]
pub struct Interval {
    pub min: u32,
    pub max: u32,
    pub openmin: bool,
    pub openmax: bool,
    pub integer: bool,
}

impl Interval {
    /// Whether no number is left: the ends are in the wrong order, or they are one number and a side is open
    /// (alsa-lib's `snd_interval_checkempty`).
    pub fn is_empty(&self) -> bool
        ensures { result ≡ is_empty self.now }
    {
        self.min > self.max || (self.min == self.max && (self.openmin || self.openmax))
    }

    /// Narrows this interval to what it has in common with `other` (alsa-lib's `snd_interval_refine`): the larger
    /// lower end and the smaller upper end; at one number the side is open where either is; integer where either is.
    /// The open ends of an integer interval move inward by 1 and are closed, and a closed point becomes integer.
    ///
    /// `Ok(true)` says that some field changed, and `Ok(false)` that none did. `Empty` comes exactly where nothing is left,
    /// and then the interval is as before.
    pub fn refine(&mut self, other: &Interval) -> Result<bool, Empty>
        ensures ok { OnOk result (self.new ≡ refinement self.old other.now) }
        ensures unchanged { IfOk result (λ changed. IsFalse changed ↔ (self.new ≡ self.old)) }
        ensures empty { IsErr result ↔ IsEmpty (refinement self.old other.now) }
        ensures err { OnErr result (self.new ≡ self.old) }
        ensures members { (n d : ℕ) → IsMember self.old n d → IsMember other.now n d
            → IsMember self.new n d }
    {
        let common = self.common_part(other);
        if common.is_empty() {
            return Err(Empty);
        }
        let left = common.normal_form();
        if left.is_empty() {
            return Err(Empty);
        }
        let changed = left != *self;
        *self = left;
        Ok(changed)
    }

    /// What two intervals have in common, with ends as they are.
    #[tactic(auto, unfolding(crate::specs::Intervals::common_part))]
    fn common_part(&self, other: &Interval) -> Interval
        ensures { result ≡ common_part self.now other.now }
    {
        let openmin = self.larger_lower_is_open(other);
        let openmax = self.smaller_upper_is_open(other);
        let integer = self.is_integer_with(other);
        Interval {
            min: self.min.max(other.min),
            max: self.max.min(other.max),
            openmin,
            openmax,
            integer,
        }
    }

    /// Whether the larger of two lower ends is open.
    fn larger_lower_is_open(&self, other: &Interval) -> bool
        ensures { result ≡ larger_lower_is_open self.now other.now }
    {
        if self.min < other.min {
            other.openmin
        } else if other.min < self.min {
            self.openmin
        } else {
            self.openmin || other.openmin
        }
    }

    /// Whether the smaller of two upper ends is open.
    fn smaller_upper_is_open(&self, other: &Interval) -> bool
        ensures { result ≡ smaller_upper_is_open self.now other.now }
    {
        if self.max < other.max {
            self.openmax
        } else if other.max < self.max {
            other.openmax
        } else {
            self.openmax || other.openmax
        }
    }

    /// Whether one of two intervals is integer.
    fn is_integer_with(&self, other: &Interval) -> bool
        ensures { result ≡ (self.now.integer || other.now.integer) }
    {
        self.integer || other.integer
    }

    /// The one form that a refinement leaves, of an interval that is not empty.
    fn normal_form(&self) -> Interval
        requires { IsNonEmpty self.now }
        ensures { result ≡ normal_form self.now }
    {
        if self.integer {
            return self.with_ends_closed();
        }
        let integer = self.min == self.max;
        Interval { integer, ..*self }
    }

    /// Moves each open end inward by 1 and closes it. The interval is not empty.
    fn with_ends_closed(&self) -> Interval
        requires { IsNonEmpty self.now }
        ensures { result ≡ with_ends_closed self.now }
    {
        let min = if self.openmin { self.min + 1 } else { self.min };
        let max = if self.openmax { self.max - 1 } else { self.max };
        Interval {
            min,
            max,
            openmin: false,
            openmax: false,
            integer: self.integer,
        }
    }
}
