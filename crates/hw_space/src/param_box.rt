//! A box: the values that each parameter may still have.
ghost use Rattle.std.specs.Prelude.{◌≡◌};
ghost use Rattle.hw_space.specs.Boxes.{part, with_part};

use crate::quantity::Quantity;
use pcm_interval::{Interval, Mask};

/// The values that each hardware parameter may still have: an interval for each quantity, and a mask for the access and
/// for the format.
#[derive(Clone, Copy)]
pub struct ParamBox {
    pub access: Mask,
    pub format: Mask,
    pub sample_bits: Interval,
    pub frame_bits: Interval,
    pub channels: Interval,
    pub rate: Interval,
    pub period_time: Interval,
    pub period_size: Interval,
    pub period_bytes: Interval,
    pub periods: Interval,
    pub buffer_time: Interval,
    pub buffer_size: Interval,
    pub buffer_bytes: Interval,
}

impl ParamBox {
    /// The interval of a quantity.
    pub fn part(&self, quantity: Quantity) -> Interval
        ensures { result ≡ part self.now quantity }
    {
        match quantity {
            Quantity::SampleBits => self.sample_bits,
            Quantity::FrameBits => self.frame_bits,
            Quantity::Channels => self.channels,
            Quantity::Rate => self.rate,
            Quantity::PeriodTime => self.period_time,
            Quantity::PeriodSize => self.period_size,
            Quantity::PeriodBytes => self.period_bytes,
            Quantity::Periods => self.periods,
            Quantity::BufferTime => self.buffer_time,
            Quantity::BufferSize => self.buffer_size,
            Quantity::BufferBytes => self.buffer_bytes,
        }
    }

    /// Gives a quantity another interval.
    pub fn set_part(&mut self, quantity: Quantity, interval: Interval)
        ensures { self.new ≡ with_part self.old quantity interval }
    {
        match quantity {
            Quantity::SampleBits => self.sample_bits = interval,
            Quantity::FrameBits => self.frame_bits = interval,
            Quantity::Channels => self.channels = interval,
            Quantity::Rate => self.rate = interval,
            Quantity::PeriodTime => self.period_time = interval,
            Quantity::PeriodSize => self.period_size = interval,
            Quantity::PeriodBytes => self.period_bytes = interval,
            Quantity::Periods => self.periods = interval,
            Quantity::BufferTime => self.buffer_time = interval,
            Quantity::BufferSize => self.buffer_size = interval,
            Quantity::BufferBytes => self.buffer_bytes = interval,
        }
    }
}
