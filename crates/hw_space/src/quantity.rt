//! The parameters that are numbers.

/// A hardware parameter that is a number, and so has an interval in a space.
#[derive(Clone, Copy, Debug, PartialEq, Eq)]
pub enum Quantity {
    SampleBits,
    FrameBits,
    Channels,
    Rate,
    PeriodTime,
    PeriodSize,
    PeriodBytes,
    Periods,
    BufferTime,
    BufferSize,
    BufferBytes,
}
