//! The rules that tie the quantities of a configuration to one another.
ghost use Rattle.std.specs.Prelude.{◌≡◌, ◌≤◌};
ghost use Rattle.pcm_interval.specs.Intervals.{IsNonEmpty};
ghost use Rattle.hw_space.specs.Rules.{computed_by, HasScale};

use crate::quantity::Quantity;
use pcm_interval::{Interval, div, mul, muldivk, mulkdiv};

/// How a quantity follows from two others, a and b.
#[derive(Clone, Copy, Debug, PartialEq, Eq)]
pub enum Operation {
    /// a·b
    Mul,
    /// a/b
    Div,
    /// a·b/k
    MulDivK(u32),
    /// a·k/b
    MulKDiv(u32),
}

impl Operation {
    /// What the intervals of a and b leave for the quantity. Neither is empty, and their lower ends are at least 1.
    pub fn compute(self, a: &Interval, b: &Interval) -> Interval
        requires scale { HasScale self }
        requires a_min { 1 ≤ a.now.min }
        requires b_min { 1 ≤ b.now.min }
        requires a_filled { IsNonEmpty a.now }
        requires b_filled { IsNonEmpty b.now }
        ensures { result ≡ computed_by self a.now b.now }
    {
        match self {
            Operation::Mul => mul(a, b),
            Operation::Div => div(a, b),
            Operation::MulDivK(k) => muldivk(a, b, k),
            Operation::MulKDiv(k) => mulkdiv(a, k, b),
        }
    }
}

/// One rule: the target is refined with what the operation makes of the two sources.
#[derive(Clone, Copy, Debug, PartialEq, Eq)]
pub struct Rule {
    pub target: Quantity,
    pub operation: Operation,
    pub first: Quantity,
    pub second: Quantity,
}

/// Rows of a table of rules: the target, the operation and its two sources.
macro_rules! table {
    ($($target:ident = $operation:expr, $first:ident, $second:ident;)*) => {
        [$(Rule {
            target: Quantity::$target,
            operation: $operation,
            first: Quantity::$first,
            second: Quantity::$second,
        }),*]
    };
}

/// The rules. Times are in microseconds, and a byte has 8 bits.
///
/// Each three rules are one equation, solved for each of its quantities.
pub const RULES: [Rule; 18] = table! {
    FrameBits = Operation::Mul, SampleBits, Channels;
    SampleBits = Operation::Div, FrameBits, Channels;
    Channels = Operation::Div, FrameBits, SampleBits;
    BufferSize = Operation::Mul, PeriodSize, Periods;
    PeriodSize = Operation::Div, BufferSize, Periods;
    Periods = Operation::Div, BufferSize, PeriodSize;
    PeriodBytes = Operation::MulDivK(8), PeriodSize, FrameBits;
    PeriodSize = Operation::MulKDiv(8), PeriodBytes, FrameBits;
    FrameBits = Operation::MulKDiv(8), PeriodBytes, PeriodSize;
    BufferBytes = Operation::MulDivK(8), BufferSize, FrameBits;
    BufferSize = Operation::MulKDiv(8), BufferBytes, FrameBits;
    FrameBits = Operation::MulKDiv(8), BufferBytes, BufferSize;
    PeriodTime = Operation::MulKDiv(1000000), PeriodSize, Rate;
    PeriodSize = Operation::MulDivK(1000000), PeriodTime, Rate;
    Rate = Operation::MulKDiv(1000000), PeriodSize, PeriodTime;
    BufferTime = Operation::MulKDiv(1000000), BufferSize, Rate;
    BufferSize = Operation::MulDivK(1000000), BufferTime, Rate;
    Rate = Operation::MulKDiv(1000000), BufferSize, BufferTime;
};
