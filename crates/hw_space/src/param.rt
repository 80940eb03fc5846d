//! The parameters of a space.
ghost use Rattle.std.specs.Prelude.{◌≡◌, ◌↔◌, IsTrue};
ghost use Rattle.hw_space.specs.Narrowings.{FitsParam};
ghost use Rattle.hw_space.specs.Params.{kind_of, HasInterval};

use crate::quantity::Quantity;

/// A hardware parameter (`snd_pcm_hw_param_t` of alsa-lib).
///
/// The access and the format are masks, the others are intervals. Sizes are in frames, times in microseconds.
#[derive(Clone, Copy, Debug, PartialEq, Eq)]
pub enum Param {
    Access,
    Format,
    SampleBits,
    FrameBits,
    Channels,
    Rate,
    PeriodTime,
    PeriodSize,
    PeriodBytes,
    Periods,
    BufferTime,
    BufferSize,
    BufferBytes,
}

/// Where a space keeps a parameter.
#[derive(Clone, Copy)]
pub enum ParamKind {
    Access,
    Format,
    Number(Quantity),
}

impl Param {
    /// Where a space keeps this parameter.
    pub fn kind(self) -> ParamKind
        ensures { result ≡ kind_of self }
    {
        match self {
            Param::Access => ParamKind::Access,
            Param::Format => ParamKind::Format,
            Param::SampleBits => ParamKind::Number(Quantity::SampleBits),
            Param::FrameBits => ParamKind::Number(Quantity::FrameBits),
            Param::Channels => ParamKind::Number(Quantity::Channels),
            Param::Rate => ParamKind::Number(Quantity::Rate),
            Param::PeriodTime => ParamKind::Number(Quantity::PeriodTime),
            Param::PeriodSize => ParamKind::Number(Quantity::PeriodSize),
            Param::PeriodBytes => ParamKind::Number(Quantity::PeriodBytes),
            Param::Periods => ParamKind::Number(Quantity::Periods),
            Param::BufferTime => ParamKind::Number(Quantity::BufferTime),
            Param::BufferSize => ParamKind::Number(Quantity::BufferSize),
            Param::BufferBytes => ParamKind::Number(Quantity::BufferBytes),
        }
    }

    /// Whether a parameter has an interval, and isn't a mask, as the calls that narrow one ask.
    pub fn has_interval(self) -> bool
        ensures { IsTrue result ↔ HasInterval self }
    {
        match self.kind() {
            ParamKind::Number(_) => true,
            ParamKind::Access | ParamKind::Format => false,
        }
    }

    /// Whether a parameter can have a value, as `Space::set` asks: a mask has the members 0 to 63, and an interval any number.
    pub fn can_be(self, value: u32) -> bool
        ensures { IsTrue result ↔ FitsParam self value }
    {
        match self.kind() {
            ParamKind::Number(_) => true,
            ParamKind::Access | ParamKind::Format => value < 64,
        }
    }

    /// The quantity of a parameter that has an interval (`has_interval`).
    pub fn quantity(self) -> Quantity
        requires { HasInterval self }
        ensures { kind_of self ≡ ParamKind.Number result }
    {
        match self.kind() {
            ParamKind::Number(quantity) => quantity,
            ParamKind::Access | ParamKind::Format => unreachable!(),
        }
    }
}
