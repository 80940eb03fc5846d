//! Two rates.
ghost use Rattle.std.specs.Prelude.{◌≡◌, ◌*◌, ◌+◌, ◌<◌, ◌≤◌, ◌^◌};
ghost use Rattle.plug_chain.specs.Rates.{AreRates, output_count};

use std::marker::Model;

/// How many frames a second come and go. Both rates are at least 1, and at most 192000 frames go.
#[derive(Clone, Copy, Debug)]
pub(crate) struct Rates {
    input: u32,
    output: u32,
}

impl Model for Rates {
    ghost use Rattle.plug_chain.specs.Rates.{AreRates, RatePair};

    ghost Value = { RatePair };

    ghost view = { λ r. record { input = r.input; output = r.output } };

    ghost invariant = { λ r. AreRates (record { input = r.input; output = r.output }) };

    ghost inverse = { λ r. record { input = r.input; output = r.output } };
}

impl Rates {
    pub(crate) fn new(input: u32, output: u32) -> Rates
        requires { AreRates (record { input = input; output = output }) }
        ensures { result ≡ record { input = input; output = output } }
    {
        Rates { input, output }
    }

    /// How many frames a second come.
    pub(crate) fn input(self) -> u32
        ensures value { result ≡ self.input }
        ensures bound { AreRates self }
    {
        self.input
    }

    /// How many frames a second go.
    pub(crate) fn output(self) -> u32
        ensures value { result ≡ self.output }
        ensures bound { AreRates self }
    {
        self.output
    }

    /// How many output frames so many frames are made into.
    pub(crate) fn output_count(self, frames: u32) -> u64
        ensures value { result ≡ output_count self frames }
        ensures few { result < 2 ^ 51 }
    {
        (u64::from(frames) * u64::from(self.output) + (u64::from(self.input) - 1))
            / u64::from(self.input)
    }
}
