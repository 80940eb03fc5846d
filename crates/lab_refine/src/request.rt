//! What a text asks of a parameter space.
ghost use Rattle.std.specs.Prelude.{◌≡◌};

use hw_space::Param;
use std::marker::Model;

/// The slave of a text: the card whose ring the clients share, by its channels, its rate in Hz, and its
/// period and its ring in frames. [`read_request`](crate::read_request) makes each with 1 to 8 channels, a
/// rate from 4000 to 192000, a ring from 64 to 16384, and a period that is at least 16, at most half the
/// ring, and divides it.
#[derive(Clone, Copy, Debug)]
pub struct SlaveLine {
    pub channels: u8,
    pub rate: u32,
    pub period: u32,
    pub ring: u32,
}

/// What one line asks of the parameter space. A value counts in its parameter's unit: bits, channels, Hz,
/// frames, bytes, periods or microseconds; for an access or a format it is the number of a member. Only
/// `Set` and `Show` are for those two, and `Set` then with a number below 64.
#[derive(Clone, Copy, Debug)]
pub enum Ask {
    /// Narrow a parameter to a value, as `snd_pcm_hw_params_set_..` do.
    Set(Param, u32),
    /// Narrow a parameter to this value and above.
    Min(Param, u32),
    /// Narrow a parameter to this value and below.
    Max(Param, u32),
    /// Narrow a parameter to the value nearest to this one, at equal distance the lower.
    Near(Param, u32),
    /// Narrow a parameter to whole numbers.
    Integer(Param),
    /// Show a parameter.
    Show(Param),
    /// Show the configuration that is chosen from the space.
    Choose,
}

/// What the lines of a text ask, in order. Contracts see it as their list.
#[derive(Debug, Drop)]
pub struct Asks {
    asks: Vec<Ask>,
}

impl Model for Asks {
    ghost use Rattle.std.specs.Prelude.{List};
    ghost use Rattle.lab_refine.specs.declared.request.Ask.{Ask};

    ghost Value = { List Ask };

    ghost view = { λ asks. asks.asks.items };
}

impl Asks {
    /// These, in order, which are taken as they are.
    pub fn from_vec(asks: Vec<Ask>) -> Asks
        ensures { result ≡ asks.items }
    {
        Asks { asks }
    }

    /// Each, in order.
    pub fn as_slice(&self) -> &[Ask]
        ensures { result.now ≡ self.now }
    {
        self.asks.as_slice()
    }
}

/// What a text asks: the slave whose parameters can be chosen, and what each line asks of the space.
#[derive(Debug, Drop)]
pub struct Request {
    pub slave: SlaveLine,
    pub asks: Asks,
}
