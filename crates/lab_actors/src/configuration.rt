//! The configuration of a stream: what the card leaves to it by choice.
ghost use Rattle.std.specs.Prelude.{◌≡◌, IfOk};
ghost use Rattle.hw_space.specs.Params.{HasInterval};
ghost use Rattle.hw_space.specs.Settled.{space_left};
ghost use Rattle.lab_run.specs.Openings.{IsChosen, IsNarrowed, value_if, values_of};
ghost use Rattle.lab_lines.specs.Limits.{IsCardLine};
ghost use Rattle.lab_actors.specs.Usable.{IsConfigInRange};

use hw_space::{Config, Param, Slave, Space};
use lab_lines::CardLine;
use pcm_interval::Empty;

/// What a stream asks of its configuration: its channels and its rate in Hz, and its period and buffer in frames where its line
/// gives them.
#[derive(Clone, Copy)]
pub(crate) struct Wanted {
    pub(crate) channels: u32,
    pub(crate) rate: u32,
    pub(crate) period: Option<u32>,
    pub(crate) buffer: Option<u32>,
}

/// Gives a parameter a value, where there is one. `Empty` comes exactly where no space is left.
fn set_if(space: &mut Space, param: Param, value: Option<u32>) -> Result<(), Empty>
    requires { HasInterval param }
    ensures { IsNarrowed space.old (value_if param value) (space_left result space.new) }
{
    match value {
        None => Ok(()),
        Some(value) => space.set(param, value),
    }
}

/// Narrows a space to what a stream asks. `Empty` comes exactly where no space is left.
fn narrow(space: &mut Space, wanted: &Wanted) -> Result<(), Empty>
    ensures { IsNarrowed space.old
        (values_of wanted.now.channels wanted.now.rate wanted.now.period wanted.now.buffer)
        (space_left result space.new) }
{
    space.set(Param::Channels, wanted.channels)?;
    space.set(Param::Rate, wanted.rate)?;
    set_if(space, Param::PeriodSize, wanted.period)?;
    set_if(space, Param::BufferSize, wanted.buffer)
}

/// The configuration that the card's space leaves by choice to a stream. There is none exactly where the card can't run such a
/// stream.
pub(crate) fn configuration(card: &CardLine, wanted: &Wanted) -> Result<Config, Empty>
    requires { IsCardLine card.now }
    ensures chosen { IsChosen card.now
        (values_of wanted.now.channels wanted.now.rate wanted.now.period wanted.now.buffer) result }
    ensures range { IfOk result
        (λ config. IsConfigInRange config wanted.now.channels card.now.channels card.now.ring) }
{
    let slave = Slave {
        channels: card.channels,
        rate: card.rate,
        period: card.period,
        ring: card.ring,
    };
    let mut space = Space::widest(&slave);
    narrow(&mut space, wanted)?;
    space.choose(&slave)
}
