//! The choice of one configuration.
ghost use Rattle.std.specs.Prelude.{◌≡◌, ◌≢◌, ◌<◌, OnOk};
ghost use Rattle.hw_space.specs.Choices.{ChoiceLeaves, IsFirstNumber, IsChoice};
ghost use Rattle.hw_space.specs.Proper.{IsProper};
ghost use Rattle.hw_space.specs.Settled.{space_left};

use crate::config::Config;
use crate::narrowing::{greatest_end, least_end, narrow, take_access, take_format};
use crate::near::take_near;
use crate::param_box::ParamBox;
use crate::quantity::Quantity;
use crate::settle::settle;
use pcm_interval::{Empty, Mask};

/// A step of the choice.
#[derive(Clone, Copy)]
pub enum Choice {
    /// Refine.
    Settle,
    /// Take the first access.
    FirstAccess,
    /// Take the first format.
    FirstFormat,
    /// Take the least end of a quantity.
    First(Quantity),
    /// Take the greatest end of a quantity.
    Last(Quantity),
    /// Take the end of a quantity that is nearest to a number.
    Near(Quantity, u32),
}

/// Chooses one configuration. The order of the steps is this library's own: the access, the format, the channels and the
/// rate first, then the period size nearest to the slave's, the greatest buffer size, and the least number of periods.
pub fn choose(ranges: &ParamBox, period: u32) -> Result<Config, Empty>
    requires { IsProper ranges.now }
    ensures { IsChoice ranges.now period result }
{
    let choices = [
        Choice::Settle,
        Choice::FirstAccess,
        Choice::FirstFormat,
        Choice::First(Quantity::Channels),
        Choice::First(Quantity::Rate),
        Choice::Near(Quantity::PeriodSize, period),
        Choice::Last(Quantity::BufferSize),
        Choice::First(Quantity::Periods),
    ];
    let mut chosen = *ranges;
    for choice in &choices {
        take(&mut chosen, choice)?;
    }
    Ok(Config {
        channels: chosen.channels.min as u8,
        rate: chosen.rate.min,
        period_size: chosen.period_size.min,
        buffer_size: chosen.buffer_size.min,
        periods: chosen.periods.min,
    })
}

/// Makes one step of the choice. After `Empty` the box may be narrowed in part.
fn take(ranges: &mut ParamBox, choice: &Choice) -> Result<(), Empty>
    requires { IsProper ranges.old }
    ensures makes { ChoiceLeaves choice.now ranges.old (space_left result ranges.new) }
    ensures proper { OnOk result (IsProper ranges.new) }
{
    match *choice {
        Choice::Settle => {
            settle(ranges)?;
            Ok(())
        }
        Choice::FirstAccess => {
            let number = first_number(ranges.access);
            take_access(ranges, number)
        }
        Choice::FirstFormat => {
            let number = first_number(ranges.format);
            take_format(ranges, number)
        }
        Choice::First(quantity) => {
            let end = least_end(ranges.part(quantity));
            narrow(ranges, quantity, &end)
        }
        Choice::Last(quantity) => {
            let end = greatest_end(ranges.part(quantity));
            narrow(ranges, quantity, &end)
        }
        Choice::Near(quantity, value) => take_near(ranges, quantity, value),
    }
}

/// The least number of a mask that has one.
fn first_number(mask: Mask) -> u32
    requires { mask.bits ≢ 0 }
    ensures first { IsFirstNumber mask result }
    ensures below { result < 64 }
{
    mask.bits.trailing_zeros()
}
