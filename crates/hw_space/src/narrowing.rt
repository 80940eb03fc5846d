//! Narrowing: one parameter is refined, and then the whole box.
ghost use Rattle.std.specs.Prelude.{◌≡◌, ◌+◌, ◌-◌, ◌<◌, OnOk};
ghost use Rattle.pcm_interval.specs.Intervals.{IsNonEmpty};
ghost use Rattle.hw_space.specs.Narrowings.{point, at_least, at_most, whole_numbers, between_ends, least_end, greatest_end, with_refined, with_access, with_format, with_kind_value, FitsKind};
ghost use Rattle.hw_space.specs.Proper.{IsProper};
ghost use Rattle.hw_space.specs.Settled.{Leaves, space_left};
ghost use Rattle.hw_space.specs.Widest.{whole_from_to, from_to, mask_of_one};

use crate::param::ParamKind;
use crate::param_box::ParamBox;
use crate::quantity::Quantity;
use crate::settle::{narrow_format, narrow_part, settle};
use pcm_interval::{Empty, Interval, Mask};

/// Refines the interval of one quantity, and then the box. After `Empty` the box may be narrowed in part.
pub fn narrow(ranges: &mut ParamBox, quantity: Quantity, other: &Interval) -> Result<(), Empty>
    requires { IsProper ranges.old }
    ensures left { Leaves (with_refined ranges.old quantity other.now)
        (space_left result ranges.new) }
    ensures proper { OnOk result (IsProper ranges.new) }
{
    narrow_part(ranges, quantity, other)?;
    settle(ranges)?;
    Ok(())
}

/// Takes one number, which is below 64, as the access, and then refines the box. After `Empty` the box may be narrowed
/// in part.
pub fn take_access(ranges: &mut ParamBox, number: u32) -> Result<(), Empty>
    requires proper { IsProper ranges.old }
    requires below { number < 64 }
    ensures left { Leaves (with_access ranges.old number) (space_left result ranges.new) }
    ensures proper { OnOk result (IsProper ranges.new) }
{
    let mut access = ranges.access;
    access.refine(&only(number))?;
    ranges.access = access;
    settle(ranges)?;
    Ok(())
}

/// Takes one number, which is below 64, as the format, and then refines the box. After `Empty` the box may be narrowed
/// in part.
pub fn take_format(ranges: &mut ParamBox, number: u32) -> Result<(), Empty>
    requires proper { IsProper ranges.old }
    requires below { number < 64 }
    ensures left { Leaves (with_format ranges.old number) (space_left result ranges.new) }
    ensures proper { OnOk result (IsProper ranges.new) }
{
    narrow_format(ranges, &only(number))?;
    settle(ranges)?;
    Ok(())
}

/// Gives a parameter one value, and then refines the box. The value of a mask is below 64. After `Empty` the box may be
/// narrowed in part.
pub fn take_value(ranges: &mut ParamBox, kind: ParamKind, value: u32) -> Result<(), Empty>
    requires proper { IsProper ranges.old }
    requires fits { FitsKind kind value }
    ensures left { Leaves (with_kind_value ranges.old kind value) (space_left result ranges.new) }
    ensures proper { OnOk result (IsProper ranges.new) }
{
    match kind {
        ParamKind::Access => take_access(ranges, value),
        ParamKind::Format => take_format(ranges, value),
        ParamKind::Number(quantity) => narrow(ranges, quantity, &point(value)),
    }
}

/// The mask of one number below 64.
pub fn only(number: u32) -> Mask
    requires { number < 64 }
    ensures { result ≡ mask_of_one number }
{
    Mask { bits: 1 << number }
}

/// The whole numbers from one to another.
pub fn whole_from_to(min: u32, max: u32) -> Interval
    ensures { result ≡ whole_from_to min max }
{
    Interval {
        min,
        max,
        openmin: false,
        openmax: false,
        integer: true,
    }
}

/// All fractions from one number to another.
pub fn from_to(min: u32, max: u32) -> Interval
    ensures { result ≡ from_to min max }
{
    Interval {
        min,
        max,
        openmin: false,
        openmax: false,
        integer: false,
    }
}

/// One number.
pub fn point(number: u32) -> Interval
    ensures { result ≡ point number }
{
    from_to(number, number)
}

/// The numbers from one up.
pub fn at_least(number: u32) -> Interval
    ensures { result ≡ at_least number }
{
    from_to(number, u32::MAX)
}

/// The numbers up to one.
pub fn at_most(number: u32) -> Interval
    ensures { result ≡ at_most number }
{
    from_to(0, number)
}

/// The whole numbers.
pub fn whole_numbers() -> Interval
    ensures { result ≡ whole_numbers }
{
    whole_from_to(0, u32::MAX)
}

/// The least end of an interval that is not empty: the point if it is closed, else what is above it, up to the next
/// number.
pub fn least_end(interval: Interval) -> Interval
    requires { IsNonEmpty interval }
    ensures { result ≡ least_end interval }
{
    if interval.openmin {
        between_ends(interval.min, interval.min + 1)
    } else {
        point(interval.min)
    }
}

/// The greatest end of an interval that is not empty: the point if it is closed, else what is below it, down to the
/// number before.
pub fn greatest_end(interval: Interval) -> Interval
    requires { IsNonEmpty interval }
    ensures { result ≡ greatest_end interval }
{
    if interval.openmax {
        between_ends(interval.max - 1, interval.max)
    } else {
        point(interval.max)
    }
}

/// The fractions between two numbers.
fn between_ends(min: u32, max: u32) -> Interval
    ensures { result ≡ between_ends min max }
{
    Interval {
        min,
        max,
        openmin: true,
        openmax: true,
        integer: false,
    }
}
