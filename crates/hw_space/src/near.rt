//! The end of a quantity that is nearest to a number.
ghost use Rattle.std.specs.Prelude.{◌≡◌, IfSome, OnOk};
ghost use Rattle.hw_space.specs.Boxes.{part};
ghost use Rattle.hw_space.specs.Narrowings.{with_refined, least_end, greatest_end, distance, nearest, IsNear, LeavesOf};
ghost use Rattle.hw_space.specs.Proper.{IsProper};
ghost use Rattle.hw_space.specs.Settled.{Leaves, space_left};

use crate::narrowing::{at_least, at_most, greatest_end, least_end, narrow};
use crate::param_box::ParamBox;
use crate::quantity::Quantity;
use pcm_interval::{Empty, Interval};

/// Narrows a quantity to the end that is nearest to a number, and then refines the box: to the greatest end that is left
/// with the quantity at most the number, or to the least end that is left with it at least the number. At equal distance
/// it is the lower. After `Empty` the box is as before.
pub fn take_near(ranges: &mut ParamBox, quantity: Quantity, value: u32) -> Result<(), Empty>
    requires { IsProper ranges.old }
    ensures near { IsNear ranges.old quantity value (space_left result ranges.new) }
    ensures proper { OnOk result (IsProper ranges.new) }
{
    let low = tried(ranges, quantity, &at_most(value));
    let high = tried(ranges, quantity, &at_least(value));
    match nearest(low, high, quantity, value) {
        Some(left) => {
            *ranges = left;
            Ok(())
        }
        None => Err(Empty),
    }
}

/// What is left of the nearer of two ends, after refinement.
fn nearest(
    low: Option<ParamBox>,
    high: Option<ParamBox>,
    quantity: Quantity,
    value: u32,
) -> Option<ParamBox>
    requires low_proper { IfSome low IsProper }
    requires high_proper { IfSome high IsProper }
    ensures left { LeavesOf (nearest quantity value low high) result }
    ensures proper { IfSome result IsProper }
{
    match (low, high) {
        (Some(low), Some(high)) => nearer(&low, &high, quantity, value),
        (Some(low), None) => at_last(&low, quantity),
        (None, Some(high)) => at_first(&high, quantity),
        (None, None) => None,
    }
}

/// What is left of the nearer of the greatest end of one box and the least end of another, after refinement.
fn nearer(low: &ParamBox, high: &ParamBox, quantity: Quantity, value: u32) -> Option<ParamBox>
    requires low_proper { IsProper low.now }
    requires high_proper { IsProper high.now }
    ensures left { LeavesOf (nearest quantity value (Some low.now) (Some high.now)) result }
    ensures proper { IfSome result IsProper }
{
    let below = distance(low.part(quantity).max, value);
    let above = distance(high.part(quantity).min, value);
    if below <= above {
        at_last(low, quantity)
    } else {
        at_first(high, quantity)
    }
}

/// What is left of a box at the greatest end of a quantity, after refinement.
fn at_last(ranges: &ParamBox, quantity: Quantity) -> Option<ParamBox>
    requires { IsProper ranges.now }
    ensures left { Leaves (with_refined ranges.now quantity
        (greatest_end (part ranges.now quantity))) result }
    ensures proper { IfSome result IsProper }
{
    let end = greatest_end(ranges.part(quantity));
    tried(ranges, quantity, &end)
}

/// What is left of a box at the least end of a quantity, after refinement.
fn at_first(ranges: &ParamBox, quantity: Quantity) -> Option<ParamBox>
    requires { IsProper ranges.now }
    ensures left { Leaves (with_refined ranges.now quantity
        (least_end (part ranges.now quantity))) result }
    ensures proper { IfSome result IsProper }
{
    let end = least_end(ranges.part(quantity));
    tried(ranges, quantity, &end)
}

/// What is left of a box with a quantity narrowed, after refinement.
fn tried(ranges: &ParamBox, quantity: Quantity, other: &Interval) -> Option<ParamBox>
    requires { IsProper ranges.now }
    ensures left { Leaves (with_refined ranges.now quantity other.now) result }
    ensures proper { IfSome result IsProper }
{
    let mut left = *ranges;
    match narrow(&mut left, quantity, other) {
        Ok(()) => Some(left),
        Err(Empty) => None,
    }
}

/// How far two numbers are apart.
fn distance(a: u32, b: u32) -> u32
    ensures { result ≡ distance a b }
{
    if a < b { b - a } else { a - b }
}
