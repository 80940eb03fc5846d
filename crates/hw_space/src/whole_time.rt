//! Sizes whose time is a whole number of microseconds.
ghost use Rattle.std.specs.Prelude.{◌≡◌, ◌↔◌, ◌+◌, ◌-◌, ◌^◌, ◌<◌, ◌≤◌, IsTrue, OnErr, IfOk};
ghost use Rattle.hw_space.specs.Proper.{IsProper};
ghost use Rattle.hw_space.specs.Settled.{IsVoid};
ghost use Rattle.hw_space.specs.Steps.{IsBoxStep};
ghost use Rattle.hw_space.specs.WholeTimes.{HasWholeTime, HasNoneFrom, size_of_span, time_of_span};

use crate::narrowing::whole_from_to;
use crate::param_box::ParamBox;
use crate::quantity::Quantity;
use crate::settle::narrow_part;
use pcm_interval::Empty;

/// A stretch of frames that has a size and a time.
#[derive(Clone, Copy)]
pub enum Span {
    Period,
    Buffer,
}

impl Span {
    /// Its size in frames.
    fn size(self) -> Quantity
        ensures { result ≡ size_of_span self }
    {
        match self {
            Span::Period => Quantity::PeriodSize,
            Span::Buffer => Quantity::BufferSize,
        }
    }

    /// Its time in microseconds.
    fn time(self) -> Quantity
        ensures { result ≡ time_of_span self }
    {
        match self {
            Span::Period => Quantity::PeriodTime,
            Span::Buffer => Quantity::BufferTime,
        }
    }
}

/// Narrows the size of a span to those whose time is whole, where the time is and there is one rate: from the least to
/// the greatest of them, or to nothing where there is none. `Ok(true)` says that it changed.
///
/// The rules between size and time find these sizes too, but they pass by the others one at a time, up to 16384 of
/// them, and each takes a pass over all rules.
pub fn refine_whole_time(ranges: &mut ParamBox, span: Span) -> Result<bool, Empty>
    requires { IsProper ranges.old }
    ensures step { IfOk result (IsBoxStep ranges.old ranges.new) }
    ensures empty { OnErr result (IsVoid ranges.old) }
{
    let rate = ranges.rate;
    let time = ranges.part(span.time());
    if !time.integer || rate.min < rate.max {
        return Ok(false);
    }
    let size = ranges.part(span.size());
    let least = first_whole(size.min, size.max, rate.min);
    let greatest = last_whole(least, size.max, rate.min);
    let sizes = whole_from_to(least, greatest);
    let changed = narrow_part(ranges, span.size(), &sizes)?;
    Ok(changed)
}

/// The first size from `least` up to `most` whose time is whole, or `most + 1`.
fn first_whole(least: u32, most: u32, rate: u32) -> u32
    requires rate { 1 ≤ rate }
    requires least { 1 ≤ least }
    requires most { most + 1 < 2 ^ 32 }
    ensures positive { 1 ≤ result }
    ensures none { HasNoneFrom rate least result }
{
    for size in least..most + 1 {
        if has_whole_time(size, rate) {
            return size;
        }
    }
    most + 1
}

/// The last size from `most` down to `least` whose time is whole, or a lower one.
fn last_whole(least: u32, most: u32, rate: u32) -> u32
    requires rate { 1 ≤ rate }
    requires least { 1 ≤ least }
    requires most { most + 1 < 2 ^ 32 }
    ensures { HasNoneFrom rate (result + 1) (most + 1) }
{
    let mut size = most;
    while size >= least && !has_whole_time(size, rate) {
        size -= 1;
    }
    size
}

/// Whether so many frames take a whole number of microseconds.
fn has_whole_time(size: u32, rate: u32) -> bool
    requires { 1 ≤ rate }
    ensures { IsTrue result ↔ HasWholeTime rate size }
{
    size as u64 * 1000000 % rate as u64 == 0
}
