//! Refinement: the rules are applied until none changes anything.
ghost use Rattle.std.specs.Prelude.{◌≡◌, ◌≢◌, ◌≤◌, ◌↔◌, false, All, OnOk, OnErr, IfOk};
ghost use Rattle.pcm_interval.specs.Intervals.{refinement, IsEmpty, IsNonEmpty};
ghost use Rattle.pcm_interval.specs.Masks.{common_mask};
ghost use Rattle.hw_space.specs.Boxes.{part};
ghost use Rattle.hw_space.specs.Formats.{bits_of_formats, formats_of_bits};
ghost use Rattle.hw_space.specs.Narrowings.{with_refined};
ghost use Rattle.hw_space.specs.Rules.{IsListed};
ghost use Rattle.hw_space.specs.Settled.{KeepsBox, IsSettled, IsVoid};
ghost use Rattle.hw_space.specs.Proper.{IsProper};
ghost use Rattle.hw_space.specs.Steps.{IsBoxStep};

use crate::formats::{bits_of_formats, formats_of_bits};
use crate::param_box::ParamBox;
use crate::quantity::Quantity;
use crate::rule::{RULES, Rule};
use crate::whole_time::{Span, refine_whole_time};
use pcm_interval::{Empty, Interval, Mask};

/// Refines the interval of one quantity. `Ok(true)` says that it changed.
pub fn narrow_part(
    ranges: &mut ParamBox,
    quantity: Quantity,
    other: &Interval,
) -> Result<bool, Empty>
    ensures ok { OnOk result (ranges.new ≡ with_refined ranges.old quantity other.now) }
    ensures filled { OnOk result (IsNonEmpty (refinement (part ranges.old quantity) other.now)) }
    ensures unchanged { IfOk result (λ changed.
        (changed ≡ false) ↔ (refinement (part ranges.old quantity) other.now
        ≡ part ranges.old quantity)) }
    ensures empty { OnErr result (IsEmpty (refinement (part ranges.old quantity) other.now)) }
    ensures err { OnErr result (ranges.new ≡ ranges.old) }
{
    let mut interval = ranges.part(quantity);
    let changed = interval.refine(other)?;
    ranges.set_part(quantity, interval);
    Ok(changed)
}

/// Applies one rule. `Ok(true)` says that its target changed.
fn apply(ranges: &mut ParamBox, rule: &Rule) -> Result<bool, Empty>
    requires proper { IsProper ranges.old }
    requires listed { IsListed rule.now }
    ensures step { IfOk result (IsBoxStep ranges.old ranges.new) }
    ensures kept { IfOk result (λ changed. changed ≡ false → KeepsBox ranges.old rule.now) }
    ensures empty { OnErr result (IsVoid ranges.old) }
{
    let first = ranges.part(rule.first);
    let second = ranges.part(rule.second);
    let computed = rule.operation.compute(&first, &second);
    let changed = narrow_part(ranges, rule.target, &computed)?;
    Ok(changed)
}

/// Applies each of some rules once. `Ok(true)` says that something changed.
fn round(ranges: &mut ParamBox, rules: &[Rule]) -> Result<bool, Empty>
    requires proper { IsProper ranges.old }
    requires listed { All IsListed rules.now }
    ensures step { IfOk result (IsBoxStep ranges.old ranges.new) }
    ensures kept { IfOk result (λ changed. changed ≡ false → All (KeepsBox ranges.old) rules.now) }
    ensures empty { OnErr result (IsVoid ranges.old) }
{
    let mut changed = false;
    for rule in rules {
        let moved = apply(ranges, rule)?;
        changed |= moved;
    }
    Ok(changed)
}

/// Refines the formats. `Ok(true)` says that the mask changed.
pub fn narrow_format(ranges: &mut ParamBox, other: &Mask) -> Result<bool, Empty>
    ensures ok { OnOk result (ranges.new
        ≡ record ranges.old { format = common_mask ranges.old.format other.now }) }
    ensures filled { OnOk result ((common_mask ranges.old.format other.now).bits ≢ 0) }
    ensures unchanged { IfOk result (λ changed.
        (changed ≡ false) ↔ (common_mask ranges.old.format other.now ≡ ranges.old.format)) }
    ensures empty { OnErr result ((common_mask ranges.old.format other.now).bits ≡ 0) }
    ensures err { OnErr result (ranges.new ≡ ranges.old) }
{
    let mut format = ranges.format;
    let changed = format.refine(other)?;
    ranges.format = format;
    Ok(changed)
}

/// Refines the sample bits with those of the formats. `Ok(true)` says that they changed.
fn refine_sample_bits(ranges: &mut ParamBox) -> Result<bool, Empty>
    requires { IsProper ranges.old }
    ensures step { IfOk result (IsBoxStep ranges.old ranges.new) }
    ensures kept { IfOk result (λ changed. changed ≡ false →
        refinement ranges.old.sample_bits (bits_of_formats ranges.old.format)
        ≡ ranges.old.sample_bits) }
    ensures empty { OnErr result (IsVoid ranges.old) }
{
    let bits = bits_of_formats(&ranges.format);
    let changed = narrow_part(ranges, Quantity::SampleBits, &bits)?;
    Ok(changed)
}

/// Refines the formats with those of the sample bits. `Ok(true)` says that they changed.
fn refine_format(ranges: &mut ParamBox) -> Result<bool, Empty>
    requires { IsProper ranges.old }
    ensures step { IfOk result (IsBoxStep ranges.old ranges.new) }
    ensures kept { IfOk result (λ changed. changed ≡ false →
        common_mask ranges.old.format (formats_of_bits ranges.old.sample_bits)
        ≡ ranges.old.format) }
    ensures empty { OnErr result (IsVoid ranges.old) }
{
    let formats = formats_of_bits(&ranges.sample_bits);
    let changed = narrow_format(ranges, &formats)?;
    Ok(changed)
}

/// Applies every rule once. `Ok(true)` says that something changed.
fn pass(ranges: &mut ParamBox) -> Result<bool, Empty>
    requires { IsProper ranges.old }
    ensures step { IfOk result (IsBoxStep ranges.old ranges.new) }
    ensures settled { IfOk result (λ changed. changed ≡ false → IsSettled ranges.old) }
    ensures empty { OnErr result (IsVoid ranges.old) }
{
    let period = refine_whole_time(ranges, Span::Period)?;
    let buffer = refine_whole_time(ranges, Span::Buffer)?;
    let by_rules = round(ranges, &RULES)?;
    let sample_bits = refine_sample_bits(ranges)?;
    let format = refine_format(ranges)?;
    Ok(period | buffer | by_rules | sample_bits | format)
}

/// Applies the rules until none changes anything. `Ok(true)` says that something changed. In which order they are applied
/// is open: what is left is the greatest settled box, and there is one at most.
///
/// `Empty` comes exactly where no settled box lies within this one; then the box may be narrowed in part.
///
/// The order matters for speed alone, since passes can creep: one rule moves an end by one frame, another takes up the new
/// end and moves it on in the next pass. A size and its time, where the time is whole, would creep past up to 16384 sizes;
/// `refine_whole_time` passes by them at once. The period size and the number of periods creep towards each other where
/// few sizes divide the buffer size, until they meet near its root: some 250 passes at most.
pub fn settle(ranges: &mut ParamBox) -> Result<bool, Empty>
    requires { IsProper ranges.old }
    ensures step { IfOk result (IsBoxStep ranges.old ranges.new) }
    ensures settled { OnOk result (IsSettled ranges.new) }
    ensures empty { OnErr result (IsVoid ranges.old) }
{
    let mut changed = false;
    while pass(ranges)? {
        changed = true;
    }
    Ok(changed)
}
