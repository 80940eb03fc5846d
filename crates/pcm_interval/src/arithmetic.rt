//! Arithmetic between intervals: the lower end is made of the ends that make it least and is rounded down, the upper end is
//! made of those that make it greatest and is rounded up. An end is open where it was rounded, or where an end that it was
//! made of is open. An end above 4294967295, once rounded, becomes that number, closed.
//!
//! Every input has a lower end of at least 1 and is not empty.
ghost use Rattle.std.specs.Prelude.{◌≡◌, ℕ, ◌*◌, ◌≤◌, ◌&&◌, min, nat_le};
ghost use Rattle.pcm_interval.specs.Arithmetic.{interval_between, lower_end_of, lower_is_open, upper_end_of, upper_is_open, end_max, product_of, quotient_of, scaled_product_of, scaled_quotient_of};
ghost use Rattle.pcm_interval.specs.Intervals.{IsMember, IsNonEmpty};

use crate::interval::Interval;

/// The greatest number that an end can have.
const END_MAX: u64 = 4294967295;

/// An end before it is rounded: a fraction, and whether an end that it is made of is open.
#[derive(Clone, Copy)]
struct Fraction {
    numerator: u64,
    denominator: u64,
    made_open: bool,
}

/// The product of two intervals, a·b (alsa-lib's `snd_interval_mul`). It is integer where both are.
///
/// Each product of a member of `a` and one of `b` is a member of it, if it is at most 4294967295.
pub fn mul(a: &Interval, b: &Interval) -> Interval
    requires a_min { 1 ≤ a.now.min }
    requires b_min { 1 ≤ b.now.min }
    requires a_filled { IsNonEmpty a.now }
    requires b_filled { IsNonEmpty b.now }
    ensures product { result ≡ product_of a.now b.now }
    ensures members { (n d m e : ℕ) → IsMember a.now n d → IsMember b.now m e
        → n * m ≤ end_max * (d * e) → IsMember result (n * m) (d * e) }
{
    let low = Fraction {
        numerator: product(a.min, b.min),
        denominator: 1,
        made_open: a.openmin | b.openmin,
    };
    let high = Fraction {
        numerator: product(a.max, b.max),
        denominator: 1,
        made_open: a.openmax | b.openmax,
    };
    between(low, high, a.integer & b.integer)
}

/// The quotient of two intervals, a/b (alsa-lib's `snd_interval_div`). It is not integer.
///
/// Each quotient of a member of `a` by one of `b` is a member of it, if it is at most 4294967295.
pub fn div(a: &Interval, b: &Interval) -> Interval
    requires a_min { 1 ≤ a.now.min }
    requires b_min { 1 ≤ b.now.min }
    requires a_filled { IsNonEmpty a.now }
    requires b_filled { IsNonEmpty b.now }
    ensures quotient { result ≡ quotient_of a.now b.now }
    ensures members { (n d m e : ℕ) → IsMember a.now n d → IsMember b.now m e
        → n * e ≤ end_max * (d * m) → IsMember result (n * e) (d * m) }
{
    let low = Fraction {
        numerator: a.min as u64,
        denominator: b.max as u64,
        made_open: a.openmin | b.openmax,
    };
    let high = Fraction {
        numerator: a.max as u64,
        denominator: b.min as u64,
        made_open: a.openmax | b.openmin,
    };
    between(low, high, false)
}

/// The product of two intervals divided by a number of at least 1, a·b/k (alsa-lib's `snd_interval_muldivk`). It is not
/// integer.
///
/// Each such fraction of a member of `a` and one of `b` is a member of it, if it is at most 4294967295.
pub fn muldivk(a: &Interval, b: &Interval, k: u32) -> Interval
    requires a_min { 1 ≤ a.now.min }
    requires b_min { 1 ≤ b.now.min }
    requires k_min { 1 ≤ k }
    requires a_filled { IsNonEmpty a.now }
    requires b_filled { IsNonEmpty b.now }
    ensures scaled { result ≡ scaled_product_of a.now b.now k }
    ensures members { (n d m e : ℕ) → IsMember a.now n d → IsMember b.now m e
        → n * m ≤ end_max * (d * e * k) → IsMember result (n * m) (d * e * k) }
{
    let low = Fraction {
        numerator: product(a.min, b.min),
        denominator: k as u64,
        made_open: a.openmin | b.openmin,
    };
    let high = Fraction {
        numerator: product(a.max, b.max),
        denominator: k as u64,
        made_open: a.openmax | b.openmax,
    };
    between(low, high, false)
}

/// An interval times a number of at least 1, divided by an interval, a·k/b (alsa-lib's `snd_interval_mulkdiv`). It is
/// not integer.
///
/// Each such fraction of a member of `a` and one of `b` is a member of it, if it is at most 4294967295.
pub fn mulkdiv(a: &Interval, k: u32, b: &Interval) -> Interval
    requires a_min { 1 ≤ a.now.min }
    requires b_min { 1 ≤ b.now.min }
    requires k_min { 1 ≤ k }
    requires a_filled { IsNonEmpty a.now }
    requires b_filled { IsNonEmpty b.now }
    ensures scaled { result ≡ scaled_quotient_of a.now k b.now }
    ensures members { (n d m e : ℕ) → IsMember a.now n d → IsMember b.now m e
        → n * k * e ≤ end_max * (d * m) → IsMember result (n * k * e) (d * m) }
{
    let low = Fraction {
        numerator: product(a.min, k),
        denominator: b.max as u64,
        made_open: a.openmin | b.openmax,
    };
    let high = Fraction {
        numerator: product(a.max, k),
        denominator: b.min as u64,
        made_open: a.openmax | b.openmin,
    };
    between(low, high, false)
}

/// The product of two numbers of 32 bits, which fits 64.
fn product(a: u32, b: u32) -> u64
    ensures { result ≡ a * b }
{
    a as u64 * b as u64
}

/// The interval between two fractions, their ends rounded outward.
#[tactic(auto, unfolding(crate::specs::Arithmetic::interval_between))]
fn between(low: Fraction, high: Fraction, integer: bool) -> Interval
    requires low { 1 ≤ low.denominator }
    requires high { 1 ≤ high.denominator }
    ensures { result ≡ interval_between low.numerator low.denominator low.made_open
        high.numerator high.denominator high.made_open integer }
{
    let (min, openmin) = lower_end(low);
    let (max, openmax) = upper_end(high);
    Interval {
        min,
        max,
        openmin,
        openmax,
        integer,
    }
}

/// A fraction as a lower end: rounded down, with whether it is open.
fn lower_end(low: Fraction) -> (u32, bool)
    requires { 1 ≤ low.denominator }
    ensures end { result.0 ≡ lower_end_of low.numerator low.denominator }
    ensures is_open { result.1 ≡ lower_is_open low.numerator low.denominator low.made_open }
{
    let broken = low.numerator % low.denominator > 0;
    clamp_end(low.numerator / low.denominator, low.made_open | broken)
}

/// A fraction as an upper end: rounded up, with whether it is open.
fn upper_end(high: Fraction) -> (u32, bool)
    requires { 1 ≤ high.denominator }
    ensures end { result.0 ≡ upper_end_of high.numerator high.denominator }
    ensures is_open { result.1 ≡ upper_is_open high.numerator high.denominator high.made_open }
{
    let broken = high.numerator % high.denominator > 0;
    let whole = high.numerator / high.denominator + u64::from(broken);
    clamp_end(whole, high.made_open | broken)
}

/// An end with whether it is open. Above the greatest number it becomes that number, closed.
fn clamp_end(end: u64, is_open: bool) -> (u32, bool)
    ensures end { result.0 ≡ min end end_max }
    ensures is_open { result.1 ≡ (nat_le end end_max && is_open) }
{
    if end > END_MAX {
        (u32::MAX, false)
    } else {
        (end as u32, is_open)
    }
}
