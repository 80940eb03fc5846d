//! The text of what a parameter may still be.
ghost use Rattle.std.specs.Prelude.{◌≡◌, ◌<◌, ◌++◌, string_bytes, OnOk};
ghost use Rattle.lab_refine.specs.Values.{has_member, integer_mark, interval_text, lower_mark, mask_text, next_number, upper_mark};

use pcm_interval::{Interval, Mask};
use std::alloc::AllocError;

/// The mark of a lower end.
fn lower_mark(is_open: bool) -> &'static str
    ensures { result.now ≡ lower_mark is_open }
{
    if is_open { "(" } else { "[" }
}

/// The mark of an upper end.
fn upper_mark(is_open: bool) -> &'static str
    ensures { result.now ≡ upper_mark is_open }
{
    if is_open { ")" } else { "]" }
}

/// The word for whole numbers alone, after a space.
fn integer_mark(is_integer: bool) -> &'static str
    ensures { result.now ≡ integer_mark is_integer }
{
    if is_integer { " integer" } else { "" }
}

/// Appends an interval: its ends between marks, `[` and `]` or, where they are open, `(` and `)`, and
/// whether it has whole numbers alone.
pub(crate) fn push_interval(text: &mut String, interval: &Interval) -> Result<(), AllocError>
    ensures { OnOk result
        (string_bytes text.new ≡ string_bytes text.old ++ interval_text interval.now) }
{
    let lower = lower_mark(interval.openmin);
    let min = interval.min;
    let max = interval.max;
    let upper = upper_mark(interval.openmax);
    let integer = integer_mark(interval.integer);
    write!(text, "{lower}{min},{max}")?;
    write!(text, "{upper}{integer}")
}

/// Whether a number is a member of a mask.
fn has_member(mask: &Mask, number: u32) -> bool
    requires { number < 64 }
    ensures { result ≡ has_member mask.now number }
{
    (mask.bits >> number) % 2 == 1
}

/// Appends a number, after a comma unless it is the first.
fn push_number(text: &mut String, first: bool, number: u32) -> Result<(), AllocError>
    ensures { OnOk result
        (string_bytes text.new ≡ string_bytes text.old ++ next_number first number) }
{
    if first {
        write!(text, "{number}")
    } else {
        write!(text, ",{number}")
    }
}

/// Appends the members of a mask, rising, a comma between each two.
pub(crate) fn push_mask(text: &mut String, mask: &Mask) -> Result<(), AllocError>
    ensures { OnOk result
        (string_bytes text.new ≡ string_bytes text.old ++ mask_text mask.now) }
{
    let mut first = true;
    for number in 0..64u32 {
        if has_member(mask, number) {
            push_number(text, first, number)?;
            first = false;
        }
    }
    Ok(())
}
