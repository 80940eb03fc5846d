//! Products and quotients of intervals.
use crate::words::{Refusal, count, word};
use pcm_interval::{Interval, div, mul, muldivk, mulkdiv};
use std::alloc::Global;

/// The interval that the next words are: `[MIN,MAX]`, with a round bracket where an end is open, and `integer` behind it
/// where only whole numbers are meant.
fn interval(rest: &mut &str) -> Result<Interval, Refusal> {
    let (begin, end) = word(rest).split_once(',').ok_or("an interval is expected")?;
    let (openmin, mut min) = match begin.strip_prefix("(") {
        Some(min) => (true, min),
        None => (false, begin.strip_prefix("[").unwrap_or(begin)),
    };
    let (openmax, mut max) = match end.strip_suffix(")") {
        Some(max) => (true, max),
        None => (false, end.strip_suffix("]").unwrap_or(end)),
    };
    let (min, max) = (count(&mut min)?, count(&mut max)?);
    let integer = rest.starts_with("integer");
    if integer {
        word(rest);
    }
    Ok(Interval {
        min,
        max,
        openmin,
        openmax,
        integer,
    })
}

/// `mul A B`, `div A B`, `muldivk A B K` and `mulkdiv A B K`.
pub(crate) fn combined(alloc: Global, verb: &str, line: &str) -> Result<String, Refusal> {
    let mut rest = line;
    let a = interval(&mut rest)?;
    let b = interval(&mut rest)?;
    let k = if rest.is_empty() {
        1
    } else {
        count(&mut rest)?
    };
    if a.min < 1 || b.min < 1 || k < 1 || a.is_empty() || b.is_empty() {
        return Err("an interval without a number, or with 0".into());
    }
    let combined = match verb {
        "mul" => mul(&a, &b),
        "div" => div(&a, &b),
        "muldivk" => muldivk(&a, &b, k),
        "mulkdiv" => mulkdiv(&a, k, &b),
        _ => return Err("a word that isn't known".into()),
    };
    let begin = if combined.openmin { "(" } else { "[" };
    let end = if combined.openmax { ")" } else { "]" };
    let integer = if combined.integer { " integer" } else { "" };
    let (min, max) = (combined.min, combined.max);
    Ok(format!(in alloc; "{begin}{min},{max}{end}{integer}")?)
}
