//! Patterns of a report that may be another one each time. A word `?` of a pattern stands for any one word, and its line `...` for any
//! number of lines.
use std::alloc::{AllocError, Global};

/// Whether a line of a pattern is a line of a text.
fn is_line(wanted: &str, line: &str) -> bool {
    let mut words = line.split(' ');
    for wanted in wanted.split(' ') {
        let Some(word) = words.next() else {
            return false;
        };
        if wanted != "?" && wanted != word {
            return false;
        }
    }
    words.next().is_none()
}

/// Goes from the ends of the pattern to which the lines so far lead, to those to which they and a further line lead: `ends[n]` says
/// whether they are the first `n + 1` lines of the pattern.
fn take_line(ends: &mut [bool], pattern: &[&str], is_first: bool, line: &str) {
    let mut was_before = is_first;
    let mut is_before = false;
    for (end, wanted) in ends.iter_mut().zip(pattern) {
        let was_here = *end;
        *end = if *wanted == "..." {
            is_before || was_here
        } else {
            was_before && is_line(wanted, line)
        };
        was_before = was_here;
        is_before = *end;
    }
}

/// The ends to which no line leads: those of the lines `...` with which the pattern begins.
fn first_ends(alloc: Global, pattern: &[&str]) -> Result<Vec<bool>, AllocError> {
    let mut ends = Vec::new(alloc);
    let mut is_before = true;
    for wanted in pattern {
        is_before = is_before && *wanted == "...";
        ends.push(is_before)?;
    }
    Ok(ends)
}

/// The line of the pattern after the last end.
fn next_line<'a>(ends: &[bool], pattern: &[&'a str]) -> &'a str {
    let (mut number, mut next) = (0usize, 0usize);
    for end in ends {
        number = number.wrapping_add(1);
        if *end {
            next = number;
        }
    }
    pattern.get(next).copied().unwrap_or("(no line)")
}

/// The lines of a text.
fn lines_of(alloc: Global, text: &str) -> Result<Vec<&str>, AllocError> {
    let mut lines = Vec::new(alloc);
    for line in text.lines() {
        lines.push(line)?;
    }
    Ok(lines)
}

/// Says at which line a text is other than a pattern, where it is: the ends are those to which no line leads.
fn push_line_difference(
    differences: &mut String,
    ends: &mut [bool],
    pattern: &[&str],
    text: &str,
) -> Result<(), AllocError> {
    let mut number = 0usize;
    for line in text.lines() {
        let next = next_line(ends, pattern);
        take_line(ends, pattern, number == 0, line);
        number = number.wrapping_add(1);
        if !ends.contains(&true) {
            writeln!(differences, "  out: line {number}")?;
            return push_lines(differences, next, line);
        }
    }
    if ends.last() != Some(&true) {
        writeln!(differences, "  out: it ends after line {number}")?;
        return push_lines(differences, next_line(ends, pattern), "(no line)");
    }
    Ok(())
}

/// Appends a line that is wanted, and the one that was found.
pub(crate) fn push_lines(
    differences: &mut String,
    wanted: &str,
    found: &str,
) -> Result<(), AllocError> {
    writeln!(differences, "    wanted: {wanted}\n    found:  {found}")
}

/// Says at which line a text is other than a pattern, where it is.
pub(crate) fn push_pattern_difference(
    alloc: Global,
    differences: &mut String,
    pattern: &str,
    text: &str,
) -> Result<(), AllocError> {
    let pattern = lines_of(alloc, pattern)?;
    let mut ends = first_ends(alloc, &pattern)?;
    push_line_difference(differences, &mut ends, &pattern, text)
}
