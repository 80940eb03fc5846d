//! The numbers of a report: decimal, without leading zeros.
ghost use Rattle.std.specs.Prelude.{◌≡◌, ◌≤◌, IfOk};
ghost use Rattle.lab_report.specs.Causes.{Gives};
ghost use Rattle.lab_report.specs.Words.{next_number, dash_or_number, number_or_dash_at};

use crate::error::ReportWhy;
use crate::words::{space_of, word_of};
use text_words::decimal_of;

/// A number up to a limit after a space, and the rest.
pub fn next_number(most: u64, rest: &[u8]) -> Result<(u64, &[u8]), ReportWhy>
    ensures value { Gives (λ n. (n.0, n.1.now)) result (next_number most rest.now) }
    ensures most { IfOk result (λ n. n.0 ≤ most) }
{
    let rest = space_of(rest)?;
    let (word, rest) = word_of(rest)?;
    match decimal_of(most, word) {
        Some(n) => Ok((n, rest)),
        None => Err(ReportWhy::Number),
    }
}

/// A number, or none, which is written `-`.
fn dash_or_number(word: &[u8]) -> Option<Option<u64>>
    ensures { result ≡ dash_or_number word.now }
{
    if word == b"-".as_slice() {
        return Some(None);
    }
    let n = decimal_of(u64::MAX, word)?;
    Some(Some(n))
}

/// A number or `-`, and the rest.
pub fn number_or_dash_at(rest: &[u8]) -> Result<(Option<u64>, &[u8]), ReportWhy>
    ensures { Gives (λ n. (n.0, n.1.now)) result (number_or_dash_at rest.now) }
{
    let (word, rest) = word_of(rest)?;
    match dash_or_number(word) {
        Some(n) => Ok((n, rest)),
        None => Err(ReportWhy::Word),
    }
}
