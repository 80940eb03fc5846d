//! Why a text is no report.
use std::alloc::{AllocError, AllocFailed};
use std::fmt;
use thiserror::Error;

/// Why a text is no report of a script.
#[derive(Clone, Copy, Debug, PartialEq, Eq, Error)]
pub enum ReportWhy {
    /// A word isn't the one, or one of those, that can be here; or the line ends before it.
    Word,
    /// A word isn't a number in its decimal form, where a number must be.
    Number,
    /// The text ends before a word, a line or a line feed that must follow.
    Ended,
    /// A word follows a line that is whole, or a line follows `end`.
    Extra,
    /// Memory ran out.
    Memory,
}

impl ReportWhy {
    /// Its name, as it is printed.
    fn name(&self) -> &'static str {
        match self {
            ReportWhy::Word => "Word",
            ReportWhy::Number => "Number",
            ReportWhy::Ended => "Ended",
            ReportWhy::Extra => "Extra",
            ReportWhy::Memory => "Memory",
        }
    }
}

impl fmt::Display for ReportWhy {
    fn fmt<W: fmt::Write>(&self, f: &mut fmt::Formatter<W>) -> fmt::Result {
        f.write_str(self.name())
    }
}

/// A refusal of a report: why, and the number of the line that it is about, from 1 on. It is that of
/// the text's last line where the text ends too early, and 0 for an empty text.
#[derive(Clone, Copy, Debug, PartialEq, Eq, Error)]
#[error("line {line}: {why}")]
pub struct ReportError {
    pub line: u32,
    pub why: ReportWhy,
}

impl From<AllocError> for ReportWhy {
    ghost use Rattle.std.specs.Prelude.{◌≡◌};
    ghost use Rattle.lab_report.specs.declared.error.ReportWhy.TheVariants as why;

    ghost from_gives = { λ _ e. e ≡ why.Memory };

    fn from(_error: AllocError) -> ReportWhy {
        ReportWhy::Memory
    }
}

impl<T: Drop> From<AllocFailed<T>> for ReportWhy {
    ghost use Rattle.std.specs.Prelude.{◌≡◌};
    ghost use Rattle.lab_report.specs.declared.error.ReportWhy.TheVariants as why;

    ghost from_gives = { λ _ e. e ≡ why.Memory };

    fn from(_error: AllocFailed<T>) -> ReportWhy {
        ReportWhy::Memory
    }
}
