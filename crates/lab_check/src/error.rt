//! Why a report isn't that of a run.
use std::alloc::{AllocError, AllocFailed};
use thiserror::Error;

/// Why a report, or a file with what was played or recorded, isn't that of a run.
#[derive(Clone, Copy, Debug, PartialEq, Eq, Error)]
pub enum CheckError {
    /// A test fails, the first that does. `line` is the line of the report that it is about, from 1 on; 0 for a report that
    /// is too long, and for an empty one.
    #[error("no: line {line}")]
    No { line: u32 },
    /// Memory ran out.
    #[error("memory")]
    Memory,
}

impl From<AllocError> for CheckError {
    ghost use Rattle.std.specs.Prelude.{◌≡◌};
    ghost use Rattle.lab_check.specs.declared.error.CheckError.TheVariants.{Memory};

    ghost from_gives = { λ _ e. e ≡ Memory };

    fn from(_error: AllocError) -> CheckError {
        CheckError::Memory
    }
}

impl<T: Drop> From<AllocFailed<T>> for CheckError {
    ghost use Rattle.std.specs.Prelude.{◌≡◌};
    ghost use Rattle.lab_check.specs.declared.error.CheckError.TheVariants.{Memory};

    ghost from_gives = { λ _ e. e ≡ Memory };

    fn from(_error: AllocFailed<T>) -> CheckError {
        CheckError::Memory
    }
}
