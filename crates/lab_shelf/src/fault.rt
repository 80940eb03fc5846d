//! Why a call of a shelf or a sink gave no answer.
ghost use Rattle.std.specs.Prelude.{◌≡◌};
ghost use Rattle.lab_shelf.specs.declared.fault.ShelfFault.TheVariants.{Memory};
ghost use Rattle.lab_shelf.specs.Counts.{IsFaultCount, count_after};

use std::alloc::{AllocError, AllocFailed};
use std::fmt;
use thiserror::Error;

/// Why a call of a shelf or a sink failed.
#[derive(Clone, Copy, Debug, PartialEq, Eq, Error)]
pub enum ShelfFault {
    /// The file or stream can't be read or written, or has no such name. The object counts it.
    Failed,
    /// There was no memory for the call.
    Memory,
}

impl fmt::Display for ShelfFault {
    fn fmt<W: fmt::Write>(&self, f: &mut fmt::Formatter<W>) -> fmt::Result {
        let text = match self {
            ShelfFault::Failed => "the file or stream can't be read or written",
            ShelfFault::Memory => "out of memory",
        };
        f.write_str(text)
    }
}

impl From<AllocError> for ShelfFault {
    ghost from_gives = { λ _ fault. fault ≡ Memory };

    fn from(_error: AllocError) -> ShelfFault {
        ShelfFault::Memory
    }
}

impl<T: Drop> From<AllocFailed<T>> for ShelfFault {
    ghost from_gives = { λ _ fault. fault ≡ Memory };

    fn from(_error: AllocFailed<T>) -> ShelfFault {
        ShelfFault::Memory
    }
}

/// Counts a fault where a call failed by one.
pub(crate) fn count_fault<T>(outcome: &Result<T, ShelfFault>, faults: &mut u64)
    ensures after { faults.new ≡ count_after outcome.now faults.old }
    ensures faults { IsFaultCount outcome.now faults.old faults.new }
{
    if let Err(ShelfFault::Failed) = outcome {
        *faults = faults.saturating_add(1);
    }
}
