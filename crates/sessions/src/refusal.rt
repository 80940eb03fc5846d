//! Why a line can't be read, or a report can't be checked.
use std::alloc::{AllocError, AllocFailed};

/// A reason, for people, or none where memory ran out.
pub(crate) struct Refusal(Option<&'static str>);

impl Drop for Refusal {
    fn drop(self) {
        let Refusal(_) = self;
    }
}

impl Refusal {
    /// The reason.
    pub(crate) fn text(&self) -> &str {
        self.0.unwrap_or("no memory is left")
    }

    /// Whether memory ran out.
    pub(crate) fn is_of_memory(&self) -> bool {
        self.0.is_none()
    }
}

impl From<&'static str> for Refusal {
    fn from(why: &'static str) -> Refusal {
        Refusal(Some(why))
    }
}

impl From<AllocError> for Refusal {
    fn from(_error: AllocError) -> Refusal {
        Refusal(None)
    }
}

impl<T: Drop> From<AllocFailed<T>> for Refusal {
    fn from(_failed: AllocFailed<T>) -> Refusal {
        Refusal(None)
    }
}
