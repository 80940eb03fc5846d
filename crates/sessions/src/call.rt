//! The call of the program.
use crate::case::{Case, copy_of};
use lab_commands::dmixlab;
use lab_shelf::{MemoryShelf, MemorySink};
use mix_core::NeverStops;
use std::alloc::{AllocError, Global};
use std::marker::Sync;
use std::thread::Threads;

/// What a call leaves.
pub(crate) struct Left {
    pub(crate) status: u8,
    pub(crate) shelf: MemoryShelf,
    pub(crate) out: MemorySink,
    pub(crate) errors: MemorySink,
}

// One call wherever it is let go.
impl Drop for Left {
    fn drop(self) {
        let Left {
            status: _,
            shelf: _,
            out: _,
            errors: _,
        } = self;
    }
}

/// Calls the program as a case says.
pub(crate) fn call<R: Threads + Sync>(
    rt: &R,
    alloc: Global,
    case: &Case,
) -> Result<Left, AllocError> {
    let files = copy_of(alloc, &case.files)?;
    let mut shelf = MemoryShelf::new(files, Vec::from_slice(alloc, &case.shelf_fails)?);
    let mut out = MemorySink::new(alloc, Vec::from_slice(alloc, &case.puts_fail)?);
    let mut errors = MemorySink::new(alloc, Vec::from_slice(alloc, &case.errors_fail)?);
    let mut gates = [NeverStops; 128];
    let status = dmixlab(
        rt,
        alloc,
        &case.words,
        &mut shelf,
        &mut out,
        &mut errors,
        &mut gates,
    );
    Ok(Left {
        status,
        shelf,
        out,
        errors,
    })
}
