//! A handle is closed.
ghost use Rattle.dmix_c.specs.Handles.{Closes};
ghost use Rattle.dmix_c.specs.Stands.{stands_for};

use crate::answers::BAD_HANDLE;
use crate::handle::Handle;
use crate::opened::Kind;
use std::alloc::Global;

/// Closes a handle of a kind. What it stood for is dropped, of which the clause says nothing: it is of the handle alone. The
/// tests see it, by the places that closed clients give back.
pub(crate) fn close(alloc: Global, handle: &mut Handle, kind: Kind) -> i64
    ensures { Closes kind (stands_for handle.old) (stands_for handle.new) result }
{
    let Some(opened) = handle.take(alloc) else {
        return BAD_HANDLE;
    };
    if !opened.is(kind) {
        handle.put(opened);
        return BAD_HANDLE;
    }
    0
}
