//! The calls that C makes. `include/dmixlab.h` declares each of them, and has beside it a function that tests null
//! pointers.

/// A call by what a handle stands for, which is taken from it and put back. A handle that is closed, or stands for something
/// else, is refused.
macro_rules! by_handle {
    ($alloc:expr, $handle:ident, $kind:ident($thing:ident) => $call:expr) => {{
        let Some(mut opened) = $handle.take($alloc) else {
            return BAD_HANDLE;
        };
        let Opened::$kind($thing) = &mut *opened else {
            $handle.put(opened);
            return BAD_HANDLE;
        };
        let answer = $call;
        $handle.put(opened);
        answer
    }};
}

mod card;
mod client;
mod closing;
mod reader;
mod ring;
