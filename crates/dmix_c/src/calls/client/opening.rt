//! Clients are opened and closed.
ghost use Rattle.std.specs.Prelude.{◌≡◌, None, Some};
ghost use Rattle.dmix_c.specs.Handles.{Closes, OpensAt, OpensBy, OpensClient};
ghost use Rattle.dmix_c.specs.Stands.{stands_for};
ghost use Rattle.dmix_c.specs.declared.opened.Kind.TheVariants as kind;

use crate::answers::{BAD_HANDLE, HANDLE_IN_USE, error_number};
use crate::calls::closing::close;
use crate::handle::Handle;
use crate::open_ring::OpenRing;
use crate::opened::{Kind, Opened};
use snd_base::PcmError;
use std::alloc::Global;

/// Opens a client in OPEN at the lowest place of a ring that is free and silent (`snd_pcm_open`), by a handle that is
/// closed.
///
/// 0; -EBUSY where the client's handle is open; -EBADF where the other isn't a ring's; -EAGAIN only where no place is free and
/// silent now; -ENOMEM, which may come there too. After an error the client's handle is as it was.
#[unsafe(no_mangle)]
pub extern "C" fn dmix_c_client_open(alloc: Global, client: &mut Handle, ring: &mut Handle) -> i64
    ensures { OpensClient (stands_for client.old) (stands_for ring.old) (stands_for client.new)
        (stands_for ring.new) result }
{
    if client.is_open() {
        return HANDLE_IN_USE;
    }
    by_handle!(alloc, ring, Ring(places) => open_at(alloc, client, places))
}

fn open_at(alloc: Global, client: &mut Handle, ring: &mut OpenRing) -> i64
    requires { stands_for client.old ≡ None }
    ensures { OpensAt ring.old ring.new (stands_for client.new) result }
{
    let playback = match ring.open_client(alloc) {
        Ok(playback) => playback,
        Err(error) => return error_number(&error),
    };
    // Where there is no memory for the box, the client ends, and its seat goes back.
    let Ok(opened) = Box::new(alloc, Opened::Client(playback)) else {
        return error_number(&PcmError::Memory);
    };
    client.put(opened);
    0
}

/// Closes a client (`snd_pcm_close`). What is pending is discarded, and what it placed is played. Its place goes back to
/// its own ring, which gives it again once it is silent.
///
/// 0, and the handle is closed; -EBADF where it isn't a client's.
#[unsafe(no_mangle)]
pub extern "C" fn dmix_c_client_close(alloc: Global, client: &mut Handle) -> i64
    ensures { Closes kind.Client (stands_for client.old) (stands_for client.new) result }
{
    close(alloc, client, Kind::Client)
}
