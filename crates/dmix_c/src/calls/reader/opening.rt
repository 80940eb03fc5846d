//! Readers are opened and closed.
ghost use Rattle.std.specs.Prelude.{◌≡◌, None, Some};
ghost use Rattle.dmix_c.specs.Handles.{Closes, OpensBy, OpensReader, OpensReaderAt};
ghost use Rattle.dmix_c.specs.Stands.{stands_for};
ghost use Rattle.dmix_c.specs.declared.opened.Kind.TheVariants as kind;

use crate::answers::{BAD_HANDLE, HANDLE_IN_USE, error_number};
use crate::calls::closing::close;
use crate::handle::Handle;
use crate::open_ring::OpenRing;
use crate::opened::{Kind, Opened};
use snd_base::PcmError;
use std::alloc::Global;

/// Opens a reader in OPEN at a ring that captures (`snd_pcm_open` of a stream for capture), by a handle that is closed.
///
/// 0; -EBUSY where the reader's handle is open; -EBADF where the other isn't a ring's; -EIO exactly where the ring captures
/// nothing; -ENOMEM. After an error the reader's handle is as it was.
#[unsafe(no_mangle)]
pub extern "C" fn dmix_c_reader_open(alloc: Global, reader: &mut Handle, ring: &mut Handle) -> i64
    ensures { OpensReader (stands_for reader.old) (stands_for ring.old) (stands_for reader.new)
        (stands_for ring.new) result }
{
    if reader.is_open() {
        return HANDLE_IN_USE;
    }
    by_handle!(alloc, ring, Ring(places) => open_at(alloc, reader, places))
}

fn open_at(alloc: Global, reader: &mut Handle, ring: &mut OpenRing) -> i64
    requires { stands_for reader.old ≡ None }
    ensures { OpensReaderAt ring.old ring.new (stands_for reader.new) result }
{
    let recording = match ring.open_reader(alloc) {
        Ok(recording) => recording,
        Err(error) => return error_number(&error),
    };
    let Ok(opened) = Box::new(alloc, Opened::Reader(recording)) else {
        return error_number(&PcmError::Memory);
    };
    reader.put(opened);
    0
}

/// Closes a reader (`snd_pcm_close`). Frames that it didn't read stay in the ring, for others.
///
/// 0, and the handle is closed; -EBADF where it isn't a reader's.
#[unsafe(no_mangle)]
pub extern "C" fn dmix_c_reader_close(alloc: Global, reader: &mut Handle) -> i64
    ensures { Closes kind.Reader (stands_for reader.old) (stands_for reader.new) result }
{
    close(alloc, reader, Kind::Reader)
}
