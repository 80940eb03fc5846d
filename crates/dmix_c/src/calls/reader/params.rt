//! A reader is set up, and tells what it is.
ghost use Rattle.std.specs.Prelude.{◌≡◌, ⊤};
ghost use Rattle.dmix_c.specs.Handles.{OnReader};
ghost use Rattle.dmix_c.specs.Params.{first_channels};
ghost use Rattle.dmix_c.specs.Readers.{ReaderHasHwParams, ReaderHasState, ReaderHasStatus, ReaderHasSwParams};
ghost use Rattle.dmix_c.specs.Stands.{stands_for};

use super::ask_reader;
use crate::answers::BAD_HANDLE;
use crate::handle::Handle;
use crate::opened::Opened;
use crate::params::{StreamHwParams, StreamStatus, StreamSwParams};
use crate::reader_calls::ReaderRequest;
use std::alloc::Global;

/// Sets the hardware parameters (`snd_pcm_hw_params`), takes the memory of one frame, sets the default software parameters and
/// prepares. Channel i of the reader is the card's channel i.
///
/// The answers are those of `dmix_c_reader_hw_params_bindings`.
#[unsafe(no_mangle)]
pub extern "C" fn dmix_c_reader_hw_params(
    alloc: Global,
    reader: &mut Handle,
    params: &StreamHwParams,
) -> i64
    ensures { OnReader ⊤ (ReaderHasHwParams params.now (first_channels params.now.channels))
        (stands_for reader.old) (stands_for reader.new) result }
{
    let all = [0u32, 1, 2, 3, 4, 5, 6, 7];
    let list = &all[..params.channels.min(8) as usize];
    ask_reader(alloc, reader, ReaderRequest::HwParams(params, list))
}

/// Sets the hardware parameters in the same way. Channel i of the reader is the card's channel `bindings[i]`.
///
/// 0; -EBADFD unless the state is OPEN, SETUP or PREPARED, -ENODEV in DISCONNECTED; -EINVAL exactly where the list of bindings
/// has a defect, or the parameters aren't of as many channels, of the ring's rate, and of periods of at least one frame in a
/// buffer of at most 16,384; -ENOMEM; -EBADF where the handle isn't a reader's. After an error the reader is as it was.
#[unsafe(no_mangle)]
pub extern "C" fn dmix_c_reader_hw_params_bindings(
    alloc: Global,
    reader: &mut Handle,
    params: &StreamHwParams,
    bindings: &[u32],
) -> i64
    ensures { OnReader ⊤ (ReaderHasHwParams params.now bindings.now) (stands_for reader.old)
        (stands_for reader.new) result }
{
    ask_reader(alloc, reader, ReaderRequest::HwParams(params, bindings))
}

/// Sets the software parameters (`snd_pcm_sw_params`).
///
/// 0; -EINVAL exactly where `avail_min` is 0, or a threshold isn't from 1 to the boundary of the buffer; -EBADFD in OPEN,
/// -ENODEV in DISCONNECTED; -EBADF where the handle isn't a reader's. After an error the reader is as it was.
#[unsafe(no_mangle)]
pub extern "C" fn dmix_c_reader_sw_params(
    alloc: Global,
    reader: &mut Handle,
    params: &StreamSwParams,
) -> i64
    ensures { OnReader ⊤ (ReaderHasSwParams params.now) (stands_for reader.old)
        (stands_for reader.new) result }
{
    ask_reader(alloc, reader, ReaderRequest::SwParams(params))
}

/// The state, numbered as `snd_pcm_state_t` (`snd_pcm_state`).
///
/// -EBADF where the handle isn't a reader's.
#[unsafe(no_mangle)]
pub extern "C" fn dmix_c_reader_state(alloc: Global, reader: &mut Handle) -> i64
    ensures { OnReader ⊤ ReaderHasState (stands_for reader.old) (stands_for reader.new) result }
{
    ask_reader(alloc, reader, ReaderRequest::State)
}

/// Syncs as `dmix_c_reader_avail_update` does, by at most one load of the position, and tells what the reader is then
/// (`snd_pcm_status`). What the sync finds shows in the state; both numbers of frames are 0 where it was refused or ended in an
/// error.
///
/// 0; -EBADF where the handle isn't a reader's, with the status as it was.
#[unsafe(no_mangle)]
pub extern "C" fn dmix_c_reader_status(
    alloc: Global,
    reader: &mut Handle,
    status: &mut StreamStatus,
) -> i64
    ensures { OnReader (status.new ≡ status.old) (ReaderHasStatus status.new)
        (stands_for reader.old) (stands_for reader.new) result }
{
    by_handle!(alloc, reader, Reader(recording) => {
        let (told, _) = recording.status();
        *status = told;
        0
    })
}
