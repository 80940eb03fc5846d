//! A reader's calls but for opening, setup and status. Each is refused as the state table says (`snd_pcm_state_t`): with -ENODEV
//! in DISCONNECTED, with -EPIPE in XRUN where it counts or reads frames, and else with -EBADFD. It answers -EBADF where the
//! handle isn't a reader's.
//!
//! A call that loads the position answers -ENODEV where the card is gone, and the state is DISCONNECTED then. Where it answers
//! -EPIPE after a load, the state is XRUN.
ghost use Rattle.std.specs.Prelude.{◌≡◌, ⊤};
ghost use Rattle.dmix_c.specs.Handles.{OnReader};
ghost use Rattle.dmix_c.specs.Readers.{ReaderHasCalled, ReaderHasRead, ReaderHasServed};
ghost use Rattle.dmix_c.specs.Stands.{stands_for};
ghost use Rattle.dmix_c.specs.declared.reader_calls.ReaderCall.TheVariants as asked;

mod opening;
mod params;

use crate::answers::{BAD_HANDLE, number_of};
use crate::handle::Handle;
use crate::opened::Opened;
use crate::reader_calls::{ReaderCall, ReaderRequest};
use std::alloc::Global;

fn ask_reader(alloc: Global, reader: &mut Handle, request: ReaderRequest<'_>) -> i64
    ensures { OnReader ⊤ (ReaderHasServed request.entry) (stands_for reader.old)
        (stands_for reader.new) result }
{
    by_handle!(alloc, reader, Reader(recording) => recording.answer(alloc, request))
}

/// Gives the configuration up (`snd_pcm_hw_free`): OPEN, from SETUP or PREPARED. 0.
#[unsafe(no_mangle)]
pub extern "C" fn dmix_c_reader_hw_free(alloc: Global, reader: &mut Handle) -> i64
    ensures { OnReader ⊤ (ReaderHasCalled asked.HwFree) (stands_for reader.old)
        (stands_for reader.new) result }
{
    ask_reader(alloc, reader, ReaderRequest::Call(ReaderCall::HwFree))
}

/// Prepares (`snd_pcm_prepare`): PREPARED, from SETUP, PREPARED or XRUN. 0.
#[unsafe(no_mangle)]
pub extern "C" fn dmix_c_reader_prepare(alloc: Global, reader: &mut Handle) -> i64
    ensures { OnReader ⊤ (ReaderHasCalled asked.Prepare) (stands_for reader.old)
        (stands_for reader.new) result }
{
    ask_reader(alloc, reader, ReaderRequest::Call(ReaderCall::Prepare))
}

/// Starts (`snd_pcm_start`): RUNNING, from PREPARED. The first frame that it reads is the one at the card's position. 0;
/// -ENODEV.
#[unsafe(no_mangle)]
pub extern "C" fn dmix_c_reader_start(alloc: Global, reader: &mut Handle) -> i64
    ensures { OnReader ⊤ (ReaderHasCalled asked.Start) (stands_for reader.old)
        (stands_for reader.new) result }
{
    ask_reader(alloc, reader, ReaderRequest::Call(ReaderCall::Start))
}

/// Stops (`snd_pcm_drop`): SETUP, from every state but OPEN and DISCONNECTED. 0.
#[unsafe(no_mangle)]
pub extern "C" fn dmix_c_reader_drop(alloc: Global, reader: &mut Handle) -> i64
    ensures { OnReader ⊤ (ReaderHasCalled asked.Drop) (stands_for reader.old)
        (stands_for reader.new) result }
{
    ask_reader(alloc, reader, ReaderRequest::Call(ReaderCall::Drop))
}

/// Answers how many frames can be read (`snd_pcm_avail`): in RUNNING after it loaded the card's position, and 0 in PREPARED,
/// where nothing is loaded. -EPIPE where as many are available as the stop threshold says; -ENODEV.
#[unsafe(no_mangle)]
pub extern "C" fn dmix_c_reader_avail_update(alloc: Global, reader: &mut Handle) -> i64
    ensures { OnReader ⊤ (ReaderHasCalled asked.AvailUpdate) (stands_for reader.old)
        (stands_for reader.new) result }
{
    ask_reader(alloc, reader, ReaderRequest::Call(ReaderCall::AvailUpdate))
}

/// Reads interleaved samples, of whole frames (`snd_pcm_readi` of a stream that doesn't wait). In PREPARED a read of as many
/// frames as the start threshold starts the stream.
///
/// The number of frames that were read; -EAGAIN exactly where there is room and no frame was captured since the last one that
/// was read, or the read doesn't start; -EPIPE where the reader is in XRUN, or gets there: as many frames are available as the
/// stop threshold says, or a later frame was stored over one of them; -ENODEV where the card is gone; -EBADFD in another state
/// than PREPARED and RUNNING; -EINVAL where the reader could be read from, and the room isn't of whole frames or is of more than
/// 4,194,304; -EBADF where the handle isn't a reader's, with the samples as they were. After another error the samples are of no
/// use.
#[unsafe(no_mangle)]
pub extern "C" fn dmix_c_reader_readi(alloc: Global, reader: &mut Handle, out: &mut [i16]) -> i64
    ensures { OnReader (out.new ≡ out.old) (ReaderHasRead out.old out.new) (stands_for reader.old)
        (stands_for reader.new) result }
{
    by_handle!(alloc, reader, Reader(recording) => number_of(recording.readi(out)))
}
