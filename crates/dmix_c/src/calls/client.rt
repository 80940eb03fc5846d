//! A client's calls but for opening, setup and status. Each is refused as the state table says (`snd_pcm_state_t`): with -ENODEV
//! in DISCONNECTED, with -EPIPE in XRUN where it counts, writes or takes back frames, and else with -EBADFD. It answers -EBADF
//! where the handle isn't a client's.
//!
//! A call that loads the position answers -ENODEV where the card is gone, and the state is DISCONNECTED then. Where it answers
//! -EPIPE after a load, the state is XRUN.
ghost use Rattle.std.specs.Prelude.{◌≡◌, ⊤};
ghost use Rattle.dmix_c.specs.Clients.{HasCalled, HasServed, HasWritten};
ghost use Rattle.dmix_c.specs.Handles.{OnClient};
ghost use Rattle.dmix_c.specs.Stands.{stands_for};
ghost use Rattle.dmix_c.specs.ClientCalls.{pause_of};
ghost use Rattle.dmix_c.specs.declared.client_calls.ClientCall.TheVariants as asked;

mod opening;
mod params;

use crate::answers::BAD_HANDLE;
use crate::client_calls::{ClientCall, ClientRequest};
use crate::handle::Handle;
use crate::opened::Opened;
use std::alloc::Global;

fn ask_client(alloc: Global, client: &mut Handle, request: ClientRequest<'_>) -> i64
    ensures { OnClient ⊤ (HasServed request.entry) (stands_for client.old) (stands_for client.new)
        result }
{
    by_handle!(alloc, client, Client(playback) => playback.answer(alloc, request))
}

/// Gives the configuration up (`snd_pcm_hw_free`): OPEN, from SETUP or PREPARED. 0.
#[unsafe(no_mangle)]
pub extern "C" fn dmix_c_hw_free(alloc: Global, client: &mut Handle) -> i64
    ensures { OnClient ⊤ (HasCalled asked.HwFree) (stands_for client.old)
        (stands_for client.new) result }
{
    ask_client(alloc, client, ClientRequest::Call(ClientCall::HwFree))
}

/// Prepares (`snd_pcm_prepare`): PREPARED, from SETUP, PREPARED or XRUN. What is pending is discarded. 0.
#[unsafe(no_mangle)]
pub extern "C" fn dmix_c_prepare(alloc: Global, client: &mut Handle) -> i64
    ensures { OnClient ⊤ (HasCalled asked.Prepare) (stands_for client.old)
        (stands_for client.new) result }
{
    ask_client(alloc, client, ClientRequest::Call(ClientCall::Prepare))
}

/// Starts (`snd_pcm_start`): RUNNING, from PREPARED, one period of the ring past the card's position, or at the first frame
/// that its seat can still add to, where that is later. 0; -EPIPE exactly where nothing is written, with nothing loaded, or a
/// frame is late; -ENODEV.
#[unsafe(no_mangle)]
pub extern "C" fn dmix_c_start(alloc: Global, client: &mut Handle) -> i64
    ensures { OnClient ⊤ (HasCalled asked.Start) (stands_for client.old)
        (stands_for client.new) result }
{
    ask_client(alloc, client, ClientRequest::Call(ClientCall::Start))
}

/// Stops (`snd_pcm_drop`): SETUP, from every state but OPEN and DISCONNECTED. What is pending is discarded; unlike ALSA's
/// it leaves what was placed. 0.
#[unsafe(no_mangle)]
pub extern "C" fn dmix_c_drop(alloc: Global, client: &mut Handle) -> i64
    ensures { OnClient ⊤ (HasCalled asked.Drop) (stands_for client.old)
        (stands_for client.new) result }
{
    ask_client(alloc, client, ClientRequest::Call(ClientCall::Drop))
}

/// Plays what is written, and then stops (`snd_pcm_drain` of a stream that doesn't wait). 0 where all is played and the
/// state is SETUP; -EAGAIN exactly where it is DRAINING afterwards: the call is made again; -EPIPE where a frame is late;
/// -ENODEV. In SETUP, in XRUN, and in PREPARED where nothing is written, nothing is loaded.
#[unsafe(no_mangle)]
pub extern "C" fn dmix_c_drain(alloc: Global, client: &mut Handle) -> i64
    ensures { OnClient ⊤ (HasCalled asked.Drain) (stands_for client.old)
        (stands_for client.new) result }
{
    ask_client(alloc, client, ClientRequest::Call(ClientCall::Drain))
}

/// Pauses a client in RUNNING, or resumes it in PAUSED (`snd_pcm_pause`). What was placed is played; what is pending begins
/// anew where it is resumed, as at a start. 0; of a resume -EPIPE where a frame is late, and -ENODEV. A pause loads nothing, nor
/// does a resume where nothing is pending, which leads to PREPARED.
#[unsafe(no_mangle)]
pub extern "C" fn dmix_c_pause(alloc: Global, client: &mut Handle, enable: bool) -> i64
    ensures { OnClient ⊤ (HasCalled (pause_of enable)) (stands_for client.old)
        (stands_for client.new) result }
{
    ask_client(alloc, client, ClientRequest::Call(pause_of(enable)))
}

fn pause_of(enable: bool) -> ClientCall
    ensures { result ≡ pause_of enable }
{
    if enable {
        ClientCall::Pause
    } else {
        ClientCall::Resume
    }
}

/// Answers how many frames a write can take (`snd_pcm_avail`), which may be more than the buffer has. In RUNNING and DRAINING
/// it loads the position first, and places what is pending; where all is played in DRAINING, the state is SETUP then. In
/// PREPARED and PAUSED nothing is loaded or placed. -EPIPE where in RUNNING as many frames are available as the stop threshold
/// says, or a frame is late; -ENODEV.
#[unsafe(no_mangle)]
pub extern "C" fn dmix_c_avail_update(alloc: Global, client: &mut Handle) -> i64
    ensures { OnClient ⊤ (HasCalled asked.AvailUpdate) (stands_for client.old)
        (stands_for client.new) result }
{
    ask_client(alloc, client, ClientRequest::Call(ClientCall::AvailUpdate))
}

/// Answers how many frames are played before the one that is written next (`snd_pcm_delay`). It loads, places and fails as
/// `dmix_c_avail_update` does.
#[unsafe(no_mangle)]
pub extern "C" fn dmix_c_delay(alloc: Global, client: &mut Handle) -> i64
    ensures { OnClient ⊤ (HasCalled asked.Delay) (stands_for client.old)
        (stands_for client.new) result }
{
    ask_client(alloc, client, ClientRequest::Call(ClientCall::Delay))
}

/// Answers how many of the last frames `dmix_c_rewind` would take back (`snd_pcm_rewindable`): those that are pending, and the
/// placed ones that are at or past the position, but for those that stand where others were taken back before. In RUNNING it
/// loads the position first, and places nothing; in PREPARED these are all that is written. -EPIPE where as many frames are
/// available as the stop threshold says; -ENODEV.
#[unsafe(no_mangle)]
pub extern "C" fn dmix_c_rewindable(alloc: Global, client: &mut Handle) -> i64
    ensures { OnClient ⊤ (HasCalled asked.Rewindable) (stands_for client.old)
        (stands_for client.new) result }
{
    ask_client(alloc, client, ClientRequest::Call(ClientCall::Rewindable))
}

/// Takes back the last frames, as many as are asked for or as `dmix_c_rewindable` would answer, and answers how many
/// (`snd_pcm_rewind`). The next write continues where they began. -EPIPE as of `dmix_c_rewindable`, or where one was played
/// before: what was taken back before it stays so; -ENODEV.
#[unsafe(no_mangle)]
pub extern "C" fn dmix_c_rewind(alloc: Global, client: &mut Handle, frames: u64) -> i64
    ensures { OnClient ⊤ (HasCalled (asked.Rewind frames)) (stands_for client.old)
        (stands_for client.new) result }
{
    let call = ClientCall::Rewind(frames);
    ask_client(alloc, client, ClientRequest::Call(call))
}

/// Writes interleaved samples, of whole frames (`snd_pcm_writei` of a stream that doesn't wait).
///
/// The number of frames that were taken; -EAGAIN exactly where there are frames to write and a running client has no room;
/// -EPIPE where the client is in XRUN, or gets there: an underrun, or a frame that came too late; -ENODEV where the card is
/// gone; -EBADFD in another state than PREPARED and RUNNING; -EINVAL where the client could be written to, and the samples are
/// no whole frames or more than 4,194,304 of them, or 2 to the power 63 frames were taken before; -EBADF where the handle isn't
/// a client's. A prepared client that is full takes 0.
#[unsafe(no_mangle)]
pub extern "C" fn dmix_c_writei(alloc: Global, client: &mut Handle, samples: &[i16]) -> i64
    ensures { OnClient ⊤ (HasWritten samples.now) (stands_for client.old) (stands_for client.new)
        result }
{
    ask_client(alloc, client, ClientRequest::Write(samples))
}
