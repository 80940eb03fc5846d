//! The calls of a client at its seat, by the state table first, then by their arguments.
ghost use Rattle.std.specs.Prelude.{◌≡◌};
ghost use Rattle.pcm_stream.specs.Status.{refusal_of, refused_by};
ghost use Rattle.pcm_stream.specs.declared.direction.Direction.{Direction};
ghost use Rattle.sum_table.specs.Seats.{seat_view};
ghost use Rattle.dmix_client.specs.Port.{CanUse};
ghost use Rattle.sum_table.specs.declared.seats.mix.MixSeat.{MixSeat};
ghost use Rattle.dmix_c.specs.Backed.{IsBackedSeat};
ghost use Rattle.dmix_c.specs.ClientCalls.{HasMade, HasSetUp};

use crate::answers::done_of;
use crate::params::{StreamHwParams, StreamSwParams};
use bindings::Bindings;
use dmix_client::Client;
use mix_core::NeverStops;
use pcm_states::Call;
use pcm_stream::{Direction, Status};
use snd_base::{Geometry, PcmError, Why};
use std::alloc::Global;
use sum_table::MixSeat;

/// A call of a client that passes no parameters and no samples.
#[derive(Clone, Copy)]
pub enum ClientCall {
    HwFree,
    Prepare,
    Start,
    Drop,
    Drain,
    Pause,
    Resume,
    AvailUpdate,
    Delay,
    Rewindable,
    Rewind(u64),
}

/// What a client is asked: a call, its state, or a call that passes parameters or samples.
#[derive(Clone, Copy)]
pub enum ClientRequest<'a> {
    Call(ClientCall),
    HwParams(&'a StreamHwParams, &'a [u32]),
    SwParams(&'a StreamSwParams),
    State,
    Write(&'a [i16]),
}

/// Tests whether a client's state admits a call, before the call's arguments are looked at.
pub(crate) fn admit(client: &Client, asked: Call) -> Result<(), PcmError>
    ensures { result ≡ refused_by
        (refusal_of Direction.Playback client.now.stream.status asked) }
{
    let status = Status {
        state: client.state(),
        stopped: client.is_stopped(),
    };
    status.admit(Direction::Playback, asked)
}

/// Makes a call of a client at its seat.
pub(crate) fn make_call(
    client: &mut Client,
    seat: &mut MixSeat<'static>,
    asked: ClientCall,
) -> Result<u64, PcmError>
    requires usable { CanUse client.old.stream (seat_view seat.old) }
    requires backed { IsBackedSeat seat.old client.old }
    ensures { HasMade asked seat.old client.old seat.new client.new result }
{
    client.counts_are_sound();
    match asked {
        ClientCall::HwFree => done_of(client.hw_free()),
        ClientCall::Prepare => done_of(client.prepare()),
        ClientCall::Start => done_of(client.start(seat, &mut NeverStops)),
        ClientCall::Drop => done_of(client.drop_pending()),
        ClientCall::Drain => done_of(client.drain(seat, &mut NeverStops)),
        ClientCall::Pause => done_of(client.pause(seat, &mut NeverStops, true)),
        ClientCall::Resume => done_of(client.pause(seat, &mut NeverStops, false)),
        ClientCall::AvailUpdate => client.avail_update(seat, &mut NeverStops),
        ClientCall::Delay => client.delay(seat, &mut NeverStops),
        ClientCall::Rewindable => client.rewindable(seat, &mut NeverStops),
        ClientCall::Rewind(frames) => client.rewind(seat, &mut NeverStops, frames),
    }
}

/// Sets a client up with hardware parameters, each of its channels bound to the channel of the card that a list has for it.
/// The ring of this geometry has a rate, which the client's has to be.
pub(crate) fn set_up(
    client: &mut Client,
    alloc: Global,
    geometry: Geometry,
    rate: u32,
    params: &StreamHwParams,
    list: &[u32],
) -> Result<u64, PcmError>
    requires { geometry ≡ client.old.stream.identity.geometry }
    ensures set_up { HasSetUp geometry rate params.now list.now client.old client.new result }
    ensures backed { (seat : MixSeat) → IsBackedSeat seat client.old
        → IsBackedSeat seat client.new }
{
    admit(client, Call::HwParams)?;
    let bindings = match Bindings::read(list, geometry.channels) {
        Ok(bindings) => bindings,
        Err(why) => return Err(PcmError::Invalid(why)),
    };
    if !params.can_configure(rate, bindings.len()) {
        return Err(PcmError::Invalid(Why::Config));
    }
    let config = params.config(rate, bindings.len());
    done_of(client.hw_params(alloc, config, bindings))
}
