//! The calls of a reader at its seat, by the state table first, then by their arguments.
ghost use Rattle.std.specs.Prelude.{◌≡◌};
ghost use Rattle.pcm_stream.specs.Status.{refusal_of, refused_by};
ghost use Rattle.pcm_stream.specs.declared.direction.Direction.{Direction};
ghost use Rattle.snoop_table.specs.Readers.{seat_view};
ghost use Rattle.dsnoop_client.specs.View.{CanUse};
ghost use Rattle.dmix_c.specs.ReaderCalls.{ReaderHasMade, ReaderHasSetUp};

use crate::answers::done_of;
use crate::params::{StreamHwParams, StreamSwParams};
use bindings::Bindings;
use dsnoop_client::Reader;
use mix_core::NeverStops;
use pcm_states::Call;
use pcm_stream::{Direction, Status};
use snd_base::{Geometry, PcmError, Why};
use snoop_table::ReaderSeat;
use std::alloc::Global;

/// A call of a reader that passes nothing but the reader.
#[derive(Clone, Copy)]
pub enum ReaderCall {
    HwFree,
    Prepare,
    Start,
    Drop,
    AvailUpdate,
}

/// What a reader is asked: a call, its state, or a call that passes parameters.
#[derive(Clone, Copy)]
pub enum ReaderRequest<'a> {
    Call(ReaderCall),
    HwParams(&'a StreamHwParams, &'a [u32]),
    SwParams(&'a StreamSwParams),
    State,
}

/// Tests whether a reader's state admits a call, before the call's arguments are looked at.
pub(crate) fn admit(reader: &Reader, asked: Call) -> Result<(), PcmError>
    ensures { result ≡ refused_by (refusal_of Direction.Capture reader.now.status asked) }
{
    let status = Status {
        state: reader.state(),
        stopped: reader.is_stopped(),
    };
    status.admit(Direction::Capture, asked)
}

/// Makes a call of a reader at its seat.
pub(crate) fn make_call(
    reader: &mut Reader,
    seat: &mut ReaderSeat<'static>,
    asked: ReaderCall,
) -> Result<u64, PcmError>
    requires { CanUse reader.old (seat_view seat.old) }
    ensures { ReaderHasMade asked seat.old reader.old seat.new reader.new result }
{
    match asked {
        ReaderCall::HwFree => done_of(reader.hw_free()),
        ReaderCall::Prepare => done_of(reader.prepare()),
        ReaderCall::Start => done_of(reader.start(seat, &mut NeverStops)),
        ReaderCall::Drop => done_of(reader.drop_pending()),
        ReaderCall::AvailUpdate => reader.avail_update(seat, &mut NeverStops),
    }
}

/// Sets a reader up with hardware parameters, each of its channels bound to the channel of the card that a list has for it.
/// The ring of this geometry has a rate, which the reader's has to be.
pub(crate) fn set_up(
    reader: &mut Reader,
    alloc: Global,
    geometry: Geometry,
    rate: u32,
    params: &StreamHwParams,
    list: &[u32],
) -> Result<u64, PcmError>
    requires { geometry ≡ reader.old.geometry }
    ensures { ReaderHasSetUp geometry rate params.now list.now reader.old reader.new result }
{
    admit(reader, Call::HwParams)?;
    let bindings = match Bindings::read(list, geometry.channels) {
        Ok(bindings) => bindings,
        Err(why) => return Err(PcmError::Invalid(why)),
    };
    if !params.can_configure(rate, bindings.len()) {
        return Err(PcmError::Invalid(Why::Config));
    }
    let config = params.config(rate, bindings.len());
    done_of(reader.hw_params(alloc, config, bindings))
}
