//! The way on which a client's seat comes back to its ring once the client is closed, whichever threads do that.
ghost use Rattle.std.specs.Prelude.{◌≡◌, [], ◌∷◌, length, IfErr, IfOk};
ghost use Rattle.rtrb.specs.Ring.{known_free, received, sent};
ghost use Rattle.dmix_c.specs.Ways.{AreNone, IsNewWay};

use rtrb::{Consumer, Producer, Protocol, RingBuffer};
use snd_base::PcmError;
use std::alloc::{AllocError, Global};
use sum_table::MixSeat;

/// All seats that go on a way are of one place: so who takes a seat from it knows whose it is by those that came before.
#[derive(Clone, Copy)]
pub struct OnePlace;

impl Protocol<MixSeat<'static>> for OnePlace {
    ghost use Rattle.dmix_c.specs.SamePlace.{AreOfPlace};

    ghost allows = { AreOfPlace };
}

/// The end of a way that a client has.
pub(crate) type WayBack = Producer<MixSeat<'static>, Global, OnePlace>;

/// The end of a way that the ring has.
pub(crate) type Arrivals = Consumer<MixSeat<'static>, Global, OnePlace>;

/// A way with room for one seat.
pub(crate) fn new_way(alloc: Global) -> Result<(WayBack, Arrivals), AllocError>
    ensures { IfOk result (λ way. IsNewWay way.0 way.1) }
{
    RingBuffer::with_protocol::<Global, OnePlace>(alloc, 1)
}

/// A seat goes on a new way and is taken from it: so both ends know whose place the way is for.
pub(crate) fn send_once(
    back: &mut WayBack,
    arrivals: &mut Arrivals,
    seat: MixSeat<'static>,
) -> MixSeat<'static>
    requires { IsNewWay back.old arrivals.old }
    ensures seat { result ≡ seat.entry }
    ensures sent { sent back.new ≡ seat.entry ∷ [] }
    ensures received { received arrivals.new ≡ seat.entry ∷ [] }
    ensures free { known_free back.new ≡ 1 }
{
    back.push_reserved(seat);
    arrivals.slots_beside(back);
    let seat = arrivals.pop_known();
    back.slots_beside(arrivals);
    seat
}

/// So many places without a way.
pub(crate) fn no_ways(alloc: Global, places: u32) -> Result<Vec<Option<Arrivals>>, PcmError>
    ensures none { IfOk result (λ ways. AreNone ways.items) }
    ensures count { IfOk result (λ ways. length ways.items ≡ places) }
    ensures only_memory { IfErr result (λ e. e ≡ PcmError.Memory) }
{
    let mut ways = Vec::with_capacity(alloc, places as usize)?;
    for _place in 0..places {
        ways.push(None)?;
    }
    Ok(ways)
}
