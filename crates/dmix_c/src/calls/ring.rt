//! The calls of a ring.
ghost use Rattle.std.specs.Prelude.{◌≡◌, None};
ghost use Rattle.dmix_c.specs.Handles.{Closes, OpensBoth, OpensDuplex, OpensPair, OpensRing};
ghost use Rattle.dmix_c.specs.Params.{CanOpen};
ghost use Rattle.dmix_c.specs.Stands.{stands_for};
ghost use Rattle.dmix_c.specs.declared.opened.Kind.TheVariants as kind;

use super::closing::close;
use crate::answers::{HANDLE_IN_USE, error_number};
use crate::handle::Handle;
use crate::open_ring::OpenRing;
use crate::opened::{Kind, Opened};
use crate::params::RingParams;
use snd_base::{PcmError, Why};
use std::alloc::Global;

/// Opens a ring and its card, which plays alone, by two handles that are closed.
///
/// 0; -EBUSY where a handle is open; -EINVAL exactly where a ring can't be made of the parameters; -ENOMEM. After an error
/// both handles are as they were.
#[unsafe(no_mangle)]
pub extern "C" fn dmix_c_ring_open(
    alloc: Global,
    ring: &mut Handle,
    card: &mut Handle,
    params: &RingParams,
) -> i64
    ensures { OpensRing params.now (stands_for ring.old) (stands_for card.old)
        (stands_for ring.new) (stands_for card.new) result }
{
    open_pair(alloc, ring, card, params, false)
}

/// Opens a ring that captures too, and its card, by two handles that are closed. The answers are those of `dmix_c_ring_open`.
#[unsafe(no_mangle)]
pub extern "C" fn dmix_c_duplex_open(
    alloc: Global,
    ring: &mut Handle,
    card: &mut Handle,
    params: &RingParams,
) -> i64
    ensures { OpensDuplex params.now (stands_for ring.old) (stands_for card.old)
        (stands_for ring.new) (stands_for card.new) result }
{
    open_pair(alloc, ring, card, params, true)
}

// Opens a ring and its card, which captures too where that is asked.
fn open_pair(
    alloc: Global,
    ring: &mut Handle,
    card: &mut Handle,
    params: &RingParams,
    captures: bool,
) -> i64
    ensures { OpensPair captures params.now (stands_for ring.old) (stands_for card.old)
        (stands_for ring.new) (stands_for card.new) result }
{
    if ring.is_open() || card.is_open() {
        return HANDLE_IN_USE;
    }
    if !params.can_open() {
        return error_number(&PcmError::Invalid(Why::Config));
    }
    open_both(alloc, ring, card, params, captures)
}

// Opens both, of parameters that a ring can have.
fn open_both(
    alloc: Global,
    ring: &mut Handle,
    card: &mut Handle,
    params: &RingParams,
    captures: bool,
) -> i64
    requires can { CanOpen params.now }
    requires ring { stands_for ring.old ≡ None }
    requires card { stands_for card.old ≡ None }
    ensures { OpensBoth captures params.now (stands_for ring.new) (stands_for card.new) result }
{
    let Ok((places, player)) = OpenRing::open(alloc, params, captures) else {
        return error_number(&PcmError::Memory);
    };
    let Ok(player) = Box::new(alloc, player) else {
        return error_number(&PcmError::Memory);
    };
    let Ok(places) = Box::new(alloc, Opened::Ring(places)) else {
        return error_number(&PcmError::Memory);
    };
    ring.put(places);
    card.put(player);
    0
}

/// Closes a ring. Its clients, its readers and its card go on; none can be opened any more.
///
/// 0, and the handle is closed; -EBADF where it isn't a ring's.
#[unsafe(no_mangle)]
pub extern "C" fn dmix_c_ring_free(alloc: Global, ring: &mut Handle) -> i64
    ensures { Closes kind.Ring (stands_for ring.old) (stands_for ring.new) result }
{
    close(alloc, ring, Kind::Ring)
}
