//! Seats of one ring.
ghost use Rattle.std.specs.Prelude.{◌≡◌, ◌≤◌, IfOk};
ghost use Rattle.sum_table.specs.Rings.{GaveNone, key_of_ring};
ghost use Rattle.sum_table.specs.Seats.{IsLaterSeat};

mod between;
mod threads;

use mix_core::{MixPort, NeverStops, Placed};
use snd_base::{Geometry, PcmError};
use std::alloc::Global;
use sum_table::{MixSeat, PlayerSeat, SumRing};

// A ring of 64 frames from lap 0 on.
fn new_ring(alloc: Global, channels: u8, places: u32) -> Result<SumRing, PcmError>
    requires one { 1 ≤ channels }
    requires most { channels ≤ 8 }
    requires least { 1 ≤ places }
    requires few { places ≤ 64 }
    ensures gave_none { IfOk result (λ ring. GaveNone ring) }
    ensures places { IfOk result (λ ring. (key_of_ring ring).places ≡ places) }
{
    let geometry = Geometry {
        frames: 64,
        channels,
        first_lap: 0,
    };
    SumRing::new(alloc, geometry, places)
}

// Places a sample where the seat may, as seen at run time, and does nothing elsewhere.
#[tactic(auto, using(sum_table::proofs::Going::stays))]
pub(super) fn try_place(
    seat: &mut MixSeat<'_>,
    frame: u64,
    channel: u8,
    sample: i16,
) -> Option<Placed>
    ensures { IsLaterSeat seat.old seat.new }
{
    let geometry = seat.geometry();
    if !seat.can_add() || channel >= geometry.channels || geometry.lap(frame) >= 4294967295 {
        return None;
    }
    let ahead = seat.seen() + geometry.frames as u64;
    if frame < seat.cursor().first_free(channel) || frame >= ahead {
        return None;
    }
    seat.place(&mut NeverStops, frame, channel, sample).ok()
}
