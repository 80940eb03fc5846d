//! Two seats of one ring, each in a thread of its own.
ghost use Rattle.std.specs.Prelude.{◌≡◌, ◌+ℤ◌, IfOk, OnOk};
ghost use Rattle.lap_word.specs.Clamp.{clamp_of};
ghost use Rattle.sum_table.specs.Seats.{IsLaterSeat};
ghost use Rattle.examples.specs.FirstWord.{CanPlaceFirst, HasPlacedFirst};

use mix_core::{MixPort, NeverStops, Placed};
use snd_base::{Geometry, PcmError, XrunWhy};
use std::alloc::Global;
use std::thread::{Threads, join_mut};
use sum_table::{MixSeat, SumRing};

/// A mono ring of 64 frames.
const RING: Geometry = Geometry {
    frames: 64,
    channels: 1,
    first_lap: 0,
};

/// Two threads place a sample each in the first frame of a ring, and then the player takes it: the answer is the saturated sum
/// of both samples, whichever thread comes first.
///
/// `Xrun` is answered where a sample came too late, and `Memory` where no memory is left. It isn't said here that no sample
/// comes too late, though none does: the player takes nothing before both threads have ended.
pub fn sum_in_threads<R: Threads + Sync>(
    rt: &R,
    alloc: Global,
    first: i16,
    second: i16,
) -> Result<i16, PcmError>
    ensures sum { IfOk result (λ value. value ≡ clamp_of (first +ℤ second)) }
{
    let mut ring = SumRing::new(alloc, RING, 2)?;
    let (mut player, mut left) = ring.seats();
    let mut right = left.split(1, 1);
    let (one, two) = place_both(rt, &mut left, &mut right, first, second);
    let taken = player.take_word()?;
    left.join(right);
    left.close(player);
    one?;
    two?;
    Ok(taken.value)
}

/// Two seats place a sample each in the ring's first frame, each in a thread; `Ok` says of each that it was in time.
fn place_both<R: Threads + Sync>(
    rt: &R,
    left: &mut MixSeat<'_>,
    right: &mut MixSeat<'_>,
    first: i16,
    second: i16,
) -> (Result<(), PcmError>, Result<(), PcmError>)
    requires left { CanPlaceFirst left.old }
    requires right { CanPlaceFirst right.old }
    ensures left_goes { IsLaterSeat left.old left.new }
    ensures right_goes { IsLaterSeat right.old right.new }
    ensures left { OnOk result.0 (HasPlacedFirst left.old left.new first) }
    ensures right { OnOk result.1 (HasPlacedFirst right.old right.new second) }
{
    join_mut(
        rt,
        &mut || place_first(left, first),
        &mut || place_first(right, second),
    )
}

/// Places a sample in the ring's first frame, where the seat may; `Ok` says that it was in time.
fn place_first(seat: &mut MixSeat<'_>, sample: i16) -> Result<(), PcmError>
    requires { CanPlaceFirst seat.old }
    ensures goes { IsLaterSeat seat.old seat.new }
    ensures placed { OnOk result (HasPlacedFirst seat.old seat.new sample) }
{
    match seat.place(&mut NeverStops, 0, 0, sample)? {
        Placed::In => Ok(()),
        Placed::Late { seen } => Err(PcmError::Xrun(XrunWhy::Late {
            frame: 0,
            channel: 0,
            seen,
        })),
    }
}
