//! One lap of a ring: a mix seat places a sample in each word of it, and the player takes each word.
ghost use Rattle.std.specs.Prelude.{◌≡◌, ℕ, ◌+◌, ◌<◌, ◌≤◌, true, IfOk};
ghost use Rattle.snd_base.specs.Places.{IsFrom};
ghost use Rattle.sum_table.specs.Players.{PlayerGoes};
ghost use Rattle.sum_table.specs.Rings.{GaveNone, key_of_ring};
ghost use Rattle.sum_table.specs.Seats.{CanAdd, IsLaterSeat, cursor_of_seat, geometry_of, seen_of};

use mix_core::{MixPort, NeverStops, Placed};
use snd_base::Geometry;
use std::alloc::Global;
use std::io;
use sum_table::{MixSeat, PlayerSeat, SumRing};

/// The frames of the ring, which are those of one lap.
pub(crate) const FRAMES: u32 = 16384;

/// How many laps are timed. The fastest one counts.
pub(crate) const LAPS: u32 = 400;

/// The sample that is placed everywhere: what is taken from the ring is then how many samples were placed.
const SAMPLE: i16 = 1;

/// The nanoseconds of the fastest lap that placed, and of the fastest lap that took.
#[derive(Clone, Copy)]
pub(crate) struct Best {
    pub place: u128,
    pub take: u128,
}

impl Best {
    /// Before the first lap.
    pub(crate) const NONE: Best = Best {
        place: u128::MAX,
        take: u128::MAX,
    };

    /// The better of this and one lap more.
    pub(crate) fn with(self, lap: Best) -> Best {
        Best {
            place: self.place.min(lap.place),
            take: self.take.min(lap.take),
        }
    }
}

/// A ring of one lap's frames. An error comes only where no memory is left.
pub(crate) fn new_ring(alloc: Global, channels: u8, places: u32) -> io::Result<SumRing>
    requires one { 1 ≤ channels }
    requires most { channels ≤ 8 }
    requires least { 1 ≤ places }
    requires few { places ≤ 64 }
    ensures gave_none { IfOk result (λ ring. GaveNone ring) }
    ensures channels { IfOk result (λ ring. (key_of_ring ring).geometry.channels ≡ channels) }
    ensures places { IfOk result (λ ring. (key_of_ring ring).places ≡ places) }
{
    let geometry = Geometry {
        frames: FRAMES,
        channels,
        first_lap: 0,
    };
    match SumRing::new(alloc, geometry, places) {
        Ok(ring) => Ok(ring),
        Err(_) => Err(io::ErrorKind::OutOfMemory.into()),
    }
}

/// Places the sample at a frame and channel, and answers how many were placed: 1, or 0 where it was late.
#[inline(always)]
fn lay_word(seat: &mut MixSeat<'_>, frame: u64, channel: u8) -> u64
    requires can_add { CanAdd seat.old }
    requires channel { channel < (geometry_of seat.old).channels }
    requires from_cursor { IsFrom (cursor_of_seat seat.old) frame channel }
    requires ahead { frame < seen_of seat.old + (geometry_of seat.old).frames }
    ensures goes { IsLaterSeat seat.old seat.new }
    ensures seen { seen_of seat.new ≡ seen_of seat.old }
    ensures next_channels { (c : ℕ) → channel < c → c < (geometry_of seat.old).channels
        → IsFrom (cursor_of_seat seat.new) frame c }
    ensures next_frame { IsFrom (cursor_of_seat seat.new) (frame + 1) 0 }
    ensures one { result ≤ 1 }
{
    match seat.place(&mut NeverStops, frame, channel, SAMPLE) {
        Ok(Placed::In) => 1,
        _ => 0,
    }
}

/// Places the sample in each channel of a frame, and answers how many were placed.
#[inline(always)]
fn lay_frame(seat: &mut MixSeat<'_>, frame: u64, channels: u8) -> u64
    requires channels { channels ≡ (geometry_of seat.old).channels }
    requires can_add { CanAdd seat.old }
    requires from_cursor { IsFrom (cursor_of_seat seat.old) frame 0 }
    requires ahead { frame < seen_of seat.old + (geometry_of seat.old).frames }
    ensures goes { IsLaterSeat seat.old seat.new }
    ensures seen { seen_of seat.new ≡ seen_of seat.old }
    ensures next_frame { IsFrom (cursor_of_seat seat.new) (frame + 1) 0 }
    ensures few { result ≤ 8 }
{
    let mut laid: u64 = 0;
    for channel in 0..channels {
        laid += lay_word(seat, frame, channel);
    }
    laid
}

/// Whether a seat may place in all frames from `first` up to `end`, as seen at run time.
fn can_lay(seat: &MixSeat<'_>, first: u64, end: u64) -> bool
    ensures can_add { result ≡ true → CanAdd seat.now }
    ensures from_cursor { result ≡ true → IsFrom (cursor_of_seat seat.now) first 0 }
    ensures ahead { result ≡ true → end ≤ seen_of seat.now + (geometry_of seat.now).frames }
{
    let ahead = seat.seen() + seat.geometry().frames as u64;
    seat.can_add() && seat.cursor().first_free(0) <= first && end <= ahead
}

/// Places the sample in each channel of `count` frames, of which the first one is `offset` frames past the position that the
/// seat has seen, and answers how many samples were placed: 0 where the seat may not place in all of them.
#[inline(always)]
pub(crate) fn lay(seat: &mut MixSeat<'_>, offset: u32, count: u32) -> u64
    ensures { IsLaterSeat seat.old seat.new }
{
    let first = seat.seen() + offset as u64;
    let end = first + count as u64;
    if !can_lay(seat, first, end) {
        return 0;
    }
    let channels = seat.geometry().channels;
    let mut laid: u64 = 0;
    for frame in first..end {
        laid += lay_frame(seat, frame, channels);
    }
    laid
}

/// Takes the next word, and answers its value without the sign: 0 where the ring has no more.
#[tactic(auto, using(crate::proofs::Going::player_stays, crate::proofs::Going::player_same))]
fn take_value(player: &mut PlayerSeat<'_>) -> u16
    ensures { PlayerGoes player.old player.new }
{
    match player.take_word() {
        Ok(taken) => taken.value.unsigned_abs(),
        Err(_) => 0,
    }
}

/// Takes `words` words, publishes the position, and answers the sum of all that was taken. It is a function of its own in the
/// machine code too, as in C.
#[tactic(auto, using(crate::proofs::Going::player_stays, crate::proofs::Going::player_goes_on))]
#[inline(never)]
pub(crate) fn play(player: &mut PlayerSeat<'_>, words: u64) -> u64
    ensures { PlayerGoes player.old player.new }
{
    let mut sum: u64 = 0;
    for _ in 0..words {
        sum = sum.saturating_add(take_value(player) as u64);
    }
    player.publish();
    sum
}

/// The error where what was placed or taken isn't what was asked for.
pub(crate) fn check(laid: u64, taken: u64, wanted: u64) -> io::Result<()> {
    if laid == wanted && taken == wanted {
        Ok(())
    } else {
        Err(io::ErrorKind::InvalidData.into())
    }
}
