//! Which of the free seats is the one that is looked for.
ghost use Rattle.std.specs.Prelude.{◌≡◌, ◌+◌, ◌<◌, ◌^◌, ◌↔◌, [], None, IsTrue, IsSome, IfSome, MatchOption};
ghost use Rattle.std.specs.Option.{option_and_then};
ghost use Rattle.lobby.specs.Seats.{AreFree, IsBusy, IsLeast, IsOut, earlier, is_silent, last_frames, last_of, lowest_free, lowest_silent};

use snd_base::PcmError;
use sum_table::MixSeat;

/// The lowest place that is free.
pub(crate) fn lowest_free(seats: &[Option<MixSeat<'_>>]) -> Option<usize>
    ensures { result ≡ lowest_free seats.now }
{
    seats.iter().position(|seat| seat.is_some())
}

/// Whether each place is free.
pub(crate) fn are_free(seats: &[Option<MixSeat<'_>>]) -> bool
    ensures { IsTrue result ↔ AreFree seats.now }
{
    seats.iter().all(|seat| seat.is_some())
}

/// Whether there is a place of this number, and it is not free.
pub(crate) fn is_out(seats: &[Option<MixSeat<'_>>], place: u32) -> bool
    ensures { IsTrue result ↔ IsOut seats.now place }
{
    match seats.get(place as usize) {
        Some(seat) => seat.is_none(),
        None => false,
    }
}

/// Whether a place is free, and its seat's last frame, if it has one, is below a position.
fn is_silent(seat: &Option<MixSeat<'_>>, position: u64) -> bool
    ensures { result ≡ is_silent position seat.now }
{
    match seat {
        None => false,
        Some(seat) => match seat.last() {
            None => true,
            Some(frame) => frame < position,
        },
    }
}

/// The lowest place that is free and whose seat's last frame, if it has one, is below a position.
pub(crate) fn lowest_silent(seats: &[Option<MixSeat<'_>>], position: u64) -> Option<usize>
    ensures { result ≡ lowest_silent position seats.now }
{
    seats.iter().position(|seat| is_silent(seat, position))
}

/// The last frame of a seat that is free.
fn last_of(seat: &Option<MixSeat<'_>>) -> Option<u64>
    ensures value { result ≡ option_and_then last_of seat.now }
    ensures fits { IfSome result (λ frame. frame + 1 < 2 ^ 64) }
{
    match seat {
        None => None,
        Some(seat) => seat.last(),
    }
}

/// The earlier of two frames, where there are such.
fn earlier(a: Option<u64>, b: Option<u64>) -> Option<u64>
    ensures { result ≡ earlier a b }
{
    match (a, b) {
        (None, frame) | (frame, None) => frame,
        (Some(a), Some(b)) => Some(a.min(b)),
    }
}

/// The least last frame of the free seats.
fn least_last(seats: &[Option<MixSeat<'_>>]) -> Option<u64>
    ensures value { MatchOption result (last_frames seats.now ≡ [])
        (IsLeast (last_frames seats.now)) }
    ensures fits { IfSome result (λ frame. frame + 1 < 2 ^ 64) }
{
    let mut least = None;
    for seat in seats {
        least = earlier(least, last_of(seat));
    }
    least
}

/// The refusal at a position below which no free seat ends.
pub(crate) fn busy(seats: &[Option<MixSeat<'_>>], position: u64) -> PcmError
    requires some_free { IsSome (lowest_free seats.now) }
    requires none_silent { lowest_silent position seats.now ≡ None }
    ensures { IsBusy position seats.now result }
{
    let Some(last) = least_last(seats) else {
        unreachable!()
    };
    PcmError::Busy {
        until: Some(last + 1),
        seen: position,
    }
}
