//! One thread, which fills a lap and then takes it.
ghost use Rattle.std.specs.Prelude.{◌≤◌};

use super::lap::{Best, FRAMES, LAPS, check, lay, new_ring, play};
use mix_core::{MixPort, NeverStops};
use std::alloc::Global;
use std::io;
use std::time::{Clock, Instant};
use sum_table::{MixSeat, PlayerSeat};

/// Fills and takes one lap, and times both.
fn time_lap<R: Clock>(
    rt: &R,
    player: &mut PlayerSeat<'_>,
    seat: &mut MixSeat<'_>,
    words: u64,
) -> io::Result<Best> {
    let _ = seat.position(&mut NeverStops);
    let start = Instant::now(rt)?;
    let laid = lay(seat, 0, FRAMES);
    let place = start.elapsed(rt)?.as_nanos();
    let start = Instant::now(rt)?;
    let taken = play(player, words);
    let take = start.elapsed(rt)?.as_nanos();
    check(laid, taken, words)?;
    Ok(Best { place, take })
}

/// The fastest lap of a ring of one place that one thread fills and takes.
pub(crate) fn time_alone<R: Clock + Alloc<A = Global>>(rt: &R, channels: u8) -> io::Result<Best>
    requires one { 1 ≤ channels }
    requires most { channels ≤ 8 }
{
    let mut ring = new_ring(rt.alloc(), channels, 1)?;
    let (mut player, mut seat) = ring.seats();
    let words = FRAMES as u64 * channels as u64;
    let mut best = Best::NONE;
    for _ in 0..LAPS {
        best = best.with(time_lap(rt, &mut player, &mut seat, words)?);
    }
    Ok(best)
}
