//! Two or four threads, which fill one lap of a ring together.
ghost use Rattle.std.specs.Prelude.{◌≤◌};

use super::lap::{Best, FRAMES, LAPS, check, lay, new_ring, play};
use mix_core::{MixPort, NeverStops};
use std::alloc::Global;
use std::io;
use std::thread::{Threads, join_mut};
use std::time::{Clock, Instant};
use sum_table::{MixSeat, PlayerSeat};

/// How the threads share the frames of a lap: each places samples at the same ones, from the first one on, or each at its own, one
/// thread's after another's. Each places them at as many frames, and all together as many samples as the ring has frames.
#[derive(Clone, Copy, PartialEq, Eq)]
pub(crate) enum Share {
    Same,
    Staggered,
}

impl Share {
    /// How far one thread's frames are from the next one's, of which each has `count`.
    fn step(self, count: u32) -> u32
        ensures { result ≤ count }
    {
        match self {
            Share::Same => 0,
            Share::Staggered => count,
        }
    }
}

/// How many threads place samples.
#[derive(Clone, Copy, PartialEq, Eq)]
pub(crate) enum Workers {
    Two,
    Four,
}

/// A mix seat for one thread, with padding after it, so that no two threads write to one cache line but in the ring.
#[derive(Drop)]
struct PaddedSeat<'a> {
    seat: MixSeat<'a>,
    room: [u64; 16],
}

impl<'a> PaddedSeat<'a> {
    fn new(seat: MixSeat<'a>) -> PaddedSeat<'a> {
        PaddedSeat {
            seat,
            room: [0; 16],
        }
    }
}

/// The four mix seats of a ring.
#[derive(Drop)]
struct Seats<'a> {
    first: PaddedSeat<'a>,
    second: PaddedSeat<'a>,
    third: PaddedSeat<'a>,
    fourth: PaddedSeat<'a>,
}

impl Seats<'_> {
    /// Each seat loads the position.
    fn look(&mut self) {
        let _ = self.first.seat.position(&mut NeverStops);
        let _ = self.second.seat.position(&mut NeverStops);
        let _ = self.third.seat.position(&mut NeverStops);
        let _ = self.fourth.seat.position(&mut NeverStops);
    }
}

/// Places `count` frames by each of two seats in a thread of its own, from these offsets on, and answers how many samples were
/// placed.
fn lay_two<R: Threads + Sync>(
    rt: &R,
    left: &mut PaddedSeat<'_>,
    right: &mut PaddedSeat<'_>,
    offsets: (u32, u32),
    count: u32,
) -> u64 {
    let (at_left, at_right) = offsets;
    let (a, b) = join_mut(
        rt,
        &mut || lay(&mut left.seat, at_left, count),
        &mut || lay(&mut right.seat, at_right, count),
    );
    a.saturating_add(b)
}

/// The same by each of four seats, and threads.
fn lay_four<R: Threads + Sync>(rt: &R, seats: &mut Seats<'_>, step: u32, count: u32) -> u64
    requires { step ≤ 16384 }
{
    let Seats {
        first,
        second,
        third,
        fourth,
    } = seats;
    let front = (0, step);
    let back = (2 * step, 3 * step);
    let (a, b) = join_mut(
        rt,
        &mut || lay_two(rt, first, second, front, count),
        &mut || lay_two(rt, third, fourth, back, count),
    );
    a.saturating_add(b)
}

/// Fills one lap by two or four threads.
fn lay_shared<R: Threads + Sync>(
    rt: &R,
    seats: &mut Seats<'_>,
    threads: Workers,
    share: Share,
) -> u64 {
    match threads {
        Workers::Two => {
            let count = FRAMES / 2;
            lay_two(
                rt,
                &mut seats.first,
                &mut seats.second,
                (0, share.step(count)),
                count,
            )
        }
        Workers::Four => {
            let count = FRAMES / 4;
            lay_four(rt, seats, share.step(count), count)
        }
    }
}

/// Fills one lap by the threads, and takes it, and times both.
fn time_lap<R: Clock + Threads + Sync>(
    rt: &R,
    player: &mut PlayerSeat<'_>,
    seats: &mut Seats<'_>,
    threads: Workers,
    share: Share,
) -> io::Result<Best> {
    seats.look();
    let start = Instant::now(rt)?;
    let laid = lay_shared(rt, seats, threads, share);
    let place = start.elapsed(rt)?.as_nanos();
    let start = Instant::now(rt)?;
    let taken = play(player, FRAMES as u64);
    let take = start.elapsed(rt)?.as_nanos();
    check(laid, taken, FRAMES as u64)?;
    Ok(Best { place, take })
}

/// The fastest lap of a ring of one channel and four places that some threads fill and one takes.
pub(crate) fn time_beside<R: Clock + Threads + Sync + Alloc<A = Global>>(
    rt: &R,
    threads: Workers,
    share: Share,
) -> io::Result<Best> {
    let mut ring = new_ring(rt.alloc(), 1, 4)?;
    let (mut player, mut first) = ring.seats();
    let second = first.split(1, 1);
    let third = first.split(1, 2);
    let fourth = first.split(1, 3);
    let mut seats = Seats {
        first: PaddedSeat::new(first),
        second: PaddedSeat::new(second),
        third: PaddedSeat::new(third),
        fourth: PaddedSeat::new(fourth),
    };
    let mut best = Best::NONE;
    for _ in 0..LAPS {
        best = best.with(time_lap(rt, &mut player, &mut seats, threads, share)?);
    }
    Ok(best)
}
