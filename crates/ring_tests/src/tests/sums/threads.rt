//! Seats in threads of their own.
ghost use Rattle.std.specs.Prelude.{◌<◌};
ghost use Rattle.sum_table.specs.Seats.{CanAdd};

use super::*;
use std::alloc::AllocError;
use std::thread::{Threads, for_each_mut, join_mut, yield_now};

// How many words are played, and how often a seat looks before it gives up.
const PLAYED: usize = 25600;

const LOOKS: usize = 50_000_000;

// A client: it places one sample everywhere that it can reach, and counts for each word what it placed there in time.
struct Client<'a> {
    seat: MixSeat<'a>,
    sample: i16,
    laid: Vec<i32>,
    ghost can_add: { CanAdd seat },
}

// One call wherever it is let go.
impl Drop for Client<'_> {
    fn drop(self) {
        let Client {
            seat: _,
            sample: _,
            laid: _,
        } = self;
    }
}

impl Client<'_> {
    // Places at the next frame and channel, and says whether it was in time.
    fn lay_next(&mut self) -> bool {
        let geometry = self.seat.geometry();
        let seen = self.seat.seen();
        let cursor = self.seat.cursor();
        let (frame, channel) = if cursor.frame < seen {
            (seen, 0)
        } else {
            (cursor.frame, cursor.channel)
        };
        if channel >= geometry.channels || frame >= seen + geometry.frames as u64 {
            return false;
        }
        let answer = self
            .seat
            .place(&mut NeverStops, frame, channel, self.sample);
        let Ok(Placed::In) = answer else {
            return false;
        };
        let first = (frame as usize).saturating_mul(geometry.channels as usize);
        self.count(first.saturating_add(channel as usize));
        true
    }

    fn count(&mut self, word: usize) {
        if let Some(laid) = self.laid.get_mut(word) {
            *laid = laid.saturating_add(self.sample as i32);
        }
    }

    fn add_to(&self, totals: &mut [i32]) {
        for (total, laid) in totals.iter_mut().zip(self.laid.iter()) {
            *total = total.saturating_add(*laid);
        }
    }

    // Places until the position `end` is seen.
    fn lay_all(&mut self, end: u64) {
        for _ in 0..LOOKS {
            if self.seat.seen() >= end {
                return;
            }
            if !self.lay_next() {
                let _ = self.seat.position(&mut NeverStops);
            }
        }
    }
}

// The player, and what it played.
struct Playing<'a> {
    seat: PlayerSeat<'a>,
    played: Vec<i16>,
}

impl Drop for Playing<'_> {
    fn drop(self) {
        let Playing { seat: _, played: _ } = self;
    }
}

impl Playing<'_> {
    // Takes a word for each place of `played`, publishes every 16 frames, and lets the clients go on in between.
    fn play_all(&mut self) {
        for value in self.played.iter_mut() {
            let Ok(taken) = self.seat.take_word() else {
                return;
            };
            *value = taken.value;
            let next = self.seat.next();
            if next.channel == 0 && next.frame % 16 == 0 {
                self.seat.publish();
                pause();
            }
        }
        self.seat.publish();
    }
}

fn pause() {
    for _ in 0..100 {
        yield_now();
    }
}

fn new_client<'a>(seat: MixSeat<'a>, sample: i16, laid: Vec<i32>) -> Client<'a>
    requires { CanAdd seat }
{
    Client { seat, sample, laid }
}

fn counts(alloc: Global) -> Result<Vec<i32>, AllocError> {
    vec![in alloc; 0; PLAYED]
}

// Each client places in a thread of its own until the position `end` is seen.
fn lay_beside<R: Threads + Sync>(rt: &R, end: u64, clients: &mut [Client<'_>]) {
    for_each_mut(rt, clients, 4, &|_, client| client.lay_all(end));
}

// The clients place while the player takes.
fn play_beside<R: Threads + Sync>(
    rt: &R,
    player: &mut Playing<'_>,
    clients: &mut [Client<'_>],
    end: u64,
) {
    join_mut(
        rt,
        &mut || player.play_all(),
        &mut || lay_beside(rt, end, clients),
    );
}

// Whether what was played is what the clients placed in time, saturated once. Their totals are added to `totals`.
fn is_saturated(played: &[i16], clients: &[Client<'_>], totals: &mut [i32]) -> bool {
    for client in clients {
        client.add_to(totals);
    }
    for (total, value) in totals.iter().zip(played.iter()) {
        if lap_word::clamp(*total) != *value {
            return false;
        }
    }
    true
}

// The samples of two clients pass the range together.
#[test]
fn two_threads_lay_while_another_takes(rt: HostRuntime) -> Result<(), PcmError> {
    let played = vec![in rt.alloc(); 0i16; PLAYED]?;
    let (laid_a, laid_b) = (counts(rt.alloc())?, counts(rt.alloc())?);
    let mut totals = counts(rt.alloc())?;
    let mut ring = new_ring(rt.alloc(), 2, 2)?;
    let (seat, mut mix) = ring.seats();
    let mut player = Playing { seat, played };
    let b = new_client(mix.split(1, 1), 15000, laid_b);
    let mut clients = [new_client(mix, 20000, laid_a), b];
    play_beside(&rt, &mut player, &mut clients, 12800);
    assert!(rt; is_saturated(&player.played, &clients, &mut totals));
    Ok(())
}

#[test]
fn four_threads_lay_while_another_takes(rt: HostRuntime) -> Result<(), PcmError> {
    let played = vec![in rt.alloc(); 0i16; PLAYED]?;
    let (laid_a, laid_b) = (counts(rt.alloc())?, counts(rt.alloc())?);
    let (laid_c, laid_d) = (counts(rt.alloc())?, counts(rt.alloc())?);
    let mut totals = counts(rt.alloc())?;
    let mut ring = new_ring(rt.alloc(), 1, 4)?;
    let (seat, mut mix) = ring.seats();
    let mut player = Playing { seat, played };
    let b = new_client(mix.split(1, 1), 15000, laid_b);
    let c = new_client(mix.split(1, 2), -32768, laid_c);
    let d = new_client(mix.split(1, 3), 9, laid_d);
    let mut clients = [new_client(mix, 20000, laid_a), b, c, d];
    play_beside(&rt, &mut player, &mut clients, 25600);
    assert!(rt; is_saturated(&player.played, &clients, &mut totals));
    Ok(())
}
