//! Seats in threads of their own.

use super::*;
use std::alloc::AllocError;
use std::thread::{Threads, for_each_mut, join_mut, yield_now};

// How many frames are stored, of a ring of 64, and how often a reader looks before it gives up.
const STORED: u64 = 20_000;

const LOOKS: usize = 2_000_000;

// What is stored at a frame and channel: frames of a slot that are up to 127 laps apart differ.
fn wanted(frame: u64, channel: usize) -> i16 {
    ((frame % 8192 * 8 + (channel % 8) as u64) as i32 - 32768) as i16
}

fn fill(frame: u64, samples: &mut [i16]) {
    for (channel, sample) in samples.iter_mut().enumerate() {
        *sample = wanted(frame, channel);
    }
}

fn is_wanted(frame: u64, samples: &[i16]) -> bool {
    for (channel, sample) in samples.iter().enumerate() {
        if *sample != wanted(frame, channel) {
            return false;
        }
    }
    true
}

// The writer, and room for a frame.
struct Storing<'a> {
    seat: WriterSeat<'a>,
    frame: Vec<i16>,
}

// One call wherever it is let go.
impl Drop for Storing<'_> {
    fn drop(self) {
        let Storing { seat: _, frame: _ } = self;
    }
}

impl Storing<'_> {
    // Stores all frames, publishes every four of them, and lets the readers go on in between.
    fn store_all(&mut self) {
        for number in 0..STORED {
            fill(number, &mut self.frame);
            if try_store(&mut self.seat, &self.frame) != Some(Ok(())) {
                return;
            }
            if number % 4 == 3 {
                self.seat.publish();
                yield_now();
            }
        }
    }
}

// A reader: it loads frame after frame, and compares each that it gets.
struct Reading<'a> {
    seat: ReaderSeat<'a>,
    out: Vec<i16>,
    next: u64,
    got: u64,
    wrong: u64,
}

impl Drop for Reading<'_> {
    fn drop(self) {
        let Reading {
            seat: _,
            out: _,
            next: _,
            got: _,
            wrong: _,
        } = self;
    }
}

impl Reading<'_> {
    // Loads the next frame. Where it was overtaken, the reader goes on with the newest one.
    fn load_next(&mut self) {
        if try_load(&mut self.seat, self.next, &mut self.out) != Some(Ok(Loaded::Got)) {
            self.next = self.seat.seen();
            return;
        }
        if is_wanted(self.next, &self.out) {
            self.got = self.got.saturating_add(1);
        } else {
            self.wrong = self.wrong.saturating_add(1);
        }
        self.next = self.next.saturating_add(1);
    }

    // Loads until it is past the last frame.
    fn load_all(&mut self) {
        for _ in 0..LOOKS {
            if self.next >= STORED {
                return;
            }
            if self.next >= self.seat.seen() {
                yield_now();
                let _ = self.seat.position(&mut NeverStops);
            } else {
                self.load_next();
            }
        }
    }

    // Loads the last lap, in which nothing is overtaken any more once the writer has ended.
    fn load_last_lap(&mut self) {
        let _ = self.seat.position(&mut NeverStops);
        self.got = 0;
        self.next = STORED - 64;
        for _ in 0..64 {
            self.load_next();
        }
    }
}

fn new_reading<'a>(seat: ReaderSeat<'a>, out: Vec<i16>) -> Reading<'a> {
    Reading {
        seat,
        out,
        next: 0,
        got: 0,
        wrong: 0,
    }
}

fn silence(alloc: Global, channels: usize) -> Result<Vec<i16>, AllocError> {
    vec![in alloc; 0; channels]
}

// Each reader loads in a thread of its own.
fn load_beside<R: Threads + Sync>(rt: &R, readers: &mut [Reading<'_>]) {
    for_each_mut(rt, readers, 4, &|_, reading| reading.load_all());
}

// The readers load while the writer stores.
fn store_beside<R: Threads + Sync>(rt: &R, writer: &mut Storing<'_>, readers: &mut [Reading<'_>]) {
    join_mut(
        rt,
        &mut || writer.store_all(),
        &mut || load_beside(rt, readers),
    );
}

// Whether each frame that the readers got is the stored one, and each of them gets the last lap whole.
fn are_right(readers: &mut [Reading<'_>]) -> bool {
    for reading in readers.iter_mut() {
        reading.load_last_lap();
        if reading.wrong > 0 || reading.got != 64 {
            return false;
        }
    }
    true
}

#[test]
fn two_readers_get_what_is_stored(rt: HostRuntime) -> Result<(), PcmError> {
    let frame = silence(rt.alloc(), 2)?;
    let (out_a, out_b) = (silence(rt.alloc(), 2)?, silence(rt.alloc(), 2)?);
    let mut ring = new_ring(rt.alloc(), 2, 0)?;
    let (seat, mut reader) = ring.seats();
    let mut writer = Storing { seat, frame };
    let b = new_reading(reader.split(), out_b);
    let mut readers = [new_reading(reader, out_a), b];
    store_beside(&rt, &mut writer, &mut readers);
    assert!(rt; are_right(&mut readers));
    Ok(())
}

#[test]
fn four_readers_get_what_is_stored(rt: HostRuntime) -> Result<(), PcmError> {
    let frame = silence(rt.alloc(), 8)?;
    let (out_a, out_b) = (silence(rt.alloc(), 8)?, silence(rt.alloc(), 8)?);
    let (out_c, out_d) = (silence(rt.alloc(), 8)?, silence(rt.alloc(), 8)?);
    let mut ring = new_ring(rt.alloc(), 8, 0)?;
    let (seat, mut reader) = ring.seats();
    let mut writer = Storing { seat, frame };
    let b = new_reading(reader.split(), out_b);
    let c = new_reading(reader.split(), out_c);
    let d = new_reading(reader.split(), out_d);
    let mut readers = [new_reading(reader, out_a), b, c, d];
    store_beside(&rt, &mut writer, &mut readers);
    assert!(rt; are_right(&mut readers));
    Ok(())
}
