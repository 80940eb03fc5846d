//! Times the sum ring, by one thread that places and takes, and by two and four threads that place together.

mod alone;
mod beside;
mod lap;

use alone::time_alone;
use beside::{Share, Workers, time_beside};
use std::alloc::Global;
use std::io;
use std::marker::Sync;
use std::thread::Threads;
use std::time::Clock;

/// `bench sum time` prints a line for each measurement: what was done, and the nanoseconds of the fastest lap of the ring.
/// An error comes where the word is another, where a sample wasn't placed or another value was taken, where memory runs out, and
/// where the clock can't be read.
pub(crate) fn run<R: Clock + Threads + Sync + Print + Alloc<A = Global>>(
    rt: &R,
    words: &[String],
) -> io::Result<()> {
    match words {
        [word] if word.as_str() == "time" => {}
        _ => return Err(io::ErrorKind::InvalidInput.into()),
    }
    for channels in [1, 2] {
        let best = time_alone(rt, channels)?;
        println!(rt; "alone {channels} place {}", best.place)?;
        println!(rt; "alone {channels} take {}", best.take)?;
    }
    for (number, threads) in [(2, Workers::Two), (4, Workers::Four)] {
        for (name, share) in [("same", Share::Same), ("staggered", Share::Staggered)] {
            let best = time_beside(rt, threads, share)?;
            println!(rt; "{name} {number} place {}", best.place)?;
            println!(rt; "{name} {number} take {}", best.take)?;
        }
    }
    Ok(())
}
