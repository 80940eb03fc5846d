//! Times the snoop ring, by one thread that stores laps of frames and loads them again.

mod lap;

use lap::time_ring;
use std::alloc::Global;
use std::io;
use std::time::Clock;

/// `bench snoop time` prints a line for each measurement: what was done, and the nanoseconds of the fastest lap of the ring.
/// An error comes where the word is another, where a frame wasn't stored or loaded as it was stored, where memory runs out, and
/// where the clock can't be read.
pub(crate) fn run<R: Clock + Print + Alloc<A = Global>>(
    rt: &R,
    words: &[String],
) -> io::Result<()> {
    match words {
        [word] if word.as_str() == "time" => {}
        _ => return Err(io::ErrorKind::InvalidInput.into()),
    }
    for channels in [1, 2, 8] {
        let best = time_ring(rt, channels)?;
        println!(rt; "store {channels} {}", best.store)?;
        println!(rt; "load {channels} {}", best.load)?;
    }
    Ok(())
}
