//! Times the reader of configuration files.

use crate::ROUNDS;
use asound_conf::{ConfError, read_conf};
use std::alloc::Global;
use std::fs::Files;
use std::time::{Clock, Instant};
use std::{fs, io};

/// Reads a text once. It gives the nanoseconds of the reading, those with what was read let go, and the refusal where it was refused.
fn time_read<R: Clock + Alloc<A = Global>>(
    rt: &R,
    text: &[u8],
) -> io::Result<(u128, u128, Option<ConfError>)> {
    let start = Instant::now(rt)?;
    let answer = read_conf(rt.alloc(), text);
    let reading = start.elapsed(rt)?.as_nanos();
    let refusal = answer.err();
    Ok((reading, start.elapsed(rt)?.as_nanos(), refusal))
}

/// `bench conf FILE` prints the nanoseconds of the fastest of some readings of a file, those of the fastest with what was read
/// let go, and `ok`, or the file's refusal. An error comes where there isn't one word, and where the file or the clock can't be
/// read.
pub(crate) fn run<R: Clock + Files + Print + Alloc<A = Global>>(
    rt: &R,
    words: &[String],
) -> io::Result<()> {
    let [path] = words else {
        return Err(io::ErrorKind::InvalidInput.into());
    };
    let text = fs::read(rt, path.as_str())?;
    let mut best = u128::MAX;
    let mut best_whole = u128::MAX;
    for _ in 0..ROUNDS {
        let (time, whole, refusal) = time_read(rt, text.as_slice())?;
        if let Some(error) = refusal {
            return println!(rt; "{error}");
        }
        best = best.min(time);
        best_whole = best_whole.min(whole);
    }
    println!(rt; "{best} {best_whole} ok")
}
