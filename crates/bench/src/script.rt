//! Times the reader of scripts.

use crate::ROUNDS;
use lab_script::{ScriptError, read_script};
use std::alloc::Global;
use std::fs::Files;
use std::time::{Clock, Instant};
use std::{fs, io};

/// Reads a script once, and gives the nanoseconds that it took, and the refusal where it was refused.
fn time_read<R: Clock + Alloc<A = Global>>(
    rt: &R,
    text: &[u8],
) -> io::Result<(u128, Option<ScriptError>)> {
    let start = Instant::now(rt)?;
    let refusal = read_script(rt.alloc(), text).err();
    Ok((start.elapsed(rt)?.as_nanos(), refusal))
}

/// `bench script FILE` prints the nanoseconds of the fastest of some readings of a script, and `ok` or its refusal. An error
/// comes where there isn't one word, and where the file or the clock can't be read.
pub(crate) fn run<R: Clock + Files + Print + Alloc<A = Global>>(
    rt: &R,
    words: &[String],
) -> io::Result<()> {
    let [path] = words else {
        return Err(io::ErrorKind::InvalidInput.into());
    };
    let text = fs::read(rt, path.as_str())?;
    let mut best = u128::MAX;
    for _ in 0..ROUNDS {
        let (time, refusal) = time_read(rt, text.as_slice())?;
        if let Some(error) = refusal {
            return println!(rt; "{error}");
        }
        best = best.min(time);
    }
    println!(rt; "{best} ok")
}
