//! Converts a file of bytes in pieces, and times it.

mod convert;
mod job;

use convert::{convert, little_endian};
use job::Job;
use std::alloc::Global;
use std::fs::Files;
use std::time::{Clock, Instant};
use std::{fs, io};

/// Converts the bytes `rounds` times, and returns the samples and the nanoseconds of the fastest round.
fn time<R: Clock + Alloc<A = Global>>(
    rt: &R,
    job: &Job,
    bytes: &[u8],
    rounds: u32,
) -> io::Result<(Vec<i16>, u128)> {
    let mut samples = Vec::new(rt.alloc());
    let mut best = u128::MAX;
    for _ in 0..rounds {
        samples.clear();
        let start = Instant::now(rt)?;
        convert(rt.alloc(), job, bytes, &mut samples)?;
        best = best.min(start.elapsed(rt)?.as_nanos());
    }
    Ok((samples, best))
}

/// `bench plug FROM TO FORMAT INPUTS OUTPUTS IN_RATE OUT_RATE PIECE ROUNDS` converts the bytes of the file FROM, in pieces
/// of so many bytes, to 16-bit little-endian samples in the file TO, and prints the nanoseconds of the fastest of so many
/// rounds. An error comes where a word is missing or none of these, where a file can't be read or written, and where memory
/// runs out.
pub(crate) fn run<R: Clock + Files + Print + Alloc<A = Global>>(
    rt: &R,
    words: &[String],
) -> io::Result<()> {
    if words.len() < 9 {
        return Err(io::ErrorKind::InvalidInput.into());
    }
    let Some(job) = Job::read(words) else {
        return Err(io::ErrorKind::InvalidInput.into());
    };
    let bytes = fs::read(rt, words[0].as_str())?;
    let (samples, best) = time(rt, &job, bytes.as_slice(), job.rounds)?;
    fs::write(
        rt,
        words[1].as_str(),
        little_endian(rt.alloc(), samples.as_slice())?.as_slice(),
    )?;
    println!(rt; "{best}")
}
