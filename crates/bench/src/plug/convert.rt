//! One conversion.

use super::job::Job;
use plug_chain::{Plug, Table};
use snd_base::PcmError;
use std::alloc::{AllocError, Global};
use std::io;

/// Out of memory, as an error of input and output.
fn refused(_why: PcmError) -> io::Error {
    io::Error::from(io::ErrorKind::OutOfMemory)
}

/// Appends the samples of the bytes, which a plug takes piece by piece.
pub(crate) fn convert(
    alloc: Global,
    job: &Job,
    bytes: &[u8],
    samples: &mut Vec<i16>,
) -> io::Result<()> {
    let table = Table::usual(alloc, job.inputs, job.outputs).map_err(refused)?;
    let mut plug = Plug::new(job.from, table, job.in_rate, job.out_rate);
    for piece in bytes.chunks(job.piece) {
        plug.feed(piece, samples).map_err(refused)?;
    }
    plug.finish(samples).map_err(refused)
}

/// The bytes of samples, the low byte first.
pub(crate) fn little_endian(alloc: Global, samples: &[i16]) -> Result<Vec<u8>, AllocError> {
    let mut bytes = Vec::with_capacity(alloc, samples.len() * 2)?;
    for sample in samples {
        bytes.extend_from_slice(&sample.to_le_bytes())?;
    }
    Ok(bytes)
}
