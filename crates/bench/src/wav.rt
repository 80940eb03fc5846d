//! Reads or writes a stereo WAV file of 64 MiB in pieces of 65,536 bytes, ten times.

use std::alloc::Global;
use std::io;
use wav_io::{WavError, WavReader, append_samples, header};

/// Reads a file of a head and 1,023 pieces like this one, into a new vector.
fn read_file(alloc: Global, head: &[u8], piece: &[u8]) -> Result<(), WavError> {
    let mut reader = WavReader::new();
    let mut samples = Vec::new(alloc);
    reader.feed(head, &mut samples)?;
    for _ in 0..1023 {
        reader.feed(piece, &mut samples)?;
    }
    reader.finish()?;
    Ok(())
}

/// Writes 1,024 pieces of these samples, each over the one before.
fn write_file(bytes: &mut Vec<u8>, samples: &[i16]) -> Result<(), WavError> {
    for _ in 0..1024 {
        bytes.clear();
        append_samples(bytes, samples)?;
    }
    Ok(())
}

/// Reads ten files.
fn read(alloc: Global) -> Result<(), WavError> {
    let head = header(2, 48000, 16_000_000);
    let mut piece = Vec::new(alloc);
    piece.resize(65536, 7u8)?;
    for _ in 0..10 {
        read_file(alloc, &head, &piece)?;
    }
    Ok(())
}

/// Writes ten files.
fn write(alloc: Global) -> Result<(), WavError> {
    let mut samples = Vec::new(alloc);
    samples.resize(32768, 7i16)?;
    let mut bytes = Vec::new(alloc);
    for _ in 0..10 {
        write_file(&mut bytes, &samples)?;
    }
    Ok(())
}

/// A refusal of WAV files, as an error of input and output.
fn refused(_why: WavError) -> io::Error {
    io::Error::from(io::ErrorKind::InvalidData)
}

/// `bench wav read` reads, and `bench wav write` writes. An error comes where a word is neither, and where memory runs out.
pub(crate) fn run(alloc: Global, words: &[String]) -> io::Result<()> {
    match words {
        [word] if word.as_str() == "read" => read(alloc).map_err(refused),
        [word] if word.as_str() == "write" => write(alloc).map_err(refused),
        _ => Err(io::ErrorKind::InvalidInput.into()),
    }
}
