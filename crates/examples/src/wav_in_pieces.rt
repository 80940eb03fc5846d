//! A WAV file that comes in pieces.
ghost use Rattle.wav_io.specs.Reading.{Reads, wav_file};
ghost use Rattle.examples.specs.Pieces.{bytes_of_pieces};

use std::alloc::Global;
use wav_io::{Samples, Wav, WavError, WavReader};

/// Reads a WAV file from its pieces, in order. However the file's bytes are divided, channels, rate and samples are those that
/// `read_wav` gives of the whole file, and a refusal is the one that `read_wav` answers.
///
/// `Memory` is answered where there is no room for the samples. Unlike `read_wav` this function doesn't say that a file which is
/// refused is never answered with `Memory`: a piece after those that were read may be the one that shows the refusal.
pub fn read_pieces(alloc: Global, pieces: &[&[u8]]) -> Result<Wav, WavError>
    ensures exact { Reads result (wav_file (bytes_of_pieces pieces.now)) }
{
    let mut reader = WavReader::new();
    let mut samples = Vec::new(alloc);
    for piece in pieces {
        reader.feed(piece, &mut samples)?;
    }
    let head = reader.finish()?;
    Ok(Wav {
        channels: head.channels,
        rate: head.rate,
        samples: Samples::from_vec(samples),
    })
}
