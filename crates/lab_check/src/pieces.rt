//! The canonical file of some samples, piece by piece.
ghost use Rattle.std.specs.Prelude.{◌≡◌, ◌≤◌, ◌<◌, ◌^◌, ◌+◌, ◌++◌, ◌*◌, ◌%◌, IfOk, OnOk, drop, length, take};
ghost use Rattle.std.specs.List.{flat_map};
ghost use Rattle.wav_io.specs.Canonical.{sample_bytes};
ghost use Rattle.lab_check.specs.Pieces.{canonical_file};

use std::alloc::{AllocError, Global};
use wav_io::{append_samples, header};

/// How many bytes the head of a canonical file has.
const HEAD_BYTES: u64 = 44;

/// What is left of a head from one of its bytes on.
fn head_from(alloc: Global, head: &[u8], from: u64) -> Result<Vec<u8>, AllocError>
    ensures { IfOk result (λ bytes. bytes.items ≡ drop from head.now) }
{
    if from < head.len() as u64 {
        Vec::from_slice(alloc, &head[from as usize..])
    } else {
        Ok(Vec::new(alloc))
    }
}

/// Appends the bytes of so many samples from one on.
fn append_from(
    bytes: &mut Vec<u8>,
    samples: &[i16],
    first: usize,
    count: usize,
) -> Result<(), AllocError>
    requires { first + count ≤ length samples.now }
    ensures { OnOk result (bytes.new.items ≡ bytes.old.items
        ++ flat_map sample_bytes (take count (drop first samples.now))) }
{
    append_samples(bytes, &samples[first..first + count])
}

/// The bytes of a head, and of samples behind it, from the byte `from` on, which is an even number: `most` of them, or as many as
/// there are.
fn file_piece(
    alloc: Global,
    head: &[u8],
    samples: &[i16],
    from: u64,
    most: u64,
) -> Result<Vec<u8>, AllocError>
    requires head { length head.now ≡ 44 }
    requires even { from % 2 ≡ 0 }
    requires most { most < 2 ^ 32 }
    ensures { IfOk result (λ bytes. bytes.items
        ≡ take most (drop from (head.now ++ flat_map sample_bytes samples.now))) }
{
    let mut bytes = head_from(alloc, head, from)?;
    let first = (from.saturating_sub(HEAD_BYTES) / 2).min(samples.len() as u64) as usize;
    let count = ((most / 2 + 1) as usize).min(samples.len() - first);
    append_from(&mut bytes, samples, first, count)?;
    bytes.truncate(most as usize);
    Ok(bytes)
}

/// The bytes of the canonical WAV file (RIFF WAVE) of some samples, interleaved, from the byte `from` on: `most` of them, or as
/// many as there are. No other part of the file is made, so a file of any length is compared in little memory.
///
/// `channels` and `rate` (Hz) are as `wav_io::header` asks for, and the samples so few that their file has a head; `from` is an
/// even number, and `most` below 2^32. The only error is want of memory.
pub fn canonical_piece(
    alloc: Global,
    channels: u16,
    rate: u32,
    samples: &[i16],
    from: u64,
    most: u64,
) -> Result<Vec<u8>, AllocError>
    requires some_channel { 1 ≤ channels }
    requires few_channels { channels ≤ 8 }
    requires some_rate { 1 ≤ rate }
    requires low_rate { rate < 2 ^ 28 }
    requires size { length samples.now * 2 + 36 < 2 ^ 32 }
    requires even { from % 2 ≡ 0 }
    requires most { most < 2 ^ 32 }
    ensures { IfOk result (λ bytes. bytes.items
        ≡ take most (drop from (canonical_file channels rate samples.now))) }
{
    let head = header(
        channels,
        rate,
        (samples.len() / usize::from(channels)) as u32,
    );
    file_piece(alloc, &head, samples, from, most)
}
