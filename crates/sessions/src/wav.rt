//! Canonical WAV files of 16-bit PCM: a head of 44 bytes, and the samples in two bytes each.
use std::alloc::{AllocError, Global};

/// Appends the head of a file of these channels, this rate, and so many bytes of samples.
fn append_head(
    bytes: &mut Vec<u8>,
    channels: u16,
    rate: u32,
    size: usize,
) -> Result<(), AllocError> {
    let frame = channels.wrapping_mul(2);
    let size = u32::try_from(size).unwrap_or(0);
    bytes.extend_from_slice(b"RIFF")?;
    bytes.extend_from_slice(&size.wrapping_add(36).to_le_bytes())?;
    bytes.extend_from_slice(b"WAVEfmt \x10\x00\x00\x00\x01\x00")?;
    bytes.extend_from_slice(&channels.to_le_bytes())?;
    bytes.extend_from_slice(&rate.to_le_bytes())?;
    bytes.extend_from_slice(&rate.wrapping_mul(frame as u32).to_le_bytes())?;
    bytes.extend_from_slice(&frame.to_le_bytes())?;
    bytes.extend_from_slice(b"\x10\x00data")?;
    bytes.extend_from_slice(&size.to_le_bytes())
}

/// Appends a file of these samples.
pub(crate) fn append_wav(
    bytes: &mut Vec<u8>,
    channels: u16,
    rate: u32,
    samples: &[u8],
) -> Result<(), AllocError> {
    append_head(bytes, channels, rate, samples.len())?;
    bytes.extend_from_slice(samples)
}

/// The samples of a file.
pub(crate) fn samples_in(file: &[u8]) -> &[u8] {
    file.get(44..).unwrap_or(&[])
}

/// Whether a file is the canonical one of these channels, this rate and its samples.
pub(crate) fn is_canonical(
    alloc: Global,
    file: &[u8],
    channels: u16,
    rate: u32,
) -> Result<bool, AllocError> {
    let mut canonical = Vec::new(alloc);
    append_wav(&mut canonical, channels, rate, samples_in(file))?;
    Ok(canonical.as_slice() == file)
}

/// How many channels a canonical file has.
pub(crate) fn channels_in(file: &[u8]) -> u16 {
    match (file.get(22), file.get(23)) {
        (Some(low), Some(high)) => u16::from_le_bytes([*low, *high]),
        _ => 0,
    }
}

/// The sample of this number.
pub(crate) fn sample_at(samples: &[u8], number: usize) -> Option<i16> {
    let place = number.wrapping_mul(2);
    match (samples.get(place), samples.get(place.wrapping_add(1))) {
        (Some(low), Some(high)) => Some(i16::from_le_bytes([*low, *high])),
        _ => None,
    }
}
