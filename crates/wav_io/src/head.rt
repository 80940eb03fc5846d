//! The canonical head of a WAV file.

ghost use Rattle.std.specs.Prelude.{◌≡◌, ℕ, ◌+◌, ◌*◌, ◌^◌, ◌<◌, ◌≤◌, ◌++◌, length, Ok};
ghost use Rattle.std.specs.List.{flat_map};
ghost use Rattle.wav_io.specs.Canonical.{head, head_with, open_head, sample_bytes, HasFile};
ghost use Rattle.wav_io.specs.Reading.{most_bytes, wav_file};
ghost use Rattle.wav_io.specs.Sound.{Sound};

/// The head with these two sizes, of what follows `RIFF` and its size, and of the samples.
fn head_bytes(riff: u32, channels: u16, rate: u32, size: u32) -> [u8; 44]
    requires few_channels { channels ≤ 8 }
    requires low_rate { rate < 2 ^ 28 }
    ensures { result ≡ head_with riff channels rate size }
{
    let frame = channels * 2;
    let [a0, a1, a2, a3] = riff.to_le_bytes();
    let [c0, c1] = channels.to_le_bytes();
    let [r0, r1, r2, r3] = rate.to_le_bytes();
    let [s0, s1, s2, s3] = (rate * u32::from(frame)).to_le_bytes();
    let [f0, f1] = frame.to_le_bytes();
    let [d0, d1, d2, d3] = size.to_le_bytes();
    [
        b'R', b'I', b'F', b'F', a0, a1, a2, a3, b'W', b'A', b'V', b'E', b'f', b'm', b't', b' ', 16,
        0, 0, 0, 1, 0, c0, c1, r0, r1, r2, r3, s0, s1, s2, s3, f0, f1, 16, 0, b'd', b'a', b't',
        b'a', d0, d1, d2, d3,
    ]
}

/// The canonical head of a WAV file (RIFF WAVE): the 44 bytes before the samples.
///
/// These are `RIFF`, the size of what follows it, `WAVE`, a format chunk of 16 bytes for 16-bit PCM, and the head of a
/// data chunk of `frames` frames, that is of `frames * channels * 2` bytes. All numbers are little-endian.
/// There are 1 to 8 `channels`. `rate` is in frames per second (Hz), from 1 to `2^28 - 1`. The size after `RIFF`,
/// `frames * channels * 2 + 36` bytes, is below `2^32`. `can_have_header` tests this. Takes no memory.
pub fn header(channels: u16, rate: u32, frames: u32) -> [u8; 44]
    requires some_channel { 1 ≤ channels }
    requires few_channels { channels ≤ 8 }
    requires some_rate { 1 ≤ rate }
    requires low_rate { rate < 2 ^ 28 }
    requires size { frames * channels * 2 + 36 < 2 ^ 32 }
    ensures { result ≡ head channels rate frames }
{
    let size = frames * u32::from(channels) * 2;
    head_bytes(36 + size, channels, rate, size)
}

/// The head of a WAV file that isn't finished: that of `header` with 4,294,967,295 for both sizes, so that the file is read
/// as the frames that are there.
///
/// There are 1 to 8 `channels`. `rate` is in frames per second (Hz), from 1 to `2^28 - 1`. Takes no memory.
pub fn open_header(channels: u16, rate: u32) -> [u8; 44]
    requires some_channel { 1 ≤ channels }
    requires few_channels { channels ≤ 8 }
    requires some_rate { 1 ≤ rate }
    requires low_rate { rate < 2 ^ 28 }
    ensures head { result ≡ open_head channels rate }

    // What follows it is read as it is so far.
    ensures so_far { (s : Sound) → HasFile s → s.channels ≡ channels → s.rate ≡ rate
        → length s.samples * 2 + 44 ≤ most_bytes
        → wav_file (result ++ flat_map sample_bytes s.samples) ≡ Ok s }
{
    head_bytes(u32::MAX, channels, rate, u32::MAX)
}
