//! The samples that a card captures.
ghost use Rattle.std.specs.Prelude.{◌≡◌, ◌+◌, ◌*◌, ◌^◌, ◌<◌, ◌≤◌, ◌++◌, Some, drop, length, pos, replicate, take, vec_capacity, vec_len};
ghost use Rattle.std.specs.Option.{option_copied};
ghost use Rattle.lab_card.specs.Captures.{captured_frame, captured_frames, sample_in};

use wav_io::Wav;

/// Appends so many samples of silence, for which there is room.
pub(crate) fn push_silence(samples: &mut Vec<i16>, count: usize)
    requires { vec_len samples.old + count ≤ vec_capacity samples.old }
    ensures items { samples.new.items ≡ samples.old.items ++ replicate count (pos 0) }
    ensures len { vec_len samples.new ≡ vec_len samples.old + count }
    ensures room { vec_capacity samples.old ≤ vec_capacity samples.new }
{
    let count = samples.len() + count;
    samples.resize(count, 0).unwrap();
}

/// Appends samples, for which there is room.
fn push_samples(samples: &mut Vec<i16>, more: &[i16])
    requires { vec_len samples.old + length more.now ≤ vec_capacity samples.old }
    ensures items { samples.new.items ≡ samples.old.items ++ more.now }
    ensures len { vec_len samples.new ≡ vec_len samples.old + length more.now }
    ensures room { vec_capacity samples.old ≤ vec_capacity samples.new }
{
    samples.extend_from_slice(more).unwrap();
}

/// So many of some samples from a frame on, or those that there are.
fn part_from(samples: &[i16], from: u64, channels: u8, count: usize) -> &[i16]
    ensures part { result.now ≡ take count (drop (from * channels) samples.now) }
    ensures few { length result.now ≤ count }
{
    let start = (from as usize).saturating_mul(channels as usize);
    let first = start.min(samples.len());
    let size = count.min(samples.len() - first);
    &samples[first..first + size]
}

/// The sample of a file at a frame, counted from the file's first, and a channel: 0 where the file has none.
fn sample_in(wav: &Wav, frame: u64, channel: u8) -> i16
    ensures { result ≡ sample_in wav.now frame channel }
{
    let samples = wav.samples.as_slice();
    let channels = wav.channels as usize;
    if channel as usize >= channels || frame >= (samples.len() / channels) as u64 {
        return 0;
    }
    samples[frame as usize * channels + channel as usize]
}

/// Appends the samples of a file's frame, one for each channel of the card, for which there is room.
fn push_frame(captured: &mut Vec<i16>, wav: &Wav, frame: u64, channels: u8)
    requires { vec_len captured.old + channels ≤ vec_capacity captured.old }
    ensures items { captured.new.items ≡ captured.old.items
        ++ captured_frame (Some wav.now) channels frame }
    ensures len { vec_len captured.new ≡ vec_len captured.old + channels }
    ensures room { vec_capacity captured.old ≤ vec_capacity captured.new }
{
    for channel in 0..channels {
        captured.push(sample_in(wav, frame, channel)).unwrap();
    }
}

/// Makes a list of the samples of so many frames of a file from one on, interleaved and one by one, for which it has room.
fn capture_file(captured: &mut Vec<i16>, wav: &Wav, from: u64, frames: usize, channels: u8)
    requires room { frames * channels ≤ vec_capacity captured.old }
    requires fits { from + frames < 2 ^ 64 }
    ensures items { captured.new.items ≡ captured_frames (Some wav.now) channels from frames }
    ensures len { vec_len captured.new ≡ frames * channels }
    ensures room { vec_capacity captured.old ≤ vec_capacity captured.new }
{
    captured.clear();
    for index in 0..frames {
        push_frame(captured, wav, from + index as u64, channels);
    }
}

/// Makes a list of the samples of so many frames from one on of a file with the card's channels, for which it has room: they are
/// copied at once, and silence follows those that the file has.
fn capture_part(captured: &mut Vec<i16>, wav: &Wav, from: u64, frames: usize, channels: u8)
    requires same { wav.now.channels ≡ channels }
    requires room { frames * channels ≤ vec_capacity captured.old }
    ensures items { captured.new.items ≡ captured_frames (Some wav.now) channels from frames }
    ensures len { vec_len captured.new ≡ frames * channels }
    ensures room { vec_capacity captured.old ≤ vec_capacity captured.new }
{
    let count = frames * channels as usize;
    let part = part_from(wav.samples.as_slice(), from, channels, count);
    captured.clear();
    push_samples(captured, part);
    push_silence(captured, count - part.len());
}

/// Makes a list of the samples of so many frames of a file from one on, interleaved, for which it has room: at once where the file
/// has the card's channels, and else one by one.
fn capture_wav(captured: &mut Vec<i16>, wav: &Wav, from: u64, frames: usize, channels: u8)
    requires room { frames * channels ≤ vec_capacity captured.old }
    requires fits { from + frames < 2 ^ 64 }
    ensures items { captured.new.items ≡ captured_frames (Some wav.now) channels from frames }
    ensures len { vec_len captured.new ≡ frames * channels }
    ensures room { vec_capacity captured.old ≤ vec_capacity captured.new }
{
    if wav.channels == channels as u16 {
        capture_part(captured, wav, from, frames, channels);
    } else {
        capture_file(captured, wav, from, frames, channels);
    }
}

/// Makes a list of the captured samples of so many frames from one on, interleaved, for which it has room.
pub(crate) fn capture_frames(
    captured: &mut Vec<i16>,
    capture: Option<&Wav>,
    from: u64,
    frames: usize,
    channels: u8,
)
    requires room { frames * channels ≤ vec_capacity captured.old }
    requires fits { from + frames < 2 ^ 64 }
    ensures items { captured.new.items
        ≡ captured_frames (option_copied capture.entry) channels from frames }
    ensures len { vec_len captured.new ≡ frames * channels }
    ensures room { vec_capacity captured.old ≤ vec_capacity captured.new }
{
    match capture {
        Some(wav) => capture_wav(captured, wav, from, frames, channels),
        None => {
            captured.clear();
            push_silence(captured, frames * channels as usize);
        }
    }
}
