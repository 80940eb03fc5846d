//! Sums of what segments placed, at some frames of the card. A sum is interleaved with those of the frame's other channels, and
//! wraps where it passes 64 bits, which no total of a report's segments does.
ghost use Rattle.std.specs.Int.{int_wrap, w64};
ghost use Rattle.std.specs.Prelude.{◌≡◌, ◌≤◌, ◌<◌, ◌^◌, ◌+◌, ◌*◌, ◌+ℤ◌, All, true, ℕ, length, pos, slice_index, slice_index_or};
ghost use Rattle.dmix_client.specs.Expansion.{expand, frame_entries};
ghost use Rattle.lab_lines.specs.Limits.{IsScript};
ghost use Rattle.lab_check.specs.Late.{entries_of_segment};
ghost use Rattle.lab_check.specs.Segments.{frames_taken, is_right_segment};
ghost use Rattle.lab_check.specs.Sums.{IsSummed, entries_of_segments};

use crate::channels::bound_by;
use crate::sources::source_of;
use bindings::Bindings;
use lab_lines::Script;
use snd_base::Segment;
use wav_io::Wav;

/// A sum and a sample more. It wraps where it passes 64 bits.
#[inline(always)]
fn sum_with(sum: i64, sample: i16) -> i64
    ensures { result ≡ int_wrap w64 (sum +ℤ sample) }
{
    sum.wrapping_add(i64::from(sample))
}

/// Adds samples of a frame to the sums of a frame of the card, which are `channels` of them from `row * channels` on. Of the
/// file's `samples`, which are interleaved, the frame is the one from `at` on; its first `places` samples by rising card channel
/// are added.
fn add_frame(
    sums: &mut [i64],
    row: usize,
    channels: u8,
    bindings: Bindings,
    places: u8,
    samples: &[i16],
    at: usize,
)
    requires places { places ≤ length bindings }
    requires channels { (q : ℕ) → q < length bindings → slice_index bindings q < channels }
    requires row { (row + 1) * channels ≤ length sums.old }
    requires samples { at + length bindings ≤ length samples.now }
    ensures { (member from : ℕ) → IsSummed channels from
        (frame_entries member bindings (λ q. slice_index_or samples.now (at + q) (pos 0)) places
        (from + row)) sums.old sums.new }
{
    let base = row * channels as usize;
    for place in 0..places {
        let client = bindings.rising(place);
        let channel = bindings.card_channel(client);
        let index = base + channel as usize;
        sums[index] = sum_with(sums[index], samples[at + client as usize]);
    }
}

/// How many frames of its client a segment takes samples of.
fn frames_taken(segment: &Segment) -> u64
    requires { segment.now.whole + 1 < 2 ^ 64 }
    ensures { result ≡ frames_taken segment.now }
{
    if segment.part == 0 {
        segment.whole
    } else {
        segment.whole + 1
    }
}

/// Adds what a segment placed to the sums of `frames` frames of the card from the frame `from` on. Its client has these bindings
/// and samples. What it placed at other frames isn't looked at.
fn add_segment(
    sums: &mut [i64],
    from: u64,
    frames: u64,
    channels: u8,
    segment: &Segment,
    bindings: Bindings,
    samples: &[i16],
)
    requires sums { frames * channels ≡ length sums.old }
    requires channels { (q : ℕ) → q < length bindings → slice_index bindings q < channels }
    requires part { segment.now.part < length bindings }
    requires whole { segment.now.source + segment.now.whole + 1 < 2 ^ 63 }
    requires samples { (segment.now.source + frames_taken segment.now) * length bindings
        ≤ length samples.now }
    requires before { from + frames < 2 ^ 63 }
    ensures { (member : ℕ) → IsSummed channels from
        (expand member segment.now samples.now bindings) sums.old sums.new }
{
    let count = u64::from(bindings.len());
    let taken = frames_taken(segment);
    let skipped = from.saturating_sub(segment.card);
    let late = segment.card.saturating_sub(from);
    if frames <= late || taken <= skipped {
        return;
    }
    let end = taken.min(skipped + (frames - late));
    for j in skipped..end {
        let row = late + (j - skipped);
        let places = if j < segment.whole {
            bindings.len()
        } else {
            segment.part
        };
        let at = (segment.source + j) * count;
        add_frame(
            sums,
            row as usize,
            channels,
            bindings,
            places,
            samples,
            at as usize,
        );
    }
}

/// Adds what a segment of a client placed to the sums of `frames` frames of the card from the frame `from` on.
fn add_part(
    sums: &mut [i64],
    from: u64,
    frames: u64,
    script: &Script,
    wavs: &[Wav],
    client: u32,
    segment: &Segment,
)
    requires sums { frames * script.now.card.channels ≡ length sums.old }
    requires script { IsScript script.now }
    requires right { is_right_segment script.now wavs.now (client, segment.now) ≡ true }
    requires before { from + frames < 2 ^ 63 }
    ensures { IsSummed script.now.card.channels from
        (entries_of_segment script.now wavs.now client segment.now) sums.old sums.new }
{
    if let Some((line, wav)) = source_of(script, wavs, client) {
        let bindings = bound_by(line, wav);
        let samples = wav.samples.as_slice();
        add_segment(
            sums,
            from,
            frames,
            script.card.channels,
            segment,
            bindings,
            samples,
        );
    }
}

/// Adds what all segments placed to the sums of `frames` frames of the card from the frame `from` on.
pub(crate) fn add_parts(
    sums: &mut [i64],
    from: u64,
    frames: u64,
    script: &Script,
    wavs: &[Wav],
    segments: &[(u32, Segment)],
)
    requires sums { frames * script.now.card.channels ≡ length sums.old }
    requires script { IsScript script.now }
    requires right { All (λ segment. is_right_segment script.now wavs.now segment ≡ true)
        segments.now }
    requires before { from + frames < 2 ^ 63 }
    ensures { IsSummed script.now.card.channels from
        (entries_of_segments script.now wavs.now segments.now) sums.old sums.new }
{
    for (client, segment) in segments {
        add_part(sums, from, frames, script, wavs, *client, segment);
    }
}
