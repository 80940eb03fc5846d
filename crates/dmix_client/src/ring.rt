//! The local ring: the frame with a number is in the slot of that number mod the buffer size.
ghost use Rattle.std.specs.Prelude.{◌≡◌, ℕ, ◌+◌, ◌*◌, ◌%◌, ◌^◌, ◌<◌, ◌≤◌, drop, length, take};
ghost use Rattle.dmix_client.specs.Ring.{with_frames, written_over};

use crate::commit::slot_of;

/// Writes samples over those of a ring from a place on.
fn write_over(ring: &mut [i16], place: usize, samples: &[i16])
    requires { place + length samples.now ≤ length ring.old }
    ensures { ring.new ≡ written_over ring.old place samples.now }
{
    ring[place..place + samples.len()].copy_from_slice(samples);
}

/// Writes `count` of some interleaved frames, from the one at `first` on, over those of a ring from a slot on.
fn write_frames(ring: &mut [i16], slot: u64, channels: u8, samples: &[i16], first: u64, count: u64)
    requires room { (slot + count) * channels ≤ length ring.old }
    requires held { (first + count) * channels ≤ length samples.now }
    ensures { ring.new ≡ written_over ring.old (slot * channels)
        (take (count * channels) (drop (first * channels) samples.now)) }
{
    let place = slot as usize * channels as usize;
    let from = first as usize * channels as usize;
    let length = count as usize * channels as usize;
    write_over(ring, place, &samples[from..from + length]);
}

/// Stores the first `frames` of some interleaved frames in the ring, as the frames from number `from` on. They are copied
/// in runs, each up to the ring's end at most.
pub(crate) fn store(
    ring: &mut [i16],
    buffer_size: u32,
    channels: u8,
    from: u64,
    samples: &[i16],
    frames: u64,
)
    requires some { 1 ≤ buffer_size }
    requires room { length ring.old ≡ buffer_size * channels }
    requires held { frames * channels ≤ length samples.now }
    ensures stored { ring.new ≡ with_frames buffer_size channels ring.old from samples.now frames }
{
    let mut done = 0;
    while done < frames {
        let slot = slot_of(from, done, buffer_size);
        let run = (frames - done).min(buffer_size as u64 - slot);
        write_frames(ring, slot, channels, samples, done, run);
        done += run;
    }
}
