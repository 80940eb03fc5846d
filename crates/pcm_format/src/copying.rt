//! Frames that are copied from one buffer into another.
ghost use Rattle.std.specs.Prelude.{◌≡◌, ◌<◌, length};
ghost use Rattle.pcm_format.specs.Places.{HoldsFrame, HoldsRange, SameFrame, SameFrames, ChangesOnlyFrame, ChangesOnly};

use crate::areas::Areas;

// Copies one frame, channel by channel.
fn copy_frame(
    from: &[i16],
    from_areas: &Areas,
    first: u32,
    to: &mut [i16],
    to_areas: &Areas,
    at: u32,
)
    requires from_frame { first < from_areas.now.frames }
    requires from_places { HoldsFrame from_areas.now (length from.now) first }
    requires to_frame { at < to_areas.now.frames }
    requires to_places { HoldsFrame to_areas.now (length to.old) at }
    requires channels { from_areas.now.channels ≡ to_areas.now.channels }
    ensures copied { SameFrame from.now from_areas.now first to.new to_areas.now at }
    ensures others { ChangesOnlyFrame to_areas.now at to.old to.new }
{
    for channel in 0..to_areas.channels {
        to[to_areas.place(at, channel)] = from[from_areas.place(first, channel)];
    }
}

/// Copies `count` frames from one buffer, from frame `first` on, into another, from frame `at` on.
///
/// The buffers may have different layouts. The caller has buffers that hold these frames
/// (`Areas::holds`), with the same number of channels. All else in `to` stays as it was. This is ALSA's `snd_pcm_areas_copy`
/// for samples of 16 bits (alsa/pcm.h).
pub fn copy_frames(
    from: &[i16],
    from_areas: &Areas,
    first: u32,
    to: &mut [i16],
    to_areas: &Areas,
    at: u32,
    count: u32,
)
    requires from_held { HoldsRange from_areas.now (length from.now) first count }
    requires to_held { HoldsRange to_areas.now (length to.old) at count }
    requires channels { from_areas.now.channels ≡ to_areas.now.channels }
    ensures copied { SameFrames from.now from_areas.now first to.new to_areas.now at count }
    ensures others { ChangesOnly to_areas.now at count to.old to.new }
{
    for i in 0..count {
        copy_frame(from, from_areas, first + i, to, to_areas, at + i);
    }
}
