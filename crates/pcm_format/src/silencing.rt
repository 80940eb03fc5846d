//! Frames of a buffer that are silenced.
ghost use Rattle.std.specs.Prelude.{◌<◌, length};
ghost use Rattle.pcm_format.specs.Places.{HoldsFrame, HoldsRange, IsSilent, AreSilent, ChangesOnlyFrame, ChangesOnly};

use crate::areas::Areas;

// Writes zeros into one frame.
fn silence_frame(to: &mut [i16], areas: &Areas, at: u32)
    requires frame { at < areas.now.frames }
    requires places { HoldsFrame areas.now (length to.old) at }
    ensures silent { IsSilent to.new areas.now at }
    ensures others { ChangesOnlyFrame areas.now at to.old to.new }
{
    for channel in 0..areas.channels {
        to[areas.place(at, channel)] = 0;
    }
}

/// Writes zeros into `count` frames of a buffer, from frame `at` on.
///
/// The caller has a buffer that holds these frames (`Areas::holds`). All else in `to` stays as it was. This is ALSA's
/// `snd_pcm_areas_silence` for samples of 16 bits (alsa/pcm.h).
pub fn silence_frames(to: &mut [i16], areas: &Areas, at: u32, count: u32)
    requires { HoldsRange areas.now (length to.old) at count }
    ensures silent { AreSilent to.new areas.now at count }
    ensures others { ChangesOnly areas.now at count to.old to.new }
{
    for i in 0..count {
        silence_frame(to, areas, at + i);
    }
}
