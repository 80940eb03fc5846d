//! Where a reader finds the first word of a frame. A seat keeps the lap of the frame that it loaded last, so that it divides only
//! where it goes to another one.
ghost use Rattle.std.specs.Prelude.{◌≡◌, ◌-◌, ◌/◌, ◌%◌, ◌<◌, ◌≤◌};
ghost use Rattle.snd_base.specs.Places.{lap};
ghost use Rattle.ring_rule.specs.Spots.{IsLapStart};
ghost use Rattle.ring_rule.specs.Words.{index_of};

use ring_rule::LapStart;
use snd_base::Geometry;

/// The lap of a frame, by the lap in which the seat was.
#[inline(always)]
pub(crate) fn lap_of(start: LapStart, geometry: Geometry, frame: u64) -> LapStart
    requires start { IsLapStart geometry start }
    requires fits { lap geometry frame < 4294967295 }
    ensures start { IsLapStart geometry result }
    ensures lap { result.lap ≡ lap geometry frame }
{
    if frame.wrapping_sub(start.frame) < geometry.frames as u64 {
        start
    } else {
        divided(geometry.frames, frame)
    }
}

/// The lap of a frame, by a division. It is out of line, so that the loop over the frames of one lap is short.
#[inline(never)]
fn divided(frames: u32, frame: u64) -> LapStart
    requires { 1 ≤ frames }
    ensures lap { result.lap ≡ frame / frames }
    ensures frame { result.frame ≡ frame - frame % frames }
{
    LapStart {
        lap: frame / frames as u64,
        frame: frame - frame % frames as u64,
    }
}

/// The index of the word of a frame's first channel, by its lap.
#[inline(always)]
pub(crate) fn first_index(start: LapStart, geometry: Geometry, frame: u64) -> usize
    requires start { IsLapStart geometry start }
    requires lap { start.lap ≡ lap geometry frame }
    ensures { result ≡ index_of geometry frame 0 }
{
    (frame - start.frame) as usize * geometry.channels as usize + 1
}
