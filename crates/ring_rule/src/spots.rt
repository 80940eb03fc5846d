//! Where the words of a ring are.
ghost use Rattle.std.specs.Prelude.{◌≡◌, ◌/◌, ◌<◌, ◌≤◌, ◌↔◌, IsTrue, true, IfSome, IfNone};
ghost use Rattle.snd_base.specs.Places.{lap};
ghost use Rattle.ring_rule.specs.Spots.{IsLapStart, IsSpot};

use snd_base::Geometry;

/// Where the word of a frame and channel is: the frame's lap, and the word's index among the ring's words.
#[derive(Clone, Copy, Debug, PartialEq, Eq)]
pub struct Spot {
    pub lap: u64,
    pub index: usize,
}

/// A lap that words can have, and its first frame. A seat keeps the lap in which it stepped last, so that it divides only
/// where it goes to another one.
#[derive(Clone, Copy, Debug, PartialEq, Eq)]
pub struct LapStart {
    pub lap: u64,
    pub frame: u64,
}

impl LapStart {
    /// The ring's first lap.
    pub fn first(geometry: &Geometry) -> LapStart
        ensures { IsLapStart geometry.now result }
    {
        LapStart {
            lap: geometry.first_lap as u64,
            frame: geometry.first_frame(),
        }
    }

    /// The lap of a frame. There is none exactly where no word can have it: it is 4294967295 or a later one. It divides, and
    /// is for a frame in another lap than the seat's.
    #[inline(always)]
    pub fn of_frame(geometry: &Geometry, frame: u64) -> Option<LapStart>
        ensures some { IfSome result
            (λ s. IsLapStart geometry.now s × (lap geometry.now frame ≡ s.lap)) }
        ensures none { IfNone result (4294967295 ≤ lap geometry.now frame) }
    {
        let lap = far_lap(geometry.frames, frame);
        if lap >= 4294967295 {
            return None;
        }
        Some(LapStart {
            lap,
            frame: lap * geometry.frames as u64,
        })
    }

    /// Whether this is a lap that the words of such a ring can have, with its first frame, as the calls below ask.
    pub fn is_of(&self, geometry: &Geometry) -> bool
        ensures { IsTrue result ↔ IsLapStart geometry.now self.now }
    {
        self.lap < 4294967295 && self.frame == self.lap * geometry.frames as u64
    }

    /// Whether a frame is in this lap.
    #[inline(always)]
    pub fn has(&self, geometry: &Geometry, frame: u64) -> bool
        requires { IsLapStart geometry.now self.now }
        ensures { (result ≡ true) ↔ (lap geometry.now frame ≡ self.now.lap) }
    {
        frame.wrapping_sub(self.frame) < geometry.frames as u64
    }

    /// Where the word of a frame and channel is, in this lap or another one.
    #[inline(always)]
    pub fn spot(&self, geometry: &Geometry, frame: u64, channel: u8) -> Spot
        requires start { IsLapStart geometry.now self.now }
        requires channel { channel < geometry.now.channels }
        ensures { IsSpot geometry.now frame channel result }
    {
        if !self.has(geometry, frame) {
            return far_spot(geometry, frame, channel);
        }
        self.spot_in_lap(geometry, frame, channel)
    }

    /// Where the word of a frame of this lap and a channel is. It tests nothing.
    #[inline(always)]
    pub fn spot_in_lap(&self, geometry: &Geometry, frame: u64, channel: u8) -> Spot
        requires start { IsLapStart geometry.now self.now }
        requires channel { channel < geometry.now.channels }
        requires in_lap { lap geometry.now frame ≡ self.now.lap }
        ensures { IsSpot geometry.now frame channel result }
    {
        let slot = frame - self.frame;
        Spot {
            lap: self.lap,
            index: slot as usize * geometry.channels as usize + channel as usize + 1,
        }
    }
}

/// The lap of a far frame, in a ring of so many frames. It is divided for here, so that the loops that place and take samples have
/// no division in them; it takes numbers, so that these loops have no geometry in memory.
#[cold]
#[inline(never)]
fn far_lap(frames: u32, frame: u64) -> u64
    requires { 1 ≤ frames }
    ensures { result ≡ frame / frames }
{
    frame / frames as u64
}

/// Where the word of a far frame is.
#[cold]
#[inline(never)]
fn far_spot(geometry: &Geometry, frame: u64, channel: u8) -> Spot
    requires { channel < geometry.now.channels }
    ensures { IsSpot geometry.now frame channel result }
{
    Spot {
        lap: geometry.lap(frame),
        index: geometry.word_index(frame, channel) + 1,
    }
}
