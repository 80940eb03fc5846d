//! The geometry of a ring.
ghost use Rattle.std.specs.Prelude.{◌≤◌};

/// The shape of a ring of sample words, of playback or of capture.
///
/// `frames` is the ring's length in frames (ALSA's buffer size of the slave), `channels` the number of samples in a
/// frame. Frame numbers are absolute and never wrap: frame f is in slot `f % frames`, in lap `f / frames`. The
/// first frame is the first one of lap `first_lap`.
#[derive(Clone, Copy, Debug, PartialEq, Eq)]
pub struct Geometry {
    pub frames: u32,
    pub channels: u8,
    pub first_lap: u32,
    pub ghost frames_least: { 64 ≤ frames },
    pub ghost frames_most: { frames ≤ 16384 },
    pub ghost channels_least: { 1 ≤ channels },
    pub ghost channels_most: { channels ≤ 8 },
    pub ghost first_lap_most: { first_lap ≤ 4294967294 },
}

impl Geometry {
    ghost use Rattle.std.specs.Prelude.{◌≡◌, ◌<◌, ◌*◌};
    ghost use Rattle.snd_base.specs.Places.{end_frame, first_frame, lap, word_index};

    /// The number of the first frame.
    pub fn first_frame(&self) -> u64
        ensures { result ≡ first_frame self.now }
    {
        self.first_lap as u64 * self.frames as u64
    }

    /// One past the last frame that a ring of this geometry can have: the first frame of lap 4294967295.
    pub fn end_frame(&self) -> u64
        ensures { result ≡ end_frame self.now }
    {
        4294967295 * self.frames as u64
    }

    /// The lap of a frame.
    pub fn lap(&self, frame: u64) -> u64
        ensures { result ≡ lap self.now frame }
    {
        frame / self.frames as u64
    }

    /// Where the word of a frame and channel is among the ring's words: slot by slot, channels in order.
    pub fn word_index(&self, frame: u64, channel: u8) -> usize
        requires { channel < self.now.channels }
        ensures value { result ≡ word_index self.now frame channel }
        ensures within { result < self.now.frames * self.now.channels }
    {
        (frame % self.frames as u64) as usize * self.channels as usize + channel as usize
    }
}
