//! The layout of a buffer of samples.

/// The layout of a buffer of samples: `frames` frames of `channels` samples each, frame by frame
/// where it is interleaved, and channel by channel where it isn't.
///
/// These are the two layouts of ALSA's areas (`SND_PCM_ACCESS_RW_INTERLEAVED` and
/// `SND_PCM_ACCESS_RW_NONINTERLEAVED` of alsa/pcm.h).
#[derive(Clone, Copy, Debug, PartialEq, Eq)]
pub struct Areas {
    /// How many samples a frame has, one for each channel.
    pub channels: u8,
    /// How many frames the buffer has.
    pub frames: u32,
    /// Whether the samples of a frame are side by side, and not those of a channel.
    pub interleaved: bool,
}

impl Areas {
    ghost use Rattle.std.specs.Prelude.{◌≡◌, ◌<◌, ◌↔◌, IsTrue};
    ghost use Rattle.pcm_format.specs.Places.{HoldsRange, place_of};

    /// The index of a sample in the buffer: `frame * channels + channel` where it is interleaved, and
    /// `channel * frames + frame` where it isn't.
    ///
    /// The caller has a frame below `frames` and a channel below `channels`.
    pub fn place(&self, frame: u32, channel: u8) -> usize
        requires frame_in_range { frame < self.now.frames }
        requires channel_in_range { channel < self.now.channels }
        ensures { result ≡ place_of self.now frame channel }
    {
        if self.interleaved {
            frame as usize * self.channels as usize + channel as usize
        } else {
            channel as usize * self.frames as usize + frame as usize
        }
    }

    /// Whether a buffer of so many samples has `count` frames from frame `first` on, as `copy_frames` and `silence_frames`
    /// ask: they are frames of this layout, and each of their samples has its place in the buffer.
    pub fn holds(&self, samples: usize, first: u32, count: u32) -> bool
        ensures { IsTrue result ↔ HoldsRange self.now samples first count }
    {
        if count > self.frames || first > self.frames - count {
            return false;
        }
        if count == 0 || self.channels == 0 {
            return true;
        }
        // No place of these frames is past that of the last frame and channel.
        self.place(first + (count - 1), self.channels - 1) < samples
    }
}
