//! Which way the frames of a stream go.
ghost use Rattle.std.specs.Prelude.{◌≡◌};
ghost use Rattle.pcm_stream.specs.Direction.{is_capture};

/// Which way the frames of a stream go, with the names and numbers of ALSA (`snd_pcm_stream_t` of alsa/pcm.h).
#[derive(Clone, Copy, Debug, PartialEq, Eq)]
pub enum Direction {
    /// From the program to the card.
    Playback = 0,
    /// From the card to the program.
    Capture,
}

impl Direction {
    /// Whether frames are captured.
    pub fn is_capture(self) -> bool
        ensures { result ≡ is_capture self }
    {
        match self {
            Direction::Playback => false,
            Direction::Capture => true,
        }
    }
}
