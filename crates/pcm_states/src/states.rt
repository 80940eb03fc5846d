//! The states of a PCM stream.
ghost use Rattle.std.specs.Prelude.{◌≡◌, Some};
ghost use Rattle.std.specs.Fmt.{padded};
ghost use Rattle.pcm_states.specs.States.{state_name, state_number};

use std::fmt;

/// The state of a PCM stream, with the names and numbers of ALSA (`snd_pcm_state_t` of alsa/pcm.h).
///
/// It is shown by its name in capitals, as `PREPARED`, which is what ALSA's `snd_pcm_state_name`
/// gives.
#[derive(Clone, Copy, Debug, PartialEq, Eq)]
pub enum State {
    /// Opened, and without hardware parameters.
    Open = 0,
    /// With hardware parameters, and not prepared.
    Setup,
    /// Ready to start.
    Prepared,
    /// Started, and moving frames.
    Running,
    /// Stopped by an underrun of playback or an overrun of capture.
    Xrun,
    /// Playing what is left, and then at its end.
    Draining,
    /// Paused in its run.
    Paused,
    /// Stopped with the hardware's power.
    Suspended,
    /// The card is gone.
    Disconnected,
}

impl State {
    /// The number of the state, from 0 to 8 (`snd_pcm_state_t` of alsa/pcm.h).
    pub fn number(self) -> u32
        ensures { result ≡ state_number self }
    {
        self as u32
    }

    /// The name of the state in capitals (`snd_pcm_state_name` of alsa/pcm.h).
    pub fn name(self) -> &'static str
        ensures { result.now ≡ state_name self }
    {
        match self {
            State::Open => "OPEN",
            State::Setup => "SETUP",
            State::Prepared => "PREPARED",
            State::Running => "RUNNING",
            State::Xrun => "XRUN",
            State::Draining => "DRAINING",
            State::Paused => "PAUSED",
            State::Suspended => "SUSPENDED",
            State::Disconnected => "DISCONNECTED",
        }
    }
}

impl fmt::Display for State {
    ghost output = { λ state. Some (state_name state) };

    ghost styled_output = { λ state spec. Some (padded spec (state_name state)) };

    fn fmt<W: fmt::Write>(&self, f: &mut fmt::Formatter<W>) -> fmt::Result {
        f.pad(self.name())
    }
}
