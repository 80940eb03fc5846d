//! The state of a stream, and which calls it admits.
ghost use Rattle.std.specs.Prelude.{◌≡◌, false, OnOk};
ghost use Rattle.pcm_stream.specs.Direction.{is_capture};
ghost use Rattle.pcm_stream.specs.Status.{is_refusal, nothing_found};

use crate::direction::Direction;
use pcm_states::{Call, Facts, State, next};
use snd_base::{PcmError, XrunWhy};

/// The state of a stream, and whether its gate has stopped it. A stopped stream stays stopped.
#[derive(Clone, Copy, Debug, PartialEq, Eq)]
pub struct Status {
    pub state: State,
    pub stopped: bool,
}

impl Status {
    ghost use Rattle.pcm_stream.specs.Status.{in_state, is_moving, at_open, refusal_of, refused_by, stopped_in};

    /// A stream that was just opened.
    pub fn at_open() -> Status
        ensures { result ≡ at_open }
    {
        Status {
            state: State::Open,
            stopped: false,
        }
    }

    /// Tests whether a call may be made in this state, before it does anything.
    ///
    /// `Stopped` comes exactly where the stream was stopped. Otherwise the state table (`pcm_states::next`) decides, by
    /// what holds whatever the call finds: `NoDevice` once the card is gone, `BadState` for a call that the state doesn't
    /// allow, `NotSupported`, and `Xrun(Already)` for a call that moves frames or loads the position in XRUN.
    #[inline(always)]
    pub fn admit(&self, direction: Direction, call: Call) -> Result<(), PcmError>
        ensures answer { result ≡ refused_by (refusal_of direction self.now call) }
        ensures unstopped { OnOk result (self.now.stopped ≡ false) }
    {
        if self.stopped {
            return Err(PcmError::Stopped);
        }
        match next(self.state, call, found_nothing(direction)).answer {
            Err(error) if is_refusal(error) => Err(error),
            _ => Ok(()),
        }
    }

    /// Whether the stream moves frames: it is in RUNNING or DRAINING.
    pub fn is_moving(&self) -> bool
        ensures { result ≡ is_moving self.now.state }
    {
        match self.state {
            State::Running | State::Draining => true,
            _ => false,
        }
    }

    /// The stream in another state.
    pub fn in_state(&self, state: State) -> Status
        ensures { result ≡ in_state self.now state }
    {
        Status { state, ..*self }
    }

    /// The stream after its gate has stopped it.
    pub fn stop(&self) -> Status
        ensures { result ≡ stopped_in self.now }
    {
        Status {
            stopped: true,
            ..*self
        }
    }
}

/// What a call has found before it does anything.
fn found_nothing(direction: Direction) -> Facts
    ensures { result ≡ nothing_found direction }
{
    Facts {
        capture: direction.is_capture(),
        queued: 1,
        starts: false,
        gone: false,
        over: None,
        late: None,
    }
}

/// Whether an answer of the state table holds whatever the call finds.
fn is_refusal(error: PcmError) -> bool
    ensures { result ≡ is_refusal error }
{
    match error {
        PcmError::BadState | PcmError::NoDevice | PcmError::NotSupported => true,
        PcmError::Xrun(XrunWhy::Already) => true,
        _ => false,
    }
}
