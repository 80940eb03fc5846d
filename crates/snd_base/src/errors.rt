//! The refusals of PCM calls, with their error numbers: those of errno.h that mean such refusals in ALSA's PCM
//! interface. When each comes is this project's own rule.
ghost use Rattle.std.specs.Prelude.{◌≡◌};
ghost use Rattle.snd_base.specs.declared.errors.PcmError.TheVariants.{Memory};
ghost use Rattle.snd_base.specs.Errors.{code_of};

use std::alloc::{AllocError, AllocFailed};
use std::fmt;
use thiserror::Error;

/// Why a stream left the state RUNNING or DRAINING (ALSA's EPIPE; alsa/pcm.h, `SND_PCM_STATE_XRUN`).
///
/// Frames are absolute numbers. In `Late` and `Overtaken` the field `seen` is the word of the ring that was seen
/// there, in `Avail` it is the position in frames.
#[derive(Clone, Copy, Debug, PartialEq, Eq, Error)]
pub enum XrunWhy {
    /// A playback start with nothing written.
    Empty,
    /// The stream was in the state XRUN when the call began.
    Already,
    /// As many frames were available as the stop threshold says, or more: `avail` frames at the position `seen`.
    Avail { avail: u64, seen: u64 },
    /// The card had taken this frame and channel before the sample came.
    Late { frame: u64, channel: u8, seen: u64 },
    /// The card had stored a later frame over this one before it was read.
    Overtaken { frame: u64, channel: u8, seen: u64 },
}

impl XrunWhy {
    /// What happened, without the numbers that are printed with it.
    fn text(&self) -> &'static str {
        match self {
            XrunWhy::Empty => "nothing to play",
            XrunWhy::Already => "the xrun is not recovered yet",
            XrunWhy::Avail { .. } => "frames available",
            XrunWhy::Late { .. } => "late",
            XrunWhy::Overtaken { .. } => "overtaken",
        }
    }
}

impl fmt::Display for XrunWhy {
    fn fmt<W: fmt::Write>(&self, f: &mut fmt::Formatter<W>) -> fmt::Result {
        match self {
            XrunWhy::Avail { avail, seen } => {
                write!(f, "{avail} frames available at position {seen}")
            }
            XrunWhy::Late {
                frame,
                channel,
                seen,
            }
            | XrunWhy::Overtaken {
                frame,
                channel,
                seen,
            } => {
                let text = self.text();
                write!(f, "{text} at frame {frame}, channel {channel}: word {seen}")
            }
            _ => f.write_str(self.text()),
        }
    }
}

/// Which argument is invalid (ALSA's EINVAL).
#[derive(Clone, Copy, Debug, PartialEq, Eq, Error)]
pub enum Why {
    /// No configuration of the hardware parameters fits.
    Config,
    /// The least number of available frames, `avail_min`, is 0.
    AvailMinZero,
    /// The start threshold is not from 1 to the boundary.
    StartRange,
    /// The stop threshold is not from 1 to the boundary.
    StopRange,
    /// No channel is bound.
    BindingsEmpty,
    /// More than 8 channels are bound.
    BindingsTooMany,
    /// A channel is bound to this channel, which the card does not have.
    BindingRange(u32),
    /// Two channels are bound to this channel of the card.
    BindingTwice(u32),
}

impl Why {
    /// What is invalid, without the channel that is printed with it.
    fn text(&self) -> &'static str {
        match self {
            Why::Config => "no such configuration",
            Why::AvailMinZero => "avail_min is 0",
            Why::StartRange => "the start threshold is out of range",
            Why::StopRange => "the stop threshold is out of range",
            Why::BindingsEmpty => "no bindings",
            Why::BindingsTooMany => "too many bindings",
            Why::BindingRange(_) => "no card channel",
            Why::BindingTwice(_) => "a card channel is bound twice",
        }
    }
}

impl fmt::Display for Why {
    fn fmt<W: fmt::Write>(&self, f: &mut fmt::Formatter<W>) -> fmt::Result {
        match self {
            Why::BindingRange(channel) => write!(f, "no card channel {channel}"),
            Why::BindingTwice(channel) => write!(f, "card channel {channel} is bound twice"),
            _ => f.write_str(self.text()),
        }
    }
}

/// The refusals of PCM calls. `code` gives the error number of each (errno.h).
#[derive(Clone, Copy, Debug, PartialEq, Eq, Error)]
pub enum PcmError {
    /// EBADFD: the call is not allowed in the stream's state.
    BadState,
    /// EPIPE: an underrun or overrun.
    Xrun(XrunWhy),
    /// EAGAIN: nothing can be moved now.
    Again,
    /// ENODEV: the card is gone.
    NoDevice,
    /// EINVAL: an argument is out of range.
    Invalid(Why),
    /// EBUSY: no place is free before the position `until`, where one is known; `seen` is the position now, in frames.
    Busy { until: Option<u64>, seen: u64 },
    /// EIO: the card cannot do this.
    NotSupported,
    /// EOVERFLOW: the frame's lap of the ring does not fit its field any more.
    LapEnd,
    /// EINTR: the client was stopped.
    Stopped,
    /// ENOMEM: no memory was left.
    Memory,
}

impl PcmError {
    /// What is refused, without what is printed after it.
    fn text(&self) -> &'static str {
        match self {
            PcmError::BadState => "not in this state",
            PcmError::Xrun(_) => "xrun",
            PcmError::Again => "try again",
            PcmError::NoDevice => "the card is gone",
            PcmError::Invalid(_) => "invalid",
            PcmError::Busy { .. } => "busy",
            PcmError::NotSupported => "not supported",
            PcmError::LapEnd => "the last lap has ended",
            PcmError::Stopped => "stopped",
            PcmError::Memory => "out of memory",
        }
    }

    /// The error number, as errno.h has it. A call of the ALSA library answers such a number with a minus sign.
    pub fn code(&self) -> u32
        ensures { result ≡ code_of self.now }
    {
        match self {
            PcmError::BadState => 77,
            PcmError::Xrun(_) => 32,
            PcmError::Again => 11,
            PcmError::NoDevice => 19,
            PcmError::Invalid(_) => 22,
            PcmError::Busy { .. } => 16,
            PcmError::NotSupported => 5,
            PcmError::LapEnd => 75,
            PcmError::Stopped => 4,
            PcmError::Memory => 12,
        }
    }
}

impl fmt::Display for PcmError {
    fn fmt<W: fmt::Write>(&self, f: &mut fmt::Formatter<W>) -> fmt::Result {
        match self {
            PcmError::Xrun(why) => write!(f, "xrun: {why}"),
            PcmError::Invalid(why) => write!(f, "invalid: {why}"),
            PcmError::Busy { until, seen } => write!(f, "busy until {until:?}, seen {seen}"),
            _ => f.write_str(self.text()),
        }
    }
}

impl From<AllocError> for PcmError {
    ghost from_gives = { λ _ e. e ≡ Memory };

    fn from(_refused: AllocError) -> PcmError {
        PcmError::Memory
    }
}

impl<T: Drop> From<AllocFailed<T>> for PcmError {
    ghost from_gives = { λ _ e. e ≡ Memory };

    fn from(_refused: AllocFailed<T>) -> PcmError {
        PcmError::Memory
    }
}
