//! The calls that a state admits or refuses, what they found, and what comes of them.
use crate::states::State;
use snd_base::{PcmError, XrunWhy};

/// A call on a PCM stream, by the function of alsa/pcm.h that it represents.
#[derive(Clone, Copy, Debug, PartialEq, Eq)]
pub enum Call {
    /// `snd_pcm_hw_params`.
    HwParams,
    /// `snd_pcm_hw_free`.
    HwFree,
    /// `snd_pcm_sw_params`.
    SwParams,
    /// `snd_pcm_prepare`.
    Prepare,
    /// `snd_pcm_start`.
    Start,
    /// `snd_pcm_writei`, `snd_pcm_readi` and what else moves frames.
    Transfer,
    /// `snd_pcm_hwsync`, `snd_pcm_avail`, `snd_pcm_delay` and what else loads the position.
    Sync,
    /// `snd_pcm_drop`.
    Drop,
    /// `snd_pcm_drain`.
    Drain,
    /// `snd_pcm_pause` that pauses.
    Pause,
    /// `snd_pcm_pause` that resumes.
    Resume,
}

/// What a call found while it did its work.
#[derive(Clone, Copy, Debug, PartialEq, Eq)]
pub struct Facts {
    /// The stream captures; otherwise it plays.
    pub capture: bool,
    /// How many written frames the card has not played yet; of a resume, how many were not given to
    /// the card.
    pub queued: u64,
    /// The transfer reached the start threshold, so that it starts the stream.
    pub starts: bool,
    /// The position that was loaded says that the card is gone.
    pub gone: bool,
    /// The stop threshold was reached: the frames available, and the position loaded, in frames.
    pub over: Option<(u64, u64)>,
    /// Why a frame could not be moved in time: a `Late` of playback or an `Overtaken` of capture.
    pub late: Option<XrunWhy>,
}

/// What comes of a call: the state that the stream is in afterwards, and the call's answer.
#[derive(Clone, Copy, Debug, PartialEq, Eq)]
pub struct Outcome {
    pub state: State,
    pub answer: Result<(), PcmError>,
}
