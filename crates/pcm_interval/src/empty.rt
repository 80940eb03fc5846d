//! The refusal of a refinement.
use thiserror::Error;

/// No value is left for a parameter (the EINVAL of alsa-lib's `snd_interval_refine` and `snd_mask_refine`).
#[derive(Clone, Copy, Debug, PartialEq, Eq, Error)]
#[error("no value is left")]
pub struct Empty;
