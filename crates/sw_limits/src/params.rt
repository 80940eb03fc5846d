//! The software parameters of a stream, and which of them are valid.
ghost use Rattle.std.specs.Prelude.{◌≡◌, ℕ, ◌≤◌};
ghost use Rattle.sw_limits.specs.Boundary.{IsBoundary};

use crate::boundaries::boundary;
use hw_space::Config;
use snd_base::Why;

/// The software parameters of a stream (`snd_pcm_sw_params_t` of alsa/pcm.h), all in frames.
///
/// A prepared stream starts by itself at the start threshold: so many frames are queued for playback, or
/// asked for by one read. A running stream stops with an xrun once as many frames are available as the
/// stop threshold says. `avail_min`, the number of available frames at which ALSA wakes a client, is kept
/// and shown; no call waits for it.
#[derive(Clone, Copy, Debug, PartialEq, Eq)]
pub struct SwParams {
    pub start_threshold: u64,
    pub stop_threshold: u64,
    pub avail_min: u64,
}

impl SwParams {
    ghost use Rattle.sw_limits.specs.Params.{IsVerdict, IsValid};

    /// The parameters that a stream has until others are set: it starts at 1 frame, stops at the buffer
    /// size and wakes at the period size, as alsa-lib's `snd_pcm_hw_params` leaves them.
    ///
    /// They are valid for a configuration whose buffer size and period size are at least 1.
    pub fn defaults(config: &Config) -> SwParams
        ensures start { result.start_threshold ≡ 1 }
        ensures stop { result.stop_threshold ≡ config.now.buffer_size }
        ensures avail_min { result.avail_min ≡ config.now.period_size }
        ensures valid { 1 ≤ config.now.buffer_size → 1 ≤ config.now.period_size →
            (b : ℕ) → IsBoundary config.now.buffer_size b → IsValid result b }
    {
        SwParams {
            start_threshold: 1,
            stop_threshold: config.buffer_size as u64,
            avail_min: config.period_size as u64,
        }
    }

    /// Tests these parameters against a configuration, whose buffer size is at least 1 (ALSA's
    /// `snd_pcm_sw_params`, which answers EINVAL for such defects). The first defect in this order is the
    /// answer:
    ///
    /// - `AvailMinZero`: `avail_min` is 0, which the kernel refuses too;
    /// - `StartRange`: the start threshold is not from 1 to the boundary of the buffer size;
    /// - `StopRange`: the stop threshold is not from 1 to that boundary.
    ///
    /// The two ranges are this library's own.
    pub fn check(&self, config: &Config) -> Result<(), Why>
        requires { 1 ≤ config.now.buffer_size }
        ensures { (b : ℕ) × IsBoundary config.now.buffer_size b × IsVerdict result self.now b }
    {
        let boundary = boundary(config.buffer_size);
        if self.avail_min == 0 {
            return Err(Why::AvailMinZero);
        }
        if self.start_threshold == 0 || self.start_threshold > boundary {
            return Err(Why::StartRange);
        }
        if self.stop_threshold == 0 || self.stop_threshold > boundary {
            return Err(Why::StopRange);
        }
        Ok(())
    }
}
