//! What C passes beside handles and samples: parameters, and the status of a client or a reader. All are plain numbers, as
//! `dmixlab.h` has them.
ghost use Rattle.std.specs.Prelude.{◌≡◌, ◌↔◌, IsTrue};
ghost use Rattle.dmix_c.specs.Params.{CanConfigure, CanOpen, IsGeometryOf, config_with, thresholds_of};

use hw_space::Config;
use snd_base::Geometry;
use sw_limits::SwParams;

/// What a ring is made of: `dmix_ring_params_t`. Sizes are in frames, the rate in Hz.
#[repr(C)]
#[derive(Clone, Copy)]
pub struct RingParams {
    pub channels: u32,
    pub rate: u32,
    pub period_size: u32,
    pub buffer_size: u32,
    pub clients: u32,
}

/// Hardware parameters of a client or a reader: `dmix_hw_params_t`. Sizes are in frames, the rate in Hz.
#[repr(C)]
#[derive(Clone, Copy)]
pub struct StreamHwParams {
    pub channels: u32,
    pub rate: u32,
    pub period_size: u32,
    pub buffer_size: u32,
}

/// Software parameters of a client or a reader, in frames: `dmix_sw_params_t`.
#[repr(C)]
#[derive(Clone, Copy)]
pub struct StreamSwParams {
    pub start_threshold: u64,
    pub stop_threshold: u64,
    pub avail_min: u64,
}

/// What a client or a reader is at a moment: `dmix_status_t`. The state is numbered as `snd_pcm_state_t`; `avail` and `delay`
/// are in frames, and the position is a frame number of the card.
#[repr(C)]
#[derive(Clone, Copy)]
pub struct StreamStatus {
    pub state: u64,
    pub avail: u64,
    pub delay: u64,
    pub position: u64,
}

impl RingParams {
    /// Whether a ring can be made of these: 1 to 8 channels, a rate of at least 1, 64 to 16,384 frames of which a period is
    /// fewer, and 1 to 64 clients.
    pub(crate) fn can_open(&self) -> bool
        ensures { IsTrue result ↔ CanOpen self.now }
    {
        if self.channels < 1 || self.channels > 8 || self.rate < 1 {
            return false;
        }
        if self.buffer_size < 64 || self.buffer_size > 16384 {
            return false;
        }
        if self.period_size < 1 || self.period_size >= self.buffer_size {
            return false;
        }
        self.clients >= 1 && self.clients <= 64
    }

    /// The geometry of a ring of these. It begins in lap 0.
    pub(crate) fn geometry(&self) -> Geometry
        requires { CanOpen self.now }
        ensures { IsGeometryOf self.now result }
    {
        Geometry {
            frames: self.buffer_size,
            channels: self.channels as u8,
            first_lap: 0,
        }
    }
}

impl StreamHwParams {
    /// Whether a stream of so many channels at a ring of this rate can be configured with these: periods of at least one
    /// frame, in a buffer of at most 16,384.
    pub(crate) fn can_configure(&self, rate: u32, channels: u8) -> bool
        ensures { IsTrue result ↔ CanConfigure rate channels self.now }
    {
        if self.rate != rate || self.channels != channels as u32 {
            return false;
        }
        if self.period_size < 1 || self.period_size > self.buffer_size {
            return false;
        }
        self.buffer_size <= 16384
    }

    /// The configuration of a stream with these.
    pub(crate) fn config(&self, rate: u32, channels: u8) -> Config
        requires { CanConfigure rate channels self.now }
        ensures { result ≡ config_with self.now }
    {
        Config {
            channels,
            rate,
            period_size: self.period_size,
            buffer_size: self.buffer_size,
            periods: self.buffer_size / self.period_size,
        }
    }
}

impl StreamSwParams {
    /// The thresholds of these.
    pub(crate) fn thresholds(&self) -> SwParams
        ensures { result ≡ thresholds_of self.now }
    {
        SwParams {
            start_threshold: self.start_threshold,
            stop_threshold: self.stop_threshold,
            avail_min: self.avail_min,
        }
    }
}
