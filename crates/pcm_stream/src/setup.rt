//! What a stream is set up with: its configuration, its bindings and its software parameters.
ghost use Rattle.std.specs.Prelude.{◌≡◌, ◌≤◌, ◌<◌, ◌↔◌, ℕ, All, IsTrue};
ghost use Rattle.pcm_stream.specs.Setup.{CanRunWith};

use bindings::Bindings;
use hw_space::Config;
use snd_base::{Geometry, PcmError};
use sw_limits::SwParams;

/// What a stream is set up with.
///
/// `config`, `bindings` and `params` mean something where it is `configured`: the hardware parameters, to which of the
/// card's channels each of the stream's channels goes, and the software parameters.
#[derive(Clone, Copy, Debug, PartialEq, Eq)]
pub struct Setup {
    pub configured: bool,
    pub config: Config,
    pub bindings: Bindings,
    pub params: SwParams,
}

impl Setup {
    ghost use Rattle.std.specs.Prelude.{OnErr, OnOk};
    ghost use Rattle.pcm_stream.specs.Setup.{Checks, config_of, without_config, no_setup, setup_with, with_params};
    ghost use Rattle.sw_limits.specs.Boundary.{IsBoundary};

    /// The setup of a stream that was just opened: it isn't configured.
    pub fn none() -> Setup
        ensures { result ≡ no_setup }
    {
        Setup {
            configured: false,
            config: Config {
                channels: 1,
                rate: 1,
                period_size: 1,
                buffer_size: 1,
                periods: 1,
            },
            bindings: Bindings::identity(1),
            params: SwParams {
                start_threshold: 1,
                stop_threshold: 1,
                avail_min: 1,
            },
        }
    }

    /// The setup with a configuration and bindings, and with the software parameters that ALSA's `snd_pcm_hw_params`
    /// leaves: it starts at 1 frame, stops at the buffer size and wakes at the period size.
    pub fn with(config: Config, bindings: Bindings) -> Setup
        ensures { result ≡ setup_with config bindings }
    {
        Setup {
            configured: true,
            config,
            bindings,
            params: SwParams::defaults(&config),
        }
    }

    /// The configuration, where there is one (`snd_pcm_hw_params_current`).
    pub fn config(&self) -> Option<Config>
        ensures { result ≡ config_of self.now }
    {
        if self.configured {
            Some(self.config)
        } else {
            None
        }
    }

    /// The setup without its configuration (`snd_pcm_hw_free`).
    pub fn freed(&self) -> Setup
        ensures { result ≡ without_config self.now }
    {
        Setup {
            configured: false,
            ..*self
        }
    }

    /// Sets the software parameters (`snd_pcm_sw_params`), for a configuration whose buffer size is at least 1.
    ///
    /// `Invalid` comes exactly where they have a defect, with the first one, as `SwParams::check` gives it; then the
    /// setup stays as it was.
    pub fn set_params(&mut self, params: SwParams) -> Result<(), PcmError>
        requires { 1 ≤ self.old.config.buffer_size }
        ensures checked { (b : ℕ) × IsBoundary self.old.config.buffer_size b
            × Checks result params b }
        ensures ok { OnOk result (self.new ≡ with_params self.old params) }
        ensures err { OnErr result (self.new ≡ self.old) }
    {
        if let Err(why) = params.check(&self.config) {
            return Err(PcmError::Invalid(why));
        }
        self.params = params;
        Ok(())
    }
}

/// Whether a stream at a ring of this geometry can run with a configuration and bindings: the bindings have the
/// configuration's channels, each goes to a channel that the ring has, and the buffer has from 1 to 16,384 frames.
pub fn can_run_with(geometry: &Geometry, config: &Config, bindings: &Bindings) -> bool
    ensures { IsTrue result ↔ CanRunWith geometry.now config.now bindings.now }
{
    if config.channels != bindings.len() || config.buffer_size < 1 || config.buffer_size > 16384 {
        return false;
    }
    are_on_card(bindings, geometry.channels)
}

/// Whether each bound channel is one of the first `channels` of the card.
fn are_on_card(bindings: &Bindings, channels: u8) -> bool
    ensures { IsTrue result ↔ All (λ channel. channel < channels) bindings.now }
{
    for client in 0..bindings.len() {
        if bindings.card_channel(client) >= channels {
            return false;
        }
    }
    true
}
