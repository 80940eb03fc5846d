//! The software parameters of an actor.
ghost use Rattle.std.specs.Prelude.{◌≤◌};
ghost use Rattle.lab_run.specs.Openings.{AreParams};

use hw_space::Config;
use lab_lines::Stop;
use sw_limits::{SwParams, boundary};

/// The software parameters that a line leaves with a configuration: its start threshold; its stop threshold, the boundary where
/// it never stops, or the buffer size where it gives none; and the period size as `avail_min`.
pub(crate) fn params_of(config: &Config, start: u64, stop: Option<Stop>) -> SwParams
    requires { 1 ≤ config.now.buffer_size }
    ensures { AreParams config.now start stop result }
{
    let stop_threshold = match stop {
        None => u64::from(config.buffer_size),
        Some(Stop::At(frames)) => frames,
        Some(Stop::Never) => boundary(config.buffer_size),
    };
    SwParams {
        start_threshold: start,
        stop_threshold,
        avail_min: u64::from(config.period_size),
    }
}
