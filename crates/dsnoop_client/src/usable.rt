//! Tests for what the calls of a reader ask of their caller.
ghost use Rattle.std.specs.Prelude.{◌↔◌, IsTrue};
ghost use Rattle.pcm_stream.specs.Setup.{CanRunWith};
ghost use Rattle.dsnoop_client.specs.View.{CanRead, CanUse};

use crate::reader::Reader;
use bindings::Bindings;
use hw_space::Config;
use pcm_stream::{can_run_with, is_same_ring};
use snoop_core::SnoopPort;

impl Reader {
    /// Whether `hw_params` may set a configuration and bindings: the bindings have the configuration's channels, each goes
    /// to a channel that the ring has, and the buffer has from 1 to 16,384 frames.
    pub fn can_run_with(&self, config: &Config, bindings: &Bindings) -> bool
        ensures { IsTrue result ↔ CanRunWith self.now.geometry config.now bindings.now }
    {
        can_run_with(&self.stream.geometry, config, bindings)
    }

    /// Whether its calls may be made with this port: the port is one of the reader's ring, and has seen a position that is
    /// not before the one that the reader loaded last.
    pub fn can_use<P: SnoopPort>(&self, port: &P) -> bool
        ensures { IsTrue result ↔ CanUse self.now (P.view port.now) }
    {
        is_same_ring(&port.geometry(), &self.stream.geometry)
            && self.stream.seen.unwrap_or(0) <= port.seen()
    }

    /// Whether it may read into these samples, once it is configured: they have room for whole frames, at most 4,194,304
    /// of them.
    pub fn can_read(&self, out: &[i16]) -> bool
        ensures { IsTrue result ↔ CanRead self.now out.now }
    {
        let channels = self.stream.setup.bindings.len() as usize;
        !self.stream.setup.configured
            || (out.len() % channels == 0 && out.len() / channels <= 4194304)
    }
}
