//! A test for what a port asks of its caller.
ghost use Rattle.std.specs.Prelude.{◌↔◌, IsTrue, length};
ghost use Rattle.snoop_core.specs.Port.{CanLoad};

use crate::port::SnoopPort;

/// Whether a captured frame (its absolute number) may be loaded into `out` with `SnoopPort::load_frame`: the frame is one
/// that was captured, as far as the port has seen, and `out` has room for exactly one sample of each channel.
pub fn can_load<P: SnoopPort>(port: &P, frame: u64, out: &[i16]) -> bool
    ensures { IsTrue result ↔ CanLoad (P.view port.now) frame (length out.now) }
{
    let geometry = port.geometry();
    geometry.first_frame() <= frame
        && frame < port.seen()
        && out.len() == geometry.channels as usize
}
