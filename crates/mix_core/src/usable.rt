//! A test for what a port asks of its caller.
ghost use Rattle.std.specs.Prelude.{◌↔◌, IsTrue};
ghost use Rattle.mix_core.specs.Port.{CanPlace};

use crate::port::MixPort;

/// Whether a sample may be placed at a frame (its absolute number) and channel with `MixPort::place`: the port can add at
/// all, the channel is one of the ring's, the frame and channel aren't before the port's cursor, and the frame is less than
/// the ring's length past the position that the port has seen.
pub fn can_place<P: MixPort>(port: &P, frame: u64, channel: u8) -> bool
    ensures { IsTrue result ↔ CanPlace (P.view port.now) frame channel }
{
    let geometry = port.geometry();
    port.can_add()
        && channel < geometry.channels
        && port.cursor().first_free(channel) <= frame
        && frame < port.seen() + geometry.frames as u64
}
