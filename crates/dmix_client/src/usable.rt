//! Tests for what the calls of a client ask of their caller.
ghost use Rattle.std.specs.Prelude.{◌≡◌, ◌↔◌, ◌+◌, ◌≤◌, IsTrue, true, unwrap_or};
ghost use Rattle.snd_base.specs.Places.{IsFrom};
ghost use Rattle.dmix_client.specs.Port.{CanUse, least_channel};
ghost use Rattle.dmix_client.specs.Writes.{IsOffer};

use crate::client::Client;
use crate::stream::PlaybackStream;
use mix_core::MixPort;
use pcm_stream::is_same_ring;

/// Whether a port has the geometry and the member of a client.
fn is_own<P: MixPort>(stream: &PlaybackStream, port: &P) -> bool
    ensures { IsTrue result ↔ ((P.view port.now).geometry ≡ stream.now.identity.geometry)
        × ((P.view port.now).member ≡ stream.now.identity.member) }
{
    is_same_ring(&port.geometry(), &stream.identity.geometry)
        && port.member() == stream.identity.member
}

/// Whether the port's cursor and its position are where a client that moves frames left them.
fn is_behind<P: MixPort>(client: &Client, port: &P) -> bool
    ensures { IsTrue result ↔ IsFrom (P.view port.now).marks.cursor
        (client.now.stream.stretch.card + client.now.stream.stretch.committed)
        (least_channel client.now.stream.setup.bindings)
        × unwrap_or client.now.stream.seen 0 ≤ (P.view port.now).seen }
{
    let stream = &client.stream;
    let _channels = stream.setup.bindings.len();
    let least = stream
        .setup
        .bindings
        .card_channel(stream.setup.bindings.rising(0));
    let free = port.cursor().first_free(least);
    free <= stream.stretch.card + stream.stretch.committed
        && stream.seen.unwrap_or(0) <= port.seen()
}

impl Client {
    /// Whether its calls may be made with this port: the port is one of the client's ring, of its member, and can add; and
    /// where the client moves frames nobody else has used the port since the start.
    pub fn can_use<P: MixPort>(&self, port: &P) -> bool
        ensures { IsTrue result ↔ CanUse self.now.stream (P.view port.now) }
    {
        if !port.can_add() || !is_own(&self.stream, port) {
            return false;
        }
        if self.stream.status.is_moving() && !self.stream.status.stopped {
            return is_behind(self, port);
        }
        true
    }

    /// Whether these samples, interleaved, may be written: whole frames, at most 4,194,304 of them, and less than 2 to the
    /// power 63 were accepted so far.
    pub fn can_offer(&self, samples: &[i16]) -> bool
        ensures { IsTrue result ↔ IsOffer self.now.stream samples.now }
    {
        let channels = self.stream.setup.bindings.len() as usize;
        samples.len() % channels == 0
            && samples.len() / channels <= 4194304
            && self.stream.fed < 9223372036854775808
    }
}
