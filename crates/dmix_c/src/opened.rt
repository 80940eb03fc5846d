//! What a handle stands for.
ghost use Rattle.std.specs.Prelude.{◌≡◌};

use crate::duplex_card::DuplexCard;
use crate::open_ring::OpenRing;
use crate::playback::Playback;
use crate::playing_card::PlayingCard;
use crate::recording::Recording;

/// Of what kind it is that a handle stands for.
#[derive(Clone, Copy)]
pub enum Kind {
    Ring,
    Client,
    Reader,
    Card,
}

/// What a handle stands for: a ring with its places, a client, a reader, or a card, which plays alone, or captures and plays.
#[derive(Drop)]
pub enum Opened {
    Ring(OpenRing),
    Client(Playback),
    Reader(Recording),
    Card(PlayingCard),
    Duplex(DuplexCard),
}

impl Opened {
    ghost use Rattle.dmix_c.specs.Channels.{channels_of};
    ghost use Rattle.dmix_c.specs.Handles.{is_kind};

    /// Whether it is of a kind.
    pub(crate) fn is(&self, asked: Kind) -> bool
        ensures { result ≡ is_kind asked self.now }
    {
        match (asked, self) {
            (Kind::Ring, Opened::Ring(_)) => true,
            (Kind::Client, Opened::Client(_)) => true,
            (Kind::Reader, Opened::Reader(_)) => true,
            (Kind::Card, Opened::Card(_)) => true,
            (Kind::Card, Opened::Duplex(_)) => true,
            _ => false,
        }
    }

    /// How many samples a frame has that a call passes: of a client or a reader one for each channel, and 0 while it has no
    /// configuration; of a card one for each channel of its ring. No frames are passed to a ring: 0.
    pub(crate) fn channels(&self) -> u64
        ensures { result ≡ channels_of self.now }
    {
        match self {
            Opened::Ring(_) => 0,
            Opened::Client(playback) => playback.channels(),
            Opened::Reader(recording) => recording.channels(),
            Opened::Card(card) => card.channels(),
            Opened::Duplex(card) => card.channels(),
        }
    }
}
