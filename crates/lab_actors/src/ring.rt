//! The ring of a script's card.
ghost use Rattle.lab_run.specs.Openings.{IsRingOf};
ghost use Rattle.lab_lines.specs.Limits.{IsCardLine};

use lab_lines::CardLine;
use snd_base::Geometry;

/// The shape of the ring of a card: its frames, its channels, and the lap on which it begins.
pub fn ring_of(card: &CardLine) -> Geometry
    requires { IsCardLine card.now }
    ensures { IsRingOf card.now result }
{
    Geometry {
        frames: card.ring,
        channels: card.channels,
        first_lap: card.lap,
    }
}
