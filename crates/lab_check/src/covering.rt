//! At which frames a segment has a sample of a channel.
ghost use Rattle.std.specs.Prelude.{◌≡◌, ◌≤◌, ◌-◌, ◌==◌, ◌&&◌, length, nat_lt, slice_index, take};
ghost use Rattle.std.specs.List.{list_any};
ghost use Rattle.bindings.specs.Bound.{rising};
ghost use Rattle.lab_check.specs.Covering.{last_on, reaches_channel};

use bindings::Bindings;
use snd_base::Segment;

/// Whether one of the first so many client channels, by rising card channel, is bound to a card channel.
fn reaches_channel(bindings: Bindings, places: u8, channel: u8) -> bool
    requires { places ≤ length bindings }
    ensures { result ≡ reaches_channel bindings places channel }
{
    for place in 0..places {
        if bindings.card_channel(bindings.rising(place)) == channel {
            return true;
        }
    }
    false
}

/// How many frames behind the first one of a segment its last sample of a channel of the card is, if it has one. Its client has
/// these bindings.
pub(crate) fn last_on(bindings: Bindings, segment: &Segment, channel: u8) -> Option<u64>
    requires { segment.now.part ≤ length bindings }
    ensures { result ≡ last_on bindings segment.now channel }
{
    if reaches_channel(bindings, segment.part, channel) {
        Some(segment.whole)
    } else if segment.whole > 0 && reaches_channel(bindings, bindings.len(), channel) {
        Some(segment.whole - 1)
    } else {
        None
    }
}
