//! What each kind of step on the words shows the seat that makes it.
ghost use Rattle.sum_table.specs.Steps.{word_exchange, quiet_load, position_load, word_load, position_store, word_take, unplug_store};

use crate::view::View;
use atomic_table::Play;
use mix_core::Entry;

/// A load of the position.
pub(super) struct Locate;

impl Play<Entry, View> for Locate {
    ghost then = { position_load };
}

/// A load of the word of a slot and channel.
pub(super) struct Look;

impl Play<Entry, View> for Look {
    ghost then = { word_load };
}

/// A compare-exchange on the word of a slot and channel, with the entry that it places.
pub(super) struct Exchange;

impl Play<Entry, View> for Exchange {
    ghost then = { word_exchange };
}

/// The player's swap on the next word.
pub(super) struct Take;

impl Play<Entry, View> for Take {
    ghost then = { word_take };
}

/// The player's store of its position.
pub(super) struct Publish;

impl Play<Entry, View> for Publish {
    ghost then = { position_store };
}

/// The player's store that says that the card is gone.
pub(super) struct Unplug;

impl Play<Entry, View> for Unplug {
    ghost then = { unplug_store };
}

/// A load of the position that notes nothing: it gives what the rule says of the seat's view.
pub(super) struct Learn;

impl Play<Entry, View> for Learn {
    ghost then = { quiet_load };
}
