//! What each kind of step on the words shows the seat that makes it.
ghost use Rattle.std.specs.Prelude.{ℕ};
ghost use Rattle.snoop_table.specs.Steps.{quiet_load, position_load, word_load, position_store, sample_store, unplug_store};

use crate::view::View;
use atomic_table::Play;
use std::marker::{Brand, PhantomData};

/// A load of the position.
pub(super) struct Locate;

impl Play<(), View> for Locate {
    ghost then = { position_load };
}

/// A frame and a channel that a type represents, in proofs alone.
pub(super) trait Place {
    ghost frame: { ℕ };

    ghost channel: { ℕ };
}

impl Place for Brand {
    ghost frame = { 0 };

    ghost channel = { 0 };
}

/// A load of the word of a frame's slot and a channel.
pub(super) struct Look<B> {
    place: PhantomData<B>,
}

impl<B: Place> Play<(), View> for Look<B> {
    ghost then = { word_load B.frame B.channel };
}

/// The writer's store of the next sample.
pub(super) struct Keep;

impl Play<(), View> for Keep {
    ghost then = { sample_store };
}

/// The writer's store of its position.
pub(super) struct Publish;

impl Play<(), View> for Publish {
    ghost then = { position_store };
}

/// The writer's store that says that the card is gone.
pub(super) struct Unplug;

impl Play<(), View> for Unplug {
    ghost then = { unplug_store };
}

/// A load of the position that notes nothing: it gives what the rule says of the seat's view.
pub(super) struct Learn;

impl Play<(), View> for Learn {
    ghost then = { quiet_load };
}
