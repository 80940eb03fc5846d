//! How a seat's view is cut in two, and how two views are made one.
ghost use Rattle.std.specs.Prelude.{ℕ};
ghost use Rattle.sum_table.specs.Cuts.{both_of, part_of, spent_view, with_places, without_places};

use crate::view::View;
use atomic_table::{Join, Split};
use std::marker::{Brand, PhantomData};

/// The first seat becomes the player's, and the other one has all places.
pub(super) struct Deal;

impl Split<View> for Deal {
    ghost left = { λ v. with_places v 0 };

    ghost right = { λ v. part_of v v.places };
}

/// A number of places that a type represents, in proofs alone.
pub(super) trait Amount {
    ghost amount: { ℕ };
}

impl Amount for Brand {
    ghost amount = { 0 };
}

/// Some places go to the new seat.
pub(super) struct Part<B> {
    amount: PhantomData<B>,
}

impl<B: Amount> Split<View> for Part<B> {
    ghost left = { λ v. without_places v B.amount };

    ghost right = { λ v. part_of v B.amount };
}

/// The new seat gets no place: it is a note of what the other one has seen.
pub(super) struct Copied;

impl Split<View> for Copied {
    ghost left = { λ v. v };

    ghost right = { λ v. part_of v 0 };
}

/// One seat takes over what the other one is and has.
pub(super) struct Both;

impl Join<View> for Both {
    ghost both = { both_of };

    ghost spent = { spent_view };
}
