//! How a new seat's view is made of another one, and how two views are made one.
ghost use Rattle.snoop_table.specs.Cuts.{both_of, part_of, spent_view};

use crate::view::View;
use atomic_table::{Join, Split};

/// The new seat has seen, noted and got as much as the other one.
pub(super) struct Copied;

impl Split<View> for Copied {
    ghost left = { λ v. v };

    ghost right = { part_of };
}

/// One seat takes over what the other one knows.
pub(super) struct Both;

impl Join<View> for Both {
    ghost both = { both_of };

    ghost spent = { spent_view };
}
