//! The rule of the sum ring: what holds between any two atomic steps of any number of seats.
ghost use Rattle.sum_table.specs.Exact.{Exact, first_view};

use crate::view::{Key, View};
use atomic_table::TableRule;
use mix_core::Entry;

/// The rule of the sum ring. Its table has no slots; the type of the slots serves to give a step the entry that it places.
pub struct Exactly;

impl TableRule<Entry, View, Key> for Exactly {
    ghost holds = { Exact };

    ghost first = { first_view };
}

/// The words of a ring, as seats share them.
pub(crate) type Shared = atomic_table::Shared<Entry, View, Key, Exactly>;

/// The part of a seat by which it steps.
pub(crate) type Seat = atomic_table::Seat<Entry, View>;
