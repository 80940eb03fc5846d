//! The rule of the snoop ring: what holds between any two atomic steps of any number of seats.
ghost use Rattle.snoop_table.specs.Captured.{Holds, first_view};

use crate::view::View;
use atomic_table::TableRule;
use snd_base::Geometry;

/// The rule of the snoop ring. Its table has no slots.
pub struct Captured;

impl TableRule<(), View, Geometry> for Captured {
    ghost holds = { Holds };

    ghost first = { first_view };
}

/// The words of a ring, as seats share them.
pub(crate) type Shared = atomic_table::Shared<(), View, Geometry, Captured>;

/// The part of a seat by which it steps.
pub(crate) type Seat = atomic_table::Seat<(), View>;
