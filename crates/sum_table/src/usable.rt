//! Tests for what the calls of seats and rings ask of their caller.
ghost use Rattle.std.specs.Prelude.{◌≡◌, ◌↔◌, [], IsTrue};
ghost use Rattle.sum_table.specs.Seats.{key_of, places_of_seat, view_of};

use crate::seats::MixSeat;

impl MixSeat<'_> {
    /// Whether nothing was placed by this seat or by one that was joined into it, as `split` asks.
    pub fn is_fresh(&self) -> bool
        ensures { IsTrue result ↔ ((view_of self.now).laid ≡ []) }
    {
        self.last().is_none()
    }

    /// Whether the seat has all places of its ring, as `close` asks.
    pub fn has_all_places(&self) -> bool
        ensures { IsTrue result ↔ (places_of_seat self.now ≡ (key_of self.now).places) }
    {
        self.places == self.key.places
    }
}
