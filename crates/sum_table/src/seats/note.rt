//! What one seat has seen, on its way to another.
ghost use Rattle.std.specs.Prelude.{◌≡◌, []};
ghost use Rattle.sum_table.specs.Exact.{start_marks};

use super::mix::MixSeat;

/// What a seat had seen when it gave this note: the positions, whether the card was gone, and its noted words. A note has
/// no places and nothing placed. It is met by a seat of the same ring, in any thread.
#[derive(Drop)]
pub struct SeatNote<'a> {
    pub(super) seat: MixSeat<'a>,
    ghost no_places: { seat.places ≡ 0 },
    ghost laid_nothing: { seat.seat.me.0.laid ≡ [] },
    ghost starts: { seat.reach.marks ≡ start_marks seat.key.geometry },
}
