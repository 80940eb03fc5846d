//! What one seat has seen, on its way to another.
use super::reader::ReaderSeat;

/// What a seat had seen when it gave this note: the positions, whether the card was gone, its noted words and the frames that
/// it got. It is met by a seat of the same ring, in any thread.
#[derive(Drop)]
pub struct SnoopNote<'a> {
    pub(super) seat: ReaderSeat<'a>,
}
