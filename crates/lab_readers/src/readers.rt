//! All readers of a script.
use crate::reader::LabReader;
use snoop_table::ReaderSeat;

/// The readers of a script in the lab, in the order of their lines, and the seat of the card's snoop ring from which their seats are split,
/// and which takes them over when they are closed.
///
/// Their meaning is what a run has of them at a stage: `AreAt`.
#[derive(Drop)]
pub struct LabReaders<'r> {
    pub(crate) seat: ReaderSeat<'r>,
    pub(crate) readers: Vec<LabReader<'r>>,
}
