//! An open client, at its place of a ring.
use crate::lines::ClientActor;
use bindings::Bindings;
use sum_table::MixSeat;

/// An open client: its stream with its rows and segments, its bindings, the seat of its place, and the card's position at its opening.
#[derive(Drop)]
pub struct OpenClient<'r> {
    pub(crate) actor: ClientActor,
    pub(crate) bindings: Bindings,
    pub(crate) seat: MixSeat<'r>,
    pub(crate) opened_at: u64,
}
