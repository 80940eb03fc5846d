//! All clients of a script, with the places and channels that they hold.
use crate::client::LabClient;
use lab_places::Places;

/// The clients of a script in the lab, in the order of their lines, and the places and channels of the card that they hold.
///
/// Their meaning is what a run has of them at a stage: `AreAt`.
#[derive(Drop)]
pub struct LabClients<'r> {
    pub(crate) places: Places<'r>,
    pub(crate) clients: Vec<LabClient<'r>>,
}
