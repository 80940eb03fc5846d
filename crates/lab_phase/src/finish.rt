//! What a run leaves, and the closing of its rings.
ghost use Rattle.std.specs.Prelude.{◌≡◌};
ghost use Rattle.snd_base.specs.Places.{first_frame};
ghost use Rattle.sum_table.specs.Joins.{OneRing};
ghost use Rattle.sum_table.specs.Players.{player_key, player_ring};
ghost use Rattle.lab_card.specs.Moves.{frames_since_first, geometry_of_card, seat_of_card};
ghost use Rattle.lab_places.specs.Held.{key_of_places, ring_of_places};
ghost use Rattle.lab_clients.specs.AtStage.{places_of};
ghost use Rattle.lab_phase.specs.Ended.{HaveAllPlaces, IsMixBy};

use card_sim::Card;
use lab_clients::LabClients;
use lab_lines::{Report, Row, Rows, Runs, Segments};
use snd_base::Segment;

/// What a run leaves: its report, the samples that the card played, and each reader's samples, all interleaved.
pub struct Outcome {
    pub report: Report,
    pub played: Vec<i16>,
    pub recorded: Vec<Vec<i16>>,
}

// One call wherever an outcome is let go. A derive drops each part in turn there, and the proof goes through all of them.
impl Drop for Outcome {
    fn drop(self) {
        let Outcome {
            report: _,
            played: _,
            recorded: _,
        } = self;
    }
}

/// The first frame of a card, and how many frames it played since.
pub(crate) fn frames_of(card: &Card<'_, '_>) -> (u64, u64)
    ensures first { result.0 ≡ first_frame (geometry_of_card card.now) }
    ensures frames { result.1 ≡ frames_since_first card.now }
{
    let first = card.geometry().first_frame();
    (first, card.position() - first)
}

/// The report of a run with these rows, segments and runs, whose card began at the first frame and played so many.
pub(crate) fn report_of(
    rows: Vec<Row>,
    segments: Vec<(u32, Segment)>,
    runs: Vec<(u32, u64, u64)>,
    first: u64,
    frames: u64,
) -> Report
    ensures rows { result.rows ≡ rows.items }
    ensures segments { result.segments ≡ segments.items }
    ensures runs { result.runs ≡ runs.items }
    ensures first { result.first ≡ first }
    ensures frames { result.frames ≡ frames }
{
    Report {
        rows: Rows::from_vec(rows),
        segments: Segments::from_vec(segments),
        runs: Runs::from_vec(runs),
        first,
        frames,
    }
}

/// Closes the clients that are still open, and the card's two rings.
///
/// The caller has the clients of a run with all places of the card's sum ring.
pub(crate) fn close_rings<'r>(clients: LabClients<'r>, card: Card<'r, 'r>)
    requires places { HaveAllPlaces clients }
    requires one_ring { OneRing (player_ring (seat_of_card card)) (player_key (seat_of_card card))
        (ring_of_places (places_of clients)) (key_of_places (places_of clients)) }
    ensures mix { IsMixBy clients.entry card.entry }
{
    let (player, _writer) = card.into_seats();
    let _closed = clients.into_seat().close(player);
}
