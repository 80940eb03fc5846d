//! A card that lends its player to an opening.
ghost use Rattle.std.specs.Prelude.{◌≡◌, ◌<◌, IfErr, IfOk, IfSome, OnErr, Some, ℕ, length};
ghost use Rattle.std.specs.Option.{option_copied};
ghost use Rattle.sum_table.specs.Joins.{OneRing};
ghost use Rattle.sum_table.specs.Players.{player_key, player_ring};
ghost use Rattle.lab_lines.specs.declared.line.Actor.TheVariants as whose;
ghost use Rattle.lab_run.specs.Stage.{Session, Stage, after_open};
ghost use Rattle.lab_actors.specs.Usable.{IsUsable};
ghost use Rattle.lab_card.specs.Moves.{frame_of_card, seat_of_card};
ghost use Rattle.lab_places.specs.Held.{IsSameCard, key_of_places, ring_of_places};
ghost use Rattle.lab_clients.specs.AtStage.{AreAfter, clients_of, places_of};
ghost use Rattle.lab_clients.specs.Opening.{AreBeforeOpening, AreOfRun};
ghost use Rattle.lab_clients.specs.Steps.{IsSameWithRows};
ghost use Rattle.lab_actors.specs.Walks.{AreEach};
ghost use Rattle.lab_phase.specs.CardStage.{IsSameActor};

use card_player::CardPlayer;
use card_sim::Card;
use lab_actors::Opening;
use lab_card::CardActor;
use lab_clients::LabClients;
use lab_lines::Row;
use snd_base::PcmError;
use std::alloc::Global;

/// Opens a client beside the card's player (`LabClients::open`), and gives the card back: it played nothing meanwhile.
pub(crate) fn open_beside<'r>(
    alloc: Global,
    actor: CardActor<'r>,
    clients: &mut LabClients<'r>,
    number: u32,
    opening: Option<&Opening>,
    phase: u32,
) -> (CardActor<'r>, Result<Row, PcmError>)
    requires run { AreOfRun clients.old }
    requires number { number < length (clients_of clients.old) }
    requires one_ring { OneRing (player_ring (seat_of_card actor.card))
        (player_key (seat_of_card actor.card))
        (ring_of_places (places_of clients.old)) (key_of_places (places_of clients.old)) }
    requires usable { IfSome (option_copied opening)
        (IsUsable (key_of_places (places_of clients.old)).geometry.channels
        (key_of_places (places_of clients.old)).geometry.frames) }
    ensures card { IsSameActor actor.entry result.0 }
    ensures rows { result.0.rows ≡ actor.entry.rows }
    ensures after { IfOk result.1 (λ row. (session : Session) (stage : Stage)
        → AreBeforeOpening session stage number (option_copied opening.entry)
        (frame_of_card actor.entry.card) phase clients.old
        → AreAfter session stage (after_open session stage (whose.Client number)) row clients.new) }
    ensures same { OnErr result.1
        (AreEach IsSameWithRows 0 (clients_of clients.old) (clients_of clients.new)) }
    ensures same_places { OnErr result.1 (places_of clients.new ≡ places_of clients.old) }
    ensures places { IsSameCard (places_of clients.old) (places_of clients.new) }
    ensures only { IfErr result.1 (λ e. e ≡ PcmError.Memory) }
{
    let CardActor {
        card,
        played,
        rows,
        captured,
    } = actor;
    let period = card.period();
    let records = card.records();
    let (mut player, writer) = card.into_seats();
    let opened = clients.open(alloc, number, opening, phase, &mut player);
    let card = Card::with_records(CardPlayer::new(player, period), writer, period, records);
    let actor = CardActor {
        card,
        played,
        rows,
        captured,
    };
    (actor, opened)
}

/// Puts a card back into its place, where there is none.
pub(crate) fn put_card<'r>(place: &mut Option<CardActor<'r>>, actor: CardActor<'r>)
    ensures { place.new ≡ Some actor.entry }
{
    *place = Some(actor);
}
