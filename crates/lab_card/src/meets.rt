//! The meets between a card and the seats of clients and readers, before a phase and after it.
ghost use Rattle.lab_card.specs.Meets.{IsClientOf, IsInformedClient, IsInformedReader, IsReaderOf, IsSameCard, IsSameClient, IsSameReader, KnowsClient, KnowsReader};

use card_sim::Card;
use snoop_table::ReaderSeat;
use sum_table::MixSeat;

/// A client's seat meets a note of the card: from now on it has seen each position that the card published, so that it loads none
/// below the last of them, and the card gone where it is. A phase begins with it, for each client.
///
/// The caller has a seat of the card's sum ring.
pub fn inform_client(card: &mut Card<'_, '_>, seat: &mut MixSeat<'_>)
    requires { IsClientOf card.old seat.old }
    ensures card { IsSameCard card.old card.new }
    ensures seat { IsInformedClient card.old seat.old seat.new }
{
    let note = card.note_of_player();
    seat.meet(note);
}

/// The card meets a note of a client's seat, and learns that what the seat has seen is what the card did. A phase ends with it, for
/// each client.
///
/// The caller has a seat of the card's sum ring.
pub fn hear_client(card: &mut Card<'_, '_>, seat: &mut MixSeat<'_>)
    requires { IsClientOf card.old seat.old }
    ensures card { IsSameCard card.old card.new }
    ensures seat { IsSameClient seat.old seat.new }
    ensures knows { KnowsClient card.new seat.new }
{
    let note = seat.note();
    card.meet_client(note);
}

/// A reader's seat meets a note of the card, as a client's does in `inform_client`.
///
/// The caller has a seat of the card's snoop ring.
pub fn inform_reader(card: &mut Card<'_, '_>, seat: &mut ReaderSeat<'_>)
    requires { IsReaderOf card.old seat.old }
    ensures card { IsSameCard card.old card.new }
    ensures seat { IsInformedReader card.old seat.old seat.new }
{
    let note = card.note_of_writer();
    seat.meet(note);
}

/// The card meets a note of a reader's seat, as of a client's in `hear_client`: and each frame that the seat got is the one that
/// the card captured under its number.
///
/// The caller has a seat of the card's snoop ring.
pub fn hear_reader(card: &mut Card<'_, '_>, seat: &mut ReaderSeat<'_>)
    requires { IsReaderOf card.old seat.old }
    ensures card { IsSameCard card.old card.new }
    ensures seat { IsSameReader seat.old seat.new }
    ensures knows { KnowsReader card.new seat.new }
{
    let note = seat.note();
    card.meet_reader(note);
}
