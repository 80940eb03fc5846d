//! What a countdown of asks counts.
ghost use Rattle.std.specs.Prelude.{◌≡◌, ◌<◌};

use std::marker::Model;
use std::sync::ledger::{Blank, Book, Ledger, Share};

/// What a `Countdown` counts: how often a `die` stopped an actor, and how many of its asks came to its own gate, but for those of kind
/// `Again`. Only a `Countdown` changes it, and it takes no bytes.
///
/// It belongs to one ledger `L` of the standard library, of which it has one part for each number.
#[derive(Drop)]
pub struct Tally<L: Ledger> {
    book: Book<L>,
    deaths: Share<L>,
    asks: Share<L>,
}

impl<L: Ledger> Model for Tally<L> {
    ghost use Rattle.std.specs.Prelude.{◌<◌};
    ghost use Rattle.lab_actors.specs.Tally.{Tallied};

    ghost Value = { Tallied };

    ghost view = { λ t. record {
      deaths = t.deaths.amount;
      asks = t.asks.amount;
    } };

    ghost invariant = { λ t. (0 < t.deaths.parts) × (0 < t.asks.parts) };
}

impl<L: Ledger> Tally<L> {
    ghost use Rattle.std.specs.Prelude.{◌≡◌, ◌+◌, ◌<◌};

    /// Opens the tally of a ledger, with nothing counted, from the ledger's blank, which has at least two parts.
    pub fn open(blank: Blank) -> Tally<L>
        requires name { blank.name ≡ L.name }
        requires parts { blank.parts ≡ L.parts }
        requires two { 1 < blank.parts }
        ensures deaths { result.deaths ≡ 0 }
        ensures asks { result.asks ≡ 0 }
    {
        let (book, mut deaths) = blank.open::<L>();
        let asks = deaths.split_off(1, 0);
        Tally { book, deaths, asks }
    }

    /// Counts a stop by a `die`.
    pub(crate) fn count_death(&mut self)
        ensures deaths { self.new.deaths ≡ self.old.deaths + 1 }
        ensures asks { self.new.asks ≡ self.old.asks }
    {
        self.book.add(&mut self.deaths, 1);
    }

    /// Counts an ask that comes to the own gate.
    pub(crate) fn count_ask(&mut self)
        ensures deaths { self.new.deaths ≡ self.old.deaths }
        ensures asks { self.new.asks ≡ self.old.asks + 1 }
    {
        self.book.add(&mut self.asks, 1);
    }
}
