//! A sum ring, which owns its words.
ghost use Rattle.std.specs.Prelude.{◌≡◌};
ghost use Rattle.std.specs.Option.{ForSome};
ghost use Rattle.sum_table.specs.Exact.{IsFirst};
ghost use Rattle.ring_rule.specs.Words.{words_of};

use crate::rule::{Exactly, Seat};
use crate::seats::{MixSeat, PlayerSeat, deal};
use crate::view::{Key, View};
use atomic_table::Table;
use mix_core::Entry;
use snd_base::{Geometry, PcmError};
use std::alloc::Global;

/// The ring in which the samples of all clients are summed, between threads, as ALSA's dmix plugin sums them (alsa-lib,
/// `snd_pcm_dmix`): one word of 64 bits for each slot and channel, with the lap of the ring, the number of samples placed there or
/// withdrawn, and the sum that is left, and one word for the card's position. Here sum and lap are one word, so that one exchange adds.
///
/// A ring gives its seats once. All seats borrow it.
pub struct SumRing {
    table: Table<Entry, View, Key, Exactly, Global>,
    first: Option<Seat>,
    key: Key,
    ghost same_key: { key ≡ table.shared.key },
    ghost room: { table.shared.table_id.words ≡ words_of key.geometry },
    ghost unused: { ForSome first (λ s. IsFirst s.table_id table.shared.table_id s.me key) },
}

// One call wherever it is let go. A derive drops each part in turn there, and the proof goes through all of them.
impl Drop for SumRing {
    fn drop(self) {
        let SumRing {
            table: _,
            first: _,
            key: _,
        } = self;
    }
}

impl SumRing {
    ghost use Rattle.std.specs.Prelude.{◌≤◌, ◌↔◌, IsTrue, IfOk, IfErr};
    ghost use Rattle.sum_table.specs.Rings.{GaveNone, HasSeats, IsNewRing, key_of_ring};

    /// A ring of this geometry with 1 to 64 places, with nothing placed. It refuses, with `Memory`, only where no memory is
    /// left.
    pub fn new(alloc: Global, geometry: Geometry, places: u32) -> Result<SumRing, PcmError>
        requires least { 1 ≤ places }
        requires most { places ≤ 64 }
        ensures ok { IfOk result (λ ring. IsNewRing ring geometry places) }
        ensures only_memory { IfErr result (λ e. e ≡ PcmError.Memory) }
    {
        let silent = lap_word::pack(geometry.first_lap, 0, 0);
        let room = geometry.frames as usize * geometry.channels as usize + 1;
        let mut words = vec![in alloc; silent; room]?;
        words[0] = lap_word::position_word(geometry.first_frame(), false);
        let key = Key { geometry, places };
        let (table, first) = Table::of_words(alloc, words.as_slice(), &key)?;
        Ok(SumRing {
            table,
            first: Some(first),
            key,
        })
    }

    /// Whether the ring has given no seats yet, as `seats` asks.
    pub fn gave_none(&self) -> bool
        ensures { IsTrue result ↔ GaveNone self.now }
    {
        self.first.is_some()
    }

    /// The player's seat and one mix seat with all places, whose member is 0. A ring gives them once: the caller shows
    /// that this ring has given none before (`gave_none`).
    pub fn seats(&mut self) -> (PlayerSeat<'_>, MixSeat<'_>)
        requires { GaveNone self.old }
        ensures { HasSeats (key_of_ring self.old) result.0 result.1 }
    {
        let Some(first) = self.first.take() else {
            unreachable!()
        };
        let key = self.key;
        deal(&self.table.shared, first, key)
    }
}
