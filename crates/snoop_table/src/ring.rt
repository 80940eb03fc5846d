//! A snoop ring, which owns its words.
ghost use Rattle.std.specs.Prelude.{◌≡◌};
ghost use Rattle.std.specs.Option.{ForSome};
ghost use Rattle.ring_rule.specs.Words.{words_of};
ghost use Rattle.snoop_table.specs.Captured.{IsFirst};

use crate::rule::{Captured, Seat};
use crate::seats::{ReaderSeat, WriterSeat, deal};
use crate::view::View;
use atomic_table::Table;
use snd_base::{Geometry, PcmError};
use snoop_core::snoop_word;
use std::alloc::Global;

/// The ring from which all readers take what a card captured, between threads, as ALSA's dsnoop plugin lets them (alsa-lib,
/// `snd_pcm_dsnoop`): one word of 64 bits for each slot and channel, with the lap of its frame and its sample, and one word for
/// the card's position. Here sample and lap are one word, so that a reader sees by itself where it was overtaken.
///
/// A ring gives its seats once. All seats borrow it.
pub struct SnoopRing {
    table: Table<(), View, Geometry, Captured, Global>,
    first: Option<Seat>,
    geometry: Geometry,
    ghost same_geometry: { geometry ≡ table.shared.key },
    ghost room: { table.shared.table_id.words ≡ words_of geometry },
    ghost unused: { ForSome first (λ s. IsFirst s.table_id table.shared.table_id s.me geometry) },
}

// One call wherever it is let go. A derive drops each part in turn there, and the proof goes through all of them.
impl Drop for SnoopRing {
    fn drop(self) {
        let SnoopRing {
            table: _,
            first: _,
            geometry: _,
        } = self;
    }
}

impl SnoopRing {
    ghost use Rattle.std.specs.Prelude.{◌↔◌, IsTrue, IfOk, IfErr};
    ghost use Rattle.snoop_table.specs.Rings.{GaveNone, HasSeats, IsNewRing, geometry_of_ring};

    /// A ring of this geometry in which nothing is stored: each word has the sample 0 and the number of the first lap. It
    /// refuses, with `Memory`, only where no memory is left.
    pub fn new(alloc: Global, geometry: Geometry) -> Result<SnoopRing, PcmError>
        ensures ok { IfOk result (λ ring. IsNewRing ring geometry) }
        ensures only_memory { IfErr result (λ e. e ≡ PcmError.Memory) }
    {
        let silent = snoop_word(geometry.first_lap, 0);
        let room = geometry.frames as usize * geometry.channels as usize + 1;
        let mut words = vec![in alloc; silent; room]?;
        words[0] = lap_word::position_word(geometry.first_frame(), false);
        let (table, first) = Table::of_words(alloc, words.as_slice(), &geometry)?;
        Ok(SnoopRing {
            table,
            first: Some(first),
            geometry,
        })
    }

    /// Whether the ring has given no seats yet, as `seats` asks.
    pub fn gave_none(&self) -> bool
        ensures { IsTrue result ↔ GaveNone self.now }
    {
        self.first.is_some()
    }

    /// The writer's seat and a reader's. A ring gives them once: the caller shows that this ring has given none before
    /// (`gave_none`).
    pub fn seats(&mut self) -> (WriterSeat<'_>, ReaderSeat<'_>)
        requires { GaveNone self.old }
        ensures { HasSeats (geometry_of_ring self.old) result.0 result.1 }
    {
        let Some(first) = self.first.take() else {
            unreachable!()
        };
        let geometry = self.geometry;
        deal(&self.table.shared, first, geometry)
    }
}
