//! A mix seat is a port.
use crate::seats::MixSeat;
use mix_core::{Gate, MixPort, Placed, Position, StepKind, ask};
use snd_base::{Cursor, Geometry, PcmError};
use std::marker::Brand;
use std::sync::ledger::Blank;

impl MixPort for MixSeat<'_> {
    ghost use Rattle.snd_base.specs.Relations.{Composes-none_after, Composes-none_before};
    ghost use Rattle.sum_table.specs.Seats.{SeatEndsIn, SeatEndsIn-back, SeatEndsIn-laid, SeatEndsIn-nothing, SeatEndsIn-part, SeatFinds, SeatLaid, SeatLaid-composes, SeatLaid-shows, SeatLoaded, SeatLoaded-composes, seat_view, noted_word};

    ghost view = { seat_view };

    ghost shows = { noted_word };

    ghost ends_in = { SeatEndsIn };

    ghost laid = { SeatLaid };

    ghost loaded = { SeatLoaded };

    ghost finds = { SeatFinds };

    ghost laid_marks = { λ p q es laid. laid.marks };

    ghost shown_laid = { SeatLaid-shows };

    ghost loaded_rising = { λ p q ps loaded. loaded.rising };

    ghost loaded_last = { λ p q ps loaded. loaded.last };

    ghost ends_in_part = { SeatEndsIn-part };

    ghost held_laid = { SeatEndsIn-laid };

    ghost held_nothing = { SeatEndsIn-nothing };

    ghost held_back = { SeatEndsIn-back };

    ghost laid_composes = { SeatLaid-composes };

    ghost loaded_composes = { SeatLoaded-composes };

    ghost laid_then_nothing = { λ p q r es.
        Composes-none_after SeatLaid p q r es SeatLaid-composes };

    ghost nothing_then_laid = { λ p q r es.
        Composes-none_before SeatLaid p q r es SeatLaid-composes };

    ghost loaded_then_nothing = { λ p q r ps.
        Composes-none_after SeatLoaded p q r ps SeatLoaded-composes };

    ghost nothing_then_loaded = { λ p q r ps.
        Composes-none_before SeatLoaded p q r ps SeatLoaded-composes };

    fn geometry(&self) -> Geometry {
        self.key.geometry
    }

    fn member(&self) -> u32 {
        self.member
    }

    fn can_add(&self) -> bool {
        self.places > 0
    }

    fn cursor(&self) -> Cursor {
        self.reach.marks().cursor
    }

    fn floor(&self) -> Cursor {
        self.reach.marks().floor
    }

    fn high(&self) -> Cursor {
        self.reach.marks().high
    }

    fn seen(&self) -> u64 {
        self.seen
    }

    fn position<G: Gate>(&mut self, gate: &mut G) -> Result<Position, PcmError> {
        ask(gate, StepKind::Position)?;
        Ok(self.locate())
    }

    #[inline(always)]
    fn place<G: Gate>(
        &mut self,
        gate: &mut G,
        frame: u64,
        channel: u8,
        sample: i16,
    ) -> Result<Placed, PcmError> {
        self.place_at::<G, Brand>(gate, frame, channel, sample, Blank::new(1))
    }

    fn withdraw<G: Gate>(
        &mut self,
        gate: &mut G,
        frame: u64,
        channel: u8,
        sample: i16,
    ) -> Result<Placed, PcmError> {
        self.withdraw_at::<G, Brand>(gate, frame, channel, sample, Blank::new(1))
    }
}
