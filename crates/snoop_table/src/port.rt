//! A reader's seat is a port.
use crate::laps::{first_index, lap_of};
use crate::seats::ReaderSeat;
use mix_core::{Gate, Position, StepKind, ask};
use snd_base::{Geometry, PcmError};
use snoop_core::{Loaded, SnoopPort, laps, sample};

impl SnoopPort for ReaderSeat<'_> {
    ghost use Rattle.snd_base.specs.Relations.{Composes-none_after, Composes-none_before};
    ghost use Rattle.snoop_table.specs.Readers.{SeatFinds, SeatGot, SeatGot-composes, SeatGot-shown, SeatLoaded, SeatLoaded-composes, seat_view, noted_word};

    ghost view = { seat_view };

    ghost shows = { noted_word };

    ghost loaded = { SeatLoaded };

    ghost got = { SeatGot };

    ghost finds = { SeatFinds };

    ghost loaded_rising = { λ p q ps loaded. loaded.rising };

    ghost loaded_last = { λ p q ps loaded. loaded.last };

    ghost shown_got = { SeatGot-shown };

    ghost loaded_composes = { SeatLoaded-composes };

    ghost got_composes = { SeatGot-composes };

    ghost loaded_then_nothing = { λ p q r ps.
        Composes-none_after SeatLoaded p q r ps SeatLoaded-composes };

    ghost nothing_then_loaded = { λ p q r ps.
        Composes-none_before SeatLoaded p q r ps SeatLoaded-composes };

    ghost got_then_nothing = { λ p q r fs. Composes-none_after SeatGot p q r fs SeatGot-composes };

    ghost nothing_then_got = { λ p q r fs. Composes-none_before SeatGot p q r fs SeatGot-composes };

    fn geometry(&self) -> Geometry {
        self.geometry
    }

    fn seen(&self) -> u64 {
        self.seen
    }

    fn position<G: Gate>(&mut self, gate: &mut G) -> Result<Position, PcmError> {
        ask(gate, StepKind::Position)?;
        Ok(self.locate())
    }

    fn load_frame<G: Gate>(
        &mut self,
        gate: &mut G,
        frame: u64,
        out: &mut [i16],
    ) -> Result<Loaded, PcmError> {
        let geometry = self.geometry;
        self.start = lap_of(self.start, geometry, frame);
        let first = first_index(self.start, geometry, frame);
        let own_laps = self.start.lap + 1;
        for channel in 0..geometry.channels {
            ask(gate, StepKind::Look)?;
            let seen = self.look(first + channel as usize, frame, channel);
            if laps(seen) as u64 != own_laps {
                return Ok(Loaded::Overtaken { channel, seen });
            }
            out[channel as usize] = sample(seen);
        }
        Ok(Loaded::Got)
    }
}
