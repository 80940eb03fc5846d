//! The port of a reader over a core that it borrows.
use crate::capture::SnoopCore;
use crate::port::{Loaded, SnoopPort};
use crate::word;
use mix_core::{Gate, Position, StepKind, ask};
use snd_base::{Geometry, PcmError};

/// The port of a reader over a core, which it borrows as long as it lasts.
///
/// It has seen the position that the core published last, or the number of the first frame, and each position that it loads is
/// this one. A frame that it gets is the stored one of its number, in each list that the core represents. The load of a frame
/// is overtaken exactly where the frame that is the ring's length later was stored, and then at the first channel. No call of
/// a turn changes the core.
#[derive(Drop)]
pub struct SnoopTurn<'a> {
    core: &'a mut SnoopCore,
}

impl SnoopCore {
    ghost use Rattle.std.specs.Prelude.{◌≡◌};
    ghost use Rattle.snoop_core.specs.Turn.{HoldsCore, core_of};

    /// The port of a reader over this core.
    pub fn turn(&mut self) -> SnoopTurn<'_>
        ensures same_core { HoldsCore result self.entry }
        ensures value { core_of result ≡ self.old }
    {
        SnoopTurn { core: self }
    }
}

impl SnoopPort for SnoopTurn<'_> {
    ghost use Rattle.snd_base.specs.Relations.{Composes-none_after, Composes-none_before};
    ghost use Rattle.snoop_core.specs.Turn.{TurnFinds, TurnGot, TurnLoaded, word_of_turn, view_of_turn};
    ghost use Rattle.snoop_core.specs.TurnLaws.{TurnGot-composes, TurnGot-shown, TurnLoaded-composes, TurnLoaded-last, TurnLoaded-rising};

    ghost view = { view_of_turn };

    ghost shows = { word_of_turn };

    ghost loaded = { TurnLoaded };

    ghost got = { TurnGot };

    ghost finds = { TurnFinds };

    ghost loaded_rising = { TurnLoaded-rising };

    ghost loaded_last = { TurnLoaded-last };

    ghost shown_got = { TurnGot-shown };

    ghost loaded_composes = { TurnLoaded-composes };

    ghost got_composes = { TurnGot-composes };

    ghost loaded_then_nothing = { λ p q r ps.
        Composes-none_after TurnLoaded p q r ps TurnLoaded-composes };

    ghost nothing_then_loaded = { λ p q r ps.
        Composes-none_before TurnLoaded p q r ps TurnLoaded-composes };

    ghost got_then_nothing = { λ p q r fs. Composes-none_after TurnGot p q r fs TurnGot-composes };

    ghost nothing_then_got = { λ p q r fs. Composes-none_before TurnGot p q r fs TurnGot-composes };

    fn geometry(&self) -> Geometry {
        self.core.geometry()
    }

    fn seen(&self) -> u64 {
        self.core.position().frame
    }

    fn position<G: Gate>(&mut self, gate: &mut G) -> Result<Position, PcmError> {
        ask(gate, StepKind::Position)?;
        Ok(self.core.position())
    }

    fn load_frame<G: Gate>(
        &mut self,
        gate: &mut G,
        frame: u64,
        out: &mut [i16],
    ) -> Result<Loaded, PcmError> {
        let geometry = self.core.geometry();
        let laps = geometry.lap(frame) + 1;
        for channel in 0..geometry.channels {
            ask(gate, StepKind::Look)?;
            let seen = self.core.word(frame, channel);
            if word::laps(seen) as u64 != laps {
                return Ok(Loaded::Overtaken { channel, seen });
            }
            out[channel as usize] = word::sample(seen);
        }
        Ok(Loaded::Got)
    }
}
