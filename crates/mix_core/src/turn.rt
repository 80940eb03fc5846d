//! The port of one member over a core that it borrows.
ghost use Rattle.std.specs.Prelude.{◌≡◌, ◌<◌, length};

use crate::gate::{Gate, StepKind, ask};
use crate::port::{Entry, Kind, MixPort, Placed, Position};
use crate::ring::Core;
use snd_base::{Cursor, Geometry, PcmError};

/// The port of one member over a core, which it borrows as long as it lasts.
///
/// For every history that the core represented before a placement or withdrawal, it represents afterwards that history with
/// this member's add or withdrawal at its end: with the reply `In` where it was placed (the relation `laid`, which joins those
/// of several calls), and with the reply `Late` where it came too late (in `finds`); a withdrawal legally continues only a
/// history in which the member's last standing add is its sample. One that ends with `LapEnd` or `Stopped` appends nothing,
/// nor does a load of the position. The positions that it loads are the core's. Over a turn a placement or withdrawal is late
/// exactly where its frame and channel were taken, and it looks at one word and exchanges once.
#[derive(Drop)]
pub struct Turn<'a> {
    core: &'a mut Core,
    member: u32,
    ghost in_range: { member < length core.now.marks },
}

impl Core {
    ghost use Rattle.std.specs.Prelude.{◌≡◌, ◌<◌, length};
    ghost use Rattle.mix_core.specs.Turn.{HoldsCore, core_of, member_of};

    /// The port of one member over this core.
    pub fn turn(&mut self, member: u32) -> Turn<'_>
        requires { member < length self.old.marks }
        ensures same_core { HoldsCore result self.entry }
        ensures value { core_of result ≡ self.old }
        ensures member { member_of result ≡ member }
    {
        Turn { core: self, member }
    }
}

impl MixPort for Turn<'_> {
    ghost use Rattle.snd_base.specs.Relations.{Composes-none_after, Composes-none_before};
    ghost use Rattle.mix_core.specs.HeldLaws.{TurnEndsIn-back};
    ghost use Rattle.mix_core.specs.Turn.{TurnEndsIn, TurnFinds, TurnLaid, TurnLoaded, word_of_turn, view_of_turn};
    ghost use Rattle.mix_core.specs.TurnLaws.{TurnEndsIn-laid, TurnEndsIn-nothing, TurnEndsIn-part, TurnLaid-composes, TurnLaid-shown, TurnLoaded-composes, TurnLoaded-last, TurnLoaded-rising};

    ghost view = { view_of_turn };

    ghost shows = { word_of_turn };

    ghost ends_in = { TurnEndsIn };

    ghost laid = { TurnLaid };

    ghost loaded = { TurnLoaded };

    ghost finds = { TurnFinds };

    ghost laid_marks = { λ p q es laid. laid.marks };

    ghost shown_laid = { TurnLaid-shown };

    ghost loaded_rising = { TurnLoaded-rising };

    ghost loaded_last = { TurnLoaded-last };

    ghost ends_in_part = { TurnEndsIn-part };

    ghost held_laid = { TurnEndsIn-laid };

    ghost held_nothing = { TurnEndsIn-nothing };

    ghost held_back = { TurnEndsIn-back };

    ghost laid_composes = { TurnLaid-composes };

    ghost loaded_composes = { TurnLoaded-composes };

    ghost laid_then_nothing = { λ p q r es.
        Composes-none_after TurnLaid p q r es TurnLaid-composes };

    ghost nothing_then_laid = { λ p q r es.
        Composes-none_before TurnLaid p q r es TurnLaid-composes };

    ghost loaded_then_nothing = { λ p q r ps.
        Composes-none_after TurnLoaded p q r ps TurnLoaded-composes };

    ghost nothing_then_loaded = { λ p q r ps.
        Composes-none_before TurnLoaded p q r ps TurnLoaded-composes };

    fn geometry(&self) -> Geometry {
        self.core.geometry()
    }

    fn member(&self) -> u32 {
        self.member
    }

    fn can_add(&self) -> bool {
        true
    }

    fn cursor(&self) -> Cursor {
        self.core.cursor(self.member)
    }

    fn floor(&self) -> Cursor {
        self.core.floor(self.member)
    }

    fn high(&self) -> Cursor {
        self.core.high(self.member)
    }

    fn seen(&self) -> u64 {
        self.core.position().frame
    }

    fn position<G: Gate>(&mut self, gate: &mut G) -> Result<Position, PcmError> {
        ask(gate, StepKind::Position)?;
        Ok(self.core.position())
    }

    fn place<G: Gate>(
        &mut self,
        gate: &mut G,
        frame: u64,
        channel: u8,
        sample: i16,
    ) -> Result<Placed, PcmError> {
        if self.core.geometry().lap(frame) >= 4294967295 {
            return Err(PcmError::LapEnd);
        }
        ask(gate, StepKind::Look)?;
        if let Some(seen) = self.core.late_word(frame, channel) {
            return Ok(Placed::Late { seen });
        }
        ask(gate, StepKind::Exchange)?;
        self.core.add(Entry {
            member: self.member,
            frame,
            channel,
            sample,
            kind: Kind::Added,
        });
        Ok(Placed::In)
    }

    fn withdraw<G: Gate>(
        &mut self,
        gate: &mut G,
        frame: u64,
        channel: u8,
        sample: i16,
    ) -> Result<Placed, PcmError> {
        ask(gate, StepKind::Look)?;
        if let Some(word) = self.core.late_word(frame, channel) {
            return Ok(Placed::Late { seen: word });
        }
        ask(gate, StepKind::Exchange)?;
        self.core.withdraw(Entry {
            member: self.member,
            frame,
            channel,
            sample,
            kind: Kind::Withdrawn,
        });
        Ok(Placed::In)
    }
}
