//! Placements and withdrawals: a look at a word and exchanges on it, until the entry is placed or the word has a later lap.
ghost use Rattle.std.specs.Prelude.{◌≡◌, ◌+◌, ◌<◌, ◌≤◌, ◌↔◌, IfErr, IsErrOf, ◌⊎◌};
ghost use Rattle.snd_base.specs.Places.{IsFrom, lap};
ghost use Rattle.mix_core.specs.Laid.{an_add};
ghost use Rattle.mix_core.specs.Port.{ended_of};
ghost use Rattle.sum_table.specs.Seats.{CanAdd, IsRingSpot, LaysCounted, MayLay, SeatLays, cursor_of_seat, entry_by, geometry_of, member_of, seen_of};

use crate::seats::{MixSeat, RingSpot};
use mix_core::{Ended, Gate, Kind, Placed, StepKind, ask};
use snd_base::{PcmError, Steps};
use std::sync::ledger::{Blank, Ledger};

impl MixSeat<'_> {
    /// Adds a sample at a frame (its absolute number) and channel, as `MixPort::place` does, with a counter of the atomic
    /// steps on the ring's words. The counter rises by one for each of them: one load, and then one compare-exchange for each
    /// further ask that was passed, of which there are at most three for each place of the ring. `LapEnd` comes before any ask
    /// and any step.
    #[inline(always)]
    pub fn place_counted<G: Gate, L: Ledger>(
        &mut self,
        gate: &mut G,
        frame: u64,
        channel: u8,
        sample: i16,
        steps: &mut Steps<L>,
    ) -> Result<Placed, PcmError>
        requires can_add { CanAdd self.old }
        requires channel { channel < (geometry_of self.old).channels }
        requires from_cursor { IsFrom (cursor_of_seat self.old) frame channel }
        requires ahead { frame < seen_of self.old + (geometry_of self.old).frames }
        ensures step { lap (geometry_of self.old) frame < 4294967295
            → LaysCounted G.stops G.asked self.old gate.old steps.old
            (an_add (member_of self.old) frame channel sample)
            (ended_of result) self.new gate.new steps.new }
        ensures lap_end { IsErrOf result PcmError.LapEnd
            ↔ (4294967295 ≤ lap (geometry_of self.old) frame) }
        ensures unchanged { IsErrOf result PcmError.LapEnd
            → (self.new ≡ self.old) × (gate.new ≡ gate.old) × (steps.new ≡ steps.old) }
        ensures only { IfErr result (λ e. (e ≡ PcmError.LapEnd) ⊎ (e ≡ PcmError.Stopped)) }
    {
        if !self.turn_to_frame(frame) {
            return Err(PcmError::LapEnd);
        }
        let ring_spot = self.spot_in_lap(frame, channel);
        let ended = self.lay(gate, Kind::Added, ring_spot, frame, channel, sample, steps);
        answer(ended)
    }

    // The same with a counter of its own, at the ledger of a blank.
    #[inline(always)]
    pub(crate) fn place_at<G: Gate, L: Ledger>(
        &mut self,
        gate: &mut G,
        frame: u64,
        channel: u8,
        sample: i16,
        blank: Blank,
    ) -> Result<Placed, PcmError>
        requires name { blank.name ≡ L.name }
        requires parts { blank.parts ≡ L.parts }
        requires some { 0 < blank.parts }
        requires can_add { CanAdd self.old }
        requires channel { channel < (geometry_of self.old).channels }
        requires from_cursor { IsFrom (cursor_of_seat self.old) frame channel }
        requires ahead { frame < seen_of self.old + (geometry_of self.old).frames }
        ensures step { lap (geometry_of self.old) frame < 4294967295
            → SeatLays G.stops G.asked self.old gate.old
            (an_add (member_of self.old) frame channel sample) (ended_of result) self.new gate.new }
        ensures lap_end { IsErrOf result PcmError.LapEnd
            ↔ (4294967295 ≤ lap (geometry_of self.old) frame) }
        ensures unchanged { IsErrOf result PcmError.LapEnd
            → (self.new ≡ self.old) × (gate.new ≡ gate.old) }
        ensures only { IfErr result (λ e. (e ≡ PcmError.LapEnd) ⊎ (e ≡ PcmError.Stopped)) }
    {
        let mut steps: Steps<L> = Steps::open(blank);
        self.place_counted(gate, frame, channel, sample, &mut steps)
    }

    // Places an entry of a kind at its word's spot: looks at the word, and exchanges it until the entry is placed, or a word of a later
    // lap was found, or the gate stops a step. Each word that an exchange finds has a greater count than the one before.
    #[inline(always)]
    pub(crate) fn lay<G: Gate, L: Ledger>(
        &mut self,
        gate: &mut G,
        kind: Kind,
        ring_spot: RingSpot<'_>,
        frame: u64,
        channel: u8,
        sample: i16,
        steps: &mut Steps<L>,
    ) -> Ended
        requires may { MayLay kind self.old frame channel sample }
        requires spot { IsRingSpot self.old frame channel ring_spot }
        ensures { LaysCounted G.stops G.asked self.old gate.old steps.old
            (entry_by self.old kind frame channel sample) result self.new gate.new steps.new }
    {
        let spot = ring_spot.spot;
        let Ok(()) = ask(gate, StepKind::Look) else {
            return Ended::Stopped;
        };
        let mut word = self.look(frame, channel, ring_spot, steps);
        if lap_word::lap(word) as u64 != spot.lap {
            return Ended::Late { seen: word };
        }
        let Ok(()) = ask(gate, StepKind::Exchange) else {
            return Ended::Stopped;
        };
        loop {
            let Err(found) = self.exchange(kind, ring_spot, frame, channel, word, sample, steps)
            else {
                return Ended::Whole;
            };
            if lap_word::lap(found) as u64 != spot.lap {
                return Ended::Late { seen: found };
            }
            let Ok(()) = ask(gate, StepKind::Again) else {
                return Ended::Stopped;
            };
            word = found;
        }
    }
}

// The answer of a call by what came of its step.
pub(crate) fn answer(ended: Ended) -> Result<Placed, PcmError>
    ensures ended { ended_of result ≡ ended }
    ensures only_stopped { IfErr result (λ e. e ≡ PcmError.Stopped) }
{
    match ended {
        Ended::Whole => Ok(Placed::In),
        Ended::Late { seen } => Ok(Placed::Late { seen }),
        Ended::Stopped => Err(PcmError::Stopped),
    }
}
