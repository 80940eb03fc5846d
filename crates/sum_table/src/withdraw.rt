//! Withdrawals of the sample that a seat placed last.
ghost use Rattle.std.specs.Prelude.{◌≡◌, ◌<◌, [], ◌∷◌, IfErr};
ghost use Rattle.snd_base.specs.Places.{IsFrom};
ghost use Rattle.mix_core.specs.Laid.{a_withdrawal, an_add};
ghost use Rattle.mix_core.specs.Port.{ended_of};
ghost use Rattle.sum_table.specs.Seats.{LaysCounted, SeatEndsIn, SeatLays, marks_of_seat, member_of};

use crate::place::answer;
use crate::seats::MixSeat;
use mix_core::{Gate, Kind, Placed};
use snd_base::{PcmError, Steps};
use std::sync::ledger::{Blank, Ledger};

impl MixSeat<'_> {
    /// Withdraws the sample of the seat's last standing add, as `MixPort::withdraw` does, with a counter of the atomic
    /// steps on the ring's words, which rises as that of `place_counted`.
    pub fn withdraw_counted<G: Gate, L: Ledger>(
        &mut self,
        gate: &mut G,
        frame: u64,
        channel: u8,
        sample: i16,
        steps: &mut Steps<L>,
    ) -> Result<Placed, PcmError>
        requires last { SeatEndsIn self.old
            (an_add (member_of self.old) frame channel sample ∷ []) }
        requires from_floor { IsFrom (marks_of_seat self.old).floor frame channel }
        ensures step { LaysCounted G.stops G.asked self.old gate.old steps.old
            (a_withdrawal (member_of self.old) frame channel sample)
            (ended_of result) self.new gate.new steps.new }
        ensures only_stopped { IfErr result (λ e. e ≡ PcmError.Stopped) }
    {
        if !self.turn_to_frame(frame) {
            unreachable!()
        }
        let ring_spot = self.spot_in_lap(frame, channel);
        let ended = self.lay(
            gate,
            Kind::Withdrawn,
            ring_spot,
            frame,
            channel,
            sample,
            steps,
        );
        answer(ended)
    }

    // The same with a counter of its own, at the ledger of a blank.
    pub(crate) fn withdraw_at<G: Gate, L: Ledger>(
        &mut self,
        gate: &mut G,
        frame: u64,
        channel: u8,
        sample: i16,
        blank: Blank,
    ) -> Result<Placed, PcmError>
        requires name { blank.name ≡ L.name }
        requires parts { blank.parts ≡ L.parts }
        requires some { 0 < blank.parts }
        requires last { SeatEndsIn self.old
            (an_add (member_of self.old) frame channel sample ∷ []) }
        requires from_floor { IsFrom (marks_of_seat self.old).floor frame channel }
        ensures step { SeatLays G.stops G.asked self.old gate.old
            (a_withdrawal (member_of self.old) frame channel sample)
            (ended_of result) self.new gate.new }
        ensures only_stopped { IfErr result (λ e. e ≡ PcmError.Stopped) }
    {
        let mut steps: Steps<L> = Steps::open(blank);
        self.withdraw_counted(gate, frame, channel, sample, &mut steps)
    }
}
