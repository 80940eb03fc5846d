//! The card's side of both rings: for each frame it stores the captured one, and then takes the mixed one.
ghost use Rattle.std.specs.Prelude.{◌≡◌, ◌↔◌, IfErr, IfOk, IsErrOf, IsTrue, true};
ghost use Rattle.card_sim.specs.Runs.{RunsThrough, period_of, player_of, records_of, writer_of};

use card_sim::{Card, NoWatch};
use snd_base::{PcmError, Why};

/// A card that captures what it is given, and plays. Both go on by the same frames: so it never plays alone.
pub struct DuplexCard {
    pub card: Card<'static, 'static>,
    ghost records: { records_of card ≡ true },
}

// One call wherever it is let go, as of `OpenRing`.
impl Drop for DuplexCard {
    fn drop(self) {
        let DuplexCard { card: _ } = self;
    }
}

impl DuplexCard {
    ghost use Rattle.sum_table.specs.Players.{HasUnplugged};
    ghost use Rattle.snoop_table.specs.Writers.{HasUnplugged as WriterHasUnplugged, desk_of};
    ghost use Rattle.card_player.specs.Plays.{EndsEarly, frames_in, geometry_of, seat_of};
    ghost use Rattle.dmix_c.specs.Duplex.{AreBuffers, RunsBuffers};

    /// How many channels the rings have.
    pub(crate) fn channels(&self) -> u64
        ensures { result ≡ (geometry_of (player_of self.now.card)).channels }
    {
        self.card.geometry().channels as u64
    }

    /// Captures and plays as many frames as both buffers have, and answers how many. `Invalid` comes exactly where the buffers
    /// don't have equally many samples, of whole frames, with nothing done. `LapEnd` comes exactly where the rings' end is
    /// before the last of the frames; then those before it are captured and played.
    pub(crate) fn run(&mut self, captured: &[i16], out: &mut [i16]) -> Result<u64, PcmError>
        ensures { RunsBuffers captured.now out.old out.new self.old self.new result }
    {
        if !self.are_buffers(captured, out) {
            return Err(PcmError::Invalid(Why::Config));
        }
        self.run_frames(captured, out)
    }

    // Whether two buffers have equally many samples, of whole frames.
    fn are_buffers(&self, captured: &[i16], out: &[i16]) -> bool
        ensures { IsTrue result ↔ AreBuffers self.now captured.now out.now }
    {
        let channels = self.card.geometry().channels;
        captured.len() == out.len() && out.len() % channels as usize == 0
    }

    // Captures and plays as many frames as both buffers have.
    fn run_frames(&mut self, captured: &[i16], out: &mut [i16]) -> Result<u64, PcmError>
        requires { AreBuffers self.old captured.now out.old }
        ensures runs { RunsThrough self.old.card self.new.card captured.now out.old out.new }
        ensures count { IfOk result (λ n. n ≡ frames_in (player_of self.old.card) out.old) }
        ensures lap_end { IsErrOf result PcmError.LapEnd
            ↔ EndsEarly (player_of self.old.card) out.old }
        ensures only { IfErr result (λ e. e ≡ PcmError.LapEnd) }
        ensures period { period_of self.new.card ≡ period_of self.old.card }
    {
        let channels = self.card.geometry().channels;
        let frames = out.len() / channels as usize;
        self.card.run(captured, out, &mut NoWatch)?;
        Ok(frames as u64)
    }

    /// Unplugs the card from both rings: from now on each position that a client or a reader loads says that it is gone.
    pub(crate) fn unplug(&mut self)
        ensures played { HasUnplugged (seat_of (player_of self.old.card))
            (seat_of (player_of self.new.card)) }
        ensures captured { WriterHasUnplugged (desk_of (writer_of self.old.card))
            (desk_of (writer_of self.new.card)) }
        ensures period { period_of self.new.card ≡ period_of self.old.card }
    {
        self.card.unplug();
    }
}
