//! The card's side of a ring: it takes whole frames.
ghost use Rattle.std.specs.Prelude.{◌≡◌, ◌↔◌, IfErr, IfOk, IsErrOf};
ghost use Rattle.card_player.specs.Plays.{EndsEarly, IsAtFrame, PlaysAndPublishes, frames_in, frames_left, geometry_of, period_of, seat_of};

use card_player::CardPlayer;
use snd_base::PcmError;

/// A card that plays whole frames, and so stands before the first word of one.
pub struct PlayingCard {
    pub player: CardPlayer<'static>,
    ghost at_frame: { IsAtFrame player },
}

// One call wherever it is let go, as of `OpenRing`.
impl Drop for PlayingCard {
    fn drop(self) {
        let PlayingCard { player: _ } = self;
    }
}

impl PlayingCard {
    ghost use Rattle.sum_table.specs.Players.{HasUnplugged};

    /// How many channels the ring has.
    pub(crate) fn channels(&self) -> u64
        ensures { result ≡ (geometry_of self.now.player).channels }
    {
        self.player.geometry().channels as u64
    }

    /// Plays as many whole frames as there is room for, and answers how many. `LapEnd` comes exactly where the ring's end
    /// is before the last of them; then the frames before it are played.
    pub(crate) fn play(&mut self, out: &mut [i16]) -> Result<u64, PcmError>
        ensures plays { PlaysAndPublishes self.old.player self.new.player
            (frames_left self.old.player out.old) out.old out.new }
        ensures count { IfOk result (λ n. n ≡ frames_in self.old.player out.old) }
        ensures lap_end { IsErrOf result PcmError.LapEnd ↔ EndsEarly self.old.player out.old }
        ensures only { IfErr result (λ e. e ≡ PcmError.LapEnd) }
    {
        let channels = self.player.geometry().channels;
        let frames = out.len() / channels as usize;
        self.player.play(out)?;
        Ok(frames as u64)
    }

    /// Unplugs the card: from now on each position that a client loads says that it is gone.
    pub(crate) fn unplug(&mut self)
        ensures unplugged { HasUnplugged (seat_of self.old.player) (seat_of self.new.player) }
        ensures period { period_of self.new.player ≡ period_of self.old.player }
    {
        self.player.unplug();
    }
}
