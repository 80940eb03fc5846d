//! The watch, which is shown the seats of a card after each step of a run.

use card_player::CardPlayer;
use snoop_table::WriterSeat;

/// A watch is shown both seats of a card after each step of a run: the store of a captured frame, the take of a played one, and
/// the publication of a position on one of the rings. It may look at the rings in between, as other threads do.
///
/// Its meaning is `saw`: the moments that it was shown between two states of it, in order. A watch that keeps no account of
/// them lets `saw` hold of every list.
pub trait Watch {
    ghost use Rattle.std.specs.Prelude.{◌≡◌, List, [], ◌∷◌};
    ghost use Rattle.card_sim.specs.Moments.{Moment, SightsCompose, moment_of};

    ghost saw: { Self → Self → List Moment → Type 0 };

    /// Shows both seats as they are now.
    fn see(&mut self, player: &CardPlayer<'_>, writer: &WriterSeat<'_>)
        ensures { saw self.old self.new (moment_of player.now writer.now ∷ []) };

    ghost saw_composes: { SightsCompose saw };
}

/// The watch that does nothing and keeps no account: for a caller of `Card::run` that doesn't look at the seats meanwhile.
#[derive(Clone, Copy, Debug, PartialEq, Eq)]
pub struct NoWatch;

impl Watch for NoWatch {
    ghost use Rattle.std.specs.Prelude.{⊤};

    ghost saw = { λ _ _ _. ⊤ };

    ghost saw_composes = { record { none = λ _. tt; joined = λ _ _ _ _ _ _ _. tt } };

    #[inline(always)]
    fn see(&mut self, _player: &CardPlayer<'_>, _writer: &WriterSeat<'_>) {}
}
