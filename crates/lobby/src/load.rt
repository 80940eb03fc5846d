//! A free seat loads the card's position.
ghost use Rattle.std.specs.Prelude.{◌≡◌};
ghost use Rattle.lobby.specs.Loads.{HasLoaded, HasLoadedBeside, PlayerStays};
ghost use Rattle.sum_table.specs.Joins.{OneRing};
ghost use Rattle.sum_table.specs.Players.{player_key, player_ring, position_of_player};
ghost use Rattle.sum_table.specs.Seats.{key_of, ring_of};

use mix_core::{MixPort, NeverStops, Position};
use sum_table::{MixSeat, PlayerSeat};

/// Loads the position, in one step.
pub(crate) fn load(seat: &mut MixSeat<'_>) -> Position
    ensures { HasLoaded seat.old seat.new result }
{
    let Ok(position) = seat.position(&mut NeverStops) else {
        unreachable!()
    };
    position
}

/// Loads the position beside the player, which publishes none meanwhile: it is the one that the player published last.
pub(crate) fn load_beside(seat: &mut MixSeat<'_>, player: &mut PlayerSeat<'_>) -> Position
    requires { OneRing (player_ring player.old) (player_key player.old)
        (ring_of seat.old) (key_of seat.old) }
    ensures load { HasLoadedBeside player.old seat.old player.new seat.new result }
    ensures published_last { result.frame ≡ position_of_player player.old }
    ensures player { PlayerStays player.old player.new }
{
    let note = player.note();
    seat.meet(note);
    let position = load(seat);
    let note = seat.note();
    player.meet(note);
    position
}
