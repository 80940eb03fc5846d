//! The lobby: a place's seat is handed out only where the frames that were placed by it earlier are played.
ghost use Rattle.std.specs.Prelude.{◌≡◌, ◌<◌, ◌≤◌, ◌++◌, ◌∷◌, [], Some, vec_capacity, vec_len};
ghost use Rattle.lobby.specs.Seats.{ArePlaces};
ghost use Rattle.sum_table.specs.Seats.{key_of, places_of_seat, ring_of, view_of};

use crate::load::{load, load_beside};
use crate::seats::{are_free, busy, is_out, lowest_free, lowest_silent};
use mix_core::{MixPort, Position};
use snd_base::PcmError;
use std::alloc::Global;
use sum_table::{MixSeat, PlayerSeat};

/// The places of a sum ring between clients. ALSA's dmix has no fixed number of clients; that a ring has places, and that
/// each is given anew only once it is silent, is this project's own rule.
///
/// A place is the right of one client to add once at each frame and channel. While no client has it, the lobby keeps the
/// seat of each place, with all that was placed by it, and hands it out as the seat of the next client: the place's number is
/// the seat's member. The meaning of a lobby is the list of these seats by place, each while it is free, the position that it
/// saw last, and the number of clients that were reaped.
///
/// All positions and frames are absolute frame numbers of the ring.
pub struct Lobby<'a> {
    // The seat that the places were split from. It has none left, and shows of which ring the lobby is.
    base: MixSeat<'a>,
    seats: Vec<Option<MixSeat<'a>>>,
    seen: u64,
    reaped: u32,
    ghost no_places: { places_of_seat base ≡ 0 },
    ghost laid_nothing: { (view_of base).laid ≡ [] },
    ghost placed: { ArePlaces (ring_of base) (key_of base) seats.items },
}

// One call wherever it is let go. A derive drops each part in turn there, and the proof goes through all of them.
impl<'a> Drop for Lobby<'a> {
    fn drop(self) {
        let Lobby {
            base: _,
            seats: _,
            seen: _,
            reaped: _,
        } = self;
    }
}

impl<'a> Lobby<'a> {
    ghost use Rattle.std.specs.Prelude.{◌≡◌, ◌+◌, ◌<◌, ◌↔◌, IsTrue, IsSome, None, Some, Err, IfOk, IfErr, min, ℕ};
    ghost use Rattle.sum_table.specs.Joins.{OneRing};
    ghost use Rattle.sum_table.specs.Known.{free_from};
    ghost use Rattle.sum_table.specs.Players.{player_key, player_ring, position_of_player};
    ghost use Rattle.lobby.specs.Loads.{HasLoaded, HasLoadedBeside, PlayerStays};
    ghost use Rattle.lobby.specs.Lobbies.{Attaches, CanTakeBack, IsLaterLobby, IsNewLobby, IsSilentSeat, JoinsAll, LoadsAt, Outcome, TakesBack, free_seats, key_of_lobby, reaped_of, ring_of_lobby, seen_of_lobby};
    ghost use Rattle.lobby.specs.Seats.{AreFree, KeepsLasts, last_of, lowest_free, lowest_silent};

    /// A lobby of all places that the seat has, each free, with members from 0 upwards. The caller shows that nothing was
    /// placed by the seat.
    ///
    /// It refuses, with `Memory`, only where no memory is left; the seat has ended then, and its places with it.
    pub fn new(alloc: Global, seat: MixSeat<'a>) -> Result<Lobby<'a>, PcmError>
        requires { (view_of seat).laid ≡ [] }
        ensures ok { IfOk result (λ lobby. IsNewLobby seat.entry lobby) }
        ensures only_memory { IfErr result (λ e. e ≡ PcmError.Memory) }
    {
        let places = seat.places();
        let mut seats = Vec::with_capacity(alloc, places as usize)?;
        let mut base = seat;
        for place in 0..places {
            let one = base.split(1, place);
            keep(&mut seats, one);
        }
        let seen = base.geometry().first_frame();
        Ok(Lobby {
            base,
            seats,
            seen,
            reaped: 0,
        })
    }

    /// Hands out the seat of the lowest place that is free and silent: its last frame, if anything was placed by it, is below
    /// the card's position. The seat of the lowest free place loads this position, once, and no other seat of the lobby loads
    /// one.
    ///
    /// `Busy` comes exactly where no free place is silent. Its `until` is the position from which one of them is: the least
    /// last frame of the free seats, plus one. Where no place is free, `until` is None and nothing is loaded. Its `seen` is the
    /// position that the lobby saw last.
    pub fn attach(&mut self) -> Result<MixSeat<'a>, PcmError>
        ensures none_free { lowest_free (free_seats self.old) ≡ None
            → (result ≡ Err (PcmError.Busy None (seen_of_lobby self.old))) × (self.new ≡ self.old) }
        ensures free { (place : ℕ) → lowest_free (free_seats self.old) ≡ Some place
            → Attaches (λ p s t. HasLoaded s t p) place self.old self.new result }
        ensures silent { IfOk result (IsSilentSeat self.old (seen_of_lobby self.new)) }
        ensures goes { IsLaterLobby self.old self.new }
    {
        let Some(place) = lowest_free(self.seats.as_slice()) else {
            return Err(self.full());
        };
        let position = self.load_at(place);
        self.hand_out(position.frame)
    }

    /// Attaches beside the player: before the load a note of the player meets the seat that loads, and after it a note of this
    /// seat meets the player. So the position is exactly the one that the player published last. The caller shows that the
    /// player is of the lobby's ring.
    ///
    /// The answers are those of `attach`; where no place is free, no note is given.
    pub fn attach_beside(&mut self, player: &mut PlayerSeat<'_>) -> Result<MixSeat<'a>, PcmError>
        requires { OneRing (player_ring player.old) (player_key player.old)
            (ring_of_lobby self.old) (key_of_lobby self.old) }
        ensures none_free { lowest_free (free_seats self.old) ≡ None
            → (result ≡ Err (PcmError.Busy None (seen_of_lobby self.old)))
            × (self.new ≡ self.old) × (player.new ≡ player.old) }
        ensures free { (place : ℕ) → lowest_free (free_seats self.old) ≡ Some place
            → Attaches (λ p s t. HasLoadedBeside player.old s player.new t p) place
            self.old self.new result }
        ensures silent { IfOk result (IsSilentSeat self.old (seen_of_lobby self.new)) }
        ensures goes { IsLaterLobby self.old self.new }
        ensures published_last { IsSome (lowest_free (free_seats self.old))
            → seen_of_lobby self.new ≡ position_of_player player.old }
        ensures player { PlayerStays player.old player.new }
    {
        let Some(place) = lowest_free(self.seats.as_slice()) else {
            return Err(self.full());
        };
        let position = self.load_beside_at(place, player);
        self.hand_out(position.frame)
    }

    /// The number of the place whose seat an attach hands out at a position: the lowest one that is free and silent there, if there is
    /// such a place.
    pub fn next_place(&self, position: u64) -> Option<u32>
        ensures { result ≡ lowest_silent position (free_seats self.now) }
    {
        let Some(place) = lowest_silent(self.seats.as_slice(), position) else {
            return None;
        };
        let Some(seat) = &self.seats[place] else {
            unreachable!()
        };
        Some(seat.member())
    }

    // The refusal where no place is free.
    fn full(&self) -> PcmError
        ensures { result ≡ PcmError.Busy None (seen_of_lobby self.now) }
    {
        PcmError::Busy {
            until: None,
            seen: self.seen,
        }
    }

    // The seat of the lowest free place loads the position.
    fn load_at(&mut self, place: usize) -> Position
        requires { lowest_free (free_seats self.old) ≡ Some place }
        ensures goes { IsLaterLobby self.old self.new }
        ensures loads { LoadsAt (λ s t. HasLoaded s t result)
            (free_seats self.old) place (free_seats self.new) }
        ensures lasts { KeepsLasts (free_seats self.old) (free_seats self.new) }
        ensures seen { seen_of_lobby self.new ≡ result.frame }
    {
        let Some(seat) = &mut self.seats[place] else {
            unreachable!()
        };
        let position = load(seat);
        self.seen = position.frame;
        position
    }

    // The same beside the player.
    fn load_beside_at(&mut self, place: usize, player: &mut PlayerSeat<'_>) -> Position
        requires free { lowest_free (free_seats self.old) ≡ Some place }
        requires one_ring { OneRing (player_ring player.old) (player_key player.old)
            (ring_of_lobby self.old) (key_of_lobby self.old) }
        ensures goes { IsLaterLobby self.old self.new }
        ensures loads { LoadsAt (λ s t. HasLoadedBeside player.old s player.new t result)
            (free_seats self.old) place (free_seats self.new) }
        ensures lasts { KeepsLasts (free_seats self.old) (free_seats self.new) }
        ensures seen { seen_of_lobby self.new ≡ result.frame }
        ensures published_last { result.frame ≡ position_of_player player.old }
        ensures player { PlayerStays player.old player.new }
    {
        let Some(seat) = &mut self.seats[place] else {
            unreachable!()
        };
        let position = load_beside(seat, player);
        self.seen = position.frame;
        position
    }

    // Hands out the seat of the lowest free place that is silent at a position.
    fn hand_out(&mut self, position: u64) -> Result<MixSeat<'a>, PcmError>
        requires { IsSome (lowest_free (free_seats self.old)) }
        ensures goes { IsLaterLobby self.old self.new }
        ensures outcome { Outcome position (free_seats self.old) (free_seats self.old)
            result (free_seats self.new) }
        ensures silent { IfOk result (IsSilentSeat self.old position) }
        ensures seen { seen_of_lobby self.new ≡ seen_of_lobby self.old }
    {
        let Some(place) = lowest_silent(self.seats.as_slice(), position) else {
            return Err(busy(self.seats.as_slice(), position));
        };
        let Some(seat) = self.seats[place].take() else {
            unreachable!()
        };
        Ok(seat)
    }

    /// Whether the lobby can take a seat back: it has one place, and its member is the number of a place that is not free. That
    /// the seat is of the lobby's ring cannot be asked at run time.
    pub fn can_take_back(&self, seat: &MixSeat<'_>) -> bool
        ensures { IsTrue result ↔ CanTakeBack self.now seat.now }
    {
        seat.places() == 1 && is_out(self.seats.as_slice(), seat.member())
    }

    /// Takes the seat of a client back, and answers the position from which the place is silent: the seat's last frame plus
    /// one, or the first frame where nothing was placed by it. The caller shows that the lobby can take it back, and that it is
    /// of the lobby's ring.
    pub fn detach(&mut self, seat: MixSeat<'a>) -> u64
        requires one_ring { OneRing (ring_of seat) (key_of seat)
            (ring_of_lobby self.old) (key_of_lobby self.old) }
        requires out { CanTakeBack self.old seat }
        ensures back { TakesBack self.old self.new seat.entry }
        ensures same_reaped { reaped_of self.new ≡ reaped_of self.old }
        ensures value { result ≡ free_from (key_of seat.entry).geometry (last_of seat.entry) }
    {
        let place = seat.member() as usize;
        let from = match seat.last() {
            None => seat.geometry().first_frame(),
            Some(frame) => frame + 1,
        };
        self.seats[place] = Some(seat);
        from
    }

    /// Takes the seat of a client back that was stopped, as `detach` does, and counts it.
    pub fn reap(&mut self, seat: MixSeat<'a>) -> u64
        requires one_ring { OneRing (ring_of seat) (key_of seat)
            (ring_of_lobby self.old) (key_of_lobby self.old) }
        requires out { CanTakeBack self.old seat }
        ensures back { TakesBack self.old self.new seat.entry }
        ensures counted { reaped_of self.new ≡ min (reaped_of self.old + 1) 4294967295 }
        ensures value { result ≡ free_from (key_of seat.entry).geometry (last_of seat.entry) }
    {
        self.reaped = self.reaped.saturating_add(1);
        self.detach(seat)
    }

    /// How many clients were reaped. The number stays at 4294967295.
    pub fn reaped(&self) -> u32
        ensures { result ≡ reaped_of self.now }
    {
        self.reaped
    }

    /// Whether each place is free, so that the lobby can be closed.
    pub fn is_whole(&self) -> bool
        ensures { IsTrue result ↔ AreFree (free_seats self.now) }
    {
        are_free(self.seats.as_slice())
    }

    /// Joins the seats of all places into one, which has all places and all that was placed by them. The caller shows that each
    /// place is free.
    pub fn close(self) -> MixSeat<'a>
        requires { AreFree (free_seats self) }
        ensures { JoinsAll self.entry result }
    {
        let Lobby {
            base,
            seats,
            seen: _,
            reaped: _,
        } = self;
        let mut whole = base;
        for seat in seats {
            let Some(seat) = seat else { unreachable!() };
            whole.join(seat);
        }
        whole
    }
}

// Puts a seat at the end of the places, where there is room.
fn keep<'a>(seats: &mut Vec<Option<MixSeat<'a>>>, seat: MixSeat<'a>)
    requires { vec_len seats.old < vec_capacity seats.old }
    ensures items { seats.new.items ≡ seats.old.items ++ Some seat.entry ∷ [] }
    ensures capacity { vec_capacity seats.old ≤ vec_capacity seats.new }
{
    seats.push(Some(seat)).unwrap();
}
