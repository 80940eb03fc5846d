//! The places and channels of a card between the clients of a script.
ghost use Rattle.std.specs.Prelude.{◌≡◌};
ghost use Rattle.sum_table.specs.Joins.{OneRing};
ghost use Rattle.sum_table.specs.Players.{player_key, player_ring};
ghost use Rattle.sum_table.specs.Seats.{key_of, ring_of};
ghost use Rattle.lobby.specs.Seats.{last_of};
ghost use Rattle.lab_run.specs.PortSteps.{last_from};
ghost use Rattle.lab_places.specs.Held.{HasMetPlayer};

use bindings::Bindings;
use dshare::Shares;
use lab_lines::Share;
use lab_run::claims_are_of_owners;
use lobby::Lobby;
use mix_core::MixPort;
use snd_base::PcmError;
use std::alloc::Global;
use sum_table::{MixSeat, PlayerSeat};

/// What the clients of a script hold of a card: each open client has a place of its ring, and, where they share the card by
/// channels (alsa-lib's `dshare`), the card's channels of its bindings.
///
/// Its meaning is what a run of the script has of it: `IsHeldBy`.
pub struct Places<'a> {
    lobby: Lobby<'a>,
    share: Share,
    shares: Shares,
}

// One call wherever it is let go. A derive drops each part in turn there, and the proof goes through all of them.
impl<'a> Drop for Places<'a> {
    fn drop(self) {
        let Places {
            lobby: _,
            share: _,
            shares: _,
        } = self;
    }
}

impl<'a> Places<'a> {
    ghost use Rattle.std.specs.Prelude.{◌≡◌, ◌+◌, ◌↔◌, List, [], IsTrue, IfOk, IfErr, min, ℕ};
    ghost use Rattle.snd_base.specs.Places.{first_frame};
    ghost use Rattle.sum_table.specs.Joins.{OneRing};
    ghost use Rattle.sum_table.specs.Players.{player_key, player_ring, position_of_player};
    ghost use Rattle.sum_table.specs.Seats.{key_of, places_of_seat, ring_of, view_of};
    ghost use Rattle.lobby.specs.Loads.{PlayerStays};
    ghost use Rattle.lobby.specs.Lobbies.{free_seats, reaped_of};
    ghost use Rattle.dshare.specs.Owners.{ClaimRow};
    ghost use Rattle.dshare.specs.Shared.{AreOfCard, StandsFor};
    ghost use Rattle.lab_run.specs.Items.{Held};
    ghost use Rattle.lab_run.specs.Places as runs;
    ghost use Rattle.lab_run.specs.Claims.{with_release};
    ghost use Rattle.lab_run.specs.PortSteps.{last_from};
    ghost use Rattle.lobby.specs.Seats.{last_of};
    ghost use Rattle.lab_places.specs.Held.{AttachesAt, CanClose, CanRelease, Closes, IsClaimed, IsGiven, IsHeldBy, IsLobby, IsNextPlace, IsSameCard, IsSameLobby, Opens, key_of_places, lobby_of, new_held, next_place, ring_of_places, share_of, shares_of};
    ghost use Rattle.lab_places.specs.Laid.{IsLaidWith, IsUnlaid, KeepsLaid};

    /// The places of a new ring, by the seat that has all of them, each free, and the channels of its card. The caller shows
    /// that nothing was placed by the seat.
    ///
    /// It refuses, with `Memory`, only where no memory is left; the seat has ended then.
    pub fn new(alloc: Global, seat: MixSeat<'a>, share: Share) -> Result<Places<'a>, PcmError>
        requires { (view_of seat).laid ≡ [] }
        ensures held { IfOk result (λ places. IsHeldBy places
            (new_held (places_of_seat seat.entry) (first_frame (key_of seat.entry).geometry))) }
        ensures ring { IfOk result (λ places. ring_of_places places ≡ ring_of seat.entry) }
        ensures key { IfOk result (λ places. key_of_places places ≡ key_of seat.entry) }
        ensures share { IfOk result (λ places. share_of places ≡ share) }
        ensures channels { IfOk result
            (λ places. (shares_of places).channels ≡ (key_of seat.entry).geometry.channels) }
        ensures laid { IfOk result (λ places. IsUnlaid (free_seats (lobby_of places))) }
        ensures only_memory { IfErr result (λ e. e ≡ PcmError.Memory) }
    {
        let channels = seat.geometry().channels;
        let lobby = Lobby::new(alloc, seat)?;
        Ok(Places {
            lobby,
            share,
            shares: Shares::new(channels),
        })
    }

    /// The place that `open` gives a client at a position, where it gives one: the lowest that is free and silent there, if there is such
    /// a place.
    pub fn next_place(&self, position: u64) -> Option<u32>
        ensures { result ≡ next_place position self.now }
    {
        self.lobby.next_place(position)
    }

    /// Opens a client at the card's position, which the player published last: it claims the card's channels of its bindings,
    /// where clients share the card by channels, and then the lowest place that is free and silent is its own. The seat has
    /// seen the position. Where no place is given, the claim is undone.
    ///
    /// The caller shows that the player is of the ring, and has bindings of this card.
    ///
    /// `Busy` comes exactly where a channel isn't free, or else no place is: with the position from which they are, where that is
    /// known, and the position that was compared, as `Shares::claim` and `Lobby::attach` say.
    pub fn open(
        &mut self,
        bindings: &Bindings,
        player: &mut PlayerSeat<'_>,
    ) -> Result<MixSeat<'a>, PcmError>
        requires one_ring { OneRing (player_ring player.old) (player_key player.old)
            (ring_of_places self.old) (key_of_places self.old) }
        requires card { AreOfCard (shares_of self.old) bindings.now }
        ensures opens { (number : ℕ) (held : Held) → IsHeldBy self.old held
            → Opens (share_of self.old) number bindings.now
            (position_of_player player.old) held result self.new }
        ensures given { IfOk result (IsGiven self.old (position_of_player player.old)) }
        ensures place { IfOk result (IsNextPlace self.old (position_of_player player.old)) }
        ensures laid { KeepsLaid (free_seats (lobby_of self.old)) result
            (free_seats (lobby_of self.new)) }
        ensures player { PlayerStays player.old player.new }
        ensures card { IsSameCard self.old self.new }
        ensures reaped { reaped_of (lobby_of self.new) ≡ reaped_of (lobby_of self.old) }
    {
        let before = self.shares;
        self.claim(bindings, player.position())?;
        let attached = self.attach(player);
        if attached.is_err() {
            self.shares = before;
        }
        attached
    }

    /// Whether a client's seat can be taken back with its bindings, as `close` and `reap` ask. That the seat is of the ring
    /// can't be asked at run time.
    pub fn can_close(&self, seat: &MixSeat<'_>, bindings: &Bindings) -> bool
        ensures { IsTrue result ↔ CanClose self.now seat.now bindings.now }
    {
        self.lobby.can_take_back(seat) && self.can_release(bindings)
    }

    /// Takes the seat of a client back that was opened at a position, with its bindings: its place is free, and is silent from
    /// its last frame on; and its channels are, from its own last frame on.
    ///
    /// The caller shows that the seat can be taken back (`can_close`), and that it is of the ring.
    pub fn close(&mut self, seat: MixSeat<'a>, bindings: &Bindings, opened_at: u64)
        requires one_ring { OneRing (ring_of seat) (key_of seat)
            (ring_of_places self.old) (key_of_places self.old) }
        requires can { CanClose self.old seat bindings.now }
        ensures closes { (number : ℕ) (held : Held) → IsHeldBy self.old held
            → Closes (share_of self.old) number bindings.now opened_at seat.entry held self.new }
        ensures laid { IsLaidWith (free_seats (lobby_of self.old)) seat.entry
            (free_seats (lobby_of self.new)) }
        ensures card { IsSameCard self.old self.new }
        ensures reaped { reaped_of (lobby_of self.new) ≡ reaped_of (lobby_of self.old) }
    {
        self.release(&seat, bindings, opened_at);
        self.lobby.detach(seat);
    }

    /// Takes the seat of a client back that was stopped, as `close` does, and counts it.
    pub fn reap(&mut self, seat: MixSeat<'a>, bindings: &Bindings, opened_at: u64)
        requires one_ring { OneRing (ring_of seat) (key_of seat)
            (ring_of_places self.old) (key_of_places self.old) }
        requires can { CanClose self.old seat bindings.now }
        ensures closes { (number : ℕ) (held : Held) → IsHeldBy self.old held
            → Closes (share_of self.old) number bindings.now opened_at seat.entry held self.new }
        ensures laid { IsLaidWith (free_seats (lobby_of self.old)) seat.entry
            (free_seats (lobby_of self.new)) }
        ensures card { IsSameCard self.old self.new }
        ensures reaped { reaped_of (lobby_of self.new)
            ≡ min (reaped_of (lobby_of self.old) + 1) 4294967295 }
    {
        self.release(&seat, bindings, opened_at);
        self.lobby.reap(seat);
    }

    /// The lobby of the ring, to be closed.
    pub fn into_lobby(self) -> Lobby<'a>
        ensures { result ≡ lobby_of self.entry }
    {
        let Places {
            lobby,
            share: _,
            shares: _,
        } = self;
        lobby
    }

    // Whether the card's channels of the bindings can be released, where clients share the card by channels.
    fn can_release(&self, bindings: &Bindings) -> bool
        ensures { IsTrue result ↔ CanRelease self.now bindings.now }
    {
        match self.share {
            Share::Dmix => true,
            Share::Dshare => self.shares.can_release(bindings),
        }
    }

    // Releases a client's channels, where clients share the card by channels, with the client's own last frame.
    fn release(&mut self, seat: &MixSeat<'_>, bindings: &Bindings, opened_at: u64)
        requires { CanRelease self.old bindings.now }
        ensures claims { (h : List ClaimRow) → StandsFor (shares_of self.old) h
            → StandsFor (shares_of self.new)
            (with_release (share_of self.old) bindings.now
            (last_from opened_at (last_of seat.now)) h) }
        ensures same { IsSameLobby self.old self.new }
    {
        match self.share {
            Share::Dmix => {}
            Share::Dshare => self.shares.release(bindings, last_since(seat, opened_at)),
        }
    }

    // Claims the card's channels of the bindings, where clients share the card by channels.
    fn claim(&mut self, bindings: &Bindings, position: u64) -> Result<(), PcmError>
        requires { AreOfCard (shares_of self.old) bindings.now }
        ensures claims { (h : List ClaimRow) → StandsFor (shares_of self.old) h
            → IsClaimed (share_of self.old) h bindings.now position result (shares_of self.new) }
        ensures same { IsSameLobby self.old self.new }
        ensures refused { IfErr result (λ e. self.new ≡ self.old) }
    {
        claims_are_of_owners();
        match self.share {
            Share::Dmix => Ok(()),
            Share::Dshare => self.shares.claim(bindings, position),
        }
    }

    // Attaches a client beside the player; its seat meets the player's note.
    fn attach(&mut self, player: &mut PlayerSeat<'_>) -> Result<MixSeat<'a>, PcmError>
        requires { OneRing (player_ring player.old) (player_key player.old)
            (ring_of_places self.old) (key_of_places self.old) }
        ensures attaches { (number : ℕ) (lobby : runs.Lobby) → IsLobby self.old lobby
            → AttachesAt number (position_of_player player.old) lobby result self.new }
        ensures given { IfOk result (IsGiven self.old (position_of_player player.old)) }
        ensures place { IfOk result (IsNextPlace self.old (position_of_player player.old)) }
        ensures laid { KeepsLaid (free_seats (lobby_of self.old)) result
            (free_seats (lobby_of self.new)) }
        ensures player { PlayerStays player.old player.new }
        ensures same { IsSameCard self.old self.new }
        ensures shares { shares_of self.new ≡ shares_of self.old }
        ensures reaped { reaped_of (lobby_of self.new) ≡ reaped_of (lobby_of self.old) }
    {
        match self.lobby.attach_beside(player) {
            Ok(mut seat) => {
                meet_player(&mut seat, player);
                Ok(seat)
            }
            Err(e) => Err(e),
        }
    }
}

// A free seat meets the player's note, so that it has seen the position.
fn meet_player(seat: &mut MixSeat<'_>, player: &mut PlayerSeat<'_>)
    requires { OneRing (player_ring player.old) (player_key player.old)
        (ring_of seat.old) (key_of seat.old) }
    ensures { HasMetPlayer player.old player.new seat.old seat.new }
{
    let _position = player.position();
    let note = player.note();
    seat.meet(note);
    let _last = seat.last();
}

// The last frame of a seat, where that isn't below a position.
fn last_since(seat: &MixSeat<'_>, position: u64) -> Option<u64>
    ensures { result ≡ last_from position (last_of seat.now) }
{
    match seat.last() {
        Some(last) if last >= position => Some(last),
        _ => None,
    }
}
