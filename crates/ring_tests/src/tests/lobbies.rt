//! Seats that a lobby handed out.
ghost use Rattle.std.specs.Prelude.{◌≡◌, ◌≤◌, All, IfOk};
ghost use Rattle.sum_table.specs.Joins.{OneRing};
ghost use Rattle.sum_table.specs.Players.{player_key, player_ring};
ghost use Rattle.sum_table.specs.Rings.{GaveNone};
ghost use Rattle.sum_table.specs.Seats.{IsLaterSeat, key_of, ring_of};
ghost use Rattle.lobby.specs.Lobbies.{key_of_lobby, places_of_lobby, ring_of_lobby};

mod threads;

use super::sums::try_place;
use lobby::Lobby;
use mix_core::{MixPort, Placed};
use snd_base::{Geometry, PcmError};
use std::alloc::Global;
use std::test::Fail;
use sum_table::{MixSeat, PlayerSeat, SumRing};

// A mono ring of 256 frames.
fn new_ring(alloc: Global, places: u32) -> Result<SumRing, PcmError>
    requires least { 1 ≤ places }
    requires few { places ≤ 64 }
    ensures { IfOk result (λ ring. GaveNone ring) }
{
    let geometry = Geometry {
        frames: 256,
        channels: 1,
        first_lap: 0,
    };
    SumRing::new(alloc, geometry, places)
}

// Places a sample where the seat may, and says whether it was placed in time.
fn try_lay(seat: &mut MixSeat<'_>, frame: u64, channel: u8, sample: i16) -> bool
    ensures { IsLaterSeat seat.old seat.new }
{
    try_place(seat, frame, channel, sample) == Some(Placed::In)
}

// Places a sample in each of some frames, in channel 0, and says whether all were placed in time.
fn lay_frames(seat: &mut MixSeat<'_>, first: u64, count: u64, sample: i16) -> bool
    ensures { IsLaterSeat seat.old seat.new }
{
    for frame in first..first.saturating_add(count) {
        if !try_lay(seat, frame, 0, sample) {
            return false;
        }
    }
    true
}

// A lobby beside the player of its ring, and the seats that it handed out.
struct Hall<'a> {
    player: PlayerSeat<'a>,
    lobby: Lobby<'a>,
    out: Vec<MixSeat<'a>>,
    ghost of_player: { OneRing (player_ring player) (player_key player) (ring_of_lobby lobby)
        (key_of_lobby lobby) },
    ghost of_seats: { All (λ s. OneRing (ring_of s) (key_of s) (ring_of_lobby lobby)
        (key_of_lobby lobby)) out.items },
    ghost all_places: { places_of_lobby lobby ≡ (key_of_lobby lobby).places },
}

// One call wherever it is let go. A derive drops each part in turn there, and the proof goes through all of them.
impl Drop for Hall<'_> {
    fn drop(self) {
        let Hall {
            player: _,
            lobby: _,
            out: _,
        } = self;
    }
}

// The hall of a ring whose seats are not given yet.
fn open_hall(alloc: Global, ring: &mut SumRing) -> Result<Hall<'_>, Fail>
    requires { GaveNone ring.old }
{
    let (player, mix) = ring.seats();
    let lobby = Lobby::new(alloc, mix)?;
    Ok(Hall {
        player,
        lobby,
        out: Vec::new(alloc),
    })
}

impl<'a> Hall<'a> {
    // Attaches, and answers the number of the place.
    fn attach(&mut self) -> Result<Result<u32, PcmError>, Fail> {
        match self.lobby.attach() {
            Ok(seat) => {
                let member = seat.member();
                self.out.push(seat)?;
                Ok(Ok(member))
            }
            Err(e) => Ok(Err(e)),
        }
    }

    // The seat that was handed out last places a sample in some frames.
    fn lay(&mut self, first: u64, count: u64, sample: i16) -> Result<(), Fail> {
        let Some(mut seat) = self.out.pop() else {
            return Err("no seat".into());
        };
        if !lay_frames(&mut seat, first, count, sample) {
            return Err("not laid".into());
        }
        self.out.push(seat)?;
        Ok(())
    }

    // Takes the seat back that was handed out last.
    fn detach(&mut self) -> Result<u64, Fail> {
        let Some(seat) = self.out.pop() else {
            return Err("no seat".into());
        };
        if !self.lobby.can_take_back(&seat) {
            return Err("not this lobby's".into());
        }
        Ok(self.lobby.detach(seat))
    }

    // The player and the lobby, without the seats that were handed out.
    fn into_parts(self) -> (PlayerSeat<'a>, Lobby<'a>) {
        let Hall {
            player,
            lobby,
            out: _,
        } = self;
        (player, lobby)
    }
}
