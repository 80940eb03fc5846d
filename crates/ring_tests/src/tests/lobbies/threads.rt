//! Clients that come and go in threads of their own.

use super::*;
use std::process::Abort;
use std::thread::{Threads, for_each_mut, join_mut};

// A client that places 64 frames from frame 64 on, and whether it could.
struct Client<'a> {
    seat: MixSeat<'a>,
    sample: i16,
    laid: bool,
}

// One call wherever it is let go.
impl Drop for Client<'_> {
    fn drop(self) {
        let Client {
            seat: _,
            sample: _,
            laid: _,
        } = self;
    }
}

impl Client<'_> {
    fn lay_all(&mut self) {
        self.laid = lay_frames(&mut self.seat, 64, 64, self.sample);
    }
}

// Each client places in a thread of its own.
fn lay_beside<R: Threads + Sync>(rt: &R, clients: &mut [Client<'_>]) {
    for_each_mut(rt, clients, 2, &|_, client| client.lay_all());
}

// A client of the next seat.
fn new_client<'a>(lobby: &mut Lobby<'a>, sample: i16) -> Result<Client<'a>, PcmError> {
    let seat = lobby.attach()?;
    Ok(Client {
        seat,
        sample,
        laid: false,
    })
}

// Two clients of a lobby that place the samples 30000 and 10000 at once, and whether both could.
fn lay_two<R: Threads + Sync>(rt: &R, lobby: &mut Lobby<'_>) -> Result<bool, PcmError> {
    let a = new_client(lobby, 30000)?;
    let mut clients = [a, new_client(lobby, 10000)?];
    lay_beside(rt, &mut clients);
    Ok(clients[0].laid && clients[1].laid)
}

// Whether the player takes this value so many times.
fn is_taken(player: &mut PlayerSeat<'_>, value: i16, count: u32) -> bool {
    for _ in 0..count {
        match player.take_word() {
            Ok(taken) if taken.value == value => {}
            _ => return false,
        }
    }
    true
}

// Two seats that a lobby handed out place in threads of their own, and the card plays their sums.
#[test]
fn seats_of_a_lobby_lay_in_threads(rt: HostRuntime) -> Result<(), PcmError> {
    let mut ring = new_ring(rt.alloc(), 2)?;
    let (mut player, mix) = ring.seats();
    let mut lobby = Lobby::new(rt.alloc(), mix)?;
    assert!(rt; lay_two(&rt, &mut lobby) == Ok(true));
    assert!(rt; is_taken(&mut player, 0, 64));
    assert!(rt; is_taken(&mut player, 32767, 64));
    Ok(())
}

// How often a client in the other thread asks for a seat.
const ASKS: usize = 1_000_000;

// A lobby whose one seat is to be handed out, and the answer.
struct Waiting<'a> {
    lobby: Lobby<'a>,
    seen: u64,
}

impl Drop for Waiting<'_> {
    fn drop(self) {
        let Waiting { lobby: _, seen: _ } = self;
    }
}

impl Waiting<'_> {
    // Asks until the place is silent, and notes the position of the last refusal.
    fn ask_all(&mut self) {
        for _ in 0..ASKS {
            let Err(PcmError::Busy { seen, .. }) = self.lobby.attach() else {
                return;
            };
            self.seen = seen;
        }
    }
}

// The player, which takes 128 words.
#[derive(Drop)]
struct Playing<'a> {
    player: PlayerSeat<'a>,
}

impl Playing<'_> {
    fn play_all(&mut self) {
        for _ in 0..128 {
            let _ = self.player.take_word();
            self.player.publish();
        }
    }
}

fn play_beside<R: Threads + Sync>(rt: &R, playing: &mut Playing<'_>, waiting: &mut Waiting<'_>) {
    join_mut(rt, &mut || playing.play_all(), &mut || waiting.ask_all());
}

// A client attaches, places in frames 64 to 127, and is gone: its place is silent from frame 128 on.
fn come_and_go(rt: &impl Abort, hall: &mut Hall<'_>) -> Result<(), Fail> {
    assert!(rt; hall.attach()? == Ok(0));
    hall.lay(64, 64, 5)?;
    assert!(rt; hall.detach()? == 128);
    assert!(rt; hall.out.is_empty());
    Ok(())
}

// While the card plays, a lobby in another thread hands no seat out before its last frame is played.
#[test]
fn a_lobby_attaches_while_the_card_plays(rt: HostRuntime) -> Result<(), Fail> {
    let mut ring = new_ring(rt.alloc(), 1)?;
    let mut hall = open_hall(rt.alloc(), &mut ring)?;
    come_and_go(&rt, &mut hall)?;
    let (player, lobby) = hall.into_parts();
    let mut playing = Playing { player };
    let mut waiting = Waiting { lobby, seen: 0 };
    play_beside(&rt, &mut playing, &mut waiting);
    assert!(rt; waiting.seen < 128);
    Ok(())
}
