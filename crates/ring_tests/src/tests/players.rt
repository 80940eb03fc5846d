//! Frames that are played up to the last lap.
ghost use Rattle.std.specs.Prelude.{◌≤◌, IfOk};
ghost use Rattle.sum_table.specs.Rings.{GaveNone};

use super::sums::try_place;
use card_player::CardPlayer;
use mix_core::{MixPort, NeverStops, Placed, Position};
use snd_base::{Geometry, PcmError};
use std::alloc::Global;
use std::process::Abort;
use sum_table::{MixSeat, SumRing};

// A ring of 64 frames.
fn new_ring(alloc: Global, channels: u8, first_lap: u32) -> Result<SumRing, PcmError>
    requires one { 1 ≤ channels }
    requires most { channels ≤ 8 }
    requires lap { first_lap ≤ 4294967294 }
    ensures { IfOk result (λ ring. GaveNone ring) }
{
    let geometry = Geometry {
        frames: 64,
        channels,
        first_lap,
    };
    SumRing::new(alloc, geometry, 1)
}

// Plays as many frames as a buffer has room for, and does nothing within a frame.
fn play(player: &mut CardPlayer<'_>, out: &mut [i16]) -> Option<Result<(), PcmError>> {
    if !player.is_at_frame() {
        return None;
    }
    Some(player.play(out))
}

// Takes one frame where the player may, and does nothing elsewhere.
fn take_frame(player: &mut CardPlayer<'_>, out: &mut [i16]) -> Option<Result<(), PcmError>> {
    if !player.is_at_frame() || out.len() < player.geometry().channels as usize {
        return None;
    }
    Some(player.take_frame(out))
}

// Plays up to frame `end`, before which a sample is placed, and tries to play on.
fn play_to(rt: &impl Abort, player: &mut CardPlayer<'_>, mix: &mut MixSeat<'_>, end: u64)
    requires { 1 ≤ end }
{
    assert!(rt; try_place(mix, end - 1, 0, 3) == Some(Placed::In));
    let mut out = [1i16; 100];
    assert!(rt; play(player, &mut out) == Some(Err(PcmError::LapEnd)));
    assert!(rt; [out[0], out[62], out[63], out[64]] == [0, 0, 3, 1]);
    let position = Position {
        frame: end,
        gone: false,
    };
    assert!(rt; mix.position(&mut NeverStops) == Ok(position));
    assert!(rt; take_frame(player, &mut out) == Some(Err(PcmError::LapEnd)));
    assert!(rt; out[0] == 0);
}

// A ring whose first lap is the last one ends after its 64 frames: they are played, and the rest is refused.
#[test]
fn the_frames_before_the_last_lap_are_played(rt: HostRuntime) -> Result<(), PcmError> {
    let mut ring = new_ring(rt.alloc(), 1, 4294967294)?;
    let (seat, mut mix) = ring.seats();
    let mut player = CardPlayer::new(seat, 100);
    play_to(&rt, &mut player, &mut mix, 4294967295 * 64);
    Ok(())
}
