//! Frames of the card, and of files.
ghost use Rattle.std.specs.Prelude.{◌≡◌, ◌≤◌};
ghost use Rattle.lab_lines.specs.Script.{first_frame, frames_played, phases_of, played_by, played_in};
ghost use Rattle.lab_run.specs.Client.{frames_of};

use lab_lines::{CardLine, Item, Line, Op};
use wav_io::Wav;

/// The frame at which the card begins.
pub(crate) fn first_frame(card: &CardLine) -> u64
    ensures { result ≡ first_frame card.now }
{
    u64::from(card.lap) * u64::from(card.ring)
}

/// How many frames a client's file has.
pub(crate) fn frames_of(wav: &Wav) -> u64
    ensures { result ≡ frames_of wav.now }
{
    (wav.samples.len() / usize::from(wav.channels)) as u64
}

/// The frames that the card plays by what is asked for.
fn played_by(op: Op) -> u32
    ensures { result ≡ played_by op }
{
    match op {
        Op::Play(frames) => frames,
        _ => 0,
    }
}

/// The frames that the card plays by the lines of a phase.
fn played_in(lines: &[Line]) -> u64
    requires { played_in lines.now ≤ 4194304 }
    ensures { result ≡ played_in lines.now }
{
    let mut frames = 0;
    for line in lines {
        frames += u64::from(played_by(line.op));
    }
    frames
}

/// The frames that the card plays in all phases of a body.
pub(crate) fn frames_played(body: &[Item]) -> u64
    requires { frames_played (phases_of body.now) ≤ 4194304 }
    ensures { result ≡ frames_played (phases_of body.now) }
{
    let mut frames = 0;
    for item in body {
        if let Item::Phase(phase) = item {
            frames += played_in(phase.as_slice());
        }
    }
    frames
}
