//! The calls that the lines of an open client name.
ghost use Rattle.std.specs.Prelude.{◌≡◌, ◌-◌, ◌*◌, ◌^◌, ◌<◌, ◌≤◌, drop, false, min, take};
ghost use Rattle.lab_run.specs.Client.{frames_of};
ghost use Rattle.lab_clients.specs.Lines.{HasClientCalled, IsFew, IsReady};

use dmix_client::Client;
use lab_actors::{count_answer, done_answer, moved_answer};
use lab_lines::{Answer, Op};
use mix_core::{Gate, MixPort};
use snd_base::PcmError;
use wav_io::Wav;

/// The next `frames` frames of a client's file, of which `fed` frames are accepted, or those that are left of it.
fn next_frames(wav: &Wav, fed: u64, frames: u32) -> &[i16]
    requires { fed ≤ frames_of wav.now }
    ensures some { 1 ≤ wav.now.channels }
    ensures room { frames_of wav.now < 2 ^ 63 }
    ensures frames { result.now
        ≡ take (min frames (frames_of wav.now - fed) * wav.now.channels)
        (drop (fed * wav.now.channels) wav.now.samples) }
{
    let samples = wav.samples.as_slice();
    let channels = wav.channels as usize;
    let left = samples.len() / channels - fed as usize;
    let from = fed as usize * channels;
    let count = left.min(frames as usize) * channels;
    &samples[from..from + count]
}

/// The client writes the next `frames` frames of its file, or those that are left of it.
fn write<P: MixPort, G: Gate>(
    client: &mut Client,
    port: &mut P,
    gate: &mut G,
    wav: &Wav,
    frames: u32,
) -> Answer
    requires few { frames ≤ 4194304 }
    requires ready { IsReady P.MixPort wav.now port.old client.old }
    ensures { HasClientCalled P.MixPort G.Gate (port.old, gate.old) (port.new, gate.new)
        wav.now client.old client.new (Op.Write frames) result }
{
    let offer = next_frames(wav, client.fed(), frames);
    client.counts_are_sound();
    let answer = client.writei(port, gate, offer);
    moved_answer(answer)
}

/// The call that a line of an open client names. A write offers the next frames of the client's file, or those that are left.
pub(crate) fn call<P: MixPort, G: Gate>(
    client: &mut Client,
    port: &mut P,
    gate: &mut G,
    wav: &Wav,
    asked: Op,
) -> Answer
    requires few { IsFew asked }
    requires unstopped { client.old.stream.status.stopped ≡ false }
    requires ready { IsReady P.MixPort wav.now port.old client.old }
    ensures { HasClientCalled P.MixPort G.Gate (port.old, gate.old) (port.new, gate.new)
        wav.now client.old client.new asked result }
{
    client.counts_are_sound();
    match asked {
        Op::Write(frames) => write(client, port, gate, wav, frames),
        Op::Start => done_answer(client.start(port, gate)),
        Op::Sync => done_answer(client.sync(port, gate)),
        Op::Avail => count_answer(client.avail_update(port, gate)),
        Op::Delay => count_answer(client.delay(port, gate)),
        Op::Drain => done_answer(client.drain(port, gate)),
        Op::Drop => done_answer(client.drop_pending()),
        Op::Prepare => done_answer(client.prepare()),
        Op::Pause => done_answer(client.pause(port, gate, true)),
        Op::Resume => done_answer(client.pause(port, gate, false)),
        Op::Rewind(frames) => count_answer(client.rewind(port, gate, frames as u64)),
        Op::Rewindable => count_answer(client.rewindable(port, gate)),
        Op::Play(_) | Op::Unplug | Op::Read(_) | Op::Die(_) | Op::Opens | Op::Closes => {
            Answer::Failed(PcmError::BadState)
        }
    }
}
