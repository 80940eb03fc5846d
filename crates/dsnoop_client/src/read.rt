//! The call that moves frames.
ghost use Rattle.std.specs.Prelude.{◌≡◌, ◌*◌, ◌/◌, ◌≤◌, false, IfOk, length};
ghost use Rattle.pcm_states.specs.declared.calls.Call.TheVariants as call;
ghost use Rattle.pcm_stream.specs.Status.{refusal_of};
ghost use Rattle.pcm_stream.specs.declared.direction.Direction.{Direction};
ghost use Rattle.course.specs.AtSnoopPort.{TakesAtSnoop};
ghost use Rattle.dsnoop_client.specs.CallRelations.{ReadsFrames};
ghost use Rattle.dsnoop_client.specs.Course.{reads_first, reads_on, transfers};
ghost use Rattle.dsnoop_client.specs.Reads.{GivesFrames};
ghost use Rattle.dsnoop_client.specs.View.{CanRead, CanUse, HasRoom, IsGoing, IsSoundReader, LoadsFor, frames_in};

use crate::after_calls::{read_after, waits};
use crate::frames::load_frames;
use crate::positions::{start_call, sync_call};
use crate::reader::Reader;
use crate::stream::CaptureStream;
use mix_core::Gate;
use pcm_states::{Call, State};
use pcm_stream::Direction;
use snd_base::PcmError;
use snoop_core::SnoopPort;

/// Loads the frames of a read of `frames` frames, of a reader that runs and has loaded the position.
fn transfer<P: SnoopPort, G: Gate>(
    stream: &mut CaptureStream,
    frame: &mut [i16],
    port: &mut P,
    gate: &mut G,
    out: &mut [i16],
    frames: u64,
) -> Result<u64, PcmError>
    requires sound { IsSoundReader stream.old }
    requires going { IsGoing stream.old (P.view port.old) }
    requires room { HasRoom stream.old frame.old }
    requires fits { frames * length stream.old.setup.bindings ≤ length out.old }
    ensures takes { TakesAtSnoop P.SnoopPort G.Gate (port.old, gate.old)
        (transfers stream.old frames) (port.new, gate.new) (stream.new, result) }
    ensures reads { GivesFrames P.SnoopPort port.old port.new stream.old stream.new
        out.old out.new result }
    ensures few { IfOk result (λ n. n ≤ frames) }
{
    let count = stream.taken(frames);
    let bindings = stream.setup.bindings;
    let loads = load_frames(port, gate, &bindings, stream.next, count, frame, out);
    let (after, answer) = read_after(*stream, frames, loads.frames, loads.ended);
    *stream = after;
    answer
}

/// A read of `frames` frames, of a reader that runs.
fn read_running<P: SnoopPort, G: Gate>(
    stream: &mut CaptureStream,
    frame: &mut [i16],
    port: &mut P,
    gate: &mut G,
    out: &mut [i16],
    frames: u64,
) -> Result<u64, PcmError>
    requires sound { IsSoundReader stream.old }
    requires running { stream.old.status.state ≡ State.Running }
    requires unstopped { stream.old.status.stopped ≡ false }
    requires port { CanUse stream.old (P.view port.old) }
    requires room { HasRoom stream.old frame.old }
    requires fits { frames * length stream.old.setup.bindings ≤ length out.old }
    ensures takes { TakesAtSnoop P.SnoopPort G.Gate (port.old, gate.old)
        (reads_on stream.old frames) (port.new, gate.new) (stream.new, result) }
    ensures reads { GivesFrames P.SnoopPort port.old port.new stream.old stream.new
        out.old out.new result }
    ensures few { IfOk result (λ n. n ≤ frames) }
{
    if let Err(error) = sync_call(stream, port, gate, Call::Transfer) {
        return Err(error);
    }
    transfer(stream, frame, port, gate, out, frames)
}

/// A read of `frames` frames, of a prepared reader that it starts.
fn read_starting<P: SnoopPort, G: Gate>(
    stream: &mut CaptureStream,
    frame: &mut [i16],
    port: &mut P,
    gate: &mut G,
    out: &mut [i16],
    frames: u64,
) -> Result<u64, PcmError>
    requires sound { IsSoundReader stream.old }
    requires prepared { stream.old.status.state ≡ State.Prepared }
    requires unstopped { stream.old.status.stopped ≡ false }
    requires port { CanUse stream.old (P.view port.old) }
    requires room { HasRoom stream.old frame.old }
    requires fits { frames * length stream.old.setup.bindings ≤ length out.old }
    ensures takes { TakesAtSnoop P.SnoopPort G.Gate (port.old, gate.old)
        (reads_first stream.old frames) (port.new, gate.new) (stream.new, result) }
    ensures reads { GivesFrames P.SnoopPort port.old port.new stream.old stream.new
        out.old out.new result }
    ensures few { IfOk result (λ n. n ≤ frames) }
{
    if let Err(error) = start_call(stream, port, gate, Call::Transfer) {
        return Err(error);
    }
    transfer(stream, frame, port, gate, out, frames)
}

/// How many whole frames of so many channels some samples have room for.
fn whole_frames(samples: &[i16], channels: u8) -> u64
    requires { 1 ≤ channels }
    ensures value { result ≡ length samples.now / channels }
    ensures fits { result * channels ≤ length samples.now }
{
    (samples.len() / channels as usize) as u64
}

/// A read that was admitted.
fn read_admitted<P: SnoopPort, G: Gate>(
    stream: &mut CaptureStream,
    frame: &mut [i16],
    port: &mut P,
    gate: &mut G,
    out: &mut [i16],
) -> Result<u64, PcmError>
    requires sound { IsSoundReader stream.old }
    requires admitted { refusal_of Direction.Capture stream.old.status call.Transfer ≡ None }
    requires port { CanUse stream.old (P.view port.old) }
    requires room { HasRoom stream.old frame.old }
    ensures reads { ReadsFrames P.SnoopPort G.Gate (port.old, gate.old) (port.new, gate.new) out.old
        out.new stream.old stream.new result }
    ensures stays { (LoadsFor stream.old (frames_in stream.old out.old) → ⊥)
        → frame.new ≡ frame.old }
    ensures few { IfOk result (λ n. n ≤ frames_in stream.old out.old) }
{
    let frames = whole_frames(out, stream.setup.bindings.len());
    if stream.is_running() {
        return read_running(stream, frame, port, gate, out, frames);
    }
    if frames < stream.setup.params.start_threshold {
        return waits(frames);
    }
    read_starting(stream, frame, port, gate, out, frames)
}

/// A number of frames that was asked for, at most 4,194,304.
fn frames_answer(answer: Result<u64, PcmError>) -> Result<u32, PcmError>
    requires { IfOk answer (λ n. n ≤ 4194304) }
    ensures { result ≡ answer }
{
    match answer {
        Ok(frames) => Ok(frames as u32),
        Err(error) => Err(error),
    }
}

impl Reader {
    /// Reads interleaved frames into `out` and answers how many were read (`snd_pcm_readi` of a stream that doesn't
    /// wait).
    ///
    /// The caller has room for whole frames, at most 4,194,304 of them (`can_read`).
    ///
    /// - In RUNNING the stream is synced first, and what the `sync` refuses is the answer.
    /// - In PREPARED, a read of as many frames as the start threshold makes a `start`, and makes no second load. One of
    ///   fewer frames does nothing: it answers `Again`, or 0 frames where there is no room.
    /// - `Again` further comes exactly where there is room and no frame was captured since the last one read.
    /// - Then the frames from the reader's next one on are loaded, as many as there is room for and as were captured, each
    ///   through the bindings, and the reader's next frame is after them. Where a later frame was stored over one of
    ///   them, the stream is XRUN, with `Overtaken`.
    /// - In XRUN it is refused with `Already`, in DISCONNECTED with `NoDevice`, and else with `BadState`.
    ///
    /// A call that answers an error counts no frame, and leaves nothing of use in `out`.
    pub fn readi<P: SnoopPort, G: Gate>(
        &mut self,
        port: &mut P,
        gate: &mut G,
        out: &mut [i16],
    ) -> Result<u32, PcmError>
        requires room { CanRead self.old out.old }
        requires port { CanUse self.old (P.view port.old) }
        ensures { ReadsFrames P.SnoopPort G.Gate (port.old, gate.old) (port.new, gate.new) out.old
            out.new self.old self.new result }
    {
        self.stream
            .status
            .admit(Direction::Capture, Call::Transfer)?;
        let frame = self.frame.as_mut_slice();
        let answer = read_admitted(&mut self.stream, frame, port, gate, out);
        frames_answer(answer)
    }
}
