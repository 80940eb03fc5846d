//! The call that moves frames.
ghost use Rattle.std.specs.Prelude.{◌≡◌, ℕ, ◌+◌, ◌*◌, ◌/◌, ◌^◌, ◌<◌, ◌≤◌, true, false, IfOk, ℤ, List, length, Option};
ghost use Rattle.snd_base.specs.Places.{end_frame};
ghost use Rattle.course.specs.AtPort.{TakesAt};
ghost use Rattle.pcm_stream.specs.Status.{is_moving};
ghost use Rattle.dmix_client.specs.CallRelations.{WritesFrames};
ghost use Rattle.dmix_client.specs.Calls.{accepted_if, start_count, after_start, started_in, taken_of};
ghost use Rattle.dmix_client.specs.Causes.{Explains, ExplainsWrite};
ghost use Rattle.dmix_client.specs.Course.{fills, starts_taking, takes_more, writes_on};
ghost use Rattle.dmix_client.specs.Growth.{Follows, Keeps};
ghost use Rattle.dmix_client.specs.Port.{CanUse};
ghost use Rattle.dmix_client.specs.View.{IsSoundClient};
ghost use Rattle.dmix_client.specs.Writes.{IsOffer, frames_in, ring_with, starts_with};

use crate::after_calls::{accepted_if, written_after};
use crate::client::Client;
use crate::commit::lay_frames;
use crate::control::begin;
use crate::ring::store;
use crate::status::sync_call;
use crate::stream::PlaybackStream;
use mix_core::{Gate, MixPort};
use pcm_states::{Call, State};
use pcm_stream::Direction;
use snd_base::PcmError;

/// A write of `frames` frames into a stream that runs, after its sync: what it takes is stored, and committed at the position that was seen.
fn write_taken<P: MixPort, G: Gate>(
    stream: &mut PlaybackStream,
    ring: &mut [i16],
    port: &mut P,
    gate: &mut G,
    samples: &[i16],
    frames: u64,
) -> Result<u64, PcmError>
    requires sound { IsSoundClient stream.old ring.old }
    requires moving { is_moving stream.old.status.state ≡ true }
    requires unstopped { stream.old.status.stopped ≡ false }
    requires held { frames * length stream.old.setup.bindings ≤ length samples.now }
    requires few { frames ≤ 4194304 }
    requires fed { stream.old.fed < 2 ^ 63 }
    requires port { CanUse stream.old (P.view port.old) }
    ensures takes { TakesAt P.MixPort G.Gate (port.old, gate.old)
        (takes_more stream.old ring.old samples.now frames) (port.new, gate.new)
        (stream.new, result) }
    ensures ring { ring.new
        ≡ ring_with stream.old ring.old samples.now (taken_of stream.old frames) }
{
    let avail = stream.avail();
    let taken = stream.taken_within(frames, avail);
    store_taken(stream, ring, samples, taken);
    let count = stream.count_with(taken);
    let last = lay_frames(port, gate, stream, ring, count);
    written_after(stream, frames, avail, last)
}

/// Stores the first `taken` frames of some samples after what is written.
fn store_taken(stream: &PlaybackStream, ring: &mut [i16], samples: &[i16], taken: u64)
    requires sound { IsSoundClient stream.now ring.old }
    requires configured { stream.now.setup.configured ≡ true }
    requires held { taken * length stream.now.setup.bindings ≤ length samples.now }
    ensures ring { ring.new ≡ ring_with stream.now ring.old samples.now taken }
    ensures sound { IsSoundClient stream.now ring.new }
{
    store(
        ring,
        stream.setup.config.buffer_size,
        stream.setup.bindings.len(),
        stream.fed,
        samples,
        taken,
    );
}

/// A write of `frames` frames into a stream that runs.
fn write_running<P: MixPort, G: Gate>(
    stream: &mut PlaybackStream,
    ring: &mut [i16],
    port: &mut P,
    gate: &mut G,
    samples: &[i16],
    frames: u64,
) -> Result<u64, PcmError>
    requires sound { IsSoundClient stream.old ring.old }
    requires running { stream.old.status.state ≡ State.Running }
    requires unstopped { stream.old.status.stopped ≡ false }
    requires held { frames * length stream.old.setup.bindings ≤ length samples.now }
    requires few { frames ≤ 4194304 }
    requires fed { stream.old.fed < 2 ^ 63 }
    requires port { CanUse stream.old (P.view port.old) }
    ensures takes { TakesAt P.MixPort G.Gate (port.old, gate.old)
        (writes_on stream.old ring.old samples.now frames) (port.new, gate.new)
        (stream.new, result) }
    ensures sound { IsSoundClient stream.new ring.new }
    ensures count { IfOk result (λ n. n ≤ 16384) }
    ensures keeps { Keeps P.MixPort G.Gate (port.old, gate.old) (port.new, gate.new)
        (record { stream = stream.old; ring = ring.old })
        (record { stream = stream.new; ring = ring.new }) result
        (λ all. Follows stream.old all samples.now frames) }
    ensures explains { ExplainsWrite P.MixPort G.Gate (port.old, gate.old) (port.new, gate.new)
        stream.old ring.old ring.new samples.now frames (stream.new, result) }
{
    let synced = sync_call(stream, ring, port, gate, Call::Transfer);
    if let Err(error) = synced {
        return Err(error);
    }
    write_taken(stream, ring, port, gate, samples, frames)
}

/// The start of a prepared client in whose ring a write stored `taken` frames.
fn start_write<P: MixPort, G: Gate>(
    stream: &mut PlaybackStream,
    ring: &[i16],
    port: &mut P,
    gate: &mut G,
    taken: u64,
) -> Result<u64, PcmError>
    requires sound { IsSoundClient stream.old ring.now }
    requires prepared { stream.old.status.state ≡ State.Prepared }
    requires fits { stream.old.stretch.written + taken ≤ stream.old.setup.config.buffer_size }
    requires fed { stream.old.fed < 2 ^ 63 }
    requires port { CanUse stream.old (P.view port.old) }
    ensures takes { TakesAt P.MixPort G.Gate (port.old, gate.old)
        (starts_taking stream.old ring.now (P.view port.old).marks.cursor taken)
        (port.new, gate.new)
        (stream.new, result) }
    ensures near { (P.view port.old).marks.cursor.frame ≤ end_frame stream.old.identity.geometry }
{
    let upto = stream.stretch.written + taken;
    let begun = begin(stream, ring, port, gate, State::Running, upto);
    let (after, answer) = accepted_if(taken, begun);
    *stream = after;
    answer
}

/// A write of `frames` frames into a prepared stream.
fn write_prepared<P: MixPort, G: Gate>(
    stream: &mut PlaybackStream,
    ring: &mut [i16],
    port: &mut P,
    gate: &mut G,
    samples: &[i16],
    frames: u64,
) -> Result<u64, PcmError>
    requires sound { IsSoundClient stream.old ring.old }
    requires prepared { stream.old.status.state ≡ State.Prepared }
    requires held { frames * length stream.old.setup.bindings ≤ length samples.now }
    requires few { frames ≤ 4194304 }
    requires fed { stream.old.fed < 2 ^ 63 }
    requires port { CanUse stream.old (P.view port.old) }
    ensures takes { TakesAt P.MixPort G.Gate (port.old, gate.old)
        (fills stream.old ring.old samples.now (P.view port.old).marks.cursor frames)
        (port.new, gate.new) (stream.new, result) }
    ensures ring { ring.new
        ≡ ring_with stream.old ring.old samples.now (taken_of stream.old frames) }
    ensures sound { IsSoundClient stream.new ring.new }
    ensures count { IfOk result (λ n. n ≤ 16384) }
    ensures keeps { Keeps P.MixPort G.Gate (port.old, gate.old) (port.new, gate.new)
        (record { stream = stream.old; ring = ring.old })
        (record { stream = stream.new; ring = ring.new }) result
        (λ all. Follows stream.old all samples.now frames) }
    ensures explains { starts_with stream.old frames ≡ true →
        Explains P.MixPort G.Gate (port.old, gate.old) (port.new, gate.new)
        (record { stream = stream.old; ring = ring.new })
        (λ position. started_in stream.old State.Running position (P.view port.old).marks.cursor)
        (λ position. start_count stream.old (P.view port.old).marks.cursor position
        (stream.old.stretch.written + taken_of stream.old frames))
        (λ load commit. accepted_if (taken_of stream.old frames)
        (after_start stream.old State.Running (P.view port.old).marks.cursor load commit))
        (stream.new, result) }
{
    let taken = stream.taken_within(frames, stream.avail());
    store_taken(stream, ring, samples, taken);
    if stream.setup.params.start_threshold > stream.stretch.written + taken {
        *stream = stream.accepted(taken);
        return Ok(taken);
    }
    start_write(stream, ring, port, gate, taken)
}

/// A number of frames of at most a buffer.
fn frames_answer(answer: Result<u64, PcmError>) -> Result<u32, PcmError>
    requires { IfOk answer (λ n. n ≤ 16384) }
    ensures { result ≡ answer }
{
    match answer {
        Ok(frames) => Ok(frames as u32),
        Err(error) => Err(error),
    }
}

/// How many whole frames of a client there are in some samples.
fn whole_frames(stream: &PlaybackStream, samples: &[i16]) -> u64
    ensures value { result ≡ frames_in stream.now samples.now }
    ensures held { result * length stream.now.setup.bindings ≤ length samples.now }
{
    let channels = stream.setup.bindings.len() as usize;
    (samples.len() / channels) as u64
}

impl Client {
    /// Writes interleaved frames and answers how many were accepted (`snd_pcm_writei` of a stream that doesn't wait).
    ///
    /// The caller has whole frames, at most 4,194,304 of them, and less than 2 to the power 63 accepted so far.
    ///
    /// - In RUNNING the stream is synced first, and what the `sync` refuses is the answer. `Again` comes exactly where
    ///   the sync went well, there are frames to write and none can be taken. Otherwise as many frames as can be taken are
    ///   committed, at the position that was loaded.
    /// - In PREPARED as many frames as can be taken are stored, and a `start` is made where the start threshold is
    ///   reached. A full stream takes none.
    /// - In XRUN it is refused with `Already`, in DISCONNECTED with `NoDevice`, and else with `BadState`.
    ///
    /// The frames of a call that answers an error are not accepted. What was placed of them stays in the card's ring, and
    /// `segment` shows it.
    pub fn writei<P: MixPort, G: Gate>(
        &mut self,
        port: &mut P,
        gate: &mut G,
        samples: &[i16],
    ) -> Result<u32, PcmError>
        requires offer { self.old.stream.setup.configured ≡ true →
            IsOffer self.old.stream samples.now }
        requires port { CanUse self.old.stream (P.view port.old) }
        ensures { WritesFrames P.MixPort G.Gate (port.old, gate.old) (port.new, gate.new) samples.now
            self.old self.new result }
    {
        self.stream
            .status
            .admit(Direction::Playback, Call::Transfer)?;
        let frames = whole_frames(&self.stream, samples);
        let ring = self.ring.as_mut_slice();
        if self.stream.status.state == State::Running {
            let answer = write_running(&mut self.stream, ring, port, gate, samples, frames);
            return frames_answer(answer);
        }
        let answer = write_prepared(&mut self.stream, ring, port, gate, samples, frames);
        frames_answer(answer)
    }
}
