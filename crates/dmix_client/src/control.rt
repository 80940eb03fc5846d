//! The calls that start a stream and end it, as alsa-lib groups them.
ghost use Rattle.std.specs.Prelude.{◌≡◌, ◌↔◌, ℕ, ◌<◌, ◌≤◌, true, false, OnOk, Option};
ghost use Rattle.snd_base.specs.Places.{end_frame};
ghost use Rattle.course.specs.AtPort.{TakesAt};
ghost use Rattle.pcm_stream.specs.Status.{is_moving};
ghost use Rattle.dmix_client.specs.CallRelations.{Drains, Starts};
ghost use Rattle.dmix_client.specs.Calls.{start_count, after_start, started_in};
ghost use Rattle.dmix_client.specs.Causes.{Explains, ExplainsDrain};
ghost use Rattle.dmix_client.specs.Course.{drains, starts};
ghost use Rattle.dmix_client.specs.Growth.{AnySamples, Keeps, KeepsAccepted};
ghost use Rattle.dmix_client.specs.Port.{CanUse};
ghost use Rattle.dmix_client.specs.View.{IsSoundClient};

use crate::after_calls::after_start;
use crate::client::Client;
use crate::commit::look_and_start;
use crate::status::sync_call;
use crate::stream::PlaybackStream;
use mix_core::{Gate, MixPort};
use pcm_states::{Call, State};
use pcm_stream::Direction;
use snd_base::{Cursor, PcmError, XrunWhy};

/// The start, to `state`, of a client that is prepared and has frames, those before `upto`, from the port's cursor on.
pub(crate) fn begin<P: MixPort, G: Gate>(
    stream: &PlaybackStream,
    ring: &[i16],
    port: &mut P,
    gate: &mut G,
    state: State,
    upto: u64,
) -> (PlaybackStream, Result<(), PcmError>)
    requires sound { IsSoundClient stream.now ring.now }
    requires prepared { stream.now.status.state ≡ State.Prepared }
    requires fits { upto ≤ stream.now.setup.config.buffer_size }
    requires port { CanUse stream.now (P.view port.old) }
    ensures takes { TakesAt P.MixPort G.Gate (port.old, gate.old)
        (starts stream.now state (P.view port.old).marks.cursor upto ring.now) (port.new, gate.new)
        result }
    ensures near { (P.view port.old).marks.cursor.frame ≤ end_frame stream.now.identity.geometry }
    ensures same { KeepsAccepted stream.now result.0 }
{
    let cursor = port.cursor();
    let found = look_and_start(stream, ring, port, gate, cursor, upto);
    let mut begun = *stream;
    let answer = after_start(&mut begun, state, cursor, found.load, found.commit);
    (begun, answer)
}

/// The start, to `state`, of a client that is prepared and has frames.
fn start_all<P: MixPort, G: Gate>(
    stream: &mut PlaybackStream,
    ring: &[i16],
    port: &mut P,
    gate: &mut G,
    state: State,
) -> Result<(), PcmError>
    requires sound { IsSoundClient stream.old ring.now }
    requires prepared { stream.old.status.state ≡ State.Prepared }
    requires leads { is_moving state ≡ true }
    requires port { CanUse stream.old (P.view port.old) }
    ensures takes { TakesAt P.MixPort G.Gate (port.old, gate.old)
        (starts stream.old state (P.view port.old).marks.cursor stream.old.stretch.written ring.now)
        (port.new, gate.new) (stream.new, result) }
    ensures keeps { Keeps P.MixPort G.Gate (port.old, gate.old) (port.new, gate.new)
        (record { stream = stream.old; ring = ring.now })
        (record { stream = stream.new; ring = ring.now }) result AnySamples }
    ensures goes { OnOk result ((stream.new.status.state ≡ state)
        × (stream.new.status.stopped ≡ stream.old.status.stopped)) }
    ensures explains { Explains P.MixPort G.Gate (port.old, gate.old) (port.new, gate.new)
        (record { stream = stream.old; ring = ring.now })
        (λ position. started_in stream.old State.Running position (P.view port.old).marks.cursor)
        (λ position. start_count stream.old (P.view port.old).marks.cursor position
        stream.old.stretch.written) (after_start stream.old state (P.view port.old).marks.cursor)
        (stream.new, result) }
{
    let upto = stream.stretch.written;
    let (begun, answer) = begin(stream, ring, port, gate, state, upto);
    *stream = begun;
    answer
}

/// The start of a client that is prepared and has frames, and, where it went well, the sync of its drain.
pub(crate) fn start_and_drain<P: MixPort, G: Gate>(
    stream: &mut PlaybackStream,
    ring: &[i16],
    port: &mut P,
    gate: &mut G,
) -> Result<(), PcmError>
    requires sound { IsSoundClient stream.old ring.now }
    requires prepared { stream.old.status.state ≡ State.Prepared }
    requires unstopped { stream.old.status.stopped ≡ false }
    requires port { CanUse stream.old (P.view port.old) }
    ensures takes { TakesAt P.MixPort G.Gate (port.old, gate.old)
        (drains stream.old ring.now (P.view port.old).marks.cursor) (port.new, gate.new)
        (stream.new, result) }
    ensures sound { IsSoundClient stream.new ring.now }
    ensures keeps { Keeps P.MixPort G.Gate (port.old, gate.old) (port.new, gate.new)
        (record { stream = stream.old; ring = ring.now })
        (record { stream = stream.new; ring = ring.now }) result AnySamples }
    ensures again { (result ≡ Err PcmError.Again)
        ↔ ((stream.new.status.state ≡ State.Draining) × (stream.new.status.stopped ≡ false)) }
    ensures explains { ExplainsDrain P.MixPort G.Gate (port.old, gate.old) (port.new, gate.new)
        (record { stream = stream.old; ring = ring.now }) (P.view port.old).marks.cursor
        (stream.new, result) }
{
    let begun = start_all(stream, ring, port, gate, State::Draining);
    if let Err(error) = begun {
        return Err(error);
    }
    sync_call(stream, ring, port, gate, Call::Drain)
}

impl Client {
    /// Starts the stream (`snd_pcm_start`). In ALSA it starts at once; here its first frame is at the larger of two
    /// frames: the position loaded plus the lead, and the first frame that the port may still add to. What is written is
    /// committed there.
    ///
    /// From PREPARED it leads to RUNNING. `Xrun(Empty)` comes exactly where nothing is written; then nothing is loaded and
    /// the state stays. A card that is gone and a frame that is late lead to the states that `sync` names, and `Stopped`
    /// comes as there. In every other state it is refused with `BadState`, in DISCONNECTED with `NoDevice`.
    pub fn start<P: MixPort, G: Gate>(&mut self, port: &mut P, gate: &mut G) -> Result<(), PcmError>
        requires { CanUse self.old.stream (P.view port.old) }
        ensures { Starts P.MixPort G.Gate (port.old, gate.old) (port.new, gate.new) self.old
            self.new result }
    {
        self.stream.status.admit(Direction::Playback, Call::Start)?;
        if self.stream.stretch.written == 0 {
            return Err(PcmError::Xrun(XrunWhy::Empty));
        }
        let ring = self.ring.as_slice();
        start_all(&mut self.stream, ring, port, gate, State::Running)
    }

    /// Plays what is written, and then stops the stream (`snd_pcm_drain` of a stream that doesn't wait).
    ///
    /// In RUNNING it is DRAINING before its load; in PREPARED with frames it makes the start first, so that it loads the
    /// position twice. Then it makes the sync of a stream in DRAINING, which no stop threshold ends. `Ok` says that all is
    /// played and the state is SETUP, `Again` that it is still DRAINING. In SETUP, XRUN and PREPARED without frames it is
    /// `Ok` and leads to SETUP without a load. In OPEN and PAUSED it is refused with `BadState`, in DISCONNECTED with
    /// `NoDevice`.
    pub fn drain<P: MixPort, G: Gate>(&mut self, port: &mut P, gate: &mut G) -> Result<(), PcmError>
        requires { CanUse self.old.stream (P.view port.old) }
        ensures { Drains P.MixPort G.Gate (port.old, gate.old) (port.new, gate.new) self.old
            self.new result }
    {
        self.stream.status.admit(Direction::Playback, Call::Drain)?;
        let ring = self.ring.as_slice();
        if self.stream.status.is_moving() {
            self.stream = self.stream.in_state(State::Draining);
            return sync_call(&mut self.stream, ring, port, gate, Call::Drain);
        }
        if !self.stream.has_frames() {
            self.stream = self.stream.dropped();
            return Ok(());
        }
        start_and_drain(&mut self.stream, ring, port, gate)
    }
}
