//! The calls that load the card's position and no frame, as alsa-lib groups them: a start, and those that ask how far the
//! capture is.
ghost use Rattle.std.specs.Prelude.{◌≡◌, true, false, [], OnOk};
ghost use Rattle.course.specs.AtSnoopPort.{LoadsAtSnoop, TakesAtSnoop};
ghost use Rattle.dsnoop_client.specs.CallRelations.{AnswersAvail, Starts, Syncs};
ghost use Rattle.dsnoop_client.specs.Causes.{Explains};
ghost use Rattle.dsnoop_client.specs.Course.{starts, syncs};
ghost use Rattle.dsnoop_client.specs.Port.{Keeps};
ghost use Rattle.dsnoop_client.specs.View.{CanUse, IsGoing, IsReadyIf, IsSoundReader, IsStart, IsSync};

use crate::after_calls::{after_start, after_sync, with_avail};
use crate::reader::Reader;
use crate::stream::CaptureStream;
use mix_core::{Gate, Position};
use pcm_states::{Call, State};
use pcm_stream::Direction;
use snd_base::PcmError;
use snoop_core::SnoopPort;

/// Loads the position, unless the gate stops it.
fn load<P: SnoopPort, G: Gate>(port: &mut P, gate: &mut G) -> Option<Position>
    ensures { LoadsAtSnoop P.SnoopPort G.Gate (port.old, gate.old) result (port.new, gate.new) }
{
    match port.position(gate) {
        Ok(position) => Some(position),
        Err(_) => None,
    }
}

/// The start of a reader that is prepared.
pub(crate) fn start_call<P: SnoopPort, G: Gate>(
    stream: &mut CaptureStream,
    port: &mut P,
    gate: &mut G,
    call: Call,
) -> Result<(), PcmError>
    requires sound { IsSoundReader stream.old }
    requires prepared { stream.old.status.state ≡ State.Prepared }
    requires unstopped { stream.old.status.stopped ≡ false }
    requires start { IsStart call }
    requires port { CanUse stream.old (P.view port.old) }
    ensures takes { TakesAtSnoop P.SnoopPort G.Gate (port.old, gate.old)
        (starts stream.old call) (port.new, gate.new) (stream.new, result) }
    ensures keeps { Keeps P.SnoopPort G.Gate (port.old, gate.old) (port.new, gate.new)
        stream.old stream.new result }
    ensures causes { Explains P.SnoopPort port.old port.new stream.old stream.new result }
    ensures going { OnOk result (IsGoing stream.new (P.view port.new)) }
    ensures got_nothing { P.got port.old port.new [] }
{
    let position = load(port, gate);
    let (after, answer) = after_start(*stream, call, position);
    *stream = after;
    answer
}

/// The sync of a reader that runs.
pub(crate) fn sync_call<P: SnoopPort, G: Gate>(
    stream: &mut CaptureStream,
    port: &mut P,
    gate: &mut G,
    call: Call,
) -> Result<(), PcmError>
    requires sound { IsSoundReader stream.old }
    requires running { stream.old.status.state ≡ State.Running }
    requires unstopped { stream.old.status.stopped ≡ false }
    requires sync { IsSync call }
    requires port { CanUse stream.old (P.view port.old) }
    ensures takes { TakesAtSnoop P.SnoopPort G.Gate (port.old, gate.old)
        (syncs stream.old call) (port.new, gate.new) (stream.new, result) }
    ensures keeps { Keeps P.SnoopPort G.Gate (port.old, gate.old) (port.new, gate.new)
        stream.old stream.new result }
    ensures causes { Explains P.SnoopPort port.old port.new stream.old stream.new result }
    ensures going { OnOk result (IsGoing stream.new (P.view port.new)) }
    ensures got_nothing { P.got port.old port.new [] }
    ensures stays { stream.new.next ≡ stream.old.next }
    ensures ready { IsReadyIf stream.new result }
{
    let position = load(port, gate);
    let (after, answer) = after_sync(*stream, call, position);
    *stream = after;
    answer
}

impl Reader {
    /// Starts the stream (`snd_pcm_start`): the position loaded is the first frame that it reads. Unlike a playback, a
    /// capture starts with nothing in hand.
    ///
    /// From PREPARED it leads to RUNNING. Where the card is gone the stream is DISCONNECTED, with `NoDevice`. In every
    /// other state it is refused with `BadState`, in DISCONNECTED with `NoDevice`. `Stopped` comes exactly where the
    /// reader was stopped before, or the gate's count of stops rose in this call; then nothing was loaded.
    pub fn start<P: SnoopPort, G: Gate>(
        &mut self,
        port: &mut P,
        gate: &mut G,
    ) -> Result<(), PcmError>
        requires { CanUse self.old (P.view port.old) }
        ensures { Starts P.SnoopPort G.Gate (port.old, gate.old) (port.new, gate.new) self.old
            self.new result }
    {
        self.stream.status.admit(Direction::Capture, Call::Start)?;
        start_call(&mut self.stream, port, gate, Call::Start)
    }

    /// Loads the card's position (`snd_pcm_hwsync`), in RUNNING.
    ///
    /// Where the card is gone the stream is DISCONNECTED, with `NoDevice`; where as many frames are available as the stop
    /// threshold says, it is XRUN, with `Avail`. In PREPARED it does nothing. In XRUN it is refused with `Already`, in
    /// DISCONNECTED with `NoDevice`, in OPEN and SETUP with `BadState`. `Stopped` comes exactly where the reader was
    /// stopped before, or the gate's count of stops rose in this call; then nothing was loaded.
    pub fn sync<P: SnoopPort, G: Gate>(
        &mut self,
        port: &mut P,
        gate: &mut G,
    ) -> Result<(), PcmError>
        requires { CanUse self.old (P.view port.old) }
        ensures { Syncs P.SnoopPort G.Gate (port.old, gate.old) (port.new, gate.new) self.old
            self.new result }
    {
        self.stream.status.admit(Direction::Capture, Call::Sync)?;
        if !self.stream.is_running() {
            return Ok(());
        }
        sync_call(&mut self.stream, port, gate, Call::Sync)
    }

    /// Makes a `sync` and answers how many frames can be read: those from the next frame of a read to the position
    /// (`snd_pcm_avail`). In PREPARED there are none. It is refused as `sync` is.
    pub fn avail_update<P: SnoopPort, G: Gate>(
        &mut self,
        port: &mut P,
        gate: &mut G,
    ) -> Result<u64, PcmError>
        requires { CanUse self.old (P.view port.old) }
        ensures { AnswersAvail P.SnoopPort G.Gate (port.old, gate.old) (port.new, gate.new)
            self.old self.new result }
    {
        self.stream.status.admit(Direction::Capture, Call::Sync)?;
        if !self.stream.is_running() {
            return Ok(0);
        }
        let answer = sync_call(&mut self.stream, port, gate, Call::Sync);
        with_avail(&self.stream, answer)
    }
}
