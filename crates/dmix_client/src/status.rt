//! The calls that ask for a stream's status, as alsa-lib groups them: each loads the position and commits what is pending.
ghost use Rattle.std.specs.Prelude.{◌≡◌, ℕ, true, false, OnOk, Option};
ghost use Rattle.course.specs.AtPort.{TakesAt};
ghost use Rattle.pcm_stream.specs.Status.{is_moving};
ghost use Rattle.dmix_client.specs.Asked.{asked_number};
ghost use Rattle.dmix_client.specs.CallRelations.{AnswersNumber, Syncs};
ghost use Rattle.dmix_client.specs.Calls.{avail_answer, delay_answer, sync_count, after_sync};
ghost use Rattle.dmix_client.specs.Causes.{Explains};
ghost use Rattle.dmix_client.specs.Course.{syncs};
ghost use Rattle.dmix_client.specs.Growth.{AnySamples, Keeps, KeepsAccepted};
ghost use Rattle.dmix_client.specs.Port.{CanUse, IsFrameStep};
ghost use Rattle.dmix_client.specs.View.{IsGoing, IsSoundClient};

use crate::after_calls::{after_sync, with_number};
use crate::client::Client;
use crate::commit::look_and_commit;
use crate::stream::PlaybackStream;
use mix_core::{Gate, MixPort};
use pcm_states::Call;
use pcm_stream::Direction;
use snd_base::PcmError;

/// A number that a call answers after its sync.
#[derive(Clone, Copy)]
pub(crate) enum Asked {
    /// The frames that a write can take.
    Avail,
    /// The frames from the position seen to the end of what is written.
    Delay,
}

/// The sync of a client that moves frames.
#[inline(always)]
pub(crate) fn sync_call<P: MixPort, G: Gate>(
    stream: &mut PlaybackStream,
    ring: &[i16],
    port: &mut P,
    gate: &mut G,
    call: Call,
) -> Result<(), PcmError>
    requires sound { IsSoundClient stream.old ring.now }
    requires moving { is_moving stream.old.status.state ≡ true }
    requires unstopped { stream.old.status.stopped ≡ false }
    requires step { IsFrameStep stream.old.status.state call }
    requires port { CanUse stream.old (P.view port.old) }
    ensures takes { TakesAt P.MixPort G.Gate (port.old, gate.old) (syncs stream.old call ring.now)
        (port.new, gate.new) (stream.new, result) }
    ensures keeps { Keeps P.MixPort G.Gate (port.old, gate.old) (port.new, gate.new)
        (record { stream = stream.old; ring = ring.now })
        (record { stream = stream.new; ring = ring.now }) result AnySamples }
    ensures sound { IsSoundClient stream.new ring.now }
    ensures port { CanUse stream.new (P.view port.new) }
    ensures goes { OnOk result (IsGoing stream.new) }
    ensures same { KeepsAccepted stream.old stream.new }
    ensures explains { Explains P.MixPort G.Gate (port.old, gate.old) (port.new, gate.new)
        (record { stream = stream.old; ring = ring.now }) (λ position. stream.old)
        (sync_count stream.old) (after_sync stream.old call) (stream.new, result) }
{
    let found = look_and_commit(stream, ring, port, gate);
    after_sync(stream, call, found.load, found.commit)
}

impl Client {
    /// Loads the card's position and commits what is pending (`snd_pcm_hwsync`).
    ///
    /// In RUNNING and DRAINING the position is loaded. Where the card is gone the stream is DISCONNECTED, with
    /// `NoDevice`; where in RUNNING as many frames are available as the stop threshold says, it is XRUN, with `Avail`.
    /// Then all pending frames that are within the ring of the position are placed, and one that comes too late leads to
    /// XRUN, with `Late`, whatever the stop threshold. A stream in DRAINING whose frames are played then is SETUP.
    ///
    /// In PREPARED it does nothing. In XRUN it is refused with `Already`, in DISCONNECTED with `NoDevice`, in OPEN and
    /// SETUP with `BadState`. `Stopped` comes exactly where the client was stopped before, or the gate's count of stops
    /// rose in this call; what was placed stays.
    pub fn sync<P: MixPort, G: Gate>(&mut self, port: &mut P, gate: &mut G) -> Result<(), PcmError>
        requires { CanUse self.old.stream (P.view port.old) }
        ensures { Syncs P.MixPort G.Gate (port.old, gate.old) (port.new, gate.new) self.old
            self.new result }
    {
        self.stream.status.admit(Direction::Playback, Call::Sync)?;
        if !self.stream.status.is_moving() {
            return Ok(());
        }
        let ring = self.ring.as_slice();
        sync_call(&mut self.stream, ring, port, gate, Call::Sync)
    }

    /// Makes a `sync` and answers a number. It is refused as `sync` is.
    fn ask<P: MixPort, G: Gate>(
        &mut self,
        port: &mut P,
        gate: &mut G,
        asked: Asked,
    ) -> Result<u64, PcmError>
        requires { CanUse self.old.stream (P.view port.old) }
        ensures { AnswersNumber P.MixPort G.Gate (port.old, gate.old) (port.new, gate.new)
            (asked_number asked) self.old self.new result }
    {
        self.stream.status.admit(Direction::Playback, Call::Sync)?;
        if !self.stream.status.is_moving() {
            return Ok(self.stream.number(asked));
        }
        let ring = self.ring.as_slice();
        let answer = sync_call(&mut self.stream, ring, port, gate, Call::Sync);
        with_number(&self.stream, asked, answer)
    }

    /// Makes a `sync` and answers the frames that a write can take (`snd_pcm_avail`, which syncs as this does, and not
    /// `snd_pcm_avail_update`): the buffer size, less what is written and not played. It may exceed the buffer size. Where
    /// the sync ended in SETUP it is the buffer size. It is refused as `sync` is.
    pub fn avail_update<P: MixPort, G: Gate>(
        &mut self,
        port: &mut P,
        gate: &mut G,
    ) -> Result<u64, PcmError>
        requires { CanUse self.old.stream (P.view port.old) }
        ensures { AnswersNumber P.MixPort G.Gate (port.old, gate.old) (port.new, gate.new)
            avail_answer self.old self.new result }
    {
        self.ask(port, gate, Asked::Avail)
    }

    /// Makes a `sync` and answers how many frames are left from the position seen to the end of what is written
    /// (`snd_pcm_delay`). In PREPARED these are all that is written; where the sync ended in SETUP there are none. It is
    /// refused as `sync` is.
    pub fn delay<P: MixPort, G: Gate>(
        &mut self,
        port: &mut P,
        gate: &mut G,
    ) -> Result<u64, PcmError>
        requires { CanUse self.old.stream (P.view port.old) }
        ensures { AnswersNumber P.MixPort G.Gate (port.old, gate.old) (port.new, gate.new)
            delay_answer self.old self.new result }
    {
        self.ask(port, gate, Asked::Delay)
    }
}
