//! The call that pauses a stream and resumes it.
ghost use Rattle.std.specs.Prelude.{◌≡◌, ℕ, ◌<◌, ◌≤◌, true, false, Option};
ghost use Rattle.course.specs.AtPort.{TakesAt};
ghost use Rattle.dmix_client.specs.CallRelations.{Pauses};
ghost use Rattle.dmix_client.specs.Calls.{base_of, pending_of, with_new_base, after_resume, start_count, started_in};
ghost use Rattle.dmix_client.specs.Causes.{Explains};
ghost use Rattle.dmix_client.specs.Course.{resumes};
ghost use Rattle.dmix_client.specs.Growth.{AnySamples, Keeps};
ghost use Rattle.dmix_client.specs.Port.{CanUse};
ghost use Rattle.dmix_client.specs.View.{IsSoundClient};

use crate::after_calls::resumed;
use crate::client::Client;
use crate::commit::look_and_start;
use crate::stream::PlaybackStream;
use mix_core::{Gate, MixPort};
use pcm_states::{Call, State};
use pcm_stream::Direction;
use snd_base::PcmError;

/// The resume of a client that has pending frames.
fn resume<P: MixPort, G: Gate>(
    stream: &mut PlaybackStream,
    ring: &[i16],
    port: &mut P,
    gate: &mut G,
) -> Result<(), PcmError>
    requires sound { IsSoundClient stream.old ring.now }
    requires paused { stream.old.status.state ≡ State.Paused }
    requires port { CanUse stream.old (P.view port.old) }
    ensures takes { TakesAt P.MixPort G.Gate (port.old, gate.old)
        (resumes stream.old (P.view port.old).marks.cursor ring.now) (port.new, gate.new)
        (stream.new, result) }
    ensures keeps { Keeps P.MixPort G.Gate (port.old, gate.old) (port.new, gate.new)
        (record { stream = base_of stream.old stream.new; ring = ring.now })
        (record { stream = stream.new; ring = ring.now }) result AnySamples }
    ensures explains { Explains P.MixPort G.Gate (port.old, gate.old) (port.new, gate.new)
        (record { stream = with_new_base stream.old; ring = ring.now })
        (λ position. started_in (with_new_base stream.old) State.Running position
        (P.view port.old).marks.cursor)
        (λ position. start_count (with_new_base stream.old) (P.view port.old).marks.cursor position
        (pending_of stream.old)) (after_resume stream.old (P.view port.old).marks.cursor)
        (stream.new, result) }
{
    let cursor = port.cursor();
    let from = stream.rebased();
    let found = look_and_start(&from, ring, port, gate, cursor, from.stretch.written);
    resumed(stream, cursor, found.load, found.commit)
}

impl Client {
    /// Pauses the stream, where it is `on`, or resumes it (`snd_pcm_pause`).
    ///
    /// A pause leads from RUNNING to PAUSED and does nothing else: what is committed stays in the card's ring and is played,
    /// and what is pending stays with the client. In PAUSED `sync` does nothing, and `avail_update` and `delay` answer by the
    /// position that was seen last.
    ///
    /// A resume of a stream with pending frames is a start of these: it begins a new segment, as after a `prepare`, at the
    /// larger of the position loaded plus the lead and the first frame that the port may still add to, and leads to RUNNING.
    /// A card that is gone, a frame that is late and a stop lead to the states that `start` names; a stop before the
    /// position was loaded leaves the stream in PAUSED with its counts. A resume without pending frames is a `prepare`: it
    /// leads to PREPARED without a load.
    ///
    /// In every other state a pause and a resume are refused with `BadState`, in DISCONNECTED with `NoDevice`.
    ///
    /// A resume asks for a port that the client can use (`can_use`); a pause, which takes no step at it, asks nothing of it.
    pub fn pause<P: MixPort, G: Gate>(
        &mut self,
        port: &mut P,
        gate: &mut G,
        on: bool,
    ) -> Result<(), PcmError>
        requires { on ≡ false → CanUse self.old.stream (P.view port.old) }
        ensures { Pauses P.MixPort G.Gate (port.old, gate.old) (port.new, gate.new) on self.old
            self.new result }
    {
        if on {
            self.stream.status.admit(Direction::Playback, Call::Pause)?;
            self.stream = self.stream.in_state(State::Paused);
            return Ok(());
        }
        self.stream.status.admit(Direction::Playback, Call::Resume)?;
        if self.stream.pending() == 0 {
            self.stream = self.stream.rebased();
            return Ok(());
        }
        let ring = self.ring.as_slice();
        resume(&mut self.stream, ring, port, gate)
    }
}
