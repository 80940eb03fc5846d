//! The calls that take frames back.
ghost use Rattle.std.specs.Prelude.{◌≡◌, ℕ, ◌+◌, ◌-◌, ◌^◌, ◌<◌, ◌≤◌, true, false, ℤ, List, Option};
ghost use Rattle.pcm_states.specs.declared.calls.Call.TheVariants as call;
ghost use Rattle.course.specs.AtPort.{LoadsAt, TakesAt};
ghost use Rattle.dmix_client.specs.CallRelations.{CountsRewindable, Rewinds};
ghost use Rattle.dmix_client.specs.Calls.{after_sync, with_number};
ghost use Rattle.dmix_client.specs.Course.{nothing, course_with_number};
ghost use Rattle.dmix_client.specs.Growth.{AnySamples, Keeps, KeepsBack};
ghost use Rattle.dmix_client.specs.Port.{CanUse};
ghost use Rattle.dmix_client.specs.Rewind.{checks, held_entries, rewindable_of, rewinds, takes_back};
ghost use Rattle.dmix_client.specs.RewindCauses.{ExplainsCheck, ExplainsRewind};
ghost use Rattle.dmix_client.specs.View.{IsSoundClient};

use crate::after_calls::after_sync;
use crate::client::Client;
use crate::commit::Commit;
use crate::rewind_states::{rewound, with_rewindable};
use crate::stream::PlaybackStream;
use crate::withdraw::take_frames;
use mix_core::{Gate, MixPort, Position};
use pcm_states::{Call, State};
use pcm_stream::Direction;
use snd_base::{Cursor, PcmError};

/// Loads the position, or none where the gate stops the load.
fn load<P: MixPort, G: Gate>(port: &mut P, gate: &mut G) -> Option<Position>
    ensures { LoadsAt P.MixPort G.Gate (port.old, gate.old) result (port.new, gate.new) }
{
    match port.position(gate) {
        Ok(position) => Some(position),
        Err(_) => None,
    }
}

/// Loads the position for a client that runs, as a sync does, and commits nothing.
fn check<P: MixPort, G: Gate>(
    stream: &mut PlaybackStream,
    port: &mut P,
    gate: &mut G,
) -> Result<(), PcmError>
    requires sound { (ring : List ℤ) × IsSoundClient stream.old ring }
    requires running { stream.old.status.state ≡ State.Running }
    requires unstopped { stream.old.status.stopped ≡ false }
    requires port { CanUse stream.old (P.view port.old) }
    ensures { TakesAt P.MixPort G.Gate (port.old, gate.old) (checks stream.old) (port.new, gate.new)
        (stream.new, result) }
{
    let found = load(port, gate);
    after_sync(stream, Call::Transfer, found, Commit::NOTHING)
}

/// Takes back `frames` frames of a client that runs, pending ones first, and then the last committed ones.
fn take_back<P: MixPort, G: Gate>(
    stream: &mut PlaybackStream,
    ring: &[i16],
    port: &mut P,
    gate: &mut G,
    frames: u64,
) -> Result<u64, PcmError>
    requires sound { IsSoundClient stream.old ring.now }
    requires running { stream.old.status.state ≡ State.Running }
    requires unstopped { stream.old.status.stopped ≡ false }
    requires port { CanUse stream.old (P.view port.old) }
    requires few { frames ≤ rewindable_of (P.view port.old).marks.floor stream.old }
    requires standing { P.ends_in port.old (held_entries stream.old ring.now) }
    ensures { TakesAt P.MixPort G.Gate (port.old, gate.old) (takes_back stream.old ring.now frames)
        (port.new, gate.new) (stream.new, result) }
{
    let left = take_frames(port, gate, stream, ring, stream.back(frames));
    rewound(stream, frames, left)
}

/// The frames that a client which runs can take back, after its load.
fn rewindable_running<P: MixPort, G: Gate>(
    stream: &mut PlaybackStream,
    port: &mut P,
    gate: &mut G,
) -> Result<u64, PcmError>
    requires sound { (ring : List ℤ) × IsSoundClient stream.old ring }
    requires running { stream.old.status.state ≡ State.Running }
    requires unstopped { stream.old.status.stopped ≡ false }
    requires port { CanUse stream.old (P.view port.old) }
    ensures takes { TakesAt P.MixPort G.Gate (port.old, gate.old)
        (course_with_number (rewindable_of (P.view port.old).marks.floor) (checks stream.old))
        (port.new, gate.new) (stream.new, result) }
    ensures keeps { (ring : List ℤ) → IsSoundClient stream.old ring →
        Keeps P.MixPort G.Gate (port.old, gate.old) (port.new, gate.new)
        (record { stream = stream.old; ring = ring }) (record { stream = stream.new; ring = ring })
        result AnySamples }
    ensures explains { ExplainsCheck P.MixPort G.Gate (port.old, gate.old) (port.new, gate.new)
        stream.old (λ load. with_number (rewindable_of (P.view port.old).marks.floor)
        (after_sync stream.old call.Transfer load nothing)) (stream.new, result) }
{
    let floor = port.floor();
    let checked = check(stream, port, gate);
    with_rewindable(stream, floor, checked)
}

/// A rewind of a client that runs.
fn rewind_running<P: MixPort, G: Gate>(
    stream: &mut PlaybackStream,
    ring: &[i16],
    port: &mut P,
    gate: &mut G,
    frames: u64,
) -> Result<u64, PcmError>
    requires sound { IsSoundClient stream.old ring.now }
    requires running { stream.old.status.state ≡ State.Running }
    requires unstopped { stream.old.status.stopped ≡ false }
    requires port { CanUse stream.old (P.view port.old) }
    requires standing { P.ends_in port.old (held_entries stream.old ring.now) }
    ensures takes { TakesAt P.MixPort G.Gate (port.old, gate.old)
        (rewinds stream.old ring.now (P.view port.old).marks.floor frames) (port.new, gate.new)
        (stream.new, result) }
    ensures keeps { KeepsBack P.MixPort G.Gate (port.old, gate.old) (port.new, gate.new)
        (record { stream = stream.old; ring = ring.now })
        (record { stream = stream.new; ring = ring.now }) result }
    ensures explains { ExplainsRewind P.MixPort G.Gate (port.old, gate.old) (port.new, gate.new)
        stream.old ring.now (P.view port.old).marks.floor frames (stream.new, result) }
{
    let floor = port.floor();
    let checked = check(stream, port, gate);
    if let Err(error) = checked {
        return Err(error);
    }
    let rewindable = stream.rewindable(floor);
    take_back(stream, ring, port, gate, frames.min(rewindable))
}

impl Client {
    /// How many of the last frames a `rewind` would take back now (`snd_pcm_rewindable`).
    ///
    /// These are the pending frames, and the committed ones that are at or past the position, and not before the port's floor:
    /// frames are withdrawn once at most, so a client that wrote over withdrawn frames withdraws none of those again.
    ///
    /// In RUNNING the position is loaded, and a card that is gone and a stop threshold that is reached lead to the states that
    /// `sync` names; nothing is committed. In PREPARED nothing is loaded, and these are all that is written. In every other
    /// state it is refused as a write is. `Stopped` comes as in `sync`.
    pub fn rewindable<P: MixPort, G: Gate>(
        &mut self,
        port: &mut P,
        gate: &mut G,
    ) -> Result<u64, PcmError>
        requires { CanUse self.old.stream (P.view port.old) }
        ensures { CountsRewindable P.MixPort G.Gate (port.old, gate.old) (port.new, gate.new)
            self.old self.new result }
    {
        self.stream
            .status
            .admit(Direction::Playback, Call::Transfer)?;
        if self.stream.status.state == State::Running {
            return rewindable_running(&mut self.stream, port, gate);
        }
        Ok(self.stream.stretch.written)
    }

    /// Takes back the last `frames` frames, or as many as `rewindable` says, and answers how many (`snd_pcm_rewind`).
    ///
    /// Pending frames are taken back first. Then committed ones are withdrawn from the card's ring, the last frame first, and
    /// each frame's channels by falling card channel. The position is loaded and tested as in `rewindable`; nothing is
    /// committed. The frames are no longer accepted, and the next write continues where they began.
    ///
    /// `Xrun(Late)` comes exactly where a sample that was to be withdrawn was taken before. The state is XRUN then, and the
    /// stream has the frames that are left in the ring, of which the last may be left in a part of its channels: `segment`
    /// says. `Stopped` after the load leaves the same counts. In every other state than RUNNING and PREPARED it is refused as
    /// a write is.
    ///
    /// The caller knows that the port's standing adds end in the committed frames that aren't played, as far as the client
    /// saw: this is so where they ended in the client's segment since it was prepared (`Keeps`).
    pub fn rewind<P: MixPort, G: Gate>(
        &mut self,
        port: &mut P,
        gate: &mut G,
        frames: u64,
    ) -> Result<u64, PcmError>
        requires port { CanUse self.old.stream (P.view port.old) }
        requires standing { self.old.stream.status.state ≡ State.Running →
            self.old.stream.status.stopped ≡ false →
            P.ends_in port.old (held_entries self.old.stream self.old.ring) }
        ensures { Rewinds P.MixPort G.Gate (port.old, gate.old) (port.new, gate.new) frames
            self.old self.new result }
    {
        self.stream
            .status
            .admit(Direction::Playback, Call::Transfer)?;
        if self.stream.status.state == State::Running {
            let ring = self.ring.as_slice();
            return rewind_running(&mut self.stream, ring, port, gate, frames);
        }
        let taken = frames.min(self.stream.stretch.written);
        self.stream = self.stream.without(taken);
        Ok(taken)
    }
}
