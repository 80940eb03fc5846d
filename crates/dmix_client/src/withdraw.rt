//! Frames are withdrawn from the card's ring through a port, the last one first.
ghost use Rattle.std.specs.Prelude.{◌≡◌, ℕ, ◌+◌, ◌-◌, ◌*◌, ◌%◌, ◌^◌, ◌<◌, ◌≤◌, length};
ghost use Rattle.snd_base.specs.Places.{IsFrom};
ghost use Rattle.bindings.specs.Bound.{AreBindings};
ghost use Rattle.course.specs.AtPort.{TakesAt};
ghost use Rattle.dmix_client.specs.Expansion.{frame_entries, run_entries};
ghost use Rattle.dmix_client.specs.Port.{IsOnCard, least_channel};
ghost use Rattle.dmix_client.specs.Rewind.{rewind_left, take_each, take_frames};
ghost use Rattle.dmix_client.specs.View.{ring_sample};

use crate::commit::{Commit, bound_sample, held_from};
use crate::stream::PlaybackStream;
use mix_core::{Ended, Gate, MixPort};

/// How many channels of a frame are left, by rising card channel, and why no more were withdrawn.
#[derive(Clone, Copy)]
struct Left {
    pub channels: u8,
    pub ended: Ended,
}

/// Withdraws the samples of the client's frame `number`, by falling card channel.
fn take_frame<P: MixPort, G: Gate>(
    port: &mut P,
    gate: &mut G,
    stream: &PlaybackStream,
    ring: &[i16],
    number: u64,
) -> Left
    requires member { (P.view port.old).member ≡ stream.now.identity.member }
    requires bound { AreBindings stream.now.setup.bindings }
    requires buffer { 1 ≤ stream.now.setup.config.buffer_size }
    requires room { length ring.now ≡ stream.now.setup.config.buffer_size * length
        stream.now.setup.bindings }
    requires fits { stream.now.stretch.card + number < 2 ^ 64 }
    requires from_floor { IsFrom (P.view port.old).marks.floor (stream.now.stretch.card + number)
        (least_channel stream.now.setup.bindings) }
    requires held { P.ends_in port.old
        (frame_entries stream.now.identity.member stream.now.setup.bindings
        (ring_sample stream.now ring.now number) (length stream.now.setup.bindings)
        (stream.now.stretch.card + number)) }
    ensures { TakesAt P.MixPort G.Gate (port.old, gate.old)
        (take_each stream.now.identity.member (stream.now.stretch.card + number)
        stream.now.setup.bindings (ring_sample stream.now ring.now number)
        (length stream.now.setup.bindings)) (port.new, gate.new) (result.channels, result.ended) }
{
    let slot = held_from(stream, number);
    for place in (0..stream.setup.bindings.len()).rev() {
        let channels = stream.setup.bindings.len();
        let bound = bound_sample(&stream.setup.bindings, ring, slot, place, channels);
        let frame = stream.stretch.card + number;
        let answer = port.withdraw(gate, frame, bound.channel, bound.sample);
        match Ended::of(answer) {
            Ended::Whole => {}
            ended => return Left {
                channels: place + 1,
                ended,
            },
        }
    }
    Left {
        channels: 0,
        ended: Ended::Whole,
    }
}

/// What is left of `frames` whole frames and of one more, of which `left` of `channels` channels are left.
fn left_of(frames: u64, left: u8, channels: u8, ended: Ended) -> Commit
    requires { frames + 1 < 2 ^ 64 }
    ensures { result ≡ rewind_left frames left channels ended }
{
    if left == channels {
        Commit {
            frames: frames + 1,
            part: 0,
            ended,
        }
    } else {
        Commit {
            frames,
            part: left,
            ended,
        }
    }
}

/// Withdraws the last `count` committed frames, up to a sample that is late or stopped, and says what is left of them.
pub(crate) fn take_frames<P: MixPort, G: Gate>(
    port: &mut P,
    gate: &mut G,
    stream: &PlaybackStream,
    ring: &[i16],
    count: u64,
) -> Commit
    requires member { (P.view port.old).member ≡ stream.now.identity.member }
    requires bound { IsOnCard stream.now.setup.bindings (P.view port.old).geometry }
    requires buffer { 1 ≤ stream.now.setup.config.buffer_size }
    requires room { length ring.now ≡ stream.now.setup.config.buffer_size * length
        stream.now.setup.bindings }
    requires few { count ≤ stream.now.stretch.committed }
    requires fits { stream.now.stretch.card + stream.now.stretch.committed < 2 ^ 64 }
    requires from_floor { 0 < count →
        IsFrom (P.view port.old).marks.floor
        (stream.now.stretch.card + (stream.now.stretch.committed - count))
        (least_channel stream.now.setup.bindings) }
    requires held { P.ends_in port.old
        (run_entries stream.now.identity.member stream.now.setup.bindings
        (ring_sample stream.now ring.now)
        stream.now.stretch.card (stream.now.stretch.committed - count) count 0) }
    ensures { TakesAt P.MixPort G.Gate (port.old, gate.old)
        (take_frames stream.now.identity.member stream.now.stretch.card stream.now.setup.bindings
        (ring_sample stream.now ring.now) (stream.now.stretch.committed - count) count)
        (port.new, gate.new)
        result }
{
    let channels = stream.setup.bindings.len();
    let first = stream.stretch.committed - count;
    for frame in (0..count).rev() {
        let left = take_frame(port, gate, stream, ring, first + frame);
        match left.ended {
            Ended::Whole => {}
            ended => return left_of(frame, left.channels, channels, ended),
        }
    }
    Commit::NOTHING
}
