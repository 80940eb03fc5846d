//! Frames are placed in the card's ring through a port: a commit, alone and after a load of the position.
ghost use Rattle.std.specs.Prelude.{◌≡◌, ℕ, ◌+◌, ◌*◌, ◌%◌, ◌^◌, ◌<◌, ◌≤◌, true, false, pos, IfSome, length, slice_index, slice_index_or, unwrap_or};
ghost use Rattle.snd_base.specs.Places.{IsFrom, end_frame};
ghost use Rattle.bindings.specs.Bound.{rising};
ghost use Rattle.course.specs.AtPort.{TakesAt};
ghost use Rattle.dmix_client.specs.Calls.{start_count, started_in, sync_count, window_end};
ghost use Rattle.dmix_client.specs.Course.{commits, lay_frame, lay_frames, looks};
ghost use Rattle.dmix_client.specs.Port.{CanUse, IsFound, IsOnCard, least_channel};
ghost use Rattle.pcm_stream.specs.Status.{is_moving};
ghost use Rattle.dmix_client.specs.View.{IsSoundClient, ring_sample, slot_sample};

use crate::stream::PlaybackStream;
use bindings::Bindings;
use mix_core::{Ended, Gate, MixPort, Position};
use pcm_states::State;
use snd_base::Cursor;

/// What a commit placed: whole frames, and then `part` channels of one more, by rising card channel; and how its last
/// placement ended.
#[derive(Clone, Copy, Debug, PartialEq, Eq)]
pub struct Commit {
    pub frames: u64,
    pub part: u8,
    pub ended: Ended,
}

impl Commit {
    /// A commit that had nothing to place.
    pub const NOTHING: Commit = Commit {
        frames: 0,
        part: 0,
        ended: Ended::Whole,
    };
}

/// How many channels of a frame were placed, by rising card channel, and why no more were.
#[derive(Clone, Copy)]
struct Channels {
    pub placed: u8,
    pub ended: Ended,
}

/// What a load, None where the gate stopped it, and the commit after it ended in.
#[derive(Clone, Copy)]
pub(crate) struct Found {
    pub load: Option<Position>,
    pub commit: Commit,
}

impl Found {
    /// No step was taken.
    pub const NOTHING: Found = Found {
        load: None,
        commit: Commit::NOTHING,
    };
}

/// A sample, and the card channel that it is for.
#[derive(Clone, Copy)]
pub(crate) struct BoundSample {
    pub channel: u8,
    pub sample: i16,
}

/// The slot of frame number `from + frame` in a local ring of `buffer_size` frames.
pub(crate) fn slot_of(from: u64, frame: u64, buffer_size: u32) -> u64
    requires some { 1 ≤ buffer_size }
    ensures value { result ≡ (from + frame) % buffer_size }
    ensures within { result < buffer_size }
{
    let size = buffer_size as u64;
    match from.checked_add(frame) {
        Some(number) => number % size,
        None => (from % size + frame % size) % size,
    }
}

/// Where the samples of a client's frame begin in its local ring.
pub(crate) fn held_from(stream: &PlaybackStream, number: u64) -> usize
    requires { 1 ≤ stream.now.setup.config.buffer_size }
    ensures value { result ≡ (stream.now.stretch.source + number)
        % stream.now.setup.config.buffer_size * length stream.now.setup.bindings }
    ensures within { result + length stream.now.setup.bindings
        ≤ stream.now.setup.config.buffer_size * length stream.now.setup.bindings }
{
    let slot = slot_of(
        stream.stretch.source,
        number,
        stream.setup.config.buffer_size,
    );
    slot as usize * stream.setup.bindings.len() as usize
}

/// The sample at a place of the frame that begins at `slot` of a local ring of so many channels, counted by rising card
/// channel. A single channel needs no look at the order.
#[inline(always)]
pub(crate) fn bound_sample(
    bindings: &Bindings,
    ring: &[i16],
    slot: usize,
    place: u8,
    channels: u8,
) -> BoundSample
    requires channels { channels ≡ length bindings.now }
    requires place { place < length bindings.now }
    requires slot { slot + length bindings.now ≤ length ring.now }
    ensures channel { result.channel
        ≡ slice_index bindings.now (slice_index (rising bindings.now) place) }
    ensures sample { result.sample
        ≡ slice_index_or ring.now (slot + slice_index (rising bindings.now) place) (pos 0) }
{
    let client = if channels == 1 {
        0
    } else {
        bindings.rising(place)
    };
    BoundSample {
        channel: bindings.card_channel(client),
        sample: ring[slot + client as usize],
    }
}

/// Places the samples of the frame that begins at `slot` of a local ring of so many channels at a frame of the card, by
/// rising card channel.
#[inline(always)]
fn place_frame<P: MixPort, G: Gate>(
    port: &mut P,
    gate: &mut G,
    bindings: &Bindings,
    ring: &[i16],
    slot: usize,
    frame: u64,
    channels: u8,
) -> Channels
    requires channels { channels ≡ length bindings.now }
    requires can_add { (P.view port.old).can_add ≡ true }
    requires bound { IsOnCard bindings.now (P.view port.old).geometry }
    requires slot { slot + length bindings.now ≤ length ring.now }
    requires from_cursor { IsFrom (P.view port.old).marks.cursor frame
        (least_channel bindings.now) }
    requires ahead { frame < (P.view port.old).seen + (P.view port.old).geometry.frames }
    requires fits { frame < end_frame (P.view port.old).geometry }
    ensures { TakesAt P.MixPort G.Gate (port.old, gate.old)
        (lay_frame (P.view port.old).member frame bindings.now (slot_sample ring.now slot))
        (port.new, gate.new) (result.placed, result.ended) }
{
    for place in 0..channels {
        let bound = bound_sample(bindings, ring, slot, place, channels);
        let answer = port.place(gate, frame, bound.channel, bound.sample);
        match Ended::of(answer) {
            Ended::Whole => {}
            ended => return Channels {
                placed: place,
                ended,
            },
        }
    }
    Channels {
        placed: channels,
        ended: Ended::Whole,
    }
}

/// Places `count` frames of the local ring, from the first that is not committed on, up to one that is late or stopped. They
/// are placed in runs, each up to the end of the local ring.
pub(crate) fn lay_frames<P: MixPort, G: Gate>(
    port: &mut P,
    gate: &mut G,
    stream: &PlaybackStream,
    ring: &[i16],
    count: u64,
) -> Commit
    requires can_add { (P.view port.old).can_add ≡ true }
    requires member { (P.view port.old).member ≡ stream.now.identity.member }
    requires bound { IsOnCard stream.now.setup.bindings (P.view port.old).geometry }
    requires buffer { 1 ≤ stream.now.setup.config.buffer_size }
    requires room { length ring.now ≡ stream.now.setup.config.buffer_size * length
        stream.now.setup.bindings }
    requires from_cursor { IsFrom (P.view port.old).marks.cursor
        (stream.now.stretch.card + stream.now.stretch.committed)
        (least_channel stream.now.setup.bindings) }
    requires ahead { 0 < count → stream.now.stretch.card + (stream.now.stretch.committed + count)
        ≤ window_end (P.view port.old).geometry (P.view port.old).seen }
    ensures { TakesAt P.MixPort G.Gate (port.old, gate.old) (commits stream.now ring.now count)
        (port.new, gate.new) result }
{
    let mut done: u64 = 0;
    while done < count {
        let first = stream.stretch.committed + done;
        let slot = slot_of(
            stream.stretch.source,
            first,
            stream.setup.config.buffer_size,
        );
        let run = (stream.setup.config.buffer_size as u64 - slot).min(count - done);
        let laid = lay_run(port, gate, stream, ring, first, run);
        match laid.ended {
            Ended::Whole => {}
            ended => {
                return Commit {
                    frames: done + laid.frames,
                    part: laid.part,
                    ended,
                };
            }
        }
        done += run;
    }
    Commit {
        frames: count,
        part: 0,
        ended: Ended::Whole,
    }
}

/// Places `count` frames from number `first` on, which follow one another in the local ring. For one channel and for two
/// there is code of its own, without a loop over the channels.
#[inline(never)]
fn lay_run<P: MixPort, G: Gate>(
    port: &mut P,
    gate: &mut G,
    stream: &PlaybackStream,
    ring: &[i16],
    first: u64,
    count: u64,
) -> Commit
    requires can_add { (P.view port.old).can_add ≡ true }
    requires member { (P.view port.old).member ≡ stream.now.identity.member }
    requires bound { IsOnCard stream.now.setup.bindings (P.view port.old).geometry }
    requires buffer { 1 ≤ stream.now.setup.config.buffer_size }
    requires room { length ring.now ≡ stream.now.setup.config.buffer_size * length
        stream.now.setup.bindings }
    requires run { (stream.now.stretch.source + first) % stream.now.setup.config.buffer_size + count
        ≤ stream.now.setup.config.buffer_size }
    requires from_cursor { IsFrom (P.view port.old).marks.cursor (stream.now.stretch.card + first)
        (least_channel stream.now.setup.bindings) }
    requires ahead { 0 < count → stream.now.stretch.card + (first + count)
        ≤ window_end (P.view port.old).geometry (P.view port.old).seen }
    ensures { TakesAt P.MixPort G.Gate (port.old, gate.old) (lay_frames stream.now.identity.member
        stream.now.stretch.card stream.now.setup.bindings (ring_sample stream.now ring.now)
        count first)
        (port.new, gate.new) result }
{
    match stream.setup.bindings.len() {
        1 => lay_run_of(port, gate, stream, ring, first, count, 1),
        2 => lay_run_of(port, gate, stream, ring, first, count, 2),
        channels => lay_run_of(port, gate, stream, ring, first, count, channels),
    }
}

/// The same of a client of so many channels.
#[inline(always)]
fn lay_run_of<P: MixPort, G: Gate>(
    port: &mut P,
    gate: &mut G,
    stream: &PlaybackStream,
    ring: &[i16],
    first: u64,
    count: u64,
    channels: u8,
) -> Commit
    requires channels { channels ≡ length stream.now.setup.bindings }
    requires can_add { (P.view port.old).can_add ≡ true }
    requires member { (P.view port.old).member ≡ stream.now.identity.member }
    requires bound { IsOnCard stream.now.setup.bindings (P.view port.old).geometry }
    requires buffer { 1 ≤ stream.now.setup.config.buffer_size }
    requires room { length ring.now ≡ stream.now.setup.config.buffer_size * length
        stream.now.setup.bindings }
    requires run { (stream.now.stretch.source + first) % stream.now.setup.config.buffer_size + count
        ≤ stream.now.setup.config.buffer_size }
    requires from_cursor { IsFrom (P.view port.old).marks.cursor (stream.now.stretch.card + first)
        (least_channel stream.now.setup.bindings) }
    requires ahead { 0 < count → stream.now.stretch.card + (first + count)
        ≤ window_end (P.view port.old).geometry (P.view port.old).seen }
    ensures { TakesAt P.MixPort G.Gate (port.old, gate.old) (lay_frames stream.now.identity.member
        stream.now.stretch.card stream.now.setup.bindings (ring_sample stream.now ring.now)
        count first)
        (port.new, gate.new) result }
{
    let bindings = stream.setup.bindings;
    let from = held_from(stream, first);
    let card = stream.stretch.card;
    for frame in 0..count {
        let slot = from + frame as usize * channels as usize;
        let number = card + (first + frame);
        let placed = place_frame(port, gate, &bindings, ring, slot, number, channels);
        match placed.ended {
            Ended::Whole => {}
            ended => {
                return Commit {
                    frames: frame,
                    part: placed.placed,
                    ended,
                };
            }
        }
    }
    Commit {
        frames: count,
        part: 0,
        ended: Ended::Whole,
    }
}

/// Loads the position, for a client that moves frames, and commits what is pending.
pub(crate) fn look_and_commit<P: MixPort, G: Gate>(
    stream: &PlaybackStream,
    ring: &[i16],
    port: &mut P,
    gate: &mut G,
) -> Found
    requires sound { IsSoundClient stream.now ring.now }
    requires moving { is_moving stream.now.status.state ≡ true }
    requires unstopped { stream.now.status.stopped ≡ false }
    requires port { CanUse stream.now (P.view port.old) }
    ensures takes { TakesAt P.MixPort G.Gate (port.old, gate.old)
        (looks (λ position. stream.now) (sync_count stream.now) ring.now) (port.new, gate.new)
        (result.load, result.commit) }
    ensures found { IsFound result.load result.commit (λ position. stream.now)
        (sync_count stream.now)
        (length stream.now.setup.bindings) }
    ensures near { IfSome result.load (λ position. (unwrap_or stream.now.seen 0 ≤ position.frame)
        × (position.frame ≤ end_frame stream.now.identity.geometry)) }
{
    let Ok(position) = port.position(gate) else {
        return Found::NOTHING;
    };
    let count = stream.sync_count(position);
    let commit = lay_frames(port, gate, stream, ring, count);
    Found {
        load: Some(position),
        commit,
    }
}

/// Loads the position, for a client that is prepared, and commits its frames before `upto` from where it starts.
pub(crate) fn look_and_start<P: MixPort, G: Gate>(
    stream: &PlaybackStream,
    ring: &[i16],
    port: &mut P,
    gate: &mut G,
    cursor: Cursor,
    upto: u64,
) -> Found
    requires cursor { cursor ≡ (P.view port.old).marks.cursor }
    requires cursor_most { cursor.frame ≤ end_frame stream.now.identity.geometry }
    requires sound { IsSoundClient stream.now ring.now }
    requires prepared { stream.now.status.state ≡ State.Prepared }
    requires port { CanUse stream.now (P.view port.old) }
    ensures takes { TakesAt P.MixPort G.Gate (port.old, gate.old)
        (looks (λ position. started_in stream.now State.Running position cursor)
        (λ position. start_count stream.now cursor position upto) ring.now) (port.new, gate.new)
        (result.load, result.commit) }
    ensures found { IsFound result.load result.commit
        (λ position. started_in stream.now State.Running position cursor)
        (λ position. start_count stream.now cursor position upto)
        (length stream.now.setup.bindings) }
    ensures near { IfSome result.load
        (λ position. position.frame ≤ end_frame stream.now.identity.geometry) }
{
    let Ok(position) = port.position(gate) else {
        return Found::NOTHING;
    };
    let count = stream.start_count(cursor, position, upto);
    let from = stream.started_in(State::Running, position, cursor);
    let commit = lay_frames(port, gate, &from, ring, count);
    Found {
        load: Some(position),
        commit,
    }
}
