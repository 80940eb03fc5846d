//! What a client is after each part of a call, by what the part found.
ghost use Rattle.std.specs.Prelude.{◌≡◌, ℕ, ◌+◌, ◌*◌, ◌^◌, ◌<◌, ◌≤◌, IfSome, OnOk, length, unwrap_or};
ghost use Rattle.dmix_client.specs.Calls.{in_state, waiting_stretch, has_frames, with_number, after_drop, after_hw_free, new_client, with_accepted, accepted_if, written_after, avail_answer, commit_count, committed_by, delay_answer, facts_of, found_at, going_on, is_stop, late_of, over_of, pending_of, after_prepare, with_new_base, after_resume, seen_at, segment_of, with_outcome, start_count, after_start, started_in, stopped_in, sync_count, after_sync, taken_of, window_end};
ghost use Rattle.dmix_client.specs.Asked.{asked_number};
ghost use Rattle.mix_core.specs.Port.{OnLate};
ghost use Rattle.dmix_client.specs.Writes.{count_with};
ghost use Rattle.dmix_client.specs.View.{IsReady, IsReadyAt, avail_of, hw_of};

use crate::commit::Commit;
use crate::status::Asked;
use crate::stream::{Identity, PlaybackStream, Stretch};
use mix_core::{Ended, Position};
use pcm_states::{Call, Facts, Outcome, State, next};
use pcm_stream::{Setup, Status, wrap_count};
use ring_pointers::Pointers;
use snd_base::{Cursor, Geometry, PcmError, Segment, XrunWhy};
use sw_limits::boundary;

/// A client after a part of a call, and the call's answer so far.
pub(crate) type Answered<T> = (PlaybackStream, Result<T, PcmError>);

impl Stretch {
    /// A stretch that waits for its start: `written` frames are written, the first of them after `source` others, and none is
    /// placed.
    fn waiting(written: u64, source: u64) -> Stretch
        ensures { result ≡ waiting_stretch written source }
    {
        Stretch {
            written,
            committed: 0,
            part: 0,
            card: 0,
            started: false,
            source,
        }
    }
}

impl PlaybackStream {
    /// The client in another state.
    pub(crate) fn in_state(&self, state: State) -> PlaybackStream
        ensures { result ≡ in_state self.now state }
    {
        PlaybackStream {
            status: self.status.in_state(state),
            ..*self
        }
    }

    /// The frames that the card has played since the start, as far as the client saw.
    pub(crate) fn hw(&self) -> u64
        ensures { result ≡ hw_of self.now }
    {
        if self.stretch.started {
            self.seen.unwrap_or(0).saturating_sub(self.stretch.card)
        } else {
            0
        }
    }

    /// The frames that a write can take.
    pub(crate) fn avail(&self) -> u64
        requires { IsReady self.now }
        ensures { result ≡ avail_of self.now }
    {
        let size = self.setup.config.buffer_size;
        let boundary = boundary(size);
        let hw = wrap_count(self.hw(), boundary);
        let appl = wrap_count(self.stretch.written, boundary);
        Pointers::at(size, boundary, hw, appl).avail_playback()
    }

    /// The frames available and the position, where the stop threshold was reached in RUNNING.
    pub(crate) fn over(&self, position: Position) -> Option<(u64, u64)>
        requires { IsReady self.now }
        ensures { result ≡ over_of self.now position }
    {
        let avail = self.avail();
        if self.status.state == State::Running && self.setup.params.stop_threshold <= avail {
            Some((avail, position.frame))
        } else {
            None
        }
    }

    /// Why a commit was late, where it was.
    pub(crate) fn late(&self, commit: Commit) -> Option<XrunWhy>
        requires fits { self.now.stretch.card + (self.now.stretch.committed + commit.frames)
            < 2 ^ 64 }
        requires part { OnLate commit.ended (λ _. commit.part < length self.now.setup.bindings) }
        ensures { result ≡ late_of self.now commit }
    {
        match commit.ended {
            Ended::Late { seen } => Some(XrunWhy::Late {
                frame: self.stretch.card + (self.stretch.committed + commit.frames),
                channel: self
                    .setup
                    .bindings
                    .card_channel(self.setup.bindings.rising(commit.part)),
                seen,
            }),
            _ => None,
        }
    }

    /// How many frames a commit at a position is to place, of those before one.
    pub(crate) fn commit_count(&self, position: u64, upto: u64) -> u64
        requires { position < 2 ^ 63 }
        ensures { result ≡ commit_count self.now position upto }
    {
        let window_end = (position + self.identity.geometry.frames as u64).min(
            self.identity.geometry.end_frame(),
        );
        upto.min(window_end.saturating_sub(self.stretch.card))
            .saturating_sub(self.stretch.committed)
    }

    /// How many frames the sync at a position is to commit.
    pub(crate) fn sync_count(&self, position: Position) -> u64
        requires position { position.frame < 2 ^ 63 }
        requires ready { IsReady (seen_at self.now position) }
        ensures { result ≡ sync_count self.now position }
    {
        let mut seen = *self;
        seen.see(position);
        if position.gone || seen.over(position).is_some() {
            0
        } else {
            self.commit_count(position.frame, self.stretch.written)
        }
    }

    /// The client is prepared: a new stretch, with nothing written or placed.
    pub(crate) fn prepared(&self) -> PlaybackStream
        ensures { result ≡ after_prepare self.now }
    {
        PlaybackStream {
            stretch: Stretch::waiting(0, self.fed),
            ..self.in_state(State::Prepared)
        }
    }

    /// The segment since the last prepare.
    pub(crate) fn segment(&self) -> Segment
        ensures { result ≡ segment_of self.now }
    {
        Segment {
            source: self.stretch.source,
            card: self.stretch.card,
            whole: self.stretch.committed,
            part: self.stretch.part,
        }
    }
}

/// Whether the gate stopped the commit.
pub(crate) fn is_stop(ended: Ended) -> bool
    ensures { result ≡ is_stop ended }
{
    match ended {
        Ended::Stopped => true,
        _ => false,
    }
}

impl PlaybackStream {
    /// The gate stops the call.
    pub(crate) fn stop_call<T>(&mut self) -> Result<T, PcmError>
        ensures { (self.new, result) ≡ stopped_in self.old }
    {
        self.status = self.status.stop();
        Err(PcmError::Stopped)
    }

    /// The call ends with an outcome of the state table.
    pub(crate) fn end_with(&mut self, outcome: Outcome) -> Result<(), PcmError>
        ensures { (self.new, result) ≡ with_outcome self.old outcome }
    {
        self.status = self.status.in_state(outcome.state);
        outcome.answer
    }

    /// The call goes on in `state`, unless the table refuses it.
    fn go_on(&mut self, state: State, outcome: Outcome) -> Result<(), PcmError>
        ensures { (self.new, result) ≡ going_on self.old state outcome }
    {
        match outcome.answer {
            Ok(()) => {
                self.status = self.status.in_state(state);
                Ok(())
            }
            Err(error) => {
                self.status = self.status.in_state(outcome.state);
                Err(error)
            }
        }
    }

    /// A position is loaded.
    fn see(&mut self, position: Position)
        ensures { self.new ≡ seen_at self.old position }
    {
        self.seen = Some(position.frame);
    }

    /// A commit places frames.
    fn commit_by(&mut self, commit: Commit)
        requires { self.old.stretch.committed + commit.frames < 2 ^ 64 }
        ensures { self.new ≡ committed_by self.old commit }
    {
        self.stretch.committed += commit.frames;
        self.stretch.part = commit.part;
    }

    /// Frames that were taken are accepted where the call went well.
    fn accept_if(&mut self, frames: u64, answer: Result<(), PcmError>) -> Result<u64, PcmError>
        requires written { self.old.stretch.written + frames < 2 ^ 64 }
        requires fed { self.old.fed + frames < 2 ^ 64 }
        ensures { (self.new, result) ≡ accepted_if frames (self.old, answer) }
    {
        match answer {
            Ok(()) => {
                self.stretch.written += frames;
                self.fed += frames;
                Ok(frames)
            }
            Err(error) => Err(error),
        }
    }
}

/// The sync of a client that moves frames, by what its load and its commit found.
#[inline(always)]
pub(crate) fn after_sync(
    stream: &mut PlaybackStream,
    call: Call,
    load: Option<Position>,
    commit: Commit,
) -> Result<(), PcmError>
    requires ready { IsReadyAt stream.old load }
    requires fits { stream.old.stretch.card + (stream.old.stretch.committed + commit.frames)
        < 2 ^ 64 }
    requires part { OnLate commit.ended (λ _. commit.part < length stream.old.setup.bindings) }
    ensures { (stream.new, result) ≡ after_sync stream.old call load commit }
{
    let Some(position) = load else {
        return stream.stop_call();
    };
    stream.see(position);
    let over = stream.over(position);
    let late = stream.late(commit);
    stream.commit_by(commit);
    if is_stop(commit.ended) {
        return stream.stop_call();
    }
    let facts = Facts {
        capture: false,
        queued: stream.stretch.written.saturating_sub(stream.hw()),
        starts: true,
        gone: position.gone,
        over,
        late,
    };
    let outcome = next(stream.status.state, call, facts);
    stream.end_with(outcome)
}

/// What a start found, or a commit after a sync.
pub(crate) fn found_at(position: Position, late: Option<XrunWhy>) -> Facts
    ensures { result ≡ found_at position late }
{
    Facts {
        capture: false,
        queued: 1,
        starts: true,
        gone: position.gone,
        over: None,
        late,
    }
}

impl PlaybackStream {
    /// The stream starts, past the position by the lead and not before the port's cursor, and is in `state`.
    pub(crate) fn started_in(
        &self,
        state: State,
        position: Position,
        cursor: Cursor,
    ) -> PlaybackStream
        requires position { position.frame < 2 ^ 63 }
        requires cursor { cursor.frame < 2 ^ 63 }
        ensures { result ≡ started_in self.now state position cursor }
    {
        PlaybackStream {
            stretch: Stretch {
                card: (position.frame + self.identity.lead as u64).max(cursor.first_free(0)),
                started: true,
                ..self.stretch
            },
            seen: Some(position.frame),
            ..self.in_state(state)
        }
    }

    /// How many frames a start at a position is to commit, of those before one.
    pub(crate) fn start_count(&self, cursor: Cursor, position: Position, upto: u64) -> u64
        requires position { position.frame < 2 ^ 63 }
        requires cursor { cursor.frame < 2 ^ 63 }
        ensures { result ≡ start_count self.now cursor position upto }
    {
        if position.gone {
            0
        } else {
            self.started_in(State::Running, position, cursor)
                .commit_count(position.frame, upto)
        }
    }

    /// How many frames a write of `frames` takes where `avail` are available.
    pub(crate) fn taken_within(&self, frames: u64, avail: u64) -> u64
        requires { avail ≡ avail_of self.now }
        ensures { result ≡ taken_of self.now frames }
    {
        frames.min(avail.min(self.setup.config.buffer_size as u64))
    }

    /// Frames were accepted.
    pub(crate) fn accepted(&self, frames: u64) -> PlaybackStream
        requires written { self.now.stretch.written + frames < 2 ^ 64 }
        requires fed { self.now.fed + frames < 2 ^ 64 }
        ensures { result ≡ with_accepted self.now frames }
    {
        PlaybackStream {
            stretch: Stretch {
                written: self.stretch.written + frames,
                ..self.stretch
            },
            fed: self.fed + frames,
            ..*self
        }
    }

    /// The frames that `avail_update` answers after its sync.
    pub(crate) fn avail_answer(&self) -> u64
        requires { (self.now.status.state ≡ State.Setup → ⊥) → IsReady self.now }
        ensures { result ≡ avail_answer self.now }
    {
        match self.status.state {
            State::Setup => self.setup.config.buffer_size as u64,
            _ => self.avail(),
        }
    }

    /// The frames that `delay` answers after its sync.
    pub(crate) fn delay_answer(&self) -> u64
        requires { (self.now.status.state ≡ State.Setup → ⊥) →
            self.now.stretch.card + self.now.stretch.written < 2 ^ 64 }
        ensures { result ≡ delay_answer self.now }
    {
        match self.status.state {
            State::Setup => 0,
            State::Prepared => self.stretch.written,
            _ => (self.stretch.card + self.stretch.written).saturating_sub(self.seen.unwrap_or(0)),
        }
    }
}

/// The start of a client that is prepared and has frames, which leads to `state`.
pub(crate) fn after_start(
    stream: &mut PlaybackStream,
    state: State,
    cursor: Cursor,
    load: Option<Position>,
    commit: Commit,
) -> Result<(), PcmError>
    requires position { IfSome load (λ position. position.frame < 2 ^ 63) }
    requires cursor { cursor.frame < 2 ^ 63 }
    requires fits { stream.old.stretch.committed + commit.frames < 2 ^ 62 }
    requires part { OnLate commit.ended (λ _. commit.part < length stream.old.setup.bindings) }
    ensures { (stream.new, result) ≡ after_start stream.old state cursor load commit }
{
    let Some(position) = load else {
        return stream.stop_call();
    };
    if position.gone {
        stream.see(position);
        let facts = found_at(position, None);
        return stream.go_on(state, next(State::Prepared, Call::Start, facts));
    }
    *stream = stream.started_in(state, position, cursor);
    let late = stream.late(commit);
    stream.commit_by(commit);
    if is_stop(commit.ended) {
        return stream.stop_call();
    }
    let facts = found_at(position, late);
    stream.go_on(state, next(State::Prepared, Call::Start, facts))
}

impl PlaybackStream {
    /// The frames that are accepted and not committed.
    pub(crate) fn pending(&self) -> u64
        ensures { result ≡ pending_of self.now }
    {
        self.stretch.written.saturating_sub(self.stretch.committed)
    }

    /// A new stretch: what is pending is all that is written of it, and nothing is placed.
    pub(crate) fn rebased(&self) -> PlaybackStream
        ensures { result ≡ with_new_base self.now }
    {
        let pending = self.pending();
        PlaybackStream {
            stretch: Stretch::waiting(pending, self.fed.saturating_sub(pending)),
            ..self.in_state(State::Prepared)
        }
    }
}

/// The resume of a client that has pending frames.
pub(crate) fn resumed(
    stream: &mut PlaybackStream,
    cursor: Cursor,
    load: Option<Position>,
    commit: Commit,
) -> Result<(), PcmError>
    requires position { IfSome load (λ position. position.frame < 2 ^ 63) }
    requires cursor { cursor.frame < 2 ^ 63 }
    requires fits { commit.frames < 2 ^ 62 }
    requires part { OnLate commit.ended (λ _. commit.part < length stream.old.setup.bindings) }
    ensures { (stream.new, result) ≡ after_resume stream.old cursor load commit }
{
    let Some(position) = load else {
        return stream.stop_call();
    };
    *stream = stream.rebased();
    after_start(stream, State::Running, cursor, Some(position), commit)
}

/// Frames that were taken are accepted where the call went well.
pub(crate) fn accepted_if(frames: u64, answered: Answered<()>) -> Answered<u64>
    requires written { answered.0.stretch.written + frames < 2 ^ 64 }
    requires fed { answered.0.fed + frames < 2 ^ 64 }
    ensures { result ≡ accepted_if frames answered }
{
    let (stream, answer) = answered;
    match answer {
        Ok(()) => (stream.accepted(frames), Ok(frames)),
        Err(error) => (stream, Err(error)),
    }
}

/// A write of `frames` into a stream that runs and in which `avail` frames are available, after its sync.
#[inline(always)]
pub(crate) fn written_after(
    stream: &mut PlaybackStream,
    frames: u64,
    avail: u64,
    commit: Commit,
) -> Result<u64, PcmError>
    requires ready { IsReady stream.old }
    requires avail { avail ≡ avail_of stream.old }
    requires fits { stream.old.stretch.card + (stream.old.stretch.committed + commit.frames)
        < 2 ^ 64 }
    requires part { OnLate commit.ended (λ _. commit.part < length stream.old.setup.bindings) }
    requires written { stream.old.stretch.written + frames < 2 ^ 64 }
    requires fed { stream.old.fed + frames < 2 ^ 64 }
    ensures { (stream.new, result) ≡ written_after stream.old frames commit }
{
    if frames > 0 && avail == 0 {
        return Err(PcmError::Again);
    }
    let taken = stream.taken_within(frames, avail);
    let late = stream.late(commit);
    stream.commit_by(commit);
    if is_stop(commit.ended) {
        return stream.stop_call();
    }
    let here = Position {
        frame: 0,
        gone: false,
    };
    let outcome = next(State::Running, Call::Transfer, found_at(here, late));
    let answer = stream.end_with(outcome);
    stream.accept_if(taken, answer)
}

impl PlaybackStream {
    /// A client that is opened.
    pub(crate) fn new(geometry: Geometry, member: u32, lead: u32) -> PlaybackStream
        ensures { result ≡ new_client geometry member lead }
    {
        PlaybackStream {
            identity: Identity {
                geometry,
                member,
                lead,
            },
            setup: Setup::none(),
            status: Status::at_open(),
            stretch: Stretch::waiting(0, 0),
            seen: None,
            fed: 0,
        }
    }

    /// The client gives its configuration up.
    pub(crate) fn freed(&self) -> PlaybackStream
        ensures { result ≡ after_hw_free self.now }
    {
        PlaybackStream {
            setup: self.setup.freed(),
            ..self.in_state(State::Open)
        }
    }

    /// What is pending is given up.
    pub(crate) fn dropped(&self) -> PlaybackStream
        ensures { result ≡ after_drop self.now }
    {
        self.in_state(State::Setup)
    }
}

impl PlaybackStream {
    /// The number that a call answers after its sync.
    pub(crate) fn number(&self, asked: Asked) -> u64
        requires ready { (self.now.status.state ≡ State.Setup → ⊥) → IsReady self.now }
        requires fits { (self.now.status.state ≡ State.Setup → ⊥) →
            self.now.stretch.card + self.now.stretch.written < 2 ^ 64 }
        ensures { result ≡ asked_number asked self.now }
    {
        match asked {
            Asked::Avail => self.avail_answer(),
            Asked::Delay => self.delay_answer(),
        }
    }
}

/// The number that was asked for, after a sync that went well.
pub(crate) fn with_number(
    stream: &PlaybackStream,
    asked: Asked,
    answer: Result<(), PcmError>,
) -> Result<u64, PcmError>
    requires ready { OnOk answer ((stream.now.status.state ≡ State.Setup → ⊥) →
        IsReady stream.now) }
    requires fits { OnOk answer ((stream.now.status.state ≡ State.Setup → ⊥) →
        stream.now.stretch.card + stream.now.stretch.written < 2 ^ 64) }
    ensures { with_number (asked_number asked) (stream.now, answer) ≡ (stream.now, result) }
{
    match answer {
        Ok(()) => Ok(stream.number(asked)),
        Err(error) => Err(error),
    }
}

impl PlaybackStream {
    /// Whether the stream is prepared and has frames to play.
    pub(crate) fn has_frames(&self) -> bool
        ensures { result ≡ has_frames self.now }
    {
        self.status.state == State::Prepared && self.stretch.written > 0
    }
}

impl PlaybackStream {
    /// How many frames are to be committed where a write took some, at the position that was seen.
    pub(crate) fn count_with(&self, taken: u64) -> u64
        requires written { self.now.stretch.written + taken < 2 ^ 64 }
        requires seen { unwrap_or self.now.seen 0 < 2 ^ 63 }
        ensures { result ≡ count_with self.now taken }
    {
        if taken == 0 {
            0
        } else {
            self.commit_count(self.seen.unwrap_or(0), self.stretch.written + taken)
        }
    }
}
