//! What a reader is after each part of a call, by what the part found.
ghost use Rattle.std.specs.Prelude.{◌≡◌, ◌+◌, ◌^◌, ◌<◌};
ghost use Rattle.dsnoop_client.specs.Calls.{facts_with, after_hw_free, in_state, with_answer, new_reader, over_of, read_after, read_to, seen_at, with_outcome, after_start, started_at, stopped_in, after_sync, taken_of, waits, with_avail};
ghost use Rattle.dsnoop_client.specs.View.{IsReady, IsReadyAt, IsReadyIf, avail_of, is_running};

use crate::stream::CaptureStream;
use mix_core::Position;
use pcm_states::{Call, Facts, Outcome, State, next};
use pcm_stream::{Setup, Status, wrap_count};
use ring_pointers::Pointers;
use snd_base::{Geometry, PcmError, XrunWhy};
use snoop_core::Got;
use sw_limits::boundary;

/// A reader after a part of a call, and the call's answer so far.
pub(crate) type Answered<T> = (CaptureStream, Result<T, PcmError>);

impl CaptureStream {
    /// A reader that is opened.
    pub(crate) fn new(geometry: Geometry) -> CaptureStream
        ensures { result ≡ new_reader geometry }
    {
        CaptureStream {
            geometry,
            setup: Setup::none(),
            status: Status::at_open(),
            seen: None,
            next: 0,
        }
    }

    /// The reader in another state.
    pub(crate) fn in_state(&self, state: State) -> CaptureStream
        ensures { result ≡ in_state self.now state }
    {
        CaptureStream {
            status: self.status.in_state(state),
            ..*self
        }
    }

    /// The reader gives its configuration up.
    pub(crate) fn freed(&self) -> CaptureStream
        ensures { result ≡ after_hw_free self.now }
    {
        CaptureStream {
            setup: self.setup.freed(),
            ..self.in_state(State::Open)
        }
    }

    /// Whether the reader runs.
    pub(crate) fn is_running(&self) -> bool
        ensures { result ≡ is_running self.now.status.state }
    {
        match self.status.state {
            State::Running => true,
            _ => false,
        }
    }

    /// The frames that were captured and not read, as far as the reader saw.
    pub(crate) fn avail(&self) -> u64
        requires { IsReady self.now }
        ensures { result ≡ avail_of self.now }
    {
        let size = self.setup.config.buffer_size;
        let boundary = boundary(size);
        let hw = wrap_count(self.seen.unwrap_or(0), boundary);
        let appl = wrap_count(self.next, boundary);
        Pointers::at(size, boundary, hw, appl).avail_capture()
    }

    /// The frames available and the position seen, where the stop threshold was reached.
    fn over(&self) -> Option<(u64, u64)>
        requires { IsReady self.now }
        ensures { result ≡ over_of self.now }
    {
        let avail = self.avail();
        if self.setup.params.stop_threshold <= avail {
            Some((avail, self.seen.unwrap_or(0)))
        } else {
            None
        }
    }

    /// How many frames a read of `frames` loads.
    pub(crate) fn taken(&self, frames: u64) -> u64
        requires { IsReady self.now }
        ensures { result ≡ taken_of self.now frames }
    {
        frames.min(self.avail())
    }

    /// A position was loaded.
    fn seen_at(&self, position: Position) -> CaptureStream
        ensures { result ≡ seen_at self.now position }
    {
        CaptureStream {
            seen: Some(position.frame),
            ..*self
        }
    }

    /// The position that a start loaded is the next frame, unless the card is gone.
    fn started_at(&self, position: Position) -> CaptureStream
        ensures { result ≡ started_at self.now position }
    {
        let seen = self.seen_at(position);
        if position.gone {
            return seen;
        }
        CaptureStream {
            next: position.frame,
            ..seen
        }
    }
}

/// What a call found, for the state table.
fn found(gone: bool, over: Option<(u64, u64)>, late: Option<XrunWhy>) -> Facts
    ensures { result ≡ facts_with gone over late }
{
    Facts {
        capture: true,
        queued: 0,
        starts: true,
        gone,
        over,
        late,
    }
}

/// The gate stopped the call.
fn stopped_in<T>(stream: CaptureStream) -> Answered<T>
    ensures { result ≡ stopped_in stream }
{
    let stopped = CaptureStream {
        status: stream.status.stop(),
        ..stream
    };
    (stopped, Err(PcmError::Stopped))
}

/// The call ends with an outcome of the state table.
fn with_outcome(stream: CaptureStream, outcome: Outcome) -> Answered<()>
    ensures { result ≡ with_outcome stream outcome }
{
    (stream.in_state(outcome.state), outcome.answer)
}

/// A start, by the position that it loaded.
pub(crate) fn after_start(stream: CaptureStream, call: Call, load: Option<Position>) -> Answered<()>
    ensures { result ≡ after_start stream call load }
{
    let Some(position) = load else {
        return stopped_in(stream);
    };
    let facts = found(position.gone, None, None);
    with_outcome(
        stream.started_at(position),
        next(stream.status.state, call, facts),
    )
}

/// The sync of a reader that runs, by the position that it loaded.
pub(crate) fn after_sync(stream: CaptureStream, call: Call, load: Option<Position>) -> Answered<()>
    requires { IsReadyAt stream load }
    ensures { result ≡ after_sync stream call load }
{
    let Some(position) = load else {
        return stopped_in(stream);
    };
    let loaded = stream.seen_at(position);
    let facts = found(position.gone, loaded.over(), None);
    with_outcome(loaded, next(stream.status.state, call, facts))
}

/// The frames available after a sync that went well.
pub(crate) fn with_avail(
    stream: &CaptureStream,
    answer: Result<(), PcmError>,
) -> Result<u64, PcmError>
    requires { IsReadyIf stream.now answer }
    ensures { with_avail (stream.now, answer) ≡ (stream.now, result) }
{
    match answer {
        Ok(()) => Ok(stream.avail()),
        Err(error) => Err(error),
    }
}

/// What a read of `frames` frames that doesn't start a prepared reader answers.
pub(crate) fn waits(frames: u64) -> Result<u64, PcmError>
    ensures { result ≡ waits frames }
{
    if frames == 0 {
        Ok(0)
    } else {
        Err(PcmError::Again)
    }
}

/// A number in place of a good answer.
fn numbered(number: u64, answered: Answered<()>) -> Answered<u64>
    ensures { result ≡ with_answer number answered }
{
    let (stream, answer) = answered;
    match answer {
        Ok(()) => (stream, Ok(number)),
        Err(error) => (stream, Err(error)),
    }
}

/// A read that loaded `loaded` frames, and how the last load ended: only where all were loaded do they count.
fn read_to(stream: CaptureStream, loaded: u64, ended: Got) -> Answered<u64>
    requires { stream.next + loaded < 2 ^ 64 }
    ensures { result ≡ read_to stream loaded ended }
{
    match ended {
        Got::Whole => {
            let after = CaptureStream {
                next: stream.next + loaded,
                ..stream
            };
            (after, Ok(loaded))
        }
        Got::Overtaken { channel, seen } => {
            let why = XrunWhy::Overtaken {
                frame: stream.next + loaded,
                channel,
                seen,
            };
            let facts = found(false, None, Some(why));
            numbered(
                0,
                with_outcome(stream, next(State::Running, Call::Transfer, facts)),
            )
        }
        Got::Stopped => stopped_in(stream),
    }
}

/// A read of `frames` frames after its load of the position, by how many it loaded, and how the last load ended.
pub(crate) fn read_after(
    stream: CaptureStream,
    frames: u64,
    loaded: u64,
    ended: Got,
) -> Answered<u64>
    requires ready { IsReady stream }
    requires fits { stream.next + loaded < 2 ^ 64 }
    ensures { result ≡ read_after stream frames loaded ended }
{
    if frames > 0 && stream.avail() == 0 {
        return (stream, Err(PcmError::Again));
    }
    read_to(stream, loaded, ended)
}
