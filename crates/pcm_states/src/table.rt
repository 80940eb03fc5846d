//! The state table: what comes of each call in each state.
ghost use Rattle.std.specs.Prelude.{◌≡◌, [], ◌∷◌};
ghost use Rattle.pcm_states.specs.Table.{next_of, done_in, refused_in, first_outcome, if_gone, if_late, cell_outcome, starting, filling, moving, draining, resuming};
ghost use Rattle.pcm_states.specs.declared.states.State.TheVariants.{Prepared, Running, Draining, Paused};
ghost use Rattle.pcm_states.specs.declared.calls.Call.TheVariants.{Start, Transfer, Resume};

use crate::calls::{Call, Facts, Outcome};
use crate::states::State;
use snd_base::{PcmError, XrunWhy};

/// The state and the answer after `call` in `state`, where the call found `facts`.
///
/// States and calls are those of alsa/pcm.h; the table is this library's own.
///
/// - A call that is not allowed in a state is refused with `BadState` and leaves the state. Once the
///   card is gone every call is refused with `NoDevice`. Capture refuses `Pause` and `Resume` with
///   `NotSupported` everywhere.
/// - `HwParams` leads to PREPARED, `HwFree` to OPEN, `Drop` to SETUP, `Prepare` to PREPARED, also
///   from XRUN. `SwParams` leaves the state, and so does a sync in PREPARED or PAUSED.
/// - A start of playback with nothing queued is refused with `Xrun(Empty)` and stays in PREPARED. A
///   transfer in PREPARED starts the stream where `starts` says so.
/// - A call that finds the card gone leads to DISCONNECTED with `NoDevice`. One that finds the stop
///   threshold reached, in RUNNING, or a frame too late leads to XRUN with that cause. A transfer or a
///   sync that begins in XRUN is refused with `Xrun(Already)`.
/// - `Drain` plays what is queued: it answers `Again` and is in DRAINING until nothing is queued, and
///   then it is in SETUP. Capture refuses it with `BadState`.
/// - `Pause` leads from RUNNING to PAUSED. `Resume` leads from PAUSED to RUNNING, as a start does,
///   or to PREPARED where nothing is queued.
/// - SUSPENDED is never entered, and refuses every call.
///
/// It stands in its callers, which know the call and most of what it found.
#[inline(always)]
pub fn next(state: State, call: Call, facts: Facts) -> Outcome
    ensures table { result ≡ next_of state call facts }
    ensures never_suspended { result.state ≡ State.Suspended → state ≡ State.Suspended }
{
    match (facts.capture, call, state) {
        (true, Call::Pause | Call::Resume, _) => refused(state, PcmError::NotSupported),
        (_, _, State::Disconnected) => refused(state, PcmError::NoDevice),
        (true, Call::Drain, _) => refused(state, PcmError::BadState),
        (_, Call::HwParams, State::Open | State::Setup | State::Prepared) => done(State::Prepared),
        (_, Call::HwFree, State::Setup | State::Prepared) => done(State::Open),
        (_, Call::SwParams, State::Open | State::Suspended) => refused(state, PcmError::BadState),
        (_, Call::SwParams, _) => done(state),
        (_, Call::Prepare, State::Setup | State::Prepared | State::Xrun) => done(State::Prepared),
        (_, Call::Start, State::Prepared) => start(facts),
        (_, Call::Transfer, State::Prepared) => fill(facts),
        (_, Call::Sync, State::Prepared | State::Paused) => done(state),
        (_, Call::Transfer | Call::Sync, State::Running) => move_frames(facts),
        (_, Call::Transfer | Call::Sync, State::Xrun) => refused(
            state,
            PcmError::Xrun(XrunWhy::Already),
        ),
        (_, Call::Sync, State::Draining) => drain(call, facts),
        (_, Call::Drop, State::Open | State::Suspended) => refused(state, PcmError::BadState),
        (_, Call::Drop, _) => done(State::Setup),
        (_, Call::Drain, State::Setup | State::Xrun) => done(State::Setup),
        (_, Call::Drain, State::Prepared | State::Running | State::Draining) => drain(call, facts),
        (_, Call::Pause, State::Running) => done(State::Paused),
        (_, Call::Resume, State::Paused) => resume(facts),
        _ => refused(state, PcmError::BadState),
    }
}

/// The call is done, and leaves `state`.
fn done(state: State) -> Outcome
    ensures { result ≡ done_in state }
{
    Outcome {
        state,
        answer: Ok(()),
    }
}

/// The call is refused, and leaves `state`.
fn refused(state: State, error: PcmError) -> Outcome
    ensures { result ≡ refused_in state error }
{
    Outcome {
        state,
        answer: Err(error),
    }
}

/// The outcome of a start in PREPARED.
fn start(facts: Facts) -> Outcome
    ensures { result ≡ cell_outcome starting Prepared Start facts }
{
    if !facts.capture && facts.queued == 0 {
        return refused(State::Prepared, PcmError::Xrun(XrunWhy::Empty));
    }
    run(facts)
}

/// The outcome of a transfer in PREPARED.
fn fill(facts: Facts) -> Outcome
    ensures { result ≡ cell_outcome filling Prepared Transfer facts }
{
    if facts.starts {
        run(facts)
    } else {
        done(State::Prepared)
    }
}

/// The outcome of a transfer or a sync in RUNNING.
#[inline(always)]
fn move_frames(facts: Facts) -> Outcome
    ensures { result ≡ cell_outcome moving Running Transfer facts }
{
    match facts.over {
        Some((avail, seen)) if !facts.gone => refused(
            State::Xrun,
            PcmError::Xrun(XrunWhy::Avail { avail, seen }),
        ),
        _ => run(facts),
    }
}

/// The outcome of a resume in PAUSED.
fn resume(facts: Facts) -> Outcome
    ensures { result ≡ cell_outcome resuming Paused Resume facts }
{
    if facts.queued == 0 {
        return done(State::Prepared);
    }
    run(facts)
}

/// The stream runs on, unless the card is gone or a frame was too late.
fn run(facts: Facts) -> Outcome
    ensures { result ≡ first_outcome (if_gone facts ∷ if_late facts ∷ []) (done_in Running) }
{
    if facts.gone {
        return refused(State::Disconnected, PcmError::NoDevice);
    }
    match facts.late {
        Some(why) => refused(State::Xrun, PcmError::Xrun(why)),
        None => done(State::Running),
    }
}

/// The outcome of a drain, and of a sync while it lasts.
fn drain(call: Call, facts: Facts) -> Outcome
    ensures { result ≡ cell_outcome draining Draining call facts }
{
    if facts.gone {
        return refused(State::Disconnected, PcmError::NoDevice);
    }
    match (facts.late, call) {
        (Some(why), _) => refused(State::Xrun, PcmError::Xrun(why)),
        (None, _) if facts.queued == 0 => done(State::Setup),
        (None, Call::Drain) => refused(State::Draining, PcmError::Again),
        (None, _) => done(State::Draining),
    }
}
