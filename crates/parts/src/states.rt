//! The state table.
use crate::words::{Refusal, word};
use pcm_states::{Call, Facts, State, next};
use snd_base::XrunWhy;
use std::alloc::Global;

/// The states, in the order of their numbers.
const STATES: [State; 9] = [
    State::Open,
    State::Setup,
    State::Prepared,
    State::Running,
    State::Xrun,
    State::Draining,
    State::Paused,
    State::Suspended,
    State::Disconnected,
];

/// The state that a word names.
fn state(name: &str) -> Result<State, Refusal> {
    for state in STATES {
        if state.name() == name {
            return Ok(state);
        }
    }
    Err("a state is expected".into())
}

/// The call that a word names, as alsa/pcm.h does behind `snd_pcm_`.
fn call(name: &str) -> Result<Call, Refusal> {
    Ok(match name {
        "hw_params" => Call::HwParams,
        "hw_free" => Call::HwFree,
        "sw_params" => Call::SwParams,
        "prepare" => Call::Prepare,
        "start" => Call::Start,
        "transfer" => Call::Transfer,
        "sync" => Call::Sync,
        "drop" => Call::Drop,
        "drain" => Call::Drain,
        "pause" => Call::Pause,
        "resume" => Call::Resume,
        _ => return Err("a call is expected".into()),
    })
}

/// What a call found, a word for each fact: five frames `queued`, 64 frames available at 512 where the stop threshold was
/// reached, and frame 300 taken in channel 1 before its sample came.
fn facts(rest: &str) -> Result<Facts, Refusal> {
    let mut facts = Facts {
        capture: false,
        queued: 0,
        starts: false,
        gone: false,
        over: None,
        late: None,
    };
    for word in rest.split_terminator(' ') {
        match word {
            "capture" => facts.capture = true,
            "queued" => facts.queued = 5,
            "starts" => facts.starts = true,
            "gone" => facts.gone = true,
            "over" => facts.over = Some((64, 512)),
            "late" => {
                facts.late = Some(XrunWhy::Late {
                    frame: 300,
                    channel: 1,
                    seen: 4303355904,
                });
            }
            _ => return Err("a fact is expected".into()),
        }
    }
    Ok(facts)
}

/// `next STATE CALL FACT..`: the state afterwards, and the answer.
pub(crate) fn outcome(alloc: Global, line: &str) -> Result<String, Refusal> {
    let mut rest = line;
    let state = state(word(&mut rest))?;
    let call = call(word(&mut rest))?;
    let outcome = next(state, call, facts(rest)?);
    Ok(match outcome.answer {
        Ok(()) => format!(in alloc; "{} ok", outcome.state)?,
        Err(error) => format!(in alloc; "{} {error}", outcome.state)?,
    })
}

/// `row CALL FACT..`: for each state the state afterwards, or a refusal's error number, with the state where it is another one.
pub(crate) fn row(alloc: Global, line: &str) -> Result<String, Refusal> {
    let mut rest = line;
    let call = call(word(&mut rest))?;
    let facts = facts(rest)?;
    let mut text = String::new(alloc);
    for state in STATES {
        let outcome = next(state, call, facts);
        if !text.is_empty() {
            text.push_str(" ")?;
        }
        match outcome.answer {
            Ok(()) => write!(text, "{}", outcome.state)?,
            Err(error) if outcome.state == state => write!(text, "{}", error.code())?,
            Err(error) => write!(text, "{}:{}", error.code(), outcome.state)?,
        }
    }
    Ok(text)
}
