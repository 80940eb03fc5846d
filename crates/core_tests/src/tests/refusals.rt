//! The texts of refusals that no line of `parts` prints.
use snd_base::{PcmError, Why, XrunWhy};
use std::alloc::Global;

/// Refusals and their texts.
const REFUSALS: &[(PcmError, &str)] = &[
    (
        PcmError::Xrun(XrunWhy::Overtaken {
            frame: 7,
            channel: 1,
            seen: 8589967367,
        }),
        "xrun: overtaken at frame 7, channel 1: word 8589967367",
    ),
    (
        PcmError::Busy {
            until: Some(320),
            seen: 64,
        },
        "busy until Some(320), seen 64",
    ),
    (
        PcmError::Busy {
            until: None,
            seen: 64,
        },
        "busy until None, seen 64",
    ),
    (
        PcmError::Invalid(Why::Config),
        "invalid: no such configuration",
    ),
    (PcmError::LapEnd, "the last lap has ended"),
    (PcmError::Stopped, "stopped"),
    (PcmError::Memory, "out of memory"),
];

/// What can be invalid of an argument, and its text.
const WHYS: &[(Why, &str)] = &[
    (Why::AvailMinZero, "avail_min is 0"),
    (Why::StartRange, "the start threshold is out of range"),
    (Why::StopRange, "the stop threshold is out of range"),
    (Why::BindingsEmpty, "no bindings"),
    (Why::BindingsTooMany, "too many bindings"),
    (Why::BindingRange(9), "no card channel 9"),
    (Why::BindingTwice(2), "card channel 2 is bound twice"),
];

// Whether a refusal has this text: not where memory runs out.
fn is_printed(alloc: Global, error: PcmError, text: &str) -> bool {
    match format!(in alloc; "{error}") {
        Ok(line) => line.as_bytes() == text.as_bytes(),
        Err(_) => false,
    }
}

// Whether an invalid argument has this text.
fn is_why(alloc: Global, why: Why, text: &str) -> bool {
    match format!(in alloc; "{why}") {
        Ok(line) => line.as_bytes() == text.as_bytes(),
        Err(_) => false,
    }
}

#[test]
fn a_refusal_says_what_is_refused(rt: HostRuntime) {
    for (error, text) in REFUSALS {
        assert!(rt; is_printed(rt.alloc(), *error, text), "{text}");
    }
}

#[test]
fn a_refusal_says_which_argument_is_invalid(rt: HostRuntime) {
    for (why, text) in WHYS {
        assert!(rt; is_why(rt.alloc(), *why, text), "{text}");
    }
}
