//! A mixing core, and its replies to events.
use crate::words::{Refusal, byte, count, number, sample, word};
use mix_core::{Core, Event};
use snd_base::Geometry;
use std::alloc::Global;

/// A ring's geometry: `CHANNELS FRAMES LAP`.
fn geometry(rest: &mut &str) -> Result<Geometry, Refusal> {
    let channels = byte(rest)?;
    let frames = count(rest)?;
    let first_lap = count(rest)?;
    let is_ring = 64 <= frames && frames <= 16384 && first_lap <= 4294967294;
    if channels < 1 || channels > 8 || !is_ring {
        return Err("no ring has this geometry".into());
    }
    Ok(Geometry {
        frames,
        channels,
        first_lap,
    })
}

/// `core CHANNELS FRAMES LAP MEMBERS`: a core with silent words.
pub(crate) fn core(alloc: Global, line: &str) -> Result<Core, Refusal> {
    let mut rest = line;
    let geometry = geometry(&mut rest)?;
    let members = count(&mut rest)?;
    if members < 1 || members > 64 {
        return Err("a core has 1 to 64 members".into());
    }
    match Core::new(alloc, geometry, members) {
        Ok(core) => Ok(core),
        Err(_) => Err("no memory is left".into()),
    }
}

/// The event that words are: `add MEMBER FRAME CHANNEL SAMPLE`, `withdraw` with the same, `publish` and `take`.
fn event(text: &str) -> Result<Event, Refusal> {
    let mut rest = text;
    let name = word(&mut rest);
    if name == "take" {
        return Ok(Event::Take);
    }
    if name == "publish" {
        return Ok(Event::Publish);
    }
    let member = count(&mut rest)?;
    let frame = number(&mut rest)?;
    let channel = byte(&mut rest)?;
    let sample = sample(rest)?;
    match name {
        "add" => Ok(Event::Add {
            member,
            frame,
            channel,
            sample,
        }),
        "withdraw" => Ok(Event::Withdraw {
            member,
            frame,
            channel,
            sample,
        }),
        _ => Err("an event is expected".into()),
    }
}

/// Appends the event that words are, or, for `COUNT* EVENT`, so many of it.
fn push_events(events: &mut Vec<Event>, text: &str) -> Result<(), Refusal> {
    let (mut times, text) = text.split_once("* ").unwrap_or(("1", text));
    let event = event(text)?;
    for _ in 0..count(&mut times)? {
        events.push(event)?;
    }
    Ok(())
}

/// `call EVENT, EVENT, ..`: the replies to these events in one call; of events that are repeated, the last one's.
pub(crate) fn replies(
    alloc: Global,
    core: &mut Option<Core>,
    line: &str,
) -> Result<String, Refusal> {
    let Some(core) = core else {
        return Err("no core was begun".into());
    };
    let mut events = Vec::new(alloc);
    let mut lasts = Vec::new(alloc);
    for text in line.split(", ") {
        push_events(&mut events, text)?;
        lasts.push(events.len().wrapping_sub(1))?;
    }
    let Ok(replies) = core.run(alloc, &events) else {
        return Err("no memory is left".into());
    };
    let mut text = String::new(alloc);
    for last in lasts.iter() {
        let reply = replies.get(*last).ok_or("no event")?;
        let comma = if text.is_empty() { "" } else { ", " };
        write!(text, "{comma}{reply:?}")?;
    }
    Ok(text)
}
