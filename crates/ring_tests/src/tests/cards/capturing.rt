//! Random stores, publications and loads at a capture ring between threads and at a core: both give the same answers.
use super::dice::Dice;
use super::{LAST_LAPS, MONO, STEREO, WIDE};
use crate::tests::captures::{try_load, try_store};
use mix_core::NeverStops;
use snd_base::{Geometry, PcmError};
use snoop_core::{Loaded, SnoopCore, SnoopPort};
use snoop_table::{ReaderSeat, WriterSeat};
use std::alloc::Global;
use std::process::Abort;

/// How many events happen at a ring.
const EVENTS: usize = 3000;

/// What a load of a frame gave: how it ended, and the samples of the channels that were loaded.
type Given = Option<(Loaded, [i16; 8])>;

/// Loads a frame where the port may, as seen at run time, and gives nothing elsewhere.
fn load<P: SnoopPort>(port: &mut P, frame: u64) -> Result<Given, PcmError> {
    let geometry = port.geometry();
    let mut out = [0; 8];
    let loaded = try_load(port, frame, &mut out[..geometry.channels as usize]);
    match loaded {
        Some(Ok(loaded)) => Ok(Some((loaded, out))),
        Some(Err(e)) => Err(e),
        None => Ok(None),
    }
}

/// Stores a frame in a core, of as many samples as it has channels, as seen at run time, and does nothing with another one.
fn store_in_core(core: &mut SnoopCore, frame: &[i16]) -> Option<Result<(), PcmError>> {
    if frame.len() != core.geometry().channels as usize {
        return None;
    }
    Some(core.store(frame))
}

/// How often frames were stored, loaded, overtaken, and neither: of these a load gives nothing.
#[derive(Default, Drop)]
struct Counts {
    stored: u32,
    got: u32,
    overtaken: u32,
    nothing: u32,
}

impl Counts {
    fn count(&mut self, given: Given) {
        let count = match given {
            Some((Loaded::Got, _)) => &mut self.got,
            Some((Loaded::Overtaken { .. }, _)) => &mut self.overtaken,
            None => &mut self.nothing,
        };
        *count = count.saturating_add(1);
    }

    /// Whether each of these came often enough for a comparison.
    fn are_many(&self) -> bool {
        self.stored > 300 && self.got > 300 && self.overtaken > 300 && self.nothing > 1
    }
}

/// Stores a random frame in both, and says whether they answered the same.
fn store_both(
    dice: &mut Dice,
    core: &mut SnoopCore,
    writer: &mut WriterSeat<'_>,
    counts: &mut Counts,
) -> bool {
    let mut frame = [0; 8];
    for sample in frame.iter_mut() {
        *sample = dice.sample();
    }
    let geometry = core.geometry();
    let frame = &frame[..geometry.channels as usize];
    let stored = store_in_core(core, frame);
    if stored == Some(Ok(())) {
        counts.stored = counts.stored.saturating_add(1);
    }
    try_store(writer, frame) == stored
}

/// Publishes both positions, and says whether they are the same.
fn publish_both(
    core: &mut SnoopCore,
    writer: &mut WriterSeat<'_>,
    reader: &mut ReaderSeat<'_>,
) -> bool {
    core.publish();
    writer.publish();
    reader.position(&mut NeverStops) == Ok(core.position())
}

/// Loads a random frame of the last two laps or the next frame from both, and says whether they gave the same: not where a load
/// ends with an error.
fn load_both(
    dice: &mut Dice,
    core: &mut SnoopCore,
    reader: &mut ReaderSeat<'_>,
    counts: &mut Counts,
) -> bool {
    let back = dice.below(2 * core.geometry().frames as u64);
    let frame = core.position().frame.saturating_sub(back).saturating_add(1);
    let given = load(&mut core.turn(), frame);
    let Ok(given) = given else {
        return false;
    };
    counts.count(given);
    load(reader, frame) == Ok(given)
}

/// Lets a random event happen at a core and at the seats of a ring of its geometry, and says whether their answers are the same.
fn is_same(
    dice: &mut Dice,
    core: &mut SnoopCore,
    writer: &mut WriterSeat<'_>,
    reader: &mut ReaderSeat<'_>,
    counts: &mut Counts,
) -> bool {
    match dice.below(8) {
        0..=2 => store_both(dice, core, writer, counts),
        3 => publish_both(core, writer, reader),
        _ => load_both(dice, core, reader, counts),
    }
}

/// Lets the random events of a seed happen, and says whether all answers are the same and each of them came often.
fn are_same(
    seed: u64,
    core: &mut SnoopCore,
    writer: &mut WriterSeat<'_>,
    reader: &mut ReaderSeat<'_>,
) -> bool {
    let mut dice = Dice::new(seed);
    let mut counts = Counts::default();
    for _ in 0..EVENTS {
        if !is_same(&mut dice, core, writer, reader, &mut counts) {
            return false;
        }
    }
    counts.are_many()
}

/// Compares a core and a ring of a geometry, with the random events of a seed.
fn compare(rt: &impl Abort, alloc: Global, seed: u64, geometry: Geometry) -> Result<(), PcmError> {
    let mut core = SnoopCore::new(alloc, geometry)?;
    let mut ring = super::new_snoop_ring(alloc, geometry)?;
    let (mut writer, mut reader) = ring.seats();
    assert!(rt;
        are_same(seed, &mut core, &mut writer, &mut reader),
        "ring {seed}"
    );
    Ok(())
}

#[test]
fn ring_and_core_give_the_same_frames(rt: HostRuntime) -> Result<(), PcmError> {
    compare(&rt, rt.alloc(), 0, MONO)?;
    compare(&rt, rt.alloc(), 1, STEREO)?;
    compare(&rt, rt.alloc(), 2, WIDE)?;
    compare(&rt, rt.alloc(), 3, LAST_LAPS)
}
