//! One lap of a ring: each frame of it stored by the writer, and loaded by a reader.
ghost use Rattle.std.specs.Prelude.{◌≡◌, ◌≤◌, IfOk, length};
ghost use Rattle.snoop_table.specs.Readers.{geometry_of, seat_view};
ghost use Rattle.snoop_table.specs.Rings.{GaveNone, geometry_of_ring};
ghost use Rattle.snoop_table.specs.Writers.{writer_geometry};

use mix_core::NeverStops;
use snd_base::Geometry;
use snoop_core::{Loaded, SnoopPort};
use snoop_table::{ReaderSeat, SnoopRing, WriterSeat};
use std::alloc::Global;
use std::io;
use std::time::{Clock, Instant};

/// The frames of the ring, which are those of one lap.
const FRAMES: u32 = 16384;

/// How many laps are timed. The fastest one counts.
const LAPS: u32 = 400;

/// The sample that is stored everywhere: the sum of what is loaded from one channel is then how many frames were loaded.
const SAMPLE: i16 = 1;

/// The nanoseconds of the fastest lap that stored, and of the fastest lap that loaded.
#[derive(Clone, Copy)]
pub(crate) struct Best {
    pub store: u128,
    pub load: u128,
}

impl Best {
    /// Before the first lap.
    const NONE: Best = Best {
        store: u128::MAX,
        load: u128::MAX,
    };

    /// The better of this and one lap more.
    fn with(self, lap: Best) -> Best {
        Best {
            store: self.store.min(lap.store),
            load: self.load.min(lap.load),
        }
    }
}

/// A ring of one lap's frames. An error comes only where no memory is left.
fn new_ring(alloc: Global, channels: u8) -> io::Result<SnoopRing>
    requires one { 1 ≤ channels }
    requires most { channels ≤ 8 }
    ensures gave_none { IfOk result (λ ring. GaveNone ring) }
    ensures channels { IfOk result (λ ring. (geometry_of_ring ring).channels ≡ channels) }
{
    let geometry = Geometry {
        frames: FRAMES,
        channels,
        first_lap: 0,
    };
    match SnoopRing::new(alloc, geometry) {
        Ok(ring) => Ok(ring),
        Err(_) => Err(io::ErrorKind::OutOfMemory.into()),
    }
}

/// Stores a frame as often as the ring has frames, publishes the position, and answers how many were stored.
fn store_lap(writer: &mut WriterSeat<'_>, frame: &[i16]) -> u64
    requires { length frame.now ≡ (writer_geometry writer.old).channels }
    ensures { writer_geometry writer.new ≡ writer_geometry writer.old }
{
    let mut stored: u64 = 0;
    for _ in 0..FRAMES {
        if writer.store_frame(frame).is_ok() {
            stored = stored.saturating_add(1);
        }
    }
    writer.publish();
    stored
}

/// Loads the last lap before the position that the reader has seen, and answers the sum of the first channel's samples, without
/// their signs.
fn load_lap(reader: &mut ReaderSeat<'_>, out: &mut [i16]) -> u64
    requires { length out.old ≡ (geometry_of reader.old).channels }
    ensures { seat_view reader.new ≡ seat_view reader.old }
{
    let geometry = reader.geometry();
    let end = reader.seen();
    let first = end.saturating_sub(FRAMES as u64);
    if first < geometry.first_frame() {
        return 0;
    }
    let mut sum: u64 = 0;
    for frame in first..end {
        if let Ok(Loaded::Got) = reader.load_frame(&mut NeverStops, frame, out) {
            sum = sum.wrapping_add(out[0].unsigned_abs() as u64);
        }
    }
    sum
}

/// Stores and loads one lap, and times both.
fn time_lap<R: Clock>(
    rt: &R,
    writer: &mut WriterSeat<'_>,
    reader: &mut ReaderSeat<'_>,
    frame: &mut [i16],
) -> io::Result<Best>
    requires written { length frame.old ≡ (writer_geometry writer.old).channels }
    requires room { length frame.old ≡ (geometry_of reader.old).channels }
    ensures written { writer_geometry writer.new ≡ writer_geometry writer.old }
    ensures read { geometry_of reader.new ≡ geometry_of reader.old }
{
    let start = Instant::now(rt)?;
    let stored = store_lap(writer, frame);
    let store = start.elapsed(rt)?.as_nanos();
    let _ = reader.position(&mut NeverStops);
    let start = Instant::now(rt)?;
    let sum = load_lap(reader, frame);
    let load = start.elapsed(rt)?.as_nanos();
    if stored == FRAMES as u64 && sum == FRAMES as u64 {
        Ok(Best { store, load })
    } else {
        Err(io::ErrorKind::InvalidData.into())
    }
}

/// The fastest lap of a ring of so many channels that one thread stores and loads.
pub(crate) fn time_ring<R: Clock + Alloc<A = Global>>(rt: &R, channels: u8) -> io::Result<Best>
    requires one { 1 ≤ channels }
    requires most { channels ≤ 8 }
{
    let mut ring = new_ring(rt.alloc(), channels)?;
    let (mut writer, mut reader) = ring.seats();
    let mut frame = vec![in rt.alloc(); SAMPLE; channels as usize]?;
    let mut best = Best::NONE;
    for _ in 0..LAPS {
        best = best.with(time_lap(rt, &mut writer, &mut reader, frame.as_mut_slice())?);
    }
    Ok(best)
}
