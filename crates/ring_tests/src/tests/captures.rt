//! Seats of one ring.
ghost use Rattle.std.specs.Prelude.{◌≤◌, IfOk};
ghost use Rattle.snoop_table.specs.Rings.{GaveNone};
ghost use Rattle.snoop_table.specs.Writers.{SameWriter};

mod threads;

use mix_core::NeverStops;
use snd_base::{Geometry, PcmError};
use snoop_core::{Loaded, SnoopPort, can_load};
use snoop_table::{ReaderSeat, SnoopRing, WriterSeat};
use std::alloc::Global;

// A ring of 64 frames from a lap on.
fn new_ring(alloc: Global, channels: u8, first_lap: u32) -> Result<SnoopRing, PcmError>
    requires one { 1 ≤ channels }
    requires most { channels ≤ 8 }
    requires lap { first_lap ≤ 4294967294 }
    ensures { IfOk result (λ ring. GaveNone ring) }
{
    let geometry = Geometry {
        frames: 64,
        channels,
        first_lap,
    };
    SnoopRing::new(alloc, geometry)
}

// Stores a frame of as many channels as the ring has, as seen at run time, and does nothing with another one.
pub(super) fn try_store(writer: &mut WriterSeat<'_>, frame: &[i16]) -> Option<Result<(), PcmError>>
    ensures { SameWriter writer.old writer.new }
{
    if frame.len() != writer.geometry().channels as usize {
        return None;
    }
    Some(writer.store_frame(frame))
}

// Loads a frame where a port may, as seen at run time, and does nothing elsewhere.
pub(super) fn try_load<P: SnoopPort>(
    port: &mut P,
    frame: u64,
    out: &mut [i16],
) -> Option<Result<Loaded, PcmError>> {
    if !can_load(port, frame, out) {
        return None;
    }
    Some(port.load_frame(&mut NeverStops, frame, out))
}
