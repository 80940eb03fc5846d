//! A card that is watched between its steps, and random events at its rings.
ghost use Rattle.std.specs.Prelude.{◌≡◌, ◌≤◌, IfOk};
ghost use Rattle.sum_table.specs.Rings.{GaveNone, key_of_ring};
ghost use Rattle.snoop_table.specs.Rings.{GaveNone as SnoopGaveNone};

mod capturing;
mod dice;
mod mixing;

use card_player::CardPlayer;
use card_sim::{Card, Watch};
use mix_core::{MixPort, NeverStops};
use snd_base::{Geometry, PcmError};
use snoop_core::SnoopPort;
use snoop_table::{ReaderSeat, SnoopRing, WriterSeat};
use std::alloc::Global;
use std::process::Abort;
use sum_table::{MixSeat, SumRing};

// Rings from their first lap on, of one channel, of two from a later lap on, and of eight.
const MONO: Geometry = Geometry {
    frames: 64,
    channels: 1,
    first_lap: 0,
};

const STEREO: Geometry = Geometry {
    frames: 96,
    channels: 2,
    first_lap: 7,
};

const WIDE: Geometry = Geometry {
    frames: 64,
    channels: 8,
    first_lap: 0,
};

// A ring whose events reach its end.
const LAST_LAPS: Geometry = Geometry {
    frames: 64,
    channels: 1,
    first_lap: 4294967290,
};

fn new_ring(alloc: Global, geometry: Geometry, places: u32) -> Result<SumRing, PcmError>
    requires least { 1 ≤ places }
    requires few { places ≤ 64 }
    ensures gave_none { IfOk result (λ ring. GaveNone ring) }
    ensures places { IfOk result (λ ring. (key_of_ring ring).places ≡ places) }
{
    SumRing::new(alloc, geometry, places)
}

fn new_snoop_ring(alloc: Global, geometry: Geometry) -> Result<SnoopRing, PcmError>
    ensures { IfOk result (λ ring. SnoopGaveNone ring) }
{
    SnoopRing::new(alloc, geometry)
}

/// A watch that loads the positions of both rings, as a client and a reader do, and keeps what it saw in rows: the frame that
/// is stored next, the one that is taken next, and the positions of the sum ring and the snoop ring.
struct Outside<'a> {
    mix: MixSeat<'a>,
    reader: ReaderSeat<'a>,
    rows: [[u64; 4]; 10],
    count: usize,
}

// One call wherever it is let go.
impl Drop for Outside<'_> {
    fn drop(self) {
        let Outside {
            mix: _,
            reader: _,
            rows: _,
            count: _,
        } = self;
    }
}

impl Outside<'_> {
    fn positions(&mut self) -> Result<(u64, u64), PcmError> {
        let played = self.mix.position(&mut NeverStops)?.frame;
        let captured = self.reader.position(&mut NeverStops)?.frame;
        Ok((played, captured))
    }
}

impl Watch for Outside<'_> {
    ghost use Rattle.std.specs.Prelude.{⊤};

    ghost saw = { λ _ _ _. ⊤ };

    ghost saw_composes = { record { none = λ _. tt; joined = λ _ _ _ _ _ _ _. tt } };

    fn see(&mut self, player: &CardPlayer<'_>, writer: &WriterSeat<'_>) {
        let Ok((played, captured)) = self.positions() else {
            return;
        };
        if self.count < 10 {
            self.rows[self.count] = [writer.next(), player.next().frame, played, captured];
            self.count += 1;
        }
    }
}

// Three frames with a period of two, as they are seen from outside after each step.
const SEEN: [[u64; 4]; 10] = [
    [1, 0, 0, 0],
    [1, 1, 0, 0],
    [2, 1, 0, 0],
    [2, 2, 0, 0],
    [2, 2, 2, 0],
    [2, 2, 2, 2],
    [3, 2, 2, 2],
    [3, 3, 2, 2],
    [3, 3, 3, 2],
    [3, 3, 3, 3],
];

// Plays and captures three frames of one channel before a watch.
fn run_three(rt: &impl Abort, card: &mut Card<'_, '_>, watch: &mut Outside<'_>) {
    assert!(rt; card.channels() == 1);
    let mut out = [1i16; 3];
    assert!(rt; card.run(&[7i16; 3], &mut out, watch) == Ok(()));
}

#[test]
fn a_frame_is_stored_and_then_taken(rt: HostRuntime) -> Result<(), PcmError> {
    let mut ring = new_ring(rt.alloc(), MONO, 1)?;
    let mut snoop = new_snoop_ring(rt.alloc(), MONO)?;
    let (player, mix) = ring.seats();
    let (writer, reader) = snoop.seats();
    let player = CardPlayer::new(player, 2);
    assert!(rt; Card::can_use(&player, &writer));
    let mut card = Card::new(player, writer, 2);
    let mut watch = Outside {
        mix,
        reader,
        rows: [[9; 4]; 10],
        count: 0,
    };
    run_three(&rt, &mut card, &mut watch);
    assert!(rt; watch.rows == SEEN);
    Ok(())
}
