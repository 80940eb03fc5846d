//! Captured frames are loaded through a port, and put through the bindings.
ghost use Rattle.std.specs.Prelude.{◌≡◌, ◌+◌, ◌*◌, ◌^◌, ◌<◌, ◌≤◌, All, length};
ghost use Rattle.snd_base.specs.Places.{first_frame};
ghost use Rattle.snoop_core.specs.Port.{Gets, OnGot, numbered_frame};
ghost use Rattle.course.specs.AtSnoopPort.{TakesAtSnoop};
ghost use Rattle.dsnoop_client.specs.Course.{gets_frames};
ghost use Rattle.dsnoop_client.specs.Reads.{Fills, bound_samples};

use bindings::Bindings;
use mix_core::Gate;
use snoop_core::{Got, SnoopPort};

/// How many frames were loaded whole, and how the last load ended.
#[derive(Clone, Copy)]
pub(crate) struct Loads {
    pub frames: u64,
    pub ended: Got,
}

/// Puts a card's frame through the bindings: for each of the stream's channels the sample of its card channel.
fn put_through(bindings: &Bindings, frame: &[i16], part: &mut [i16])
    requires on_card { All (λ channel. channel < length frame.now) bindings.now }
    requires part { length part.old ≡ length bindings.now }
    ensures { part.new ≡ bound_samples bindings.now frame.now }
{
    for client in 0..bindings.len() {
        part[client as usize] = frame[bindings.card_channel(client) as usize];
    }
}

/// Loads one frame into `frame`, and where it was loaded whole, puts it through the bindings.
fn load_through<P: SnoopPort, G: Gate>(
    port: &mut P,
    gate: &mut G,
    bindings: &Bindings,
    number: u64,
    frame: &mut [i16],
    part: &mut [i16],
) -> Got
    requires on_card { All (λ channel. channel < (P.view port.old).geometry.channels) bindings.now }
    requires room { length frame.old ≡ (P.view port.old).geometry.channels }
    requires part { length part.old ≡ length bindings.now }
    requires least { first_frame (P.view port.old).geometry ≤ number }
    requires captured { number < (P.view port.old).seen }
    ensures step { Gets P.view P.shows P.loaded P.got P.finds G.stops G.asked port.old gate.old
        (numbered_frame number frame.new) result port.new gate.new }
    ensures part { OnGot result (part.new ≡ bound_samples bindings.now frame.new) }
{
    match Got::of(port.load_frame(gate, number, frame)) {
        Got::Whole => {
            put_through(bindings, frame, part);
            Got::Whole
        }
        ended => ended,
    }
}

/// Loads `count` frames, from the frame `first` on, through the bindings into `out`, up to the first that is overtaken or
/// stopped. `frame` has room for one frame of the card.
pub(crate) fn load_frames<P: SnoopPort, G: Gate>(
    port: &mut P,
    gate: &mut G,
    bindings: &Bindings,
    first: u64,
    count: u64,
    frame: &mut [i16],
    out: &mut [i16],
) -> Loads
    requires on_card { All (λ channel. channel < (P.view port.old).geometry.channels) bindings.now }
    requires room { length frame.old ≡ (P.view port.old).geometry.channels }
    requires fits { count * length bindings.now ≤ length out.old }
    requires least { first_frame (P.view port.old).geometry ≤ first }
    requires captured { first + count ≤ (P.view port.old).seen }
    requires last { first + count < 2 ^ 63 }
    ensures takes { TakesAtSnoop P.SnoopPort G.Gate (port.old, gate.old) (gets_frames count first)
        (port.new, gate.new) (result.frames, result.ended) }
    ensures most { result.frames ≤ count }
    ensures fills { Fills P.SnoopPort port.old port.new bindings.now first
        result.frames result.ended out.old out.new }
{
    let channels = bindings.len() as usize;
    for index in 0..count {
        let place = index as usize * channels;
        let part = &mut out[place..place + channels];
        match load_through(port, gate, bindings, first + index, frame, part) {
            Got::Whole => {}
            ended => {
                return Loads {
                    frames: index,
                    ended,
                };
            }
        }
    }
    Loads {
        frames: count,
        ended: Got::Whole,
    }
}
