//! Two clients at one core.
ghost use Rattle.std.specs.Prelude.{◌≡◌, ◌*◌, ◌<◌, ◌++◌, List, [], IfOk, OnOk, length};
ghost use Rattle.mix_core.specs.declared.port.Entry.{Entry};
ghost use Rattle.dmix_client.specs.Calls.{segment_of};
ghost use Rattle.examples.specs.Mixing.{AreSums, HasMixed, IsFresh, member_entries};

use bindings::Bindings;
use dmix_client::Client;
use hw_space::Config;
use mix_core::{Core, NeverStops, Taken};
use pcm_stream::can_run_with;
use snd_base::{Geometry, PcmError, Segment, Why};
use std::alloc::Global;

/// What two clients placed, each of its own samples, and what the card took.
#[derive(Drop)]
pub struct Mixed {
    pub first: Segment,
    pub second: Segment,
    pub taken: Vec<Taken>,
}

/// Two clients of one core write their samples, the first before the second, and then the card takes `frames` frames.
///
/// Samples are interleaved, with as many channels as the ring has; both clients have this configuration. Each word that the
/// card took is the saturated sum of what both clients placed there, and which of its samples a client placed, and where, is in
/// its segment.
///
/// `Invalid` is answered where a client can't run with the configuration, and where the samples aren't whole frames or are too
/// many; `Memory` where no memory is left. It isn't said here how many frames a write accepts: that is what `writei` answers.
pub fn mix_two(
    alloc: Global,
    geometry: Geometry,
    config: Config,
    first: &[i16],
    second: &[i16],
    frames: u32,
) -> Result<Mixed, PcmError>
    ensures sums { IfOk result (λ mixed. AreSums geometry
        (member_entries geometry 0 mixed.first first.now
        ++ member_entries geometry 1 mixed.second second.now)
        mixed.taken.items) }
    ensures count { IfOk result (λ mixed. length mixed.taken.items ≡ frames * geometry.channels) }
{
    let mut core = Core::new(alloc, geometry, 2)?;
    let mut left = open(alloc, geometry, config, 0)?;
    let mut right = open(alloc, geometry, config, 1)?;
    write(&mut core, 0, &mut left, first)?;
    write(&mut core, 1, &mut right, second)?;
    let taken = play(alloc, &mut core, frames)?;
    Ok(Mixed {
        first: left.segment(),
        second: right.segment(),
        taken,
    })
}

/// A client of a ring's member, set up and prepared, which plays each of its channels in the card's of the same number.
fn open(alloc: Global, geometry: Geometry, config: Config, member: u32) -> Result<Client, PcmError>
    ensures { IfOk result (λ client. IsFresh client.stream geometry member) }
{
    let bindings = Bindings::identity(geometry.channels);
    if !can_run_with(&geometry, &config, &bindings) {
        return Err(PcmError::Invalid(Why::Config));
    }
    let mut client = Client::new(alloc, geometry, member, 0);
    client.hw_params(alloc, config, bindings)?;
    Ok(client)
}

/// The first write of a client, at its turn of the core; answers how many frames were accepted.
fn write(
    core: &mut Core,
    member: u32,
    client: &mut Client,
    samples: &[i16],
) -> Result<u32, PcmError>
    requires member { member < length core.old.marks }
    requires fresh { IsFresh client.old.stream core.old.geometry member }
    ensures mixed { (placed : List Entry) → HasMixed core.old placed [] →
        HasMixed core.new (placed ++ member_entries core.old.geometry member
        (segment_of client.new.stream) samples.now) [] }
    ensures geometry { core.new.geometry ≡ core.old.geometry }
    ensures members { length core.new.marks ≡ length core.old.marks }
{
    if !client.can_offer(samples) {
        return Err(PcmError::Invalid(Why::Config));
    }
    let mut turn = core.turn(member);
    client.writei(&mut turn, &mut NeverStops, samples)
}

/// The card takes so many frames: all that it took, in order.
fn play(alloc: Global, core: &mut Core, frames: u32) -> Result<Vec<Taken>, PcmError>
    ensures mixed { IfOk result (λ taken. (placed : List Entry) → HasMixed core.old placed [] →
        HasMixed core.new placed taken.items) }
    ensures count { IfOk result
        (λ taken. length taken.items ≡ frames * core.old.geometry.channels) }
    ensures geometry { core.new.geometry ≡ core.old.geometry }
{
    let mut all = Vec::new(alloc);
    for _word in 0..frames as u64 * core.geometry().channels as u64 {
        let taken = core.take()?;
        all.push(taken)?;
    }
    core.publish();
    Ok(all)
}
