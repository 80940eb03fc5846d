//! Adds two sounds in a mix ring, and prints what the card takes of each frame.
#![tactic(auto)]

ghost use Rattle.std.specs.Prelude.{[], ◌∷◌, IfOk};
ghost use Rattle.mix_core.specs.Laid.{an_add};

use mix_core::{Core, MixPort, NeverStops, Placed, can_place};
use snd_base::{Cursor, Geometry, PcmError, XrunWhy};

/// A ring of 64 frames, each of one sample.
const RING: Geometry = Geometry {
    frames: 64,
    channels: 1,
    first_lap: 0,
};

/// Adds a sample at the first frame and channel that are left to the port, and answers where that is.
fn add<P: MixPort>(port: &mut P, sample: i16) -> Result<Cursor, PcmError>
    ensures { IfOk result (λ at. P.laid port.old port.new
        (an_add (P.view port.old).member at.frame at.channel sample ∷ [])) }
{
    let Cursor { frame, channel } = port.cursor();
    if !can_place(port, frame, channel) {
        return Err(PcmError::Again);
    }
    match port.place(&mut NeverStops, frame, channel, sample)? {
        Placed::In => Ok(Cursor { frame, channel }),
        Placed::Late { seen } => Err(PcmError::Xrun(XrunWhy::Late {
            frame,
            channel,
            seen,
        })),
    }
}

/// Adds a sound, sample by sample, and answers `Busy` where the core has no such member.
fn add_sound(core: &mut Core, member: u32, sound: &[i16]) -> Result<(), PcmError> {
    if core.members() <= member {
        let seen = core.position().frame;
        return Err(PcmError::Busy { until: None, seen });
    }
    let mut turn = core.turn(member);
    for sample in sound {
        add(&mut turn, *sample)?;
    }
    Ok(())
}

fn main(rt: HostRuntime) -> Result<(), PcmError> {
    let mut core = Core::new(rt.alloc(), RING, 2)?;
    add_sound(&mut core, 0, &[100, 30000, -30000])?;
    add_sound(&mut core, 1, &[-40, 10000, -10000, 5])?;
    for _frame in 0..5 {
        let taken = core.take()?;
        let _ = println!(rt; "frame {}: {}", taken.frame, taken.value);
    }
    Ok(())
}
