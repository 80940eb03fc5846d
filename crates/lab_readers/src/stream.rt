//! The stream of a reader that is opened.
ghost use Rattle.std.specs.Prelude.{◌≡◌, IfErr, IfOk};
ghost use Rattle.snd_base.specs.declared.geometry.Geometry.{Geometry};
ghost use Rattle.lab_run.specs.Stage.{opened_reader};
ghost use Rattle.lab_actors.specs.Usable.{IsUsable};

use dsnoop_client::Reader;
use lab_actors::Opening;
use snd_base::{Geometry, PcmError};
use std::alloc::Global;

/// A new stream at a ring, set up with an opening that fits it. It refuses for memory alone.
pub(crate) fn set_up(
    alloc: Global,
    geometry: Geometry,
    opening: &Opening,
) -> Result<Reader, PcmError>
    requires { IsUsable geometry.channels geometry.frames opening.now }
    ensures ok { IfOk result (λ reader. reader ≡ opened_reader geometry opening.now) }
    ensures only { IfErr result (λ e. e ≡ PcmError.Memory) }
{
    let mut reader = Reader::new(alloc, geometry);
    reader.hw_params(alloc, opening.config, opening.bindings)?;
    let Ok(()) = reader.sw_params(opening.params) else {
        unreachable!()
    };
    Ok(reader)
}
