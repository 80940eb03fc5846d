//! The stream of a client that is opened.
ghost use Rattle.std.specs.Prelude.{◌≡◌, IfErr, IfOk};
ghost use Rattle.lab_run.specs.Stage.{opened_client};
ghost use Rattle.lab_actors.specs.Usable.{IsUsable};

use dmix_client::Client;
use lab_actors::Opening;
use snd_base::{Geometry, PcmError};
use std::alloc::Global;

/// A stream of a member of a ring of this geometry, set up with what its client is opened with. It refuses, with `Memory`, only where
/// no memory is left.
pub(crate) fn set_up(
    alloc: Global,
    geometry: Geometry,
    member: u32,
    opening: &Opening,
) -> Result<Client, PcmError>
    requires { IsUsable geometry.channels geometry.frames opening.now }
    ensures ok { IfOk result (λ client. client.stream ≡ opened_client geometry member opening.now) }
    ensures only { IfErr result (λ e. e ≡ PcmError.Memory) }
{
    let mut client = Client::new(alloc, geometry, member, opening.lead);
    client.hw_params(alloc, opening.config, opening.bindings)?;
    let Ok(()) = client.sw_params(opening.params) else {
        unreachable!()
    };
    Ok(client)
}
