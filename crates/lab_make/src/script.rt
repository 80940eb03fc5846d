//! The script of a workload.
ghost use Rattle.std.specs.Prelude.{◌≡◌, ◌≤◌, IfErr, IfOk, Ok, length};
ghost use Rattle.lab_lines.specs.Limits.{IsScript};
ghost use Rattle.lab_script.specs.Reading.{script_of};
ghost use Rattle.lab_make.specs.Lines.{made_text};
ghost use Rattle.lab_make.specs.Script.{made_script};

use crate::text::made_text;
use lab_lines::Script;
use lab_script::{ScriptWhy, read_script};
use snd_base::PcmError;
use std::alloc::Global;

/// The script of so many clients, 64 at most, and turns, 1,000 at most: what its text spells.
///
/// # Errors
///
/// `Memory`, where memory ran out.
#[tactic(auto, using(crate::proofs::Refused::IfOk_err))]
pub fn made_script(alloc: Global, clients: u32, turns: u32) -> Result<Script, PcmError>
    requires clients { clients ≤ 64 }
    requires turns { turns ≤ 1000 }
    ensures script { IfOk result (λ script. script ≡ made_script clients turns) }

    // It is the one that the text of so many clients and turns spells, and a script in each way.
    ensures read { IfOk result (λ script. script_of (made_text clients turns) ≡ Ok script) }
    ensures valid { IfOk result IsScript }
    ensures count { IfOk result (λ script. length script.clients ≡ clients) }
    ensures only { IfErr result (λ error. error ≡ PcmError.Memory) }
{
    let text = made_text(alloc, clients, turns)?;
    match read_script(alloc, text.as_bytes()) {
        Ok(script) => Ok(script),
        Err(error) => match error.why {
            ScriptWhy::Memory => Err(PcmError::Memory),
            _ => unreachable!(),
        },
    }
}
