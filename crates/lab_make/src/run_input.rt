//! The input of a workload's run, in memory.
ghost use Rattle.std.specs.Prelude.{◌≡◌, All, IfErr, IfOk, Ok, length};
ghost use Rattle.lab_input.specs.Read.{input_of};
ghost use Rattle.lab_make.specs.Files.{IsMadeSound};
ghost use Rattle.lab_make.specs.Lines.{made_text};
ghost use Rattle.lab_make.specs.Workload.{IsWorkload};
ghost use Rattle.lab_lines.specs.Limits.{IsScript};
ghost use Rattle.lab_script.specs.Reading.{script_of};
ghost use Rattle.lab_stop.specs.declared.stop.Stop.TheVariants as stops;
ghost use Rattle.lab_make.specs.Stored.{made_input};

use crate::input::{Made, make};
use crate::script::made_script;
use crate::workload::Workload;
use lab_input::Input;
use lab_stop::Stop;
use std::alloc::Global;

/// What a run of a workload reads, and the text of its script.
pub struct MadeInput {
    /// The script and the clients' sounds.
    pub input: Input,
    /// The script's text.
    pub text: Vec<u8>,
}

// One call wherever it is let go. A derive drops each part in turn there, and the proof goes through all of them.
impl Drop for MadeInput {
    fn drop(self) {
        let MadeInput { input: _, text: _ } = self;
    }
}

/// What a run of a workload reads, made in memory. It stops with `Memory` alone, where no memory is left.
pub fn made_input(alloc: Global, workload: &Workload) -> Result<MadeInput, Stop>
    requires { IsWorkload workload.now }
    ensures input { IfOk result (λ made. input_of made.input ≡ made_input workload.now) }
    ensures text { IfOk result
        (λ made. made.text.items ≡ made_text workload.now.clients workload.now.phases) }
    ensures spelled { IfOk result (λ made.
        script_of (made_text workload.now.clients workload.now.phases) ≡ Ok made.input.script) }
    ensures script { IfOk result (λ made. IsScript made.input.script) }
    ensures number { IfOk result
        (λ made. length made.input.wavs.items ≡ length made.input.script.clients) }
    ensures clients { IfOk result (λ made. length made.input.wavs.items ≡ workload.now.clients) }
    ensures sounds { IfOk result (λ made. All IsMadeSound made.input.wavs.items) }
    ensures only { IfErr result (λ stop. stop ≡ stops.Memory) }
{
    let Made { script: text, wavs } = match make(
        alloc,
        workload.seed,
        workload.clients,
        workload.phases,
    ) {
        Ok(made) => made,
        Err(_) => return Err(Stop::Memory),
    };
    match made_script(alloc, workload.clients, workload.phases) {
        Ok(script) => Ok(MadeInput {
            input: Input {
                script,
                capture: None,
                wavs,
            },
            text,
        }),
        Err(_) => Err(Stop::Memory),
    }
}
