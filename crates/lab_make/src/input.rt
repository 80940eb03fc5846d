//! All that a workload's run reads.
ghost use Rattle.std.specs.Prelude.{◌≡◌, All, IfErr, IfOk, length};
ghost use Rattle.lab_make.specs.Files.{IsMadeSound, made_sounds};
ghost use Rattle.lab_make.specs.Lines.{made_text};

use crate::files::made_files;
use crate::text::made_text;
use snd_base::PcmError;
use std::alloc::Global;
use wav_io::Wav;

/// What a workload is made of.
#[derive(Debug, Drop)]
pub struct Made {
    /// The bytes of the script's text.
    pub script: Vec<u8>,
    /// The files of the clients, in the order of the clients.
    pub wavs: Vec<Wav>,
}

/// The script and the files of a workload of this seed, with so many clients and turns.
///
/// # Errors
///
/// `Memory`, where memory ran out.
#[tactic(auto, using(crate::proofs::Refused::IfOk_err))]
pub fn make(alloc: Global, seed: u64, clients: u32, turns: u32) -> Result<Made, PcmError>
    ensures script { IfOk result (λ made. made.script.items ≡ made_text clients turns) }
    ensures wavs { IfOk result (λ made. made.wavs.items ≡ made_sounds seed clients) }
    ensures count { IfOk result (λ made. length made.wavs.items ≡ clients) }
    ensures each { IfOk result (λ made. All IsMadeSound made.wavs.items) }
    ensures only { IfErr result (λ error. error ≡ PcmError.Memory) }
{
    let script = made_text(alloc, clients, turns)?.into_bytes();
    let wavs = made_files(alloc, seed, clients)?;
    Ok(Made { script, wavs })
}
