//! The input of a run.
ghost use Rattle.std.specs.Prelude.{◌≡◌, IfOk, length};
ghost use Rattle.lab_lines.specs.Limits.{IsScript};
ghost use Rattle.lab_stop.specs.Effects.{AnswersFrom, OnlyReads};
ghost use Rattle.lab_input.specs.Input.{input_in, script_in};
ghost use Rattle.lab_input.specs.Read.{input_of};

use crate::wavs::{read_capture, read_wavs};
use lab_lines::Script;
use lab_script::read_script;
use lab_shelf::Shelf;
use lab_stop::{Stop, fetch_most};
use std::alloc::Global;
use wav_io::Wav;

/// One byte more than a script may have.
const SCRIPT_MOST: u64 = 1_048_577;

/// What a run reads: its script, the sound of the WAV file that its card captures, where the script
/// names one, and its clients' sounds in the order of their lines.
pub struct Input {
    pub script: Script,
    pub capture: Option<Wav>,
    pub wavs: Vec<Wav>,
}

// One call wherever an input is let go. A derive drops each part in turn there, and the proof goes through all of them.
impl Drop for Input {
    fn drop(self) {
        let Input {
            script: _,
            capture: _,
            wavs: _,
        } = self;
    }
}

/// Reads what a run of the script in the file `name` needs, and writes nothing: the script, then the
/// WAV file that its card captures, and then the file of each client in the order of their lines. The
/// files are fetched in pieces of 65,536 bytes, each from its first byte on, and of a WAV file only
/// the samples are kept.
///
/// # Errors
///
/// The first cause in that order:
///
/// - `Read` with the file's name, where the shelf fails to fetch from a file, which its count of
///   faults shows;
/// - `Script`, where the script is refused, as `read_script` says;
/// - `Wav` with the file's name, where a WAV file is refused, as `read_wav` says; and with `TooLong`
///   where it isn't, but the run's WAV files up to it have more than 268,435,456 bytes together. The
///   card's file counts as well, and a file that is named twice counts twice;
/// - `Memory`, where memory ran out.
pub fn read_input<S: Shelf>(shelf: &mut S, alloc: Global, name: &[u8]) -> Result<Input, Stop>
    // The answer is what the files hold, or the first cause that they give; over a reliable shelf a
    // read fails only where the file is missing.
    ensures input { AnswersFrom S.Shelf input_of result shelf.old
        (λ files. input_in files name.now) }

    // What is read keeps a script's limits, and there are as many sounds as clients.
    ensures script { IfOk result (λ input. IsScript input.script) }
    ensures number { IfOk result
        (λ input. length input.wavs.items ≡ length input.script.clients) }

    // No file changes, and what fails is counted.
    ensures only_reads { OnlyReads S.Shelf result shelf.old shelf.new }
{
    let script = load_script(shelf, alloc, name)?;
    let (capture, total) = read_capture(shelf, alloc, &script.card)?;
    let wavs = read_wavs(shelf, alloc, total, &script.card, script.clients.as_slice())?;
    Ok(Input {
        script,
        capture,
        wavs,
    })
}

/// The script in a file.
#[tactic(auto, unfolding(crate::specs::Input::script_in))]
fn load_script<S: Shelf>(shelf: &mut S, alloc: Global, name: &[u8]) -> Result<Script, Stop>
    ensures script { AnswersFrom S.Shelf (λ s. s) result shelf.old
        (λ files. script_in files name.now) }
    ensures valid { IfOk result (λ s. IsScript s) }
    ensures only_reads { OnlyReads S.Shelf result shelf.old shelf.new }
{
    let text = fetch_most(shelf, alloc, name, SCRIPT_MOST)?;
    let script = read_script(alloc, &text)?;
    Ok(script)
}
