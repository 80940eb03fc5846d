//! Whether a report is one of a script.
ghost use Rattle.std.specs.Prelude.{◌≡◌, length};
ghost use Rattle.std.specs.Option.{option_copied};
ghost use Rattle.lab_lines.specs.Limits.{IsScript};
ghost use Rattle.lab_check.specs.Defects.{checked_samples};
ghost use Rattle.lab_check.specs.Recordings.{samples_of_checked};
ghost use Rattle.lab_check.specs.Results.{ChecksAs};
ghost use Rattle.lab_check.specs.Samples.{RunSamples};

use crate::defects::tested_report;
use crate::error::CheckError;
use crate::played::played_samples;
use crate::recorded::readers_samples;
use lab_lines::Script;
use std::alloc::Global;
use wav_io::Wav;

/// The samples that the files of a checked run must have, interleaved.
#[derive(Debug, Drop)]
pub struct Checked {
    /// What the card played.
    pub played: Vec<i16>,
    /// What each reader recorded, in the order of the readers' lines.
    pub recorded: Vec<Vec<i16>>,
}

/// Tests the text of a report against its script, its clients' sounds (`wavs`, in the order of their lines) and the sound that
/// its card captures, where it has a capture file. It gives the samples that the report says were played and recorded.
///
/// It asks for a script as `read_script` gives them, and for a sound for each client's line. Where not all samples have to be
/// there at a time, `tested_report`, `played_samples` and `reader_samples` do the same file by file.
///
/// # Errors
///
/// `No` with the line of the report at which the first of these tests fails:
///
/// - the text has at most 67,108,864 bytes (line 0), and is that of a report of the script (the line that `read_report` names);
/// - what was played begins at the card's first frame, and has the frames that the script's card plays;
/// - each segment has a sample, isn't before the card's first frame, and takes frames that its client's file has; the client's
///   bindings name as many channels as the file has, and the card has as many;
/// - each row that is answered late names a channel of the card and a frame at which no segment of its client has a sample, or, of
///   a rewind, one has;
/// - for each reader, its runs have captured frames alone and each begins behind the one before it; its rows read these frames, one
///   after the other in each of its stretches; and each run is read wholly.
///
/// `Memory`, where memory ran out.
pub fn check_report(
    alloc: Global,
    script: &Script,
    wavs: &[Wav],
    capture: Option<&Wav>,
    text: &[u8],
) -> Result<Checked, CheckError>
    requires script { IsScript script.now }
    requires wavs { length wavs.now ≡ length script.now.clients }
    ensures { ChecksAs samples_of_checked result
        (checked_samples script.now wavs.now (option_copied capture.entry) text.now) }
{
    let report = tested_report(alloc, script, wavs, text)?;
    let played = played_samples(alloc, script, wavs, &report)?;
    let recorded = readers_samples(alloc, script, capture, &report)?;
    Ok(Checked { played, recorded })
}
