//! Lines of the script, and files, by number.
ghost use Rattle.std.specs.Prelude.{◌≡◌, ◌<◌, ◌⊎◌, IfNone, IfSome, None, Some, length, slice_get};

use lab_lines::{ClientLine, ReaderLine, Script};
use wav_io::Wav;

/// The line and the file of the client of this number, where there are such.
pub(crate) fn source_of<'a>(
    script: &'a Script,
    wavs: &'a [Wav],
    client: u32,
) -> Option<(&'a ClientLine, &'a Wav)>
    ensures some { IfSome result (λ source.
        (slice_get script.now.clients client ≡ Some source.0.now)
        × (slice_get wavs.now client ≡ Some source.1.now)) }
    ensures none { IfNone result ((slice_get script.now.clients client ≡ None)
        ⊎ (slice_get wavs.now client ≡ None)) }
{
    let clients = script.clients.as_slice();
    let number = client as usize;
    if number < clients.len() && number < wavs.len() {
        Some((&clients[number], &wavs[number]))
    } else {
        None
    }
}

/// The line of the reader of this number.
pub(crate) fn line_of_reader(script: &Script, number: u32) -> &ReaderLine
    requires { number < length script.now.readers }
    ensures { slice_get script.now.readers number ≡ Some result.now }
{
    let readers = script.readers.as_slice();
    &readers[number as usize]
}
