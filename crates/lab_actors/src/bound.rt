//! To which channels of the card an actor's channels go.
ghost use Rattle.std.specs.Prelude.{◌≡◌, ◌≢◌, ◌<◌, ◌≤◌, All, IfSome, IfNone, length};
ghost use Rattle.bindings.specs.Bound.{AreBindings};
ghost use Rattle.lab_run.specs.Openings.{bound_by, read_by};
ghost use Rattle.lab_lines.specs.Limits.{IsCardLine, IsClientLine, IsReaderLine};

use bindings::Bindings;
use lab_lines::{CardLine, ClientLine, ReaderLine};
use wav_io::Wav;

/// The bindings of a client: those of its line, if they are as many as its file has channels; without them each channel goes
/// to the card's of the same number.
pub(crate) fn client_bindings(line: &ClientLine, wav: &Wav) -> Option<Bindings>
    ensures some { IfSome result
        (λ bindings. (bindings ≡ bound_by line.now wav.now)
        × (length bindings ≡ wav.now.channels)) }
    ensures none { IfNone result (length (bound_by line.now wav.now) ≢ wav.now.channels) }
{
    match line.bindings {
        None => Some(Bindings::identity(wav.channels as u8)),
        Some(bindings) if u16::from(bindings.len()) == wav.channels => Some(bindings),
        Some(_) => None,
    }
}

/// The bindings of a reader: those of its line, or each of the card's channels.
pub(crate) fn reader_bindings(card: &CardLine, line: &ReaderLine) -> Bindings
    requires { IsCardLine card.now }
    ensures { result ≡ read_by card.now line.now }
{
    match line.bindings {
        None => Bindings::identity(card.channels),
        Some(bindings) => bindings,
    }
}
