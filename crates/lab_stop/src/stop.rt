//! Why a command stops, the exit status that says so, and the line that it puts.
ghost use Rattle.std.specs.Fmt.{decimal};
ghost use Rattle.std.specs.Prelude.{◌≡◌, ◌≤◌, ◌++◌, codes, IfOk, string_bytes};
ghost use Rattle.asound_conf.specs.ErrorText as conf;
ghost use Rattle.lab_script.specs.ErrorText as script;
ghost use Rattle.wav_io.specs.ErrorText as wav;
ghost use Rattle.lab_shelf.specs.Files.{TookPart};
ghost use Rattle.lab_stop.specs.Lines.{file_shown, stop_line};
ghost use Rattle.lab_stop.specs.Stops.{IsConfStop, IsScriptStop, IsWavStop, status_of};

use asound_conf::{ConfError, ConfWhy};
use lab_script::{ScriptError, ScriptWhy};
use lab_shelf::Sink;
use std::alloc::{AllocError, AllocFailed, Global};
use std::str;
use wav_io::WavError;

/// Why a command stops before it is done. The first cause in the order of its work decides.
#[derive(Debug, Drop)]
pub enum Stop {
    /// The words of the command line are no form that is listed.
    Words,
    /// The script is refused, on this line and for this cause; never for `Memory`.
    Script(ScriptError),
    /// The configuration is refused, or what it says of the device; never for `Memory`.
    Conf(ConfError),
    /// The WAV file of this name is refused; never for `Memory`.
    Wav { name: Vec<u8>, why: WavError },
    /// The file of this name can't be read, or isn't there.
    Read { name: Vec<u8> },
    /// A report and files aren't those of a run of a script: a test fails at this line of the report,
    /// or at line 0 for its text as a whole.
    No { line: u32 },
    /// A file or the output can't be written.
    Write,
    /// Memory ran out.
    Memory,
}

impl From<AllocError> for Stop {
    ghost use Rattle.std.specs.Prelude.{◌≡◌};
    ghost use Rattle.lab_stop.specs.declared.stop.Stop.TheVariants as stops;

    ghost from_gives = { λ _ stop. stop ≡ stops.Memory };

    fn from(_error: AllocError) -> Stop {
        Stop::Memory
    }
}

impl<T: Drop> From<AllocFailed<T>> for Stop {
    ghost use Rattle.std.specs.Prelude.{◌≡◌};
    ghost use Rattle.lab_stop.specs.declared.stop.Stop.TheVariants as stops;

    ghost from_gives = { λ _ stop. stop ≡ stops.Memory };

    fn from(_error: AllocFailed<T>) -> Stop {
        Stop::Memory
    }
}

impl From<ScriptError> for Stop {
    ghost from_gives = { λ error stop. IsScriptStop error.why error stop };

    fn from(error: ScriptError) -> Stop {
        match error.why {
            ScriptWhy::Memory => Stop::Memory,
            _ => Stop::Script(error),
        }
    }
}

impl From<ConfError> for Stop {
    ghost from_gives = { λ error stop. IsConfStop error.why error stop };

    fn from(error: ConfError) -> Stop {
        match error.why {
            ConfWhy::Memory => Stop::Memory,
            _ => Stop::Conf(error),
        }
    }
}

/// The stop at a WAV file of this name that is refused, or `Memory` where memory ran out, also for
/// the name.
pub fn wav_stop(alloc: Global, name: &[u8], why: WavError) -> Stop
    ensures { IsWavStop why name.now result }
{
    match why {
        WavError::Memory => Stop::Memory,
        _ => match Vec::from_slice(alloc, name) {
            Ok(name) => Stop::Wav { name, why },
            Err(_) => Stop::Memory,
        },
    }
}

/// The exit status of a command that ended so: 0 where it was done, 1 for `Words`, 2 for `Script` and
/// `Conf`, 3 for `Wav`, 4 for `Read`, 5 for `Write`, 6 for `Memory` and 7 for `No`.
pub fn status(end: &Result<(), Stop>) -> u8
    ensures { result ≡ status_of end.now }
{
    match end {
        Ok(()) => 0,
        Err(Stop::Words) => 1,
        Err(Stop::Script(_)) => 2,
        Err(Stop::Conf(_)) => 2,
        Err(Stop::Wav { .. }) => 3,
        Err(Stop::Read { .. }) => 4,
        Err(Stop::No { .. }) => 7,
        Err(Stop::Write) => 5,
        Err(Stop::Memory) => 6,
    }
}

/// The name of a file as a text, or none where it isn't UTF-8.
fn name_text(name: &[u8]) -> &str
    ensures { result.now ≡ file_shown name.now }
{
    match str::from_utf8(name) {
        Ok(text) => text,
        Err(_) => "",
    }
}

/// The line that says why a command stopped.
fn reason(alloc: Global, stop: &Stop) -> Result<String, AllocError>
    ensures { IfOk result (λ line. string_bytes line ≡ stop_line stop.now) }
{
    match stop {
        Stop::Words => String::from_str(alloc, "dmixlab: words\n"),
        Stop::Script(error) => format!(in alloc; "dmixlab: script {error}\n"),
        Stop::Conf(error) => format!(in alloc; "dmixlab: conf {error}\n"),
        Stop::Wav { name, why } => {
            let name = name_text(name.as_slice());
            format!(in alloc; "dmixlab: wav {name}: {why}\n")
        }
        Stop::Read { name } => {
            let name = name_text(name.as_slice());
            format!(in alloc; "dmixlab: read {name}\n")
        }
        Stop::No { line } => format!(in alloc; "dmixlab: no: line {line}\n"),
        Stop::Write => String::from_str(alloc, "dmixlab: write\n"),
        Stop::Memory => String::from_str(alloc, "dmixlab: memory\n"),
    }
}

/// Puts the line that says why a command stopped on `errors`: `dmixlab: ` and then `words`,
/// `script line L: WHY`, `conf line L: WHY`, `wav NAME: WHY`, `read NAME`, `no: line L`, `write` or
/// `memory`, where WHY is the variant's name, with its number where it has one. A name that isn't UTF-8
/// is left out.
/// Where there is no memory for the line the sink takes nothing, and where the sink fails, the first bytes of it; nothing else
/// changes then.
pub fn tell<E: Sink>(alloc: Global, errors: &mut E, stop: &Stop)
    ensures took { TookPart (E.taken errors.old) (E.taken errors.new) (stop_line stop.now) }
    ensures faults { E.faults errors.old ≤ E.faults errors.new }
    ensures reliable { E.is_reliable errors.old → E.is_reliable errors.new }
{
    if let Ok(line) = reason(alloc, stop) {
        let _end = errors.put(line.as_bytes());
    }
}
