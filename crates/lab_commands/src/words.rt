//! The words of a call: which commands there are, and their texts.
ghost use Rattle.std.specs.Prelude.{◌≡◌, ◌==◌, IfSome};
ghost use Rattle.std.specs.List.{list_all, list_any};
ghost use Rattle.std.specs.Str.{is_utf8};
ghost use Rattle.lab_commands.specs.Words.{IsWithinLimits, check_of, conf_of, form_of, form_seen, help_text, is_visible, make_of, names_device, names_file, refine_of, run_of, single_of, texts, version_text};

use lab_make::{Workload, read_workload};
use std::str;

/// The most bytes that a word for a file has.
const LONGEST_NAME: usize = 4096;

/// The most bytes that a word for a device has.
const LONGEST_DEVICE: usize = 64;

/// What a call's words ask for.
#[derive(Clone, Copy, Debug)]
pub(crate) enum Command<'a> {
    /// A run of the script in a file, with the name of the output without its ending.
    Run {
        script: &'a [u8],
        out: &'a [u8],
    },
    /// A check of the run of the script in a file, by the report in a file and the name of the output
    /// without its ending.
    Check {
        script: &'a [u8],
        report: &'a [u8],
        out: &'a [u8],
    },
    /// The answers to the text in a file on a parameter space.
    Refine {
        text: &'a [u8],
    },
    /// The device of a name in the configuration in a file.
    Conf {
        file: &'a [u8],
        name: &'a [u8],
    },
    /// A run of a workload that is made.
    Make(Workload),
    /// The help text.
    Help,
    /// The program's version.
    Version,
}

/// The command that the words are, or `None` where they are no listed form.
pub(crate) fn read_command(words: &[Vec<u8>]) -> Option<Command<'_>>
    ensures form { form_seen result ≡ form_of (texts words.now) }
    ensures limits { IfSome result IsWithinLimits }
{
    match words {
        [word] => read_single(word.as_slice()),
        [word, text] if word.as_slice() == b"refine".as_slice() => read_refine(text.as_slice()),
        [word, script, out] if word.as_slice() == b"run".as_slice() => {
            read_run(script.as_slice(), out.as_slice())
        }
        [word, file, name] if word.as_slice() == b"conf".as_slice() => {
            read_conf(file.as_slice(), name.as_slice())
        }
        [word, seed, clients, phases] if word.as_slice() == b"make".as_slice() => {
            read_make(seed.as_slice(), clients.as_slice(), phases.as_slice())
        }
        [word, script, report, out] if word.as_slice() == b"check".as_slice() => {
            read_check(script.as_slice(), report.as_slice(), out.as_slice())
        }
        _ => None,
    }
}

/// The command of one word.
fn read_single(word: &[u8]) -> Option<Command<'_>>
    ensures form { form_seen result ≡ single_of word.now }
    ensures limits { IfSome result IsWithinLimits }
{
    if word == b"--help".as_slice() {
        Some(Command::Help)
    } else if word == b"--version".as_slice() {
        Some(Command::Version)
    } else {
        None
    }
}

/// The run of a script's file, with the output's name.
fn read_run<'a>(script: &'a [u8], out: &'a [u8]) -> Option<Command<'a>>
    ensures form { form_seen result ≡ run_of script.now out.now }
    ensures limits { IfSome result IsWithinLimits }
{
    if is_file_name(script) && is_file_name(out) {
        Some(Command::Run { script, out })
    } else {
        None
    }
}

/// The check of a script's run, with its report's file and its output's name.
fn read_check<'a>(script: &'a [u8], report: &'a [u8], out: &'a [u8]) -> Option<Command<'a>>
    ensures form { form_seen result ≡ check_of script.now report.now out.now }
    ensures limits { IfSome result IsWithinLimits }
{
    if is_file_name(script) && is_file_name(report) && is_file_name(out) {
        Some(Command::Check {
            script,
            report,
            out,
        })
    } else {
        None
    }
}

/// The answers to the text in a file.
fn read_refine(text: &[u8]) -> Option<Command<'_>>
    ensures form { form_seen result ≡ refine_of text.now }
    ensures limits { IfSome result IsWithinLimits }
{
    if is_file_name(text) {
        Some(Command::Refine { text })
    } else {
        None
    }
}

/// The device of a name in a file.
fn read_conf<'a>(file: &'a [u8], name: &'a [u8]) -> Option<Command<'a>>
    ensures form { form_seen result ≡ conf_of file.now name.now }
    ensures limits { IfSome result IsWithinLimits }
{
    if is_file_name(file) && is_device_name(name) {
        Some(Command::Conf { file, name })
    } else {
        None
    }
}

/// The run of the workload of three words.
fn read_make<'a>(seed: &[u8], clients: &[u8], phases: &[u8]) -> Option<Command<'a>>
    ensures form { form_seen result ≡ make_of seed.now clients.now phases.now }
    ensures limits { IfSome result IsWithinLimits }
{
    match read_workload(seed, clients, phases) {
        Ok(workload) => Some(Command::Make(workload)),
        Err(_) => None,
    }
}

/// Whether a word can name a file: 1 to 4,096 bytes of UTF-8, none of them zero.
fn is_file_name(word: &[u8]) -> bool
    ensures { result ≡ names_file word.now }
{
    !word.is_empty() && word.len() <= LONGEST_NAME && is_text(word) && !has_zero(word)
}

/// Whether some bytes are UTF-8.
fn is_text(word: &[u8]) -> bool
    ensures { result ≡ is_utf8 word.now }
{
    str::from_utf8(word).is_ok()
}

/// Whether one of some bytes is zero.
fn has_zero(word: &[u8]) -> bool
    ensures { result ≡ list_any (λ b. b == 0) word.now }
{
    word.iter().any(|byte| *byte == 0)
}

/// Whether a word can name a device: 1 to 64 visible ASCII characters.
fn is_device_name(word: &[u8]) -> bool
    ensures { result ≡ names_device word.now }
{
    !word.is_empty() && word.len() <= LONGEST_DEVICE && is_visible(word)
}

/// Whether each of some bytes is a visible ASCII character.
fn is_visible(word: &[u8]) -> bool
    ensures { result ≡ list_all is_visible word.now }
{
    word.iter().all(|byte| 33 <= *byte && *byte <= 126)
}

/// The text of `--help`.
const HELP: &[u8] = b"usage: dmixlab run SCRIPT OUT
       dmixlab check SCRIPT REPORT OUT
       dmixlab refine TEXT
       dmixlab conf FILE NAME
       dmixlab make SEED CLIENTS PHASES
       dmixlab --help
       dmixlab --version

run plays the WAV files of a script's clients into one simulated card, which
mixes them as ALSA's dmix does. It reads SCRIPT, the file that the card captures
and the file of each client, stores what the card plays as OUT.wav and what each
reader records as OUT.READER.wav, and prints a report. OUT is without an ending;
files of these names are overwritten. WAV files are of 16-bit PCM; the file of a
client with plug linear may have 8, 24 or 32 bits, and any rate and channels.

check tests the files of a run, whoever made them: it reads SCRIPT and what that
names as run does, the report in the file REPORT, OUT.wav and each
OUT.READER.wav. The report must be one of the script, and the files hold, to the
byte, what it says was played and recorded. It stores and prints nothing.

refine narrows the hardware parameters that a card leaves to a client, as the
lines of TEXT ask, and prints what is left of them.

conf reads FILE, which is written as asound.conf is, and prints the type of its
device pcm.NAME, the device's card as a script's card line, and its bindings.

make stores WAV files of pseudorandom samples for CLIENTS clients, a script in
which they write in PHASES turns, what the card plays of it (made.wav) and its
report (made.report), and prints a summary. SEED is below 2^64, CLIENTS 1 to 64,
PHASES 1 to 1000.

Files are named from the folder in which the program runs. What is read may be a
pipe or a FIFO, and what is stored may not.

A script, in which # begins a comment and keys may be left out:

  card KEYS               first: channels N rate N period N ring N places N
                          lap N capture FILE share dmix|dshare
  client NAME FILE KEYS   a file to play: bindings N,N.. buffer N period N
                          start N stop N|never lead N plug linear
  reader NAME KEYS        a recording: a client's keys but for lead and plug
  open NAME               opens a client or a reader; close NAME closes it
  phase                   begins a phase, whose actors run at the same time:
  card play N             plays N frames; card unplug unplugs the card
  NAME write N            a client writes N frames of its file
  NAME read N             a reader reads N captured frames
  NAME CALL               start sync avail drop prepare pause die N; of a client
                          also delay drain resume rewindable rewind N
  end                     ends the phase

A text of refine, in which PARAM is access, format, sample_bits, frame_bits,
channels, rate, period_time, period_size, period_bytes, periods, buffer_time,
buffer_size or buffer_bytes:

  slave channels N rate N period N ring N      first: the card
  set PARAM N             PARAM is N; also min, max and near PARAM N
  integer PARAM           PARAM is a whole number
  show PARAM              prints PARAM
  choose                  prints what open takes

Example: the script my.script, with a mono file a.wav of 48000 Hz, and what
dmixlab run my.script my prints.

  card channels 1 rate 48000 period 64 ring 256
  client a a.wav
  open a
  phase
  a write 64
  end
  phase
  card play 256
  end

  dmixlab 1
  0 a open = ok PREPARED -
  1 a write 64 = 64 RUNNING 0
  2 card play 256 = 256 RUNNING 256
  segment a 0 64 64 0
  played 0 256
  end

A row is the phase, the line, its answer, the state after it, and the card's
position that was seen. The segment says that from frame 0 of a.wav on 64 frames
were mixed from the card's frame 64 on, and 0 channels of one frame more.

Where the exit status isn't 0, a line on standard error says why:

  0                       all was done; only the report says which calls were
                          refused, as the opening of a file of another rate
  1  words                these words are no command
  2  script line L: WHY   SCRIPT or TEXT is refused
     conf line L: WHY     FILE or its device is refused
  3  wav FILE: WHY        a WAV file is refused
  4  read FILE            a file can't be read
  5  write                a file or standard output can't be written
  6  memory               memory ran out
  7  no: line L           in check, line L of REPORT fails a test, or the file
                          that it speaks of isn't what it says

The manual is docs/SCRIPTS.md: every key, call, answer and WHY, with what to do.
In short it is docs/dmixlab.1, which man -l docs/dmixlab.1 shows.
";

/// What `--help` puts.
pub(crate) fn help() -> &'static [u8]
    ensures { result.now ≡ help_text }
{
    HELP
}

/// What `--version` puts.
pub(crate) fn version() -> &'static [u8]
    ensures { result.now ≡ version_text }
{
    b"dmixlab 0.1.0\n"
}
