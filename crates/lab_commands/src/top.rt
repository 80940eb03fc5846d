//! The program's call: words, files and streams in, an exit status out.
ghost use Rattle.std.specs.Prelude.{◌≡◌, ◌≢◌, ◌≤◌, ◌⊎◌, ◌↔◌, IfErr, OnOk, length, None};
ghost use Rattle.std.specs.Option.{ForSome};
ghost use Rattle.lab_phase.specs.PhaseRuns.{stops_by};
ghost use Rattle.lab_play.specs.Stops.{rises};
ghost use Rattle.lab_shelf.specs.Counts.{Rose};
ghost use Rattle.lab_shelf.specs.Files.{TookPart};
ghost use Rattle.lab_stop.specs.Lines.{stop_line};
ghost use Rattle.lab_stop.specs.Stops.{AreSameCounts, EndsOf, EndsReliably, InputFaults, OutputFaults, Refuses, status_of};
ghost use Rattle.lab_commands.specs.Words.{form_of, texts};
ghost use Rattle.lab_commands.specs.Top.{AskedIn, cause_in, ComesExactly, EndsWell, Headline, IsOnlyLeft, IsLeftByFault, IsMissing, IsNoRun, IsTextRefused, IsValidCall, IsWavRefused, CommandLeaves, SaysWhy, most_status};

use crate::commands::{check_command, conf_command, make_command, refine_command, run_command};
use crate::words::{Command, help, read_command, version};
use lab_shelf::{Shelf, Sink};
use lab_stop::{Stop, put, status, tell};
use mix_core::Gate;
use run_laws::scripts_have_one_session;
use std::alloc::Global;
use std::marker::{Send, Sync};
use std::thread::Threads;

/// Does what `words` ask for, which are the program's words after its name, and gives its exit
/// status.
///
/// - `run SCRIPT OUT` reads the script in the file SCRIPT, the WAV file that its card captures, if it
///   names one, and the WAV file of each of its clients, and runs it: what the card plays is written as
///   the WAV file `OUT.wav`, what each reader records as `OUT.NAME.wav`, and the report is put on `out`.
/// - `check SCRIPT REPORT OUT` tests the report in the file REPORT and the files `OUT.wav` and
///   `OUT.NAME.wav`, whoever made them, against the script in the file SCRIPT. It reads what `run SCRIPT
///   OUT` reads, then REPORT, and then each of these files; it stores and puts nothing.
/// - `refine TEXT` reads in the file TEXT what is asked of the hardware parameters that a slave leaves
///   to its clients, and puts an answer for each line on `out`. It begins as `snd_pcm_hw_params_any`
///   does; a line narrows as `snd_pcm_hw_params_set_..` or shows as `snd_pcm_hw_params_get_..`.
/// - `conf FILE NAME` reads in the file FILE the device `pcm.NAME` as `asound_conf` does, and puts on
///   `out` the lines `type KIND`, `card channels C rate R period P ring N` and, where the device has
///   bindings, `bindings` with its card channels. The card's line by itself is a script.
/// - `make SEED CLIENTS PHASES` makes a workload and runs it: a WAV file `made-K.wav` for each client K
///   of CLIENTS, from 0, with samples of the pseudorandom generator of SEED; and the script
///   `made.script`, in which in each of PHASES turns every client writes and then the card plays one
///   period. It stores these, runs the script as `run made.script made` does, but from what it holds
///   in place of fetching it, stores the report as `made.report`, and puts a summary of the run on `out`.
/// - `--help` and `--version`, each alone, put their text on `out`.
///
/// A word for a file is 1 to 4,096 bytes of UTF-8 without a zero byte; NAME is 1 to 64 visible ASCII
/// characters; SEED, CLIENTS and PHASES are decimal numbers of 1 to 20 digits, below 2^64, from 1 to 64
/// and from 1 to 1,000. The status is 0 where all was done, and then `errors` takes nothing. Otherwise
/// one line on `errors` says why it is not, and a fault there changes nothing but that the line may be
/// left out from some byte on, as it is where no memory is left for it:
///
/// - 1: the words are none of these;
/// - 2: the script has more than 1,048,576 bytes, or isn't a script as `lab_script::read_script`
///   reads it; or TEXT has more bytes than that, no line with words, or a line that isn't allowed there;
///   or FILE is refused by `asound_conf::read_conf`, or its device by `asound_conf::device`;
/// - 3: a WAV file isn't one of 16-bit PCM, has more than 67,108,864 bytes, or is the one with which the
///   WAV files so far, each counted as often as a line names it, have more than 268,435,456 bytes;
/// - 4: a file can't be read, as where there is none of its name;
/// - 5: a file can't be written, or the text can't be put;
/// - 6: not all could be done, for want of memory, which no clause says;
/// - 7: in `check`, the report isn't that of a run of the script, as `lab_check::check_report` tests it, or
///   one of the files isn't, to the byte, the canonical WAV file of what it says was played or recorded.
///   The line names the report's line: of the first test that fails, of what was played for `OUT.wav`, and
///   the last one for `OUT.NAME.wav`; 0 is a report of more than 67,108,864 bytes.
///
/// The first cause in the order of the work decides: the words, the script, TEXT or FILE, the captured
/// file, each client's file in the order of the clients' lines, the tests of REPORT, `OUT.wav` and each
/// `OUT.NAME.wav` in the order of the readers' lines, and then what is written. A test is made as soon as
/// what it needs is fetched; of one of these files at most one byte more is fetched than it must have. A fault that a
/// file or `out` counts is always answered: of a fetch with 4, and of a write or a put with 5. Over a
/// reliable shelf and a reliable `out` 4 comes only where a file isn't there, and 5 never.
///
/// A client or reader that the card can't serve, by its file's rate or number of channels, its bindings
/// or its buffer, is no cause of a status: its opening is answered EINVAL in the report, and each of its
/// lines EBADFD.
///
/// The files are begun with open heads once all input is read; at the end of each phase what was played
/// and recorded is appended, and then the phase's rows are put; at the end the files get their true heads,
/// and then the rest of the report is put. With status 0 `OUT.wav` is the canonical WAV file of what the
/// card played, at the card's rate and with its channels: each channel of each frame is the sum of exactly
/// the samples that the report's segments placed there, saturated once; and `OUT.NAME.wav` is that of the
/// captured frames that the report says the reader read. With 1 to 4 no file changed and `out` took
/// nothing. With 5 and 6 each of these files is as it was or holds the first bytes of what it was to hold
/// by then, or all with some bytes of the head still open; no other file changed, and `out` took the
/// first bytes of the report. `check` changes no file and puts nothing, whatever its status. Its status 0
/// says of the report and the files what `run` promises of its own: each sample that was played is the sum
/// of exactly what the report's segments placed there, saturated once, and each reader's are the captured
/// frames of its runs. A run may fail it where a client was opened again and is answered late after that,
/// at a frame at which it has samples of before. What the card had played by then are the sums of what the segments so far
/// placed, saturated once. `make` stores the clients' files, the script, `made.wav` and `made.report`
/// in this order, and then puts the summary with one call: with status 0 all of them, with 5 and 6 the
/// first of these, and of one of them maybe a part. `refine` and `conf` change no file: with status 0
/// `out` took all their lines, put with one call, with 5 and 6 the first bytes of them or nothing.
///
/// In a phase the card and all actors run at once, each in a thread of its own where one can be made.
/// `gates` are at least 128: the first 64 are the clients', by the numbers of their lines, and the ones
/// after them the readers'. Each actor asks its own gate before each of its steps, with status 0 as often as
/// its run counts, but for further exchanges. A gate may stop its actor at any step; what the actor placed or
/// recorded by then is in the files and in the report.
pub fn dmixlab<R: Threads + Sync, S: Shelf, K: Sink, E: Sink, G: Gate + Send>(
    rt: &R,
    alloc: Global,
    words: &[Vec<u8>],
    shelf: &mut S,
    out: &mut K,
    errors: &mut E,
    gates: &mut [G],
) -> u8
    requires { 128 ≤ length gates.old }

    // With status 0 the files and the text on `out` are those of a run of what the words name, in which each
    // gate stopped its actor at most so often.
    ensures headline { result ≡ 0 → Headline (texts words.now)
        (rises (stops_by G.stops gates.old) (stops_by G.stops gates.new))
        (S.files shelf.old) (S.files shelf.new) (K.taken out.old) (K.taken out.new) }

    // It is a run in which the gate of each client and reader was asked as often as the run counts, but for
    // further exchanges; the other commands ask no gate.
    ensures asked { result ≡ 0 → AskedIn G.asked gates.old gates.new (form_of (texts words.now))
        (rises (stops_by G.stops gates.old) (stops_by G.stops gates.new))
        (S.files shelf.old) (S.files shelf.new) (K.taken out.old) (K.taken out.new) }

    // Where no gate stopped an actor and no phase is mixed, they are the only ones.
    ensures exact { result ≡ 0 → IsOnlyLeft (texts words.now)
        (rises (stops_by G.stops gates.old) (stops_by G.stops gates.new))
        (S.files shelf.old) (S.files shelf.new) (K.taken out.old) (K.taken out.new) }

    // When each status comes.
    ensures statuses { result ≤ most_status (form_of (texts words.now)) }
    ensures words { (result ≡ 1) ↔ (form_of (texts words.now) ≡ None) }
    ensures script { ForSome (S.files shelf.old)
        (λ files. ComesExactly 2 result (Rose (S.fetch_faults shelf.old) (S.fetch_faults shelf.new))
        (IsTextRefused (texts words.now) files)) }
    ensures wav { ForSome (S.files shelf.old)
        (λ files. ComesExactly 3 result (Rose (S.fetch_faults shelf.old) (S.fetch_faults shelf.new))
        (IsWavRefused (texts words.now) files)) }
    ensures no { ForSome (S.files shelf.old)
        (λ files. ComesExactly 7 result (Rose (S.fetch_faults shelf.old) (S.fetch_faults shelf.new))
        (IsNoRun (texts words.now) files)) }
    ensures read { result ≡ 4 → Rose (S.fetch_faults shelf.old) (S.fetch_faults shelf.new) }
    ensures missing { ForSome (S.files shelf.old)
        (λ files. IsMissing (texts words.now) files → (result ≡ 4) ⊎ (result ≡ 6)) }
    ensures write { result ≡ 5 → Rose (S.write_faults shelf.old) (S.write_faults shelf.new)
        ⊎ Rose (K.faults out.old) (K.faults out.new) }

    // A fault of a file or of `out` is counted only where the status says so.
    ensures no_fetch_fault { result ≢ 4
        → S.fetch_faults shelf.new ≡ S.fetch_faults shelf.old }
    ensures no_write_fault { result ≢ 5
        → AreSameCounts (S.write_faults shelf.old) (S.write_faults shelf.new)
        (K.faults out.old) (K.faults out.new) }

    // Valid input is done where nothing fails, or the status is 6.
    ensures complete { ForSome (S.files shelf.old) (λ files. IsValidCall (texts words.now) files
        → ¬ Rose (S.fetch_faults shelf.old) (S.fetch_faults shelf.new)
        → ¬ Rose (S.write_faults shelf.old) (S.write_faults shelf.new)
        → ¬ Rose (K.faults out.old) (K.faults out.new)
        → (result ≡ 0) ⊎ (result ≡ 6)) }

    // Over a reliable shelf and a reliable `out` nothing fails but by a missing file or want of memory.
    ensures reliable { S.is_reliable shelf.old → K.is_reliable out.old
        → ForSome (S.files shelf.old) (λ files. EndsWell result (texts words.now) files) }

    // What is left after another status; what the card of a run had played is the mix of the segments so far. Where no gate stopped an actor and no phase is
    // mixed, it is the first part of what is left with status 0.
    ensures rest { result ≢ 0 → IsLeftByFault result (texts words.now)
        (rises (stops_by G.stops gates.old) (stops_by G.stops gates.new))
        (S.files shelf.old) (S.files shelf.new) (K.taken out.old) (K.taken out.new) }

    // `errors` takes nothing where all was done, and else the line that says why not.
    ensures silent { result ≡ 0 → E.taken errors.new ≡ E.taken errors.old }
    ensures line { result ≢ 0 → SaysWhy (S.is_reliable shelf.old × K.is_reliable out.old) result
        (texts words.now) (S.files shelf.old) (E.taken errors.old) (E.taken errors.new) }
{
    scripts_have_one_session();
    let end = command(rt, alloc, words, shelf, out, gates);
    put_reason(alloc, errors, &end);
    status(&end)
}

/// Puts the line that says why a command stopped, if it did.
fn put_reason<E: Sink>(alloc: Global, errors: &mut E, end: &Result<(), Stop>)
    ensures silent { OnOk end.now (E.taken errors.new ≡ E.taken errors.old) }
    ensures line { IfErr end.now
        (λ stop. TookPart (E.taken errors.old) (E.taken errors.new) (stop_line stop)) }
{
    match end {
        Ok(()) => (),
        Err(stop) => tell(alloc, errors, stop),
    }
}

/// Does what the words ask for.
fn command<R: Threads + Sync, S: Shelf, K: Sink, G: Gate + Send>(
    rt: &R,
    alloc: Global,
    words: &[Vec<u8>],
    shelf: &mut S,
    out: &mut K,
    gates: &mut [G],
) -> Result<(), Stop>
    requires { 128 ≤ length gates.old }
    ensures leaves { CommandLeaves result (form_of (texts words.now))
        (rises (stops_by G.stops gates.old) (stops_by G.stops gates.new))
        (S.files shelf.old) (S.files shelf.new) (K.taken out.old) (K.taken out.new) }
    ensures asked { OnOk result (AskedIn G.asked gates.old gates.new (form_of (texts words.now))
        (rises (stops_by G.stops gates.old) (stops_by G.stops gates.new))
        (S.files shelf.old) (S.files shelf.new) (K.taken out.old) (K.taken out.new)) }
    ensures cause { ForSome (S.files shelf.old)
        (λ files. EndsOf result (cause_in (form_of (texts words.now)) files)) }
    ensures reliable { S.is_reliable shelf.old → K.is_reliable out.old → ForSome (S.files shelf.old)
        (λ files. EndsReliably result (cause_in (form_of (texts words.now)) files)) }
    ensures statuses { status_of result ≤ most_status (form_of (texts words.now)) }
    ensures words { Refuses result (form_of (texts words.now)) }
    ensures reads { InputFaults result (S.fetch_faults shelf.old) (S.fetch_faults shelf.new) }
    ensures writes { OutputFaults result (S.write_faults shelf.old) (S.write_faults shelf.new)
        (K.faults out.old) (K.faults out.new) }
{
    match read_command(words) {
        Some(Command::Run { script, out: name }) => {
            run_command(rt, alloc, shelf, out, gates, script, name)
        }
        Some(
            Command::Check {
                script,
                report,
                out: name,
            },
        ) => check_command(alloc, shelf, script, report, name),
        Some(Command::Refine { text }) => refine_command(alloc, shelf, out, text),
        Some(Command::Conf { file, name }) => conf_command(alloc, shelf, out, file, name),
        Some(Command::Make(workload)) => { make_command(rt, alloc, shelf, out, gates, &workload) }
        Some(Command::Help) => put(out, help()),
        Some(Command::Version) => put(out, version()),
        None => Err(Stop::Words),
    }
}
