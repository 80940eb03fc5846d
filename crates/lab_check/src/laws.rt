//! What a checked run shows, and what comparing pieces of a file tells: facts for contracts.
ghost use Rattle.std.specs.Prelude.{List, Option, ℕ};
ghost use Rattle.wav_io.specs.Sound.{Sound};
ghost use Rattle.lab_lines.specs.declared.script.Script.{Script};
ghost use Rattle.lab_check.specs.Checked.{IsChecked};
ghost use Rattle.lab_check.specs.Pieces.{IsSameFile, IsSameUpTo};
ghost use Rattle.lab_check.specs.Runs.{RunsAreChecked, RunsSayHeadline, ShownRunsSayHeadline, UnlateRowsPass};
ghost use Rattle.lab_check.specs.Shown.{IsShown};

use run_laws::{runs_keep_headline, segments_are_of_files, unopened_readers_have_no_runs};

/// A run that is checked has what is said of a run, whoever made its files: each sample that was played is the saturated sum of
/// exactly the samples that the report's segments placed at its frame and channel, each of them once; a late row names a frame and
/// channel at which its client placed nothing, or, of a rewind, something; and each reader recorded the captured frames of its
/// runs, one slice in each stretch.
///
/// It does nothing.
pub fn checked_runs_show()
    ensures { (script : Script) (wavs : List Sound) (capture : Option Sound) (text : List ℕ)
        (files : List (List ℕ)) → IsChecked script wavs capture text files →
        IsShown script wavs capture text files }
{}

/// What a run leaves is a checked run: its report's text and the canonical files of its samples, where the text isn't too long and
/// the late rows pass their test. That asks of a late row that no segment of its client has a sample at the place that the row
/// names, where a run promises it of the row's stretch: so a client that was opened before, and has samples there from then, may
/// fail it. No row fails it where none is late. The report's numbers are within their types, as those of each report that a program
/// has are (`lab_report::numbers_are_in_range`).
///
/// Each run says the headline by its script, its files and its report alone.
///
/// It does nothing.
pub fn runs_are_checked()
    ensures checked { RunsAreChecked }
    ensures headline { RunsSayHeadline }
    ensures unlate { UnlateRowsPass }
{
    runs_keep_headline();
    segments_are_of_files();
    unopened_readers_have_no_runs();
}

/// What a check shows says the same headline as a run.
///
/// It does nothing.
pub fn shown_runs_say_headline()
    ensures { ShownRunsSayHeadline }
{}

/// A file that is compared with another piece by piece is that one exactly where each piece is, and there is no byte behind the
/// last one. So no more of it has to be fetched than one byte more than the other has.
///
/// It does nothing.
pub fn pieces_tell_files()
    ensures pieces { (content expected : List ℕ) (from most : ℕ) →
        IsSameUpTo content expected from most }
    ensures whole { (content expected : List ℕ) → IsSameFile content expected }
{}
