//! The laws of what runs leave: facts for contracts.
ghost use Rattle.run_laws.specs.Captured.{ReadersCapture};
ghost use Rattle.run_laws.specs.Reports.{OutcomesAreOfScripts, StagesAreReported};
ghost use Rattle.run_laws.specs.Sizes.{StagesHaveSizes};

/// At each stage of a run of a script the rows are those of the lines that are done, in the order of a report, and each can be
/// printed: its actor is of the script, and its answer and its state have a text. The segments and runs so far are of the
/// script's clients and readers.
///
/// It does nothing.
pub fn stages_have_rows()
    ensures { StagesAreReported }
{}

/// At each stage of a run of a script the samples so far are whole frames, few enough for a WAV file: those that the card
/// played, one for each channel of each frame, at most 4,194,304 frames; and those of each reader, in the channels of its
/// line, no more frames than the card played.
///
/// It does nothing.
pub fn stages_have_sizes()
    ensures { StagesHaveSizes }
{}

/// What a run of a script leaves is of that script: a report that `lab_report::print_report` takes, and samples that fit WAV
/// files.
///
/// It does nothing.
pub fn outcomes_are_of_scripts()
    ensures { OutcomesAreOfScripts }
{}

/// The frames of each reader of a run are frames that the card captured in it: each is above the one before it, over all of the
/// reader's stretches. So its runs in the report rise, and two of them aren't one.
///
/// It does nothing.
pub fn readers_capture_frames()
    ensures { ReadersCapture }
{}
