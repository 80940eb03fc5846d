//! The laws of what actors do in a run: facts for contracts.
ghost use Rattle.std.specs.Prelude.{List, Option, ℕ, ℤ};
ghost use Rattle.snd_base.specs.declared.places.Cursor.{Cursor};
ghost use Rattle.wav_io.specs.Sound.{Sound};
ghost use Rattle.dmix_client.specs.declared.stream.PlaybackStream.{PlaybackStream};
ghost use Rattle.dsnoop_client.specs.declared.stream.CaptureStream as reading;
ghost use Rattle.lab_lines.specs.declared.line.Item.{Item};
ghost use Rattle.lab_run.specs.Alike.{CallsAreAlike, ReadsAreAlike, SameFrom};
ghost use Rattle.lab_run.specs.Items.{ItemsMay};
ghost use Rattle.lab_run.specs.LabRun.{CanGoOn};
ghost use Rattle.lab_run.specs.OwnRows.{AreAlone};
ghost use Rattle.run_laws.specs.LateRows.{LateRewindsNameLast, LateRowsNameNext};
ghost use Rattle.lab_run.specs.Rules.{Rules};
ghost use Rattle.run_laws.specs.Slices.{LinesGetSlices, ReadersReadOn};
ghost use Rattle.lab_run.specs.Stage.{Session, Stage, first_stage};
ghost use Rattle.lab_run.specs.Stretches.{ReadersReadInSlices};

/// In the run that `lab_run::one_run` names the rows and segments of a client, and the rows and runs
/// of a reader, are those that it has by itself: they follow from the card's lines, its own lines and
/// file, and the answers of its own opens.
///
/// It does nothing.
pub fn actors_are_alone()
    ensures { (session : Session) (capture : Option Sound) (body : List Item) →
        AreAlone session capture body }
{}

/// Each stage that the first items of a body may reach is one from which the others can go on.
///
/// It does nothing.
pub fn runs_go_on()
    ensures { (session : Session) (done others : List Item) (stage : Stage) →
        ItemsMay session (first_stage session) done stage → CanGoOn session done others stage }
{}

/// Each call of a client and of a reader is the course of it in a run, but for the samples that it
/// places and the words that it finds, and of a client with whichever member; and it is that at a port
/// which others used before, where its marks are the same from a frame on.
///
/// It does nothing.
pub fn calls_are_alike()
    ensures clients { (from member : ℕ) (c : PlaybackStream) (ring : List ℤ)
        (cursor other floor lower : Cursor) → SameFrom from cursor other →
        SameFrom from floor lower → CallsAreAlike from member c ring cursor other floor lower }
    ensures readers { (r : reading.CaptureStream) → ReadsAreAlike r }
{}

/// The frames that a line of a reader gets are one slice. While the reader runs, each line's slice
/// begins where the last one ended, until a line that is answered by an xrun or by a card that is
/// gone, or a drop. So over a whole run the frames of a stretch are one slice, and a stretch ends
/// only at an xrun, a drop, a close, or where the reader was stopped.
///
/// It does nothing.
pub fn readers_read_on()
    ensures slices { (rules : Rules) (phase number : ℕ) → LinesGetSlices rules phase number }
    ensures goes_on { (rules : Rules) (phase number : ℕ) → ReadersReadOn rules phase number }
    ensures runs { (session : Session) (capture : Option Sound) (body : List Item) →
        ReadersReadInSlices session capture body }
{}

/// A row of a client that is answered late names the frame and channel of the first sample of its
/// stretch that isn't placed; where it is of a rewind it names the last one, which the rewind
/// couldn't take back.
///
/// It does nothing.
pub fn late_rows_name_samples()
    ensures next { (rules : Rules) (phase : ℕ) (wav : Sound) (number : ℕ) →
        LateRowsNameNext rules phase wav number }
    ensures last { (rules : Rules) (phase : ℕ) (wav : Sound) (number : ℕ) →
        LateRewindsNameLast rules phase wav number }
{}
