//! The laws of reports and files: facts for contracts.
ghost use Rattle.std.specs.Prelude.{◌≡◌, List, [], ◌∷◌, Option, ℕ, ℤ, pos};
ghost use Rattle.snd_base.specs.declared.places.Segment.{Segment};
ghost use Rattle.mix_core.specs.Laid.{total};
ghost use Rattle.wav_io.specs.Sound.{Sound};
ghost use Rattle.lab_lines.specs.declared.line.Item.{Item};
ghost use Rattle.lab_lines.specs.declared.script.Script.{Script};
ghost use Rattle.lab_lines.specs.declared.report.Report.{Report};
ghost use Rattle.lab_lines.specs.Limits.{IsScript};
ghost use Rattle.lab_run.specs.Items.{ItemsMay};
ghost use Rattle.lab_run.specs.LabRun.{LabRun, Outcome, runs_of};
ghost use Rattle.lab_run.specs.Openings.{IsSessionOf};
ghost use Rattle.lab_run.specs.OwnRows.{IsClientAlone};
ghost use Rattle.lab_run.specs.Stage.{Session, Stage, first_stage};
ghost use Rattle.run_laws.specs.Clients.{IsSumOfClients};
ghost use Rattle.run_laws.specs.Exact.{DoesTheSame, HasSameClient, IsExactRun, IsOwnRun, IsUnstoppedRun};
ghost use Rattle.run_laws.specs.Files.{IsMixOfFiles, IsPlacedFrom};
ghost use Rattle.run_laws.specs.Late.{LateLinesMiss, LateRowsMiss};
ghost use Rattle.run_laws.specs.Mix.{IsMixOf};
ghost use Rattle.run_laws.specs.Headline.{Headline};
ghost use Rattle.run_laws.specs.Once.{PlacesOnce};
ghost use Rattle.run_laws.specs.OneSample.{AreBound, AreSamples, HasOneSample, PlaysOneSample};
ghost use Rattle.run_laws.specs.OneSession.{HaveOneSession};
ghost use Rattle.run_laws.specs.Played.{PlayedStays};
ghost use Rattle.run_laws.specs.Recordings.{AreRecordingsOf, UnopenedHaveNoRuns, frames_of_runs};
ghost use Rattle.run_laws.specs.Segments.{AreOfClients};
ghost use Rattle.run_laws.specs.Shares.{HaveOwnChannels};
ghost use Rattle.run_laws.specs.WorkedRows.{some_entries, two_runs};

use crate::actors::{actors_are_alone, late_rows_name_samples, readers_read_on};
use lab_run::{claims_are_of_owners, one_run, runs_are_of_scripts};

/// Each sample that the card played is the saturated sum of the samples that the report's segments
/// placed at its frame and channel, each of them once.
///
/// It does nothing.
pub fn runs_are_mixes()
    ensures { (session : Session) (capture : Option Sound) (body : List Item)
        (client_stops reader_stops : ℕ → ℕ) (outcome : Outcome) →
        LabRun session capture body client_stops reader_stops outcome →
        IsMixOf session outcome.report outcome.played }
{}

/// These samples are those of the clients' files from each segment's source frame on, through the
/// bindings of the clients' lines. So the played samples are sums of what the script and the files
/// say of the report's segments, and nothing else.
///
/// It does nothing.
pub fn runs_mix_files()
    ensures placed { (script : Script) (wavs : List Sound) (session : Session)
        (capture : Option Sound) (client_stops reader_stops : ℕ → ℕ) (outcome : Outcome) →
        IsSessionOf script wavs session →
        LabRun session capture script.body client_stops reader_stops outcome →
        IsPlacedFrom script wavs session outcome.report }
    ensures mix { (script : Script) (wavs : List Sound) (session : Session)
        (capture : Option Sound) (client_stops reader_stops : ℕ → ℕ) (outcome : Outcome) →
        IsSessionOf script wavs session →
        LabRun session capture script.body client_stops reader_stops outcome →
        IsMixOfFiles script wavs outcome.report outcome.played }
{}

/// A script and its clients' files have one session: what the card's ring is, and with what each
/// client and reader is opened, if it can be, is settled by them.
///
/// It does nothing.
pub fn scripts_have_one_session()
    ensures { (script : Script) (wavs : List Sound) → HaveOneSession script wavs }
{}

/// Where no phase is mixed and no actor's own gate stops it, the run is the only one.
///
/// It does nothing.
pub fn runs_are_exact()
    ensures { (session : Session) (capture : Option Sound) (body : List Item) (outcome : Outcome) →
        IsUnstoppedRun session capture body outcome → IsExactRun session capture body outcome }
{
    one_run();
}

/// Then each actor of the script does in it what it does by itself.
///
/// It does nothing.
pub fn actors_do_their_own()
    ensures { (script : Script) (wavs : List Sound) (session : Session) (capture : Option Sound)
        (outcome : Outcome) → IsScript script → IsSessionOf script wavs session →
        IsUnstoppedRun session capture script.body outcome → IsOwnRun script session outcome }
{
    one_run();
    actors_are_alone();
    runs_are_of_scripts();
}

/// So a client that two scripts have alike does the same in both, whatever the other clients are,
/// where its opens are answered the same.
///
/// It does nothing.
pub fn clients_are_isolated()
    ensures { (session : Session) (body : List Item) (report : Report) (other : Session)
        (other_body : List Item) (other_report : Report) (number : ℕ) →
        HasSameClient session body other other_body number →
        IsClientAlone session body report number →
        IsClientAlone other other_body other_report number →
        DoesTheSame report other_report number }
{}

/// Each reader's samples are the captured frames of its runs in the report, through its bindings,
/// and in each of its stretches the frames are one slice.
///
/// It does nothing.
pub fn runs_record_captures()
    ensures { (session : Session) (capture : Option Sound) (body : List Item)
        (client_stops reader_stops : ℕ → ℕ) (outcome : Outcome) →
        LabRun session capture body client_stops reader_stops outcome →
        AreRecordingsOf session capture outcome.report outcome.recorded }
{
    readers_read_on();
}

/// A reader that couldn't be opened has no runs in the report.
///
/// It does nothing.
pub fn unopened_readers_have_no_runs()
    ensures { (session : Session) (capture : Option Sound) (body : List Item)
        (client_stops reader_stops : ℕ → ℕ) (outcome : Outcome) →
        LabRun session capture body client_stops reader_stops outcome →
        UnopenedHaveNoRuns session outcome.report }
{}

/// What the report's segments placed is what each client placed, one client after the other: a
/// client that is stopped takes away nothing of another.
///
/// It does nothing.
pub fn mixes_are_of_clients()
    ensures { (session : Session) (capture : Option Sound) (body : List Item)
        (client_stops reader_stops : ℕ → ℕ) (outcome : Outcome) →
        LabRun session capture body client_stops reader_stops outcome →
        IsSumOfClients session outcome.report }
{}

/// Each line of a client that is answered late names a frame and channel at which its stretch has
/// placed no sample; a rewind names the last one that it couldn't take back. So does each row of a
/// report, which lists the segment of this stretch as it is after the line.
///
/// It does nothing.
pub fn late_rows_miss()
    ensures lines { (session : Session) (body : List Item) → LateLinesMiss session body }
    ensures rows { (session : Session) (capture : Option Sound) (body : List Item)
        (client_stops reader_stops : ℕ → ℕ) (outcome : Outcome) →
        LabRun session capture body client_stops reader_stops outcome →
        LateRowsMiss session body outcome.report }
{
    late_rows_name_samples();
}

/// A segment has at most one sample at each frame and channel of the card.
///
/// It does nothing.
pub fn segments_place_once()
    ensures { (number : ℕ) (segment : Segment) (samples : List ℤ) (bindings : List ℕ) →
        PlacesOnce number segment samples bindings }
{}

/// Each segment of a run's report is of a client with a line and a file: it has a sample, none of them before
/// the card's first frame, and the file has each frame of which it takes samples.
///
/// It does nothing.
pub fn segments_are_of_files()
    ensures { (script : Script) (wavs : List Sound) (session : Session) (capture : Option Sound)
        (client_stops reader_stops : ℕ → ℕ) (outcome : Outcome) → IsScript script →
        IsSessionOf script wavs session →
        LabRun session capture script.body client_stops reader_stops outcome →
        AreOfClients script wavs outcome.report }
{}

/// Where the card is shared by channels (dshare), clients that are open at a time have no channel
/// of the card in common.
///
/// It does nothing.
pub fn clients_have_own_channels()
    ensures { (session : Session) (done : List Item) (stage : Stage) →
        HaveOwnChannels session done stage }
{
    claims_are_of_owners();
}

/// Each client of a script is bound to 1 to 8 channels of the card, each to another one.
///
/// It does nothing.
pub fn scripts_bind_channels()
    ensures { (script : Script) (wavs : List Sound) (session : Session) → IsScript script →
        IsSessionOf script wavs session → AreBound session }
{}

/// So at most one sample is placed at each frame and channel, since of those who had a channel one after
/// the other, each ends before the next one begins: the sum there is that sample, or 0. Where the samples
/// of the clients' sounds have 16 bits, as those of WAV files have, it is played as it is, or silence.
///
/// It does nothing.
pub fn channels_have_one_sample()
    ensures placed { (script : Script) (wavs : List Sound) (session : Session) (capture : Option Sound)
        (client_stops reader_stops : ℕ → ℕ) (outcome : Outcome) →
        IsSessionOf script wavs session → AreBound session →
        LabRun session capture script.body client_stops reader_stops outcome →
        HasOneSample session outcome.report }
    ensures played { (script : Script) (wavs : List Sound) (session : Session) (capture : Option Sound)
        (client_stops reader_stops : ℕ → ℕ) (outcome : Outcome) →
        IsSessionOf script wavs session → AreBound session → AreSamples wavs →
        LabRun session capture script.body client_stops reader_stops outcome →
        PlaysOneSample session outcome }
{
    claims_are_of_owners();
}

/// What a card has played stays as it is: the mix of the segments so far, of the frames that are played
/// at a stage of a run, is the first part of that at each later stage. No line places a sample below
/// the card's position, or takes one back there.
///
/// It does nothing.
pub fn played_samples_stay()
    ensures { (session : Session) (done others : List Item) (stage later : Stage) →
        AreBound session → ItemsMay session (first_stage session) done stage →
        ItemsMay session stage others later → PlayedStays session stage later }
{}

/// Worked rows. A segment with one whole frame at 64 and a part of one channel, of a file whose two
/// channels go to the card's channels crosswise, places the file's samples 10 and 20 at frame 64,
/// and of 30 and 40 the one for the card's channel 0. The runs of 2 frames from 5 and of 1 frame
/// from 9 are the frames 5, 6 and 9.
///
/// It does nothing.
pub fn worked_rows()
    ensures first { total some_entries 64 0 ≡ pos 20 }
    ensures second { total some_entries 64 1 ≡ pos 10 }
    ensures part { total some_entries 65 0 ≡ pos 40 }
    ensures behind { total some_entries 65 1 ≡ pos 0 }
    ensures runs { frames_of_runs two_runs ≡ 5 ∷ 6 ∷ 9 ∷ [] }
    ensures joined { runs_of (5 ∷ 6 ∷ 9 ∷ []) ≡ two_runs }
{}

/// What a run of a script says, all in all: the mix, each client's samples in it, the late rows, the
/// recordings, and that clients which share the card by channels place one sample at a place, which is
/// played as it is.
///
/// It does nothing.
pub fn runs_keep_headline()
    ensures headline { (script : Script) (wavs : List Sound) (session : Session) (capture : Option Sound)
        (client_stops reader_stops : ℕ → ℕ) (outcome : Outcome) → IsScript script →
        IsSessionOf script wavs session →
        LabRun session capture script.body client_stops reader_stops outcome →
        Headline script wavs session capture outcome }
    ensures one { (script : Script) (wavs : List Sound) (session : Session) (capture : Option Sound)
        (client_stops reader_stops : ℕ → ℕ) (outcome : Outcome) → IsScript script →
        IsSessionOf script wavs session → AreSamples wavs →
        LabRun session capture script.body client_stops reader_stops outcome →
        PlaysOneSample session outcome }
{
    runs_mix_files();
    mixes_are_of_clients();
    late_rows_miss();
    runs_record_captures();
    scripts_bind_channels();
    channels_have_one_sample();
}
