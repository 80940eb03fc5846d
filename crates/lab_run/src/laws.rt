//! The laws of runs: facts for contracts.
ghost use Rattle.std.specs.Prelude.{Bool, List, Option, ℕ};
ghost use Rattle.snd_base.specs.declared.geometry.Geometry.{Geometry};
ghost use Rattle.lab_run.specs.ClientAtPort.{ClientLinesAreParts, ClientLinesWithoutCall};
ghost use Rattle.lab_run.specs.Members.{MembersAreUnreported, MembersLayAlike};
ghost use Rattle.lab_run.specs.PortSteps.{CountsDown, HasOwnLast, MarksAlike};
ghost use Rattle.mix_core.specs.declared.marks.Marks.{Marks};
ghost use Rattle.wav_io.specs.Sound.{Sound};
ghost use Rattle.lab_lines.specs.declared.line.Actor.{Actor};
ghost use Rattle.lab_lines.specs.declared.line.Item.{Item};
ghost use Rattle.lab_lines.specs.declared.script.Script.{Script};
ghost use Rattle.lab_lines.specs.Limits.{IsScript};
ghost use Rattle.dshare.specs.Owners as owners;
ghost use Rattle.lab_run.specs.ActorPart.{PartsAreRuns, PartsGrow};
ghost use Rattle.lab_run.specs.Claims.{ClaimIsOwners};
ghost use Rattle.lab_run.specs.Client.{client_kind};
ghost use Rattle.lab_run.specs.LabRun.{IsOneRun};
ghost use Rattle.lab_run.specs.OwnRows.{HaveLines};
ghost use Rattle.lab_run.specs.Reader.{reader_kind};
ghost use Rattle.lab_run.specs.ReaderAtPort.{ReaderLinesAreParts, ReaderLinesWithoutCall};
ghost use Rattle.lab_run.specs.ReportSize.{StagesAreWithinRows};
ghost use Rattle.lab_run.specs.Rules.{Rules};
ghost use Rattle.lab_run.specs.ScriptWords.{PhasesAreOfScripts, StagesAreOfScripts};
ghost use Rattle.lab_run.specs.Stage.{Session};

use mix_core::{Gate, MixPort};
use snoop_core::SnoopPort;

/// Each script has the run in which each load gives the position at its phase's end, and a frame is
/// in time exactly where it isn't below that. Where no phase is mixed and no actor's own gate stops
/// it, it has no other.
///
/// It does nothing.
pub fn one_run()
    ensures { (session : Session) (capture : Option Sound) (body : List Item) →
        IsOneRun session capture body }
{}

/// A client at a place has the place's number as member, and in a run it has its own. It is opened
/// the same with either, a report has the same of it, and what it places has the same frames, channels
/// and samples.
///
/// It does nothing.
pub fn members_are_unreported()
    ensures reports { (member : ℕ) → MembersAreUnreported member }
    ensures entries { (member other : ℕ) → MembersLayAlike member other }
{}

/// At a port which others used up to a frame, the last frame that was placed is an actor's own, or,
/// where it placed none, the last one before it. So an actor's own is the port's, unless that is
/// below the frame. This stays from phase to phase.
///
/// It does nothing.
pub fn last_frames_are_own()
    ensures { (ring : Geometry) (from : ℕ) (before own port : Marks) →
        MarksAlike ring from before.high own port → HasOwnLast ring from before own port }
{}

/// An actor's part in a phase, which speaks of no other actor and not of the card, is what the
/// phase allows to it, once it is known that each position that it loaded was published, and that
/// the card took each frame that was late and stored over each that was overtaken.
///
/// It does nothing.
pub fn parts_are_runs()
    ensures clients { (phase : ℕ) (wav : Sound) (number : ℕ) (rules : Rules) →
        PartsAreRuns (client_kind phase wav number) rules }
    ensures readers { (phase number : ℕ) (rules : Rules) →
        PartsAreRuns (reader_kind phase number) rules }
{}

/// A part grows by each further line that is done, with its row.
///
/// It does nothing.
pub fn parts_grow()
    ensures clients { (ring : Geometry) (phase : ℕ) (wav : Sound) (number : ℕ) →
        PartsGrow (client_kind phase wav number) ring }
    ensures readers { (ring : Geometry) (phase number : ℕ) →
        PartsGrow (reader_kind phase number) ring }
{}

/// The lines that make no call are done without a step: each is refused, but a `die`, from which on
/// so many asks pass.
///
/// It does nothing.
pub fn lines_without_calls()
    ensures clients { (ring : Geometry) (phase : ℕ) (wav : Sound) (number : ℕ) →
        ClientLinesWithoutCall ring phase wav number }
    ensures readers { (ring : Geometry) (phase number : ℕ) →
        ReaderLinesWithoutCall ring phase number }
{}

/// A claim of a card's channels is granted exactly where they have no owner and are silent.
///
/// It does nothing.
pub fn claims_are_of_owners()
    ensures { (claims : List owners.ClaimRow) (channels : List ℕ) (position : ℕ) →
        ClaimIsOwners claims channels position }
{}

/// Each line of an open client that a port and a gate that counts asks down took, with its samples,
/// the words that it found and the member of its seat, is a part of that client, whose member is
/// its own number.
///
/// It does nothing.
pub fn client_lines_are_parts<P: MixPort, G: Gate>()
    ensures { (left : G → Option ℕ) (by_gate at_gate : G → ℕ)
        (first : P) (ring : Geometry) (from : ℕ) → CountsDown G.asked left by_gate at_gate →
        ClientLinesAreParts P.MixPort G.Gate left by_gate at_gate first ring from }
{}

/// Each line of an open reader that a port of captured frames and a gate that counts asks down took
/// is a part of that reader.
///
/// It does nothing.
pub fn reader_lines_are_parts<P: SnoopPort, G: Gate>()
    ensures { (left : G → Option ℕ) (by_gate at_gate : G → ℕ) (first : P) (ring : Geometry) →
        CountsDown G.asked left by_gate at_gate →
        ReaderLinesAreParts P.SnoopPort G.Gate left by_gate at_gate first ring }
{}

/// A stage of a run of a script is where the script has it after as many phases; and what the next
/// phase allows is what the script has of that phase: its end, whether the card is gone, and the
/// positions that the card publishes. No line of a phase opens an actor.
///
/// It does nothing.
pub fn runs_are_of_scripts()
    ensures stages { StagesAreOfScripts }
    ensures phases { PhasesAreOfScripts }
    ensures lines { (script : Script) (is_theirs : Actor → Bool) →
        IsScript script → HaveLines is_theirs script.body }
{}

/// A report has no more segments than rows, and no more runs than rows: each line has a row, and
/// its actor has at most one segment or one run more after it. What opens, closes or stops an actor
/// makes none.
///
/// It does nothing.
pub fn reports_are_within_rows()
    ensures { StagesAreWithinRows }
{}
