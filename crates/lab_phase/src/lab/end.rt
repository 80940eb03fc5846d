//! The end of a run, which takes the lab apart.
use crate::finish::{Outcome, close_rings, frames_of, report_of};
use crate::lab::Lab;
use crate::report_room::ReportRoom;
use lab_card::CardActor;
use lab_run::{one_run, reports_are_within_rows};

impl<'r> Lab<'r, '_> {
    ghost use Rattle.std.specs.Prelude.{◌≡◌};
    ghost use Rattle.lab_run.specs.LabRun.{IsOneRun};
    ghost use Rattle.lab_phase.specs.AtStage.{IsLab, capture_of, played_of, session_of};
    ghost use Rattle.lab_phase.specs.Ended.{HasPlayedMix, IsAtEnd, IsMixAtStage, LeavesOneRun, LeavesRun, LeavesStage};

    /// Ends the run: closes what is still open and both rings, and gives the report with all segments and runs, what the card played and
    /// what each reader recorded. The card played the mix of all that the clients' seats placed, which is seat by seat what the segments
    /// say. Where no phase is mixed and no actor's own gate stopped it, the script has no other run. It takes no memory.
    ///
    /// The caller has done all items of the script's body.
    pub fn finish(self) -> Outcome
        requires at { IsLab self }
        requires end { IsAtEnd self }
        ensures stage { LeavesStage self.entry result }
        ensures run { LeavesRun self.entry result }
        ensures one { IsOneRun (session_of self.entry) (capture_of self.entry)
            self.entry.script.now.body }
        ensures exact { LeavesOneRun self.entry result }
        ensures placed { IsMixAtStage self.entry }
        ensures played { result.played.items ≡ played_of self.entry }
        ensures mix { HasPlayedMix self.entry }
    {
        one_run();
        reports_are_within_rows();
        let Lab {
            alloc: _,
            script: _,
            wavs: _,
            capture: _,
            openings: _,
            card,
            clients,
            readers,
            rows,
            room,
            phases: _,
            next: _,
        } = self;
        let ReportRoom {
            mut segments,
            mut runs,
            mut recorded,
        } = room;
        clients.segments_into(&mut segments);
        readers.runs_into(&mut runs);
        readers.recorded_into(&mut recorded);
        let CardActor {
            card,
            played,
            rows: _,
            captured: _,
        } = card.unwrap();
        let (first, frames) = frames_of(&card);
        close_rings(clients, card);
        let report = report_of(rows, segments, runs, first, frames);
        Outcome {
            report,
            played,
            recorded,
        }
    }

    /// Ends the run before its script's end: closes what is still open and both rings. Only closed rings show that the card played the
    /// mix of the segments so far. It takes no memory.
    pub fn stop(self)
        requires at { IsLab self }
        ensures mix { HasPlayedMix self.entry }
    {
        let Lab {
            alloc: _,
            script: _,
            wavs: _,
            capture: _,
            openings: _,
            card,
            clients,
            readers: _,
            rows: _,
            room: _,
            phases: _,
            next: _,
        } = self;
        let CardActor {
            card,
            played: _,
            rows: _,
            captured: _,
        } = card.unwrap();
        close_rings(clients, card);
    }
}
