//! Openings of readers, between two phases.
ghost use Rattle.std.specs.Prelude.{◌≡◌, IfErr, IfOk, IfSome, OnErr};
ghost use Rattle.std.specs.Option.{option_copied};
ghost use Rattle.snoop_table.specs.Readers.{geometry_of as geometry_of_seat};
ghost use Rattle.lab_card.specs.Meets.{IsSameReader};
ghost use Rattle.lab_actors.specs.Usable.{IsUsable};
ghost use Rattle.lab_readers.specs.OneReader.{reader_in};
ghost use Rattle.lab_readers.specs.Opening.{HasOpening};

use crate::reader::LabReader;
use crate::readers::LabReaders;
use lab_actors::Opening;
use lab_lines::{Answer, Op, Row};
use snd_base::{PcmError, Why};
use snoop_table::ReaderSeat;
use std::alloc::Global;

/// Opens a reader at a new seat, and gives its row. One that is open is refused, with `BadState` (EBADFD), and so is one that can't be
/// opened, with `Invalid` (EINVAL). It fails, with `Memory`, only where no memory is left.
fn open_reader<'r>(
    alloc: Global,
    reader: &mut LabReader<'r>,
    spare: &mut ReaderSeat<'r>,
    opening: Option<&Opening>,
    phase: u32,
) -> Result<Row, PcmError>
    requires { let ring = geometry_of_seat spare.old in
        IfSome (option_copied opening) (IsUsable ring.channels ring.frames) }
    ensures opening { IfOk result (λ row. HasOpening spare.old phase reader.old reader.new row
        (reader_in reader.old).own (option_copied opening.entry)) }
    ensures same { OnErr result (reader.new ≡ reader.old) }
    ensures spare { IsSameReader spare.old spare.new }
    ensures only { IfErr result (λ e. e ≡ PcmError.Memory) }
{
    if reader.is_open() {
        return Ok(reader.row(phase, Op::Opens, Answer::Failed(PcmError::BadState)));
    }
    let Some(opening) = opening else {
        let refusal = PcmError::Invalid(Why::Config);
        return Ok(reader.row(phase, Op::Opens, Answer::Failed(refusal)));
    };
    reader.open(alloc, spare.split(), opening)?;
    Ok(reader.row(phase, Op::Opens, Answer::Done))
}

impl<'r> LabReaders<'r> {
    ghost use Rattle.std.specs.Prelude.{◌≡◌, ◌<◌, IfErr, IfOk, IfSome, List, None, OnErr, Option, length, slice_index_or};
    ghost use Rattle.std.specs.Option.{option_copied};
    ghost use Rattle.snoop_table.specs.Readers.{SameReader};
    ghost use Rattle.wav_io.specs.Sound.{Sound};
    ghost use Rattle.lab_lines.specs.declared.line.Actor.TheVariants as actor;
    ghost use Rattle.lab_run.specs.Reader.{Reader};
    ghost use Rattle.lab_run.specs.Rules.{AtPort};
    ghost use Rattle.lab_run.specs.Stage.{Session, Stage, after_open};
    ghost use Rattle.lab_actors.specs.Usable.{IsUsable};
    ghost use Rattle.lab_readers.specs.AtStage.{AreAfter, AreAt, geometry_of, readers_of, spare_of};
    ghost use Rattle.lab_readers.specs.Opening.{IsItemAt};

    /// Does the item of a script that opens the reader of a number, after so many phases, and gives its row: one that is open is refused,
    /// with `BadState` (EBADFD), and so is one without an opening, with `Invalid` (EINVAL). It fails, with `Memory`, only where no memory
    /// is left; the readers are as before then.
    ///
    /// The caller has a reader of the number (`len`), and an opening that fits the ring.
    pub fn open(
        &mut self,
        alloc: Global,
        number: u32,
        opening: Option<&Opening>,
        phase: u32,
    ) -> Result<Row, PcmError>
        requires number { number < length (readers_of self.old) }
        requires usable { let ring = geometry_of self.old in
            IfSome (option_copied opening) (IsUsable ring.channels ring.frames) }
        ensures after { IfOk result (λ row.
            (session : Session) (capture : Option Sound) (stage : Stage) →
            IsItemAt session capture stage phase self.old →
            slice_index_or session.readers number None ≡ option_copied opening.entry →
            AreAfter session capture stage (after_open session stage (actor.Reader number)) row
            self.new) }
        ensures same { OnErr result (
            (session : Session) (capture : Option Sound) (xs : List (AtPort × Reader)) →
            AreAt session capture xs self.old → AreAt session capture xs self.new) }
        ensures card { SameReader (spare_of self.old) (spare_of self.new) }
        ensures count { length (readers_of self.new) ≡ length (readers_of self.old) }
        ensures only { IfErr result (λ e. e ≡ PcmError.Memory) }
    {
        let index = number as usize;
        open_reader(
            alloc,
            &mut self.readers[index],
            &mut self.seat,
            opening,
            phase,
        )
    }
}
