//! Closings of readers, between two phases.
ghost use Rattle.lab_readers.specs.OneReader.{reader_in};
ghost use Rattle.lab_readers.specs.AtStage.{IsLaterSpare, IsOfRing};
ghost use Rattle.lab_readers.specs.Opening.{HasClosing};

use crate::reader::LabReader;
use crate::readers::LabReaders;
use lab_lines::{Answer, Op, Row};
use pcm_states::State;
use snd_base::PcmError;
use snoop_table::ReaderSeat;

/// Closes a reader, and gives its row; the spare seat takes its seat over. One that isn't open is refused, with `BadState` (EBADFD).
fn close_reader(reader: &mut LabReader<'_>, spare: &mut ReaderSeat<'_>, phase: u32) -> Row
    requires { IsOfRing spare.old reader.old }
    ensures closing { HasClosing spare.new phase reader.old reader.new result
        (reader_in reader.old).own }
    ensures spare { IsLaterSpare spare.old spare.new }
{
    if !reader.is_open() {
        return reader.row(phase, Op::Closes, Answer::Failed(PcmError::BadState));
    }
    let row = reader.row(phase, Op::Closes, Answer::Done);
    let seat = reader.close();
    spare.join(seat);
    Row {
        state: State::Open,
        ..row
    }
}

impl<'r> LabReaders<'r> {
    ghost use Rattle.std.specs.Prelude.{◌≡◌, ◌<◌, Option, length};
    ghost use Rattle.wav_io.specs.Sound.{Sound};
    ghost use Rattle.lab_lines.specs.declared.line.Actor.TheVariants as actor;
    ghost use Rattle.lab_run.specs.Reader.{Reader};
    ghost use Rattle.lab_run.specs.Stage.{Session, Stage, after_close};
    ghost use Rattle.lab_readers.specs.AtStage.{AreAfter, AreOfRing, IsLaterSpare, readers_of, spare_of};
    ghost use Rattle.lab_readers.specs.Opening.{IsItemAt};

    /// Does the item of a script that closes the reader of a number, after so many phases, and gives its row; the spare seat takes over all
    /// that its seat has got, and what it recorded stays. One that isn't open is refused, with `BadState` (EBADFD). It takes no memory.
    ///
    /// The caller has a reader of the number (`len`), and readers of a run (`AreOfRing-at`).
    pub fn close(&mut self, number: u32, phase: u32) -> Row
        requires number { number < length (readers_of self.old) }
        requires rings { AreOfRing self.old }
        ensures after { (session : Session) (capture : Option Sound) (stage : Stage) →
            IsItemAt session capture stage phase self.old →
            AreAfter session capture stage (after_close session stage (actor.Reader number)) result
            self.new }
        ensures spare { IsLaterSpare (spare_of self.old) (spare_of self.new) }
        ensures count { length (readers_of self.new) ≡ length (readers_of self.old) }
    {
        close_reader(&mut self.readers[number as usize], &mut self.seat, phase)
    }
}
