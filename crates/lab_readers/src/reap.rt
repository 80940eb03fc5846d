//! The readers that were stopped in a phase are closed after it.
ghost use Rattle.std.specs.Prelude.{All};
ghost use Rattle.lab_actors.specs.Walks.{AreEach};
ghost use Rattle.lab_readers.specs.AtStage.{IsLaterSpare, IsOfRing};
ghost use Rattle.lab_readers.specs.Steps.{IsReaped};

use crate::reader::LabReader;
use crate::readers::LabReaders;
use snoop_table::ReaderSeat;

impl LabReaders<'_> {
    ghost use Rattle.std.specs.Prelude.{List, Option, map};
    ghost use Rattle.wav_io.specs.Sound.{Sound};
    ghost use Rattle.lab_run.specs.Items.{reaped_reader};
    ghost use Rattle.lab_run.specs.Reader.{Reader};
    ghost use Rattle.lab_run.specs.Rules.{AtPort};
    ghost use Rattle.lab_run.specs.Stage.{Session};
    ghost use Rattle.lab_readers.specs.AtStage.{AreAt, AreDone, AreOfRing};
    ghost use Rattle.lab_readers.specs.Steps.{AreReaped};

    /// Closes each that was stopped, by its gate or by a `die`, at the end of a phase; the spare seat takes over all that its seat has got.
    ///
    /// After the lines of a phase they are then the readers of a run at the end of it.
    ///
    /// The caller has readers that did their lines of a run's phase (`AreOfRing-done`).
    pub fn reap(&mut self)
        requires { AreOfRing self.old }
        ensures each { AreReaped self.old self.new }
        ensures reaped { (session : Session) (capture : Option Sound)
            (xs : List (AtPort × Reader)) →
            AreDone session capture xs self.old →
            AreAt session capture (map (reaped_reader session.ring) xs) self.new }
    {
        self.close_stopped();
    }

    fn close_stopped(&mut self)
        requires { AreOfRing self.old }
        ensures { AreReaped self.old self.new }
    {
        reap_readers(self.readers.as_mut_slice(), &mut self.seat);
    }
}

/// Closes a reader if it was stopped; the spare seat takes its seat over.
fn reap_reader(reader: &mut LabReader<'_>, spare: &mut ReaderSeat<'_>)
    requires { IsOfRing spare.old reader.old }
    ensures reaped { IsReaped spare.new 0 reader.old reader.new }
    ensures spare { IsLaterSpare spare.old spare.new }
{
    if reader.is_stopped() {
        let seat = reader.close();
        spare.join(seat);
    }
}

/// Closes each reader that was stopped; the spare seat takes their seats over.
fn reap_readers(readers: &mut [LabReader<'_>], spare: &mut ReaderSeat<'_>)
    requires { All (IsOfRing spare.old) readers.old }
    ensures reaped { AreEach (IsReaped spare.new) 0 readers.old readers.new }
    ensures spare { IsLaterSpare spare.old spare.new }
{
    for index in 0..readers.len() {
        reap_reader(&mut readers[index], spare);
    }
}
