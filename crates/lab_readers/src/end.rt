//! The readers at the beginning of a run, and what they recorded at its end.
ghost use Rattle.std.specs.Prelude.{◌≡◌, ◌≤◌, ◌++◌, length, map, vec_capacity, ℤ, IfErr, IfOk};
ghost use Rattle.std.specs.Global.{Vec};
ghost use Rattle.std.specs.List.{flat_map};
ghost use Rattle.lab_actors.specs.Room.{HasSpace};
ghost use Rattle.lab_readers.specs.End.{read_samples, runs_by};
ghost use Rattle.lab_readers.specs.Opening.{AreNew};

use crate::reader::LabReader;
use crate::readers::LabReaders;
use snd_base::{Geometry, PcmError};
use snoop_core::SnoopPort;
use snoop_table::ReaderSeat;
use std::alloc::Global;

/// Appends the runs of a reader's frames, each with the reader's number. The caller has room for them.
fn push_runs(all: &mut Vec<(u32, u64, u64)>, reader: &LabReader<'_>)
    requires { HasSpace (length (runs_by reader.now)) all.old }
    ensures runs { all.new.items ≡ all.old.items ++ runs_by reader.now }
    ensures room { vec_capacity all.old ≤ vec_capacity all.new }
{
    let number = reader.number();
    let runs = reader.runs();
    for index in 0..runs.len() {
        let run = runs[index];
        all.push((number, run.0, run.1)).unwrap();
    }
}

/// Appends the runs of all readers' frames, one reader after the other. The caller has room for them.
fn list_runs(all: &mut Vec<(u32, u64, u64)>, readers: &[LabReader<'_>])
    requires { HasSpace (length (flat_map runs_by readers.now)) all.old }
    ensures { all.new.items ≡ all.old.items ++ flat_map runs_by readers.now }
{
    for index in 0..readers.len() {
        push_runs(all, &readers[index]);
    }
}

/// Appends the samples of all readers, one reader after the other. The caller has room for them.
fn list_samples(all: &mut Vec<Vec<i16>>, readers: Vec<LabReader<'_>>)
    requires { HasSpace (length readers.items) all.old }
    ensures { map (λ (samples : Vec ℤ). samples.items) all.new.items
        ≡ map (λ (samples : Vec ℤ). samples.items) all.old.items
        ++ map read_samples readers.entry.items }
{
    for reader in readers {
        all.push(reader.into_samples()).unwrap();
    }
}

impl<'r> LabReaders<'r> {
    ghost use Rattle.std.specs.Prelude.{◌≡◌, IfErr, IfOk, Option, length, ◌<◌, ◌++◌, List, map, slice_index_or, ℤ};
    ghost use Rattle.wav_io.specs.Sound.{Sound};
    ghost use Rattle.lab_run.specs.Stage.{Session, first_stage};
    ghost use Rattle.lab_readers.specs.AtStage.{AreAt, IsNewCardOf, readers_of, spare_of};
    ghost use Rattle.std.specs.Global.{Vec};
    ghost use Rattle.std.specs.List.{flat_map};
    ghost use Rattle.lab_run.specs.LabRun.{all_runs, recorded_by, recorded_from};
    ghost use Rattle.lab_run.specs.Reader.{Reader};
    ghost use Rattle.lab_run.specs.Rules.{AtPort};
    ghost use Rattle.lab_actors.specs.Room.{HasSpace};
    ghost use Rattle.lab_readers.specs.End.{runs_by};

    /// So many readers that were never open, by a seat of the snoop ring of a new card. It refuses, with `Memory`, only where no memory is
    /// left; the seat is let go then.
    pub fn new(alloc: Global, count: u32, seat: ReaderSeat<'r>) -> Result<LabReaders<'r>, PcmError>
        ensures spare { IfOk result (λ readers. spare_of readers ≡ seat.entry) }
        ensures count { IfOk result (λ readers. length (readers_of readers) ≡ count) }
        ensures first { IfOk result (λ readers. (session : Session) (capture : Option Sound) →
            IsNewCardOf session seat.entry count →
            AreAt session capture (first_stage session).readers readers) }
        ensures only { IfErr result (λ e. e ≡ PcmError.Memory) }
    {
        let readers = new_readers(alloc, count, seat.geometry())?;
        Ok(LabReaders { seat, readers })
    }

    /// Appends all frames that the readers read, as the runs of a report: each with the reader's number, its first frame and how many
    /// frames it has, by reader and then by time. It takes no memory.
    ///
    /// The caller has room for them.
    pub fn runs_into(&self, all: &mut Vec<(u32, u64, u64)>)
        requires { HasSpace (length (flat_map runs_by (readers_of self.now))) all.old }
        ensures items { all.new.items ≡ all.old.items ++ flat_map runs_by (readers_of self.now) }
        ensures report { (session : Session) (capture : Option Sound)
            (xs : List (AtPort × Reader)) →
            AreAt session capture xs self.now → all.new.items ≡ all.old.items ++ all_runs xs }
    {
        list_runs(all, self.readers.as_slice());
    }

    /// All samples that the reader of a number read so far, interleaved.
    ///
    /// The caller has a reader of the number (`len`).
    pub fn samples(&self, number: u32) -> &[i16]
        requires { number < length (readers_of self.now) }
        ensures { (session : Session) (capture : Option Sound)
            (xs : List (AtPort × Reader)) (e : AtPort × Reader) →
            AreAt session capture xs self.now →
            result.now ≡ recorded_by session capture number (slice_index_or xs number e).1 }
    {
        self.readers[number as usize].samples()
    }

    /// Appends the samples of each reader, in order; their seats are let go. It takes no memory.
    ///
    /// The caller has room for those of all readers.
    pub fn recorded_into(self, all: &mut Vec<Vec<i16>>)
        requires { HasSpace (length (readers_of self)) all.old }
        ensures { (session : Session) (capture : Option Sound) (xs : List (AtPort × Reader)) →
            AreAt session capture xs self.entry →
            map (λ (samples : Vec ℤ). samples.items) all.new.items
            ≡ map (λ (samples : Vec ℤ). samples.items) all.old.items
            ++ recorded_from session capture 0 xs }
    {
        let LabReaders { seat: _, readers } = self;
        list_samples(all, readers);
    }
}

/// So many readers that were never open, of a ring of a geometry.
fn new_readers<'r>(
    alloc: Global,
    count: u32,
    geometry: Geometry,
) -> Result<Vec<LabReader<'r>>, PcmError>
    ensures new { IfOk result (λ readers. AreNew 0 readers.items) }
    ensures count { IfOk result (λ readers. length readers.items ≡ count) }
    ensures only { IfErr result (λ e. e ≡ PcmError.Memory) }
{
    let mut readers = Vec::new(alloc);
    for number in 0..count {
        readers.push(LabReader::new(alloc, number, geometry))?;
    }
    Ok(readers)
}
