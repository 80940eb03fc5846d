//! What a run has written so far, and each step of writing it.
ghost use Rattle.std.specs.Prelude.{[], ◌≡◌, ◌≢◌, ◌≤◌, ◌<◌, All, Err, IfErr, IfOk, IsSome, List, ℤ, OnOk, Option, drop, length, slice_index_or, slice_set, take};
ghost use Rattle.std.specs.Option.{option_map};
ghost use Rattle.lab_lines.specs.Limits.{IsScript};
ghost use Rattle.lab_report.specs.Text.{IsRowOf, IsTailOf};
ghost use Rattle.lab_shelf.specs.Changes.{Changes};
ghost use Rattle.lab_shelf.specs.Files.{Files};
ghost use Rattle.lab_output.specs.Files.{MayHold, nothing, finished_files};
ghost use Rattle.lab_output.specs.Going.{AreLonger, AreNew, AreOutputs, FitsWavFile, IsGoingOn, KeepSamples, SomeGoOn};
ghost use Rattle.lab_output.specs.Text.{head_text, rows_text, tail_from};
ghost use Rattle.lab_stop.specs.Effects.{OnlyWrites, PutsText};
ghost use Rattle.lab_stop.specs.declared.stop.Stop.TheVariants as stops;

use crate::append::append_new;
use crate::begin::begin_files;
use crate::file::{OutputFile, output_files};
use crate::finish::finish_files;
use crate::text::{push_tail, rows_from};
use lab_lines::{Report, Row, Script};
use lab_shelf::{Shelf, Sink};
use lab_stop::{Stop, put};
use std::alloc::Global;

/// What a run has written so far: of each of its files, and of its report.
///
/// The calls come in this order: `begin` and `put_head` once all input is read; at the end of each phase
/// `append` for each file, in their order, and then `put_rows`; and at the end `finish`, and then
/// `put_tail`. A call that has no byte to append or to put asks nothing of the shelf or the sink.
#[derive(Debug)]
pub struct Outputs {
    /// The files, in the order in which they are written.
    pub files: Vec<OutputFile>,
    /// How many samples were appended to each file, in all channels together.
    pub samples: Vec<usize>,
    /// How many rows of the report were put.
    pub rows: usize,
}

// One call wherever it is let go. A derive drops each part in turn there, and the proof goes through all of them.
impl Drop for Outputs {
    fn drop(self) {
        let Outputs {
            files: _,
            samples: _,
            rows: _,
        } = self;
    }
}

/// What a run of a script writes, before anything of it is written. The only error is `Stop::Memory`.
pub fn outputs_of(alloc: Global, script: &Script, out: &[u8]) -> Result<Outputs, Stop>
    requires script { IsScript script.now }
    ensures new { IfOk result (AreNew script.now out.now) }
    ensures outputs { IfOk result AreOutputs }
    ensures only { IfErr result (λ stop. stop ≡ stops.Memory) }
{
    let files = output_files(alloc, script, out)?;
    let mut samples = Vec::new(alloc);
    samples.resize(files.len(), 0)?;
    Ok(Outputs {
        files,
        samples,
        rows: 0,
    })
}

impl Outputs {
    /// Begins each file, in order: makes it hold an open head, under which a reader of WAV files takes
    /// the samples that are there. It stops with `Write` where the shelf fails, and with `Memory` only
    /// where no memory is left; the files before that one are begun then.
    pub fn begin<S: Shelf>(&self, shelf: &mut S) -> Result<(), Stop>
        requires outputs { AreOutputs self.now }
        requires new { All (λ n. n ≡ 0) self.now.samples.items }
        ensures going_on { OnOk result
            (IsGoingOn self.now.files.items self.now.samples.items (nothing self.now.files.items)
            (S.files shelf.old) (S.files shelf.new)) }
        ensures changes { Changes (MayHold self.now.files.items (nothing self.now.files.items))
            (S.files shelf.old) (S.files shelf.new) }
        ensures only_writes { OnlyWrites S.Shelf result shelf.old shelf.new }
        ensures never { S.is_reliable shelf.old → result ≢ Err stops.Write }
    {
        begin_files(shelf, self.files.as_slice())
    }

    /// Appends to the file of this number, from 0, what its samples have more than those that were
    /// appended so far. `samples` are all of them, interleaved: frame by frame.
    ///
    /// It stops with `Write` where the shelf fails, and with `Memory` only where no memory is left; the
    /// file holds the first bytes of what it would hold then. A reliable shelf whose files are known
    /// doesn't fail here while a run goes on. It copies the bytes that it appends.
    pub fn append<S: Shelf>(
        &mut self,
        shelf: &mut S,
        alloc: Global,
        number: usize,
        samples: &[i16],
    ) -> Result<(), Stop>
        requires outputs { AreOutputs self.old }
        requires number { number < length self.old.files.items }
        requires more { slice_index_or self.old.samples.items number 0 ≤ length samples.now }
        requires few { FitsWavFile (length samples.now) }
        ensures going_on { (before : Option Files) (sounds : List (List ℤ))
            → IsGoingOn self.old.files.items self.old.samples.items sounds
            before (S.files shelf.old)
            → slice_index_or sounds number []
            ≡ take (slice_index_or self.old.samples.items number 0) samples.now
            → OnOk result (IsGoingOn self.new.files.items self.new.samples.items
            (slice_set sounds number samples.now) before (S.files shelf.new)) }
        ensures changes { (before : Option Files) (sounds targets : List (List ℤ))
            → IsGoingOn self.old.files.items self.old.samples.items sounds
            before (S.files shelf.old)
            → slice_index_or sounds number []
            ≡ take (slice_index_or self.old.samples.items number 0) samples.now
            → AreLonger (slice_set sounds number samples.now) targets
            → Changes (MayHold self.new.files.items targets) before (S.files shelf.new) }
        ensures outputs { AreOutputs self.new }
        ensures files { self.new.files ≡ self.old.files }
        ensures samples { OnOk result (self.new.samples.items
            ≡ slice_set self.old.samples.items number (length samples.now)) }
        ensures rows { self.new.rows ≡ self.old.rows }
        ensures only_writes { OnlyWrites S.Shelf result shelf.old shelf.new }
        ensures never { (before : Option Files) (sounds : List (List ℤ))
            → IsGoingOn self.old.files.items self.old.samples.items sounds
            before (S.files shelf.old)
            → IsSome before → S.is_reliable shelf.old → result ≢ Err stops.Write }
    {
        let first = self.samples[number];
        append_new(shelf, alloc, &self.files[number], &samples[first..])?;
        self.samples[number] = samples.len();
        Ok(())
    }

    /// Finishes each file, in order: puts the true head in the place of the open one, so that the file
    /// is the canonical WAV file of its samples.
    ///
    /// The files have to be such as `begin` and `append` left them. It stops with `Write` where the shelf
    /// fails, and with `Memory` only where no memory is left; the files before that one are finished then,
    /// and each file has all its samples still. A reliable shelf whose files are known doesn't fail here.
    pub fn finish<S: Shelf>(&self, shelf: &mut S) -> Result<(), Stop>
        requires outputs { AreOutputs self.now }
        requires going_on { SomeGoOn self.now (S.files shelf.old) }
        ensures stored { (before : Option Files) (sounds : List (List ℤ))
            → IsGoingOn self.now.files.items self.now.samples.items sounds
            before (S.files shelf.old)
            → OnOk result
            (S.files shelf.new ≡ option_map (finished_files self.now.files.items sounds) before) }
        ensures changes { (before : Option Files) (sounds : List (List ℤ))
            → IsGoingOn self.now.files.items self.now.samples.items sounds
            before (S.files shelf.old)
            → Changes (MayHold self.now.files.items sounds) before (S.files shelf.new) }
        ensures kept { (before : Option Files) (sounds : List (List ℤ))
            → IsGoingOn self.now.files.items self.now.samples.items sounds
            before (S.files shelf.old)
            → KeepSamples self.now.files.items sounds (S.files shelf.new) }
        ensures only_writes { OnlyWrites S.Shelf result shelf.old shelf.new }
        ensures never { (before : Option Files) (sounds : List (List ℤ))
            → IsGoingOn self.now.files.items self.now.samples.items sounds
            before (S.files shelf.old)
            → IsSome before → S.is_reliable shelf.old → result ≢ Err stops.Write }
    {
        finish_files(shelf, self.files.as_slice(), self.samples.as_slice())
    }

    /// Puts the report's first line, `dmixlab 1`. It stops with `Write` where the sink fails, and with
    /// `Memory` only where no memory is left; the sink took the first bytes of the line then.
    pub fn put_head<K: Sink>(&self, out: &mut K) -> Result<(), Stop>
        ensures puts_text { PutsText K.Sink head_text result out.old out.new }
    {
        put(out, b"dmixlab 1\n")
    }

    /// Puts the lines of the rows that weren't put yet, as one piece. `rows` are all of the report so far.
    ///
    /// It stops with `Write` where the sink fails, and with `Memory` only where no memory is left; the
    /// sink took the first bytes of the lines then.
    pub fn put_rows<K: Sink>(
        &mut self,
        out: &mut K,
        alloc: Global,
        script: &Script,
        rows: &[Row],
    ) -> Result<(), Stop>
        requires rows { All (IsRowOf script.now) rows.now }
        requires more { self.old.rows ≤ length rows.now }
        ensures puts_text { PutsText K.Sink (rows_text script.now self.old.rows rows.now) result
            out.old out.new }
        ensures rows { OnOk result (self.new.rows ≡ length rows.now) }
        ensures files { self.new.files ≡ self.old.files }
        ensures samples { self.new.samples ≡ self.old.samples }
    {
        let text = rows_from(alloc, script, &rows[self.rows..])?;
        put_some(out, &text)?;
        self.rows = rows.len();
        Ok(())
    }

    /// Puts the lines of the rows that weren't put yet, and what is below the rows, as one piece.
    ///
    /// It stops with `Write` where the sink fails, and with `Memory` only where no memory is left; the
    /// sink took the first bytes of that text then.
    pub fn put_tail<K: Sink>(
        &self,
        out: &mut K,
        alloc: Global,
        script: &Script,
        report: &Report,
    ) -> Result<(), Stop>
        requires rows { All (IsRowOf script.now) report.now.rows }
        requires tail { IsTailOf script.now report.now }
        requires more { self.now.rows ≤ length report.now.rows }
        ensures puts_text { PutsText K.Sink (tail_from script.now self.now.rows report.now) result
            out.old out.new }
    {
        let mut text = rows_from(alloc, script, &report.rows.as_slice()[self.rows..])?;
        push_tail(&mut text, script, report)?;
        put(out, &text)
    }
}

/// Puts a text, unless there is none.
fn put_some<K: Sink>(out: &mut K, text: &[u8]) -> Result<(), Stop>
    ensures { PutsText K.Sink text.now result out.old out.new }
{
    if text.is_empty() {
        return Ok(());
    }
    put(out, text)
}
