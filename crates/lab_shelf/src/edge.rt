//! The forms over real files and streams. They say nothing of what these hold.
ghost use Rattle.std.specs.Prelude.{◌≡◌, ◌≤◌, None, IsUtf8, IfOk, OnOk, MatchResult, vec_len};
ghost use Rattle.std.specs.Io.KnownBytes.{Appends};
ghost use Rattle.lab_shelf.specs.Counts.{IsFaultCount, count_after};

use crate::fault::{ShelfFault, count_fault};
use crate::input::{OpenInput, read_piece};
use crate::output::write_bytes;
use crate::traits::{Shelf, Sink};
use std::alloc::Global;
use std::fs::{File, OpenOptions};
use std::io::{ErrorKind, Write};
use std::marker::Model;
use std::rt::Files;
use std::{io, str};

/// The files of the system. A name is a path, relative to the folder that the program runs in; one
/// that isn't UTF-8 is a fault. A file stays open while its pieces are fetched one after the other, so
/// that one which can't be sought, as a pipe, is read on from where it is; a fetch of such a file from
/// another byte is a fault, and so is each write to one. A contract sees only the two counts of faults.
#[derive(Drop)]
pub struct FileShelf<R: Files<File = File>> {
    rt: R,
    // the file that was fetched from last
    input: Option<OpenInput>,
    fetch_faults: u64,
    write_faults: u64,
}

impl<R: Files<File = File>> Model for FileShelf<R> {
    ghost use Rattle.lab_shelf.specs.States.{FaultCounts, counts_code};

    ghost Value = { FaultCounts };

    ghost coded = { counts_code };

    ghost view = { λ s. record { fetch_faults = s.fetch_faults; write_faults = s.write_faults } };
}

impl<R: Files<File = File>> FileShelf<R> {
    /// The files that this runtime reaches, with no fault counted yet.
    pub fn new(rt: R) -> FileShelf<R>
        ensures { result ≡ record { fetch_faults = 0; write_faults = 0 } }
    {
        FileShelf {
            rt,
            input: None,
            fetch_faults: 0,
            write_faults: 0,
        }
    }

    /// The file's bytes from the byte `from` on: `most` of them, or as many as there are. No fault is
    /// counted.
    fn piece(
        &mut self,
        alloc: Global,
        name: &[u8],
        from: u64,
        most: u64,
    ) -> Result<Vec<u8>, ShelfFault>
        ensures most { IfOk result (λ bytes. vec_len bytes ≤ most) }
        ensures text { OnOk result (IsUtf8 name.now) }
        ensures same { self.new ≡ self.old }
    {
        let path = path_of(name)?;
        let last = self.input.take();
        let (input, bytes) = read_piece(&self.rt, alloc, last, path, from, most).map_err(fault_of)?;
        self.input = Some(input);
        Ok(bytes)
    }

    /// Writes these bytes to a file that is opened with the options, and counts a fault of the write.
    fn change(&mut self, options: &OpenOptions, name: &[u8], bytes: &[u8]) -> Result<(), ShelfFault>
        ensures text { OnOk result (IsUtf8 name.now) }
        ensures after { self.new ≡ record self.old
            { write_faults = count_after result self.old.write_faults } }
        ensures faults { IsFaultCount result self.old.write_faults self.new.write_faults }
    {
        self.input = None;
        let outcome = write_file(&self.rt, options, name, bytes);
        count_fault(&outcome, &mut self.write_faults);
        outcome
    }
}

impl<R: Files<File = File>> Shelf for FileShelf<R> {
    ghost files = { λ _. None };

    ghost fetch_faults = { λ s. s.fetch_faults };

    ghost write_faults = { λ s. s.write_faults };

    fn fetch(
        &mut self,
        alloc: Global,
        name: &[u8],
        from: u64,
        most: u64,
    ) -> Result<Vec<u8>, ShelfFault>
        ensures most { IfOk result (λ bytes. vec_len bytes ≤ most) }
        ensures text { OnOk result (IsUtf8 name.now) }
        ensures after { self.new ≡ record self.old
            { fetch_faults = count_after result self.old.fetch_faults } }
        ensures faults { IsFaultCount result self.old.fetch_faults self.new.fetch_faults }
        ensures write_faults { self.new.write_faults ≡ self.old.write_faults }
    {
        let outcome = self.piece(alloc, name, from, most);
        count_fault(&outcome, &mut self.fetch_faults);
        outcome
    }

    fn store(&mut self, name: &[u8], bytes: &[u8]) -> Result<(), ShelfFault>
        ensures text { OnOk result (IsUtf8 name.now) }
        ensures after { self.new ≡ record self.old
            { write_faults = count_after result self.old.write_faults } }
        ensures faults { IsFaultCount result self.old.write_faults self.new.write_faults }
        ensures fetch_faults { self.new.fetch_faults ≡ self.old.fetch_faults }
    {
        let mut options = OpenOptions::new();
        options.write(true).create(true).truncate(true);
        self.change(&options, name, bytes)
    }

    fn begin(&mut self, name: &[u8], head: &[u8]) -> Result<(), ShelfFault>
        ensures text { OnOk result (IsUtf8 name.now) }
        ensures after { self.new ≡ record self.old
            { write_faults = count_after result self.old.write_faults } }
        ensures faults { IsFaultCount result self.old.write_faults self.new.write_faults }
        ensures fetch_faults { self.new.fetch_faults ≡ self.old.fetch_faults }
    {
        self.store(name, head)
    }

    fn append(&mut self, name: &[u8], bytes: &[u8]) -> Result<(), ShelfFault>
        ensures text { OnOk result (IsUtf8 name.now) }
        ensures after { self.new ≡ record self.old
            { write_faults = count_after result self.old.write_faults } }
        ensures faults { IsFaultCount result self.old.write_faults self.new.write_faults }
        ensures fetch_faults { self.new.fetch_faults ≡ self.old.fetch_faults }
    {
        let mut options = OpenOptions::new();
        options.append(true);
        self.change(&options, name, bytes)
    }

    fn finish(&mut self, name: &[u8], head: &[u8]) -> Result<(), ShelfFault>
        ensures text { OnOk result (IsUtf8 name.now) }
        ensures after { self.new ≡ record self.old
            { write_faults = count_after result self.old.write_faults } }
        ensures faults { IsFaultCount result self.old.write_faults self.new.write_faults }
        ensures fetch_faults { self.new.fetch_faults ≡ self.old.fetch_faults }
    {
        let mut options = OpenOptions::new();
        options.write(true);
        self.change(&options, name, head)
    }
}

/// A stream of the system, as standard output. A contract sees only its count of faults.
#[derive(Drop)]
pub struct StdSink<W: Write> {
    writer: W,
    faults: u64,
}

impl<W: Write> Model for StdSink<W> {
    ghost use Rattle.std.specs.Prelude.{ℕ};

    ghost Value = { ℕ };

    ghost view = { λ s. s.faults };
}

impl<W: Write> StdSink<W> {
    /// The stream that this writer writes to, with no fault counted yet.
    pub fn new(writer: W) -> StdSink<W>
        ensures { result ≡ 0 }
    {
        StdSink { writer, faults: 0 }
    }
}

impl<W: Write> Sink for StdSink<W> {
    ghost taken = { λ _. None };

    ghost faults = { λ s. s };

    fn put(&mut self, bytes: &[u8]) -> Result<(), ShelfFault>
        ensures after { self.new ≡ count_after result self.old }
        ensures faults { IsFaultCount result self.old self.new }
    {
        let outcome = write_through(&mut self.writer, bytes);
        count_fault(&outcome, &mut self.faults);
        outcome
    }
}

/// What an error of the system means to a caller.
fn fault_of(error: io::Error) -> ShelfFault {
    match error.kind() {
        ErrorKind::OutOfMemory => ShelfFault::Memory,
        _ => ShelfFault::Failed,
    }
}

/// A path from the bytes of a name.
fn path_of(name: &[u8]) -> Result<&str, ShelfFault>
    ensures { MatchResult result (λ path. (path.now ≡ name.now) × IsUtf8 name.now)
        (λ fault. (fault ≡ ShelfFault.Failed) × ¬ (IsUtf8 name.now)) }
{
    str::from_utf8(name).map_err(|_| ShelfFault::Failed)
}

/// Writes these bytes to a file that is opened with the options.
fn write_file<R: Files<File = File>>(
    rt: &R,
    options: &OpenOptions,
    name: &[u8],
    bytes: &[u8],
) -> Result<(), ShelfFault>
    ensures { OnOk result (IsUtf8 name.now) }
{
    let path = path_of(name)?;
    write_bytes(rt, options, path, bytes).map_err(fault_of)
}

/// Writes all of the bytes to the stream.
fn write_through<W: Write>(writer: &mut W, bytes: &[u8]) -> Result<(), ShelfFault>
    ensures { OnOk result (Appends (W.contents writer.old) (W.contents writer.new) bytes.now) }
{
    write_and_flush(writer, bytes).map_err(fault_of)
}

/// Writes all of the bytes, and then what the writer holds back.
fn write_and_flush<W: Write>(writer: &mut W, bytes: &[u8]) -> io::Result<()>
    ensures { OnOk result (Appends (W.contents writer.old) (W.contents writer.new) bytes.now) }
{
    writer.write_all(bytes)?;
    writer.flush()
}
