//! The forms in memory, whose calls fail where the caller lists their numbers.
ghost use Rattle.std.specs.Prelude.{◌≡◌, ◌≢◌, ◌≤◌, ◌↔◌, ◌++◌, ◌&&◌, [], not, is_some, None, Some, Err, IsErrOf, IsTrue, IfOk, OnOk, OnErr, vec_len};
ghost use Rattle.std.specs.Option.{option_copied};
ghost use Rattle.lab_shelf.specs.Files.{bytes_under, with_file, with_change, with_first_bytes, piece, IsPartWritten, IsPartAppended, IsPartFinished, HasFileNamed, HasRoom, TookPart};
ghost use Rattle.lab_shelf.specs.Counts.{IsFaultCount, IsAsForeseen, count_more};
ghost use Rattle.lab_shelf.specs.States.{files_of, fetch_answers, write_answers, after_fetch, after_store, after_change, after_put};

use crate::entries::{append_to, content_of, cut, extend, overwrite, put_file};
use crate::fault::{ShelfFault, count_fault};
use crate::traits::{Shelf, Sink};
use std::alloc::Global;
use std::marker::Model;

/// Files in memory. Its calls are numbered together from 1, and one fails with `Failed` exactly where
/// its number is listed, or where it fetches, appends to or finishes a name that isn't there, also
/// where no memory is left.
/// A call that fails changes no file. The shelf is reliable where no number is listed.
pub struct MemoryShelf {
    entries: Vec<(Vec<u8>, Vec<u8>)>,
    failing: Vec<u64>,
    calls: u64,
    fetch_faults: u64,
    write_faults: u64,
}

// One call wherever it is let go. A derive drops each part in turn there, and the proof goes through all of them.
impl Drop for MemoryShelf {
    fn drop(self) {
        let MemoryShelf {
            entries: _,
            failing: _,
            calls: _,
            fetch_faults: _,
            write_faults: _,
        } = self;
    }
}

impl Model for MemoryShelf {
    ghost use Rattle.lab_shelf.specs.States.{ShelfState, shelf_code, files_of};

    ghost Value = { ShelfState };

    ghost coded = { shelf_code };

    ghost view = { λ s. record {
      files = files_of s.entries.items;
      failing = s.failing.items;
      calls = s.calls;
      fetch_faults = s.fetch_faults;
      write_faults = s.write_faults;
    } };
}

impl MemoryShelf {
    /// A shelf that holds these files, each a name and its bytes. Of two with one name the first
    /// counts. The calls whose numbers are in `failing` fail.
    pub fn new(files: Vec<(Vec<u8>, Vec<u8>)>, failing: Vec<u64>) -> MemoryShelf
        ensures { result ≡ record {
          files = files_of files.items;
          failing = failing.items;
          calls = 0;
          fetch_faults = 0;
          write_faults = 0;
        } }
    {
        MemoryShelf {
            entries: files,
            failing,
            calls: 0,
            fetch_faults: 0,
            write_faults: 0,
        }
    }

    /// The bytes of the file of this name, or `None` where there is no such file.
    pub fn file(&self, name: &[u8]) -> Option<&[u8]>
        ensures { option_copied result ≡ bytes_under self.now.files name.now }
    {
        content_of(&self.entries, name)
    }

    /// The files, each a name and its bytes. Of two with one name the first counts.
    pub fn entries(&self) -> &[(Vec<u8>, Vec<u8>)]
        ensures { files_of result.now ≡ self.now.files }
    {
        self.entries.as_slice()
    }

    /// Whether the file of this name, if there is one, has as many bytes as a head, as `finish` asks.
    pub fn has_room(&self, name: &[u8], head: &[u8]) -> bool
        ensures { IsTrue result ↔ HasRoom (Some self.now.files) name.now head.now }
    {
        match self.file(name) {
            Some(content) => head.len() <= content.len(),
            None => true,
        }
    }
}

impl Shelf for MemoryShelf {
    ghost files = { λ s. Some s.files };

    ghost fetch_faults = { λ s. s.fetch_faults };

    ghost write_faults = { λ s. s.write_faults };

    ghost fetch_works = { λ s name. Some (fetch_answers s name) };

    ghost store_works = { λ s. Some (write_answers s.failing s.calls) };

    ghost change_works = { λ s name. Some (fetch_answers s name) };

    ghost is_reliable = { λ s. s.failing ≡ [] };

    fn fetch(
        &mut self,
        alloc: Global,
        name: &[u8],
        from: u64,
        most: u64,
    ) -> Result<Vec<u8>, ShelfFault>
        ensures most { IfOk result (λ bytes. vec_len bytes ≤ most) }
        ensures piece { IfOk result (λ bytes.
            piece self.old.files name.now from most ≡ Some bytes.items) }
        ensures foreseen { IsAsForeseen result (Some (fetch_answers self.old name.now)) }
        ensures after { self.new ≡ after_fetch result self.old }
        ensures files { Some self.new.files ≡ Some self.old.files }
        ensures faults { IsFaultCount result self.old.fetch_faults self.new.fetch_faults }
        ensures write_faults { self.new.write_faults ≡ self.old.write_faults }
        ensures reliable { self.old.failing ≡ [] → self.new.failing ≡ [] }
        ensures missing { self.old.failing ≡ [] → IsErrOf result ShelfFault.Failed
            → bytes_under self.old.files name.now ≡ None }
    {
        let is_listed = count_call(&mut self.calls, &self.failing);
        let outcome = piece_unless(is_listed, &self.entries, alloc, name, from, most);
        count_fault(&outcome, &mut self.fetch_faults);
        outcome
    }

    fn store(&mut self, name: &[u8], bytes: &[u8]) -> Result<(), ShelfFault>
        ensures foreseen { IsAsForeseen result
            (Some (write_answers self.old.failing self.old.calls)) }
        ensures after { self.new ≡ after_store result self.old name.now bytes.now }
        ensures ok { OnOk result
            (Some self.new.files ≡ Some (with_file self.old.files name.now bytes.now)) }
        ensures err { OnErr result
            (IsPartWritten (Some self.old.files) (Some self.new.files) name.now bytes.now) }
        ensures faults { IsFaultCount result self.old.write_faults self.new.write_faults }
        ensures fetch_faults { self.new.fetch_faults ≡ self.old.fetch_faults }
        ensures reliable { self.old.failing ≡ [] → self.new.failing ≡ [] }
        ensures stores { self.old.failing ≡ [] → result ≢ Err ShelfFault.Failed }
    {
        let is_listed = count_call(&mut self.calls, &self.failing);
        let outcome = store_unless(is_listed, &mut self.entries, name, bytes);
        count_fault(&outcome, &mut self.write_faults);
        outcome
    }

    fn begin(&mut self, name: &[u8], head: &[u8]) -> Result<(), ShelfFault>
        ensures foreseen { IsAsForeseen result
            (Some (write_answers self.old.failing self.old.calls)) }
        ensures after { self.new ≡ after_store result self.old name.now head.now }
        ensures ok { OnOk result
            (Some self.new.files ≡ Some (with_file self.old.files name.now head.now)) }
        ensures err { OnErr result
            (IsPartWritten (Some self.old.files) (Some self.new.files) name.now head.now) }
        ensures faults { IsFaultCount result self.old.write_faults self.new.write_faults }
        ensures fetch_faults { self.new.fetch_faults ≡ self.old.fetch_faults }
        ensures reliable { self.old.failing ≡ [] → self.new.failing ≡ [] }
        ensures begins { self.old.failing ≡ [] → result ≢ Err ShelfFault.Failed }
    {
        self.store(name, head)
    }

    fn append(&mut self, name: &[u8], bytes: &[u8]) -> Result<(), ShelfFault>
        ensures held { OnOk result (HasFileNamed (Some self.old.files) name.now) }
        ensures foreseen { IsAsForeseen result (Some (fetch_answers self.old name.now)) }
        ensures after { self.new ≡ after_change result self.old
            (λ content. content ++ bytes.now) name.now }
        ensures ok { OnOk result (Some self.new.files
            ≡ Some (with_change (λ content. content ++ bytes.now) self.old.files name.now)) }
        ensures err { OnErr result
            (IsPartAppended (Some self.old.files) (Some self.new.files) name.now bytes.now) }
        ensures faults { IsFaultCount result self.old.write_faults self.new.write_faults }
        ensures fetch_faults { self.new.fetch_faults ≡ self.old.fetch_faults }
        ensures reliable { self.old.failing ≡ [] → self.new.failing ≡ [] }
        ensures missing { self.old.failing ≡ [] → IsErrOf result ShelfFault.Failed
            → bytes_under self.old.files name.now ≡ None }
    {
        let is_listed = count_call(&mut self.calls, &self.failing);
        let outcome = append_unless(is_listed, &mut self.entries, name, bytes);
        count_fault(&outcome, &mut self.write_faults);
        outcome
    }

    fn finish(&mut self, name: &[u8], head: &[u8]) -> Result<(), ShelfFault>
        requires room { HasRoom (Some self.old.files) name.now head.now }
        ensures held { OnOk result (HasFileNamed (Some self.old.files) name.now) }
        ensures foreseen { IsAsForeseen result (Some (fetch_answers self.old name.now)) }
        ensures after { self.new ≡ after_change result self.old
            (with_first_bytes head.now) name.now }
        ensures ok { OnOk result
            (Some self.new.files
            ≡ Some (with_change (with_first_bytes head.now) self.old.files name.now)) }
        ensures err { OnErr result
            (IsPartFinished (Some self.old.files) (Some self.new.files) name.now head.now) }
        ensures faults { IsFaultCount result self.old.write_faults self.new.write_faults }
        ensures fetch_faults { self.new.fetch_faults ≡ self.old.fetch_faults }
        ensures reliable { self.old.failing ≡ [] → self.new.failing ≡ [] }
        ensures missing { self.old.failing ≡ [] → IsErrOf result ShelfFault.Failed
            → bytes_under self.old.files name.now ≡ None }
    {
        let is_listed = count_call(&mut self.calls, &self.failing);
        let outcome = finish_unless(is_listed, &mut self.entries, name, head);
        count_fault(&outcome, &mut self.write_faults);
        outcome
    }
}

/// Bytes that were put, in memory. Its calls of `put` are numbered from 1, and one fails with
/// `Failed` exactly where its number is listed. A call that fails takes no byte. The sink is reliable where no
/// number is listed.
#[derive(Drop)]
pub struct MemorySink {
    bytes: Vec<u8>,
    failing: Vec<u64>,
    calls: u64,
    faults: u64,
}

impl Model for MemorySink {
    ghost use Rattle.lab_shelf.specs.States.{SinkState, sink_code};

    ghost Value = { SinkState };

    ghost coded = { sink_code };

    ghost view = { λ s. record {
      taken = s.bytes.items;
      failing = s.failing.items;
      calls = s.calls;
      faults = s.faults;
    } };
}

impl MemorySink {
    /// A sink that took nothing yet. The calls whose numbers are in `failing` fail.
    pub fn new(alloc: Global, failing: Vec<u64>) -> MemorySink
        ensures { result ≡ record { taken = []; failing = failing.items; calls = 0; faults = 0 } }
    {
        MemorySink {
            bytes: Vec::new(alloc),
            failing,
            calls: 0,
            faults: 0,
        }
    }

    /// The bytes that the sink took, in order.
    pub fn bytes(&self) -> &[u8]
        ensures { result.now ≡ self.now.taken }
    {
        self.bytes.as_slice()
    }
}

impl Sink for MemorySink {
    ghost taken = { λ s. Some s.taken };

    ghost faults = { λ s. s.faults };

    ghost put_works = { λ s. Some (write_answers s.failing s.calls) };

    ghost is_reliable = { λ s. s.failing ≡ [] };

    fn put(&mut self, bytes: &[u8]) -> Result<(), ShelfFault>
        ensures foreseen { IsAsForeseen result
            (Some (write_answers self.old.failing self.old.calls)) }
        ensures after { self.new ≡ after_put result self.old bytes.now }
        ensures ok { OnOk result (Some self.new.taken ≡ Some (self.old.taken ++ bytes.now)) }
        ensures err { OnErr result (TookPart (Some self.old.taken)
            (Some self.new.taken) bytes.now) }
        ensures faults { IsFaultCount result self.old.faults self.new.faults }
        ensures reliable { self.old.failing ≡ [] → self.new.failing ≡ [] }
        ensures puts { self.old.failing ≡ [] → result ≢ Err ShelfFault.Failed }
    {
        let is_listed = count_call(&mut self.calls, &self.failing);
        let outcome = put_unless(is_listed, &mut self.bytes, bytes);
        count_fault(&outcome, &mut self.faults);
        outcome
    }
}

/// Counts a call, and gives whether its number is listed, so that it fails.
fn count_call(calls: &mut u64, failing: &[u64]) -> bool
    ensures listed { not result ≡ write_answers failing.now calls.old }
    ensures calls { calls.new ≡ count_more calls.old }
{
    *calls = calls.saturating_add(1);
    failing.contains(calls)
}

/// A copy of the file's bytes from the byte `from` on: `most` of them, or as many as there are. It
/// fails where the call is listed or there is no such file.
fn piece_unless(
    is_listed: bool,
    entries: &[(Vec<u8>, Vec<u8>)],
    alloc: Global,
    name: &[u8],
    from: u64,
    most: u64,
) -> Result<Vec<u8>, ShelfFault>
    ensures piece { IfOk result (λ bytes.
        piece (files_of entries.now) name.now from most ≡ Some bytes.items) }
    ensures foreseen { IsAsForeseen result
        (Some (not is_listed && is_some (bytes_under (files_of entries.now) name.now))) }
{
    match content_of(entries, name) {
        Some(content) if !is_listed => Ok(Vec::from_slice(alloc, cut(content, from, most))?),
        _ => Err(ShelfFault::Failed),
    }
}

/// Makes the file hold these bytes. It fails where the call is listed, and changes nothing where it
/// fails.
fn store_unless(
    is_listed: bool,
    entries: &mut Vec<(Vec<u8>, Vec<u8>)>,
    name: &[u8],
    bytes: &[u8],
) -> Result<(), ShelfFault>
    ensures ok { OnOk result
        (files_of entries.new.items ≡ with_file (files_of entries.old.items) name.now bytes.now) }
    ensures err { OnErr result (files_of entries.new.items ≡ files_of entries.old.items) }
    ensures foreseen { IsAsForeseen result (Some (not is_listed)) }
{
    if is_listed {
        return Err(ShelfFault::Failed);
    }
    put_file(entries, name, bytes)?;
    Ok(())
}

/// Adds bytes at the end of the file. It fails where the call is listed or there is no such file, and
/// changes nothing where it fails.
fn append_unless(
    is_listed: bool,
    entries: &mut Vec<(Vec<u8>, Vec<u8>)>,
    name: &[u8],
    bytes: &[u8],
) -> Result<(), ShelfFault>
    ensures ok { OnOk result
        (files_of entries.new.items ≡ with_change (λ content. content ++ bytes.now)
        (files_of entries.old.items) name.now) }
    ensures err { OnErr result (files_of entries.new.items ≡ files_of entries.old.items) }
    ensures foreseen { IsAsForeseen result
        (Some (not is_listed && is_some (bytes_under (files_of entries.old.items) name.now))) }
{
    if is_listed {
        return Err(ShelfFault::Failed);
    }
    append_to(entries, name, bytes)
}

/// Replaces the first bytes of the file, which are there, by as many others. It fails where the call
/// is listed or there is no such file, and changes nothing where it fails.
fn finish_unless(
    is_listed: bool,
    entries: &mut Vec<(Vec<u8>, Vec<u8>)>,
    name: &[u8],
    head: &[u8],
) -> Result<(), ShelfFault>
    requires room { HasRoom (Some (files_of entries.old.items)) name.now head.now }
    ensures ok { OnOk result
        (files_of entries.new.items ≡ with_change (with_first_bytes head.now)
        (files_of entries.old.items) name.now) }
    ensures err { OnErr result (files_of entries.new.items ≡ files_of entries.old.items) }
    ensures foreseen { IsAsForeseen result
        (Some (not is_listed && is_some (bytes_under (files_of entries.old.items) name.now))) }
{
    if is_listed {
        return Err(ShelfFault::Failed);
    }
    overwrite(entries, name, head)
}

/// Adds bytes at the end of those that were taken. It fails where the call is listed, and changes
/// nothing where it fails.
fn put_unless(is_listed: bool, taken: &mut Vec<u8>, bytes: &[u8]) -> Result<(), ShelfFault>
    ensures ok { OnOk result (taken.new.items ≡ taken.old.items ++ bytes.now) }
    ensures err { OnErr result (taken.new.items ≡ taken.old.items) }
    ensures foreseen { IsAsForeseen result (Some (not is_listed)) }
{
    if is_listed {
        return Err(ShelfFault::Failed);
    }
    extend(taken, bytes)
}
