//! What no clause says: that calls work where there is memory, and what real files and streams do.
ghost use Rattle.std.specs.Prelude.{◌≡◌, [], None, IfOk, IsErrOf};
ghost use Rattle.std.specs.Option.{ForSome};
ghost use Rattle.lab_shelf.specs.Files.{bytes_under};

use lab_shelf::{FileShelf, MemoryShelf, MemorySink, Shelf, ShelfFault, Sink, StdSink};
use std::alloc::{AllocError, Global};
use std::io::{Read, Write};
use std::os::fd::AsRawFd;
use std::{env, fs, io, mem, process};

// The file `a`, which holds `hello`.
fn files_of_one(alloc: Global) -> Result<Vec<(Vec<u8>, Vec<u8>)>, AllocError> {
    let mut files = Vec::new(alloc);
    let name = Vec::from_slice(alloc, b"a")?;
    files.push((name, Vec::from_slice(alloc, b"hello")?))?;
    Ok(files)
}

// A shelf that holds `hello` under the name `a`.
fn one_file(alloc: Global, failing: Vec<u64>) -> Result<MemoryShelf, AllocError>
    ensures { IfOk result (λ shelf. shelf.failing ≡ failing.items) }
{
    let files = files_of_one(alloc)?;
    Ok(MemoryShelf::new(files, failing))
}

// Whether a call failed by its file or stream, and not for want of memory.
fn has_failed(answer: Result<(), ShelfFault>) -> bool {
    answer == Err(ShelfFault::Failed)
}

// Whether a shelf gives these bytes of a file, from a place on and so many at most.
fn gives<S: Shelf>(
    shelf: &mut S,
    alloc: Global,
    name: &[u8],
    from: u64,
    most: u64,
    bytes: &[u8],
) -> bool {
    match shelf.fetch(alloc, name, from, most) {
        Ok(found) => found.as_slice() == bytes,
        Err(_) => false,
    }
}

// Whether a shelf fails to give a file from a place on, and not for want of memory.
fn gives_none<S: Shelf>(shelf: &mut S, alloc: Global, name: &[u8], from: u64) -> bool {
    match shelf.fetch(alloc, name, from, 9) {
        Ok(_) => false,
        Err(fault) => fault == ShelfFault::Failed,
    }
}

// Whether a shelf in memory holds a file of these bytes.
fn holds(shelf: &MemoryShelf, name: &[u8], bytes: &[u8]) -> bool {
    match shelf.file(name) {
        Some(held) => held == bytes,
        None => false,
    }
}

// A caller over any reliable shelf and sink: it stores a file under another name, and puts it out.
fn copy_out<S: Shelf, K: Sink>(
    shelf: &mut S,
    sink: &mut K,
    alloc: Global,
    name: &[u8],
    copy: &[u8],
) -> Result<(), ShelfFault>
    requires shelf { S.is_reliable shelf.old }
    requires sink { K.is_reliable sink.old }
    ensures reliable { S.is_reliable shelf.new × K.is_reliable sink.new }
    ensures missing { IsErrOf result ShelfFault.Failed
        → ForSome (S.files shelf.old) (λ files. bytes_under files name.now ≡ None) }
{
    let bytes = shelf.fetch(alloc, name, 0, 9)?;
    shelf.store(copy, &bytes)?;
    sink.put(&bytes)
}

#[test]
fn reliable_forms_fail_only_for_a_missing_name(rt: HostRuntime) -> Result<(), AllocError> {
    let alloc = rt.alloc();
    let mut shelf = one_file(alloc, Vec::new(alloc))?;
    let mut sink = MemorySink::new(alloc, Vec::new(alloc));
    assert!(rt; copy_out(&mut shelf, &mut sink, alloc, b"a", b"b").is_ok());
    assert!(rt; copy_out(&mut shelf, &mut sink, alloc, b"b", b"c").is_ok());
    assert!(rt; has_failed(copy_out(&mut shelf, &mut sink, alloc, b"d", b"e")));
    assert!(rt; sink.bytes() == b"hellohello".as_slice());
    Ok(())
}

#[test]
fn memory_shelf_fails_listed_calls(rt: HostRuntime) -> Result<(), AllocError> {
    let alloc = rt.alloc();
    let mut shelf = one_file(alloc, vec![in alloc; 2, 5]?)?;
    assert!(rt; gives(&mut shelf, alloc, b"a", 1, 3, b"ell"));
    assert!(rt; has_failed(shelf.store(b"b", b"new")));
    assert!(rt; shelf.file(b"b").is_none());
    assert!(rt; shelf.store(b"b", b"new").is_ok());
    assert!(rt; shelf.store(b"a", b"bye").is_ok());
    assert!(rt; gives_none(&mut shelf, alloc, b"a", 0));
    assert!(rt; gives_none(&mut shelf, alloc, b"c", 0));
    assert!(rt; gives(&mut shelf, alloc, b"a", 0, 9, b"bye"));
    assert!(rt; gives(&mut shelf, alloc, b"a", 4, 9, b""));
    assert!(rt; holds(&shelf, b"b", b"new"));
    Ok(())
}

#[test]
fn files_in_memory_are_appended_to_and_finished(rt: HostRuntime) -> Result<(), AllocError> {
    let alloc = rt.alloc();
    let mut shelf = one_file(alloc, vec![in alloc; 1, 3, 6]?)?;
    assert!(rt; has_failed(shelf.begin(b"b", b"??")));
    assert!(rt; shelf.begin(b"b", b"??").is_ok());
    assert!(rt; has_failed(shelf.append(b"b", b"one")));
    assert!(rt; shelf.append(b"b", b"one").is_ok());
    assert!(rt; shelf.append(b"b", b"two").is_ok());
    assert!(rt; has_failed(shelf.append(b"b", b"six")));
    assert!(rt; has_failed(shelf.append(b"c", b"new")));
    assert!(rt; holds(&shelf, b"b", b"??onetwo"));
    assert!(rt; holds(&shelf, b"a", b"hello"));
    assert!(rt; shelf.file(b"c").is_none());
    assert!(rt; shelf.has_room(b"a", b"jelly"));
    assert!(rt; !shelf.has_room(b"a", b"jellyfish"));
    assert!(rt; shelf.has_room(b"c", b"jellyfish"));
    Ok(())
}

#[test]
fn memory_sink_fails_listed_calls(rt: HostRuntime) -> Result<(), AllocError> {
    let alloc = rt.alloc();
    let mut sink = MemorySink::new(alloc, vec![in alloc; 2]?);
    assert!(rt; sink.put(b"one ").is_ok());
    assert!(rt; has_failed(sink.put(b"two ")));
    assert!(rt; sink.put(b"three").is_ok());
    assert!(rt; sink.bytes() == b"one three".as_slice());
    Ok(())
}

// Whether a shelf fails to give a file and to make one of this name.
fn has_no_file<S: Shelf>(shelf: &mut S, alloc: Global, name: &[u8]) -> bool {
    gives_none(shelf, alloc, name, 0) && has_failed(shelf.store(name, b"hello"))
}

#[test]
fn file_shelf_reads_what_it_wrote(rt: HostRuntime) -> io::Result<()> {
    let alloc = rt.alloc();
    let folder = env::temp_dir(&rt)?;
    let number = process::id(rt.process());
    let path = format!(in alloc; "{}/lab_shelf-{number}", folder.as_str())?;
    let name = path.as_bytes();
    let mut shelf = FileShelf::new(rt);
    assert!(rt; shelf.store(name, b"hello, world").is_ok());
    assert!(rt; shelf.store(name, b"hello").is_ok());
    assert!(rt; gives(&mut shelf, alloc, name, 1, 3, b"ell"));
    assert!(rt; gives(&mut shelf, alloc, name, 3, 9, b"lo"));
    assert!(rt; gives(&mut shelf, alloc, name, 9, 9, b""));
    assert!(rt; shelf.begin(name, b"??").is_ok());
    assert!(rt; shelf.append(name, b"one").is_ok());
    assert!(rt; shelf.append(name, b"two").is_ok());
    assert!(rt; shelf.finish(name, b"ok").is_ok());
    assert!(rt; gives(&mut shelf, alloc, name, 0, 99, b"okonetwo"));
    fs::remove_file(&rt, path.as_str())?;
    assert!(rt; has_failed(shelf.append(name, b"one")));
    assert!(rt; has_failed(shelf.finish(name, b"ok")));
    assert!(rt; gives_none(&mut shelf, alloc, name, 0));
    assert!(rt; has_no_file(&mut shelf, alloc, folder.as_str().as_bytes()));
    assert!(rt; has_no_file(&mut shelf, alloc, b"\xff"));
    Ok(())
}

// The path under which Linux has an open file of this process.
fn path_of_open<E: AsRawFd>(alloc: Global, end: &E) -> Result<String, AllocError> {
    let number = end.as_raw_fd();
    format!(in alloc; "/proc/self/fd/{number}")
}

#[test]
fn a_pipe_is_read_on_from_where_it_is(rt: HostRuntime) -> io::Result<()> {
    let alloc = rt.alloc();
    let (reader, mut writer) = io::pipe(&rt)?;
    writer.write_all(b"hello, world")?;
    mem::drop(writer);
    let path = path_of_open(alloc, &reader)?;
    let name = path.as_bytes();
    let mut shelf = FileShelf::new(rt);
    assert!(rt; gives(&mut shelf, alloc, name, 0, 5, b"hello"));
    assert!(rt; gives(&mut shelf, alloc, name, 5, 99, b", world"));
    assert!(rt; gives(&mut shelf, alloc, name, 12, 9, b""));
    assert!(rt; gives_none(&mut shelf, alloc, name, 5));
    assert!(rt; gives_none(&mut shelf, alloc, name, 5));
    Ok(())
}

#[test]
fn a_pipe_is_no_file_to_be_written(rt: HostRuntime) -> io::Result<()> {
    let alloc = rt.alloc();
    let (mut reader, writer) = io::pipe(&rt)?;
    let path = path_of_open(alloc, &writer)?;
    let name = path.as_bytes();
    let mut shelf = FileShelf::new(rt);
    assert!(rt; has_failed(shelf.store(name, b"hello")));
    assert!(rt; has_failed(shelf.begin(name, b"hello")));
    assert!(rt; has_failed(shelf.append(name, b"hello")));
    assert!(rt; has_failed(shelf.finish(name, b"hello")));
    mem::drop(writer);
    let mut bytes = Vec::new(alloc);
    assert!(rt; reader.read_to_end(&mut bytes)? == 0);
    Ok(())
}

// A stream that takes three bytes, and then nothing.
#[derive(Drop)]
struct Narrow {
    room: usize,
}

impl Write for Narrow {
    fn write(&mut self, bytes: &[u8]) -> io::Result<usize> {
        let count = bytes.len().min(self.room);
        self.room -= count;
        Ok(count)
    }

    fn flush(&mut self) -> io::Result<()> {
        Ok(())
    }
}

#[test]
fn std_sink_takes_all_or_fails(rt: HostRuntime) {
    let mut output = StdSink::new(rt.stdout());
    assert!(rt; output.put(b"a line\n").is_ok());
    let mut narrow = StdSink::new(Narrow { room: 3 });
    assert!(rt; narrow.put(b"ab").is_ok());
    assert!(rt; has_failed(narrow.put(b"cd")));
    assert!(rt; narrow.put(b"").is_ok());
}
