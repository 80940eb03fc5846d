//! What a run reads over a shelf with a large file, of which a case would take too long: how many fetches there are.
mod large;

use lab_input::read_input;
use lab_shelf::{MemorySink, Shelf};
use lab_stop::tell;
use large::LargeShelf;
use std::alloc::Global;
use std::test::*;

/// The line of the stop at which reading the script `s` of a shelf ends, or nothing.
fn line_of<S: Shelf>(alloc: Global, shelf: &mut S) -> Result<Vec<u8>, Fail> {
    let mut errors = MemorySink::new(alloc, Vec::new(alloc));
    if let Err(stop) = read_input(shelf, alloc, b"s") {
        tell(alloc, &mut errors, &stop);
    }
    Ok(Vec::from_slice(alloc, errors.bytes())?)
}

#[test]
fn a_file_that_is_too_long_is_fetched_up_to_one_piece_more(rt: HostRuntime) -> Result<(), Fail> {
    let alloc = rt.alloc();
    let script = b"card\nclient a large\n";
    // A file of 67,108,864 bytes has 1,024 full pieces, and one of no byte after them.
    let mut shelf = LargeShelf::new(alloc, script, 67_108_864)?;
    assert!(rt; read_input(&mut shelf, alloc, b"s").is_ok());
    assert!(rt; shelf.fetches == 1026);
    let mut shelf = LargeShelf::new(alloc, script, 67_300_000)?;
    assert!(rt;
        line_of(alloc, &mut shelf)?.as_slice() == b"dmixlab: wav large: TooLong\n".as_slice()
    );
    assert!(rt; shelf.fetches == 1026);
    Ok(())
}

#[test]
fn the_files_of_a_run_have_so_many_bytes_together(rt: HostRuntime) -> Result<(), Fail> {
    let alloc = rt.alloc();
    // The first four have exactly as many as a run may have.
    let script =
        b"card capture large\nclient a large\nclient b large\nclient c large\nclient d small\n";
    let mut shelf = LargeShelf::new(alloc, script, 67_108_864)?;
    assert!(rt;
        line_of(alloc, &mut shelf)?.as_slice() == b"dmixlab: wav small: TooLong\n".as_slice()
    );
    Ok(())
}
