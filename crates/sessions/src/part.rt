//! What a call may leave that ran out of memory: the first part of what it was to leave.
use crate::call::Left;
use crate::case::{Case, File, find, text_of};
use std::alloc::AllocError;

/// The status of a call that ran out of memory.
pub(crate) const MEMORY: u8 = 6;

/// What it puts on standard error, where there is memory for that.
const LINE: &[u8] = b"dmixlab: memory\n";

/// Whether a byte of a WAV file's head is of its sizes, which are all ones while its length isn't known.
fn is_open_size(place: usize, byte: u8) -> bool {
    byte == 0xff && matches!(place, 4..8 | 40..44)
}

/// Whether bytes are the first of others; the sizes in the head of a WAV file may not be known yet.
fn is_first_part(found: &[u8], wanted: &[u8]) -> bool {
    let is_wav = wanted.starts_with(b"RIFF");
    let mut place = 0usize;
    for byte in found {
        let is_open = is_wav && is_open_size(place, *byte);
        if !is_open && wanted.get(place) != Some(byte) {
            return false;
        }
        place = place.wrapping_add(1);
    }
    found.len() <= wanted.len()
}

/// Says that a text is no first part, where it is none.
fn push_text(
    differences: &mut String,
    what: &str,
    wanted: &[u8],
    found: &[u8],
) -> Result<(), AllocError> {
    if wanted.starts_with(found) {
        return Ok(());
    }
    let (length, count) = (found.len(), wanted.len());
    writeln!(
        differences,
        "  {what}: its {length} bytes aren't the first of {count}"
    )
}

/// Whether a file is as it was, or has the first bytes of what it was to have.
fn is_left_in_part(case: &Case, file: &File) -> bool {
    let (name, found) = file;
    if find(&case.files, name) == Some(found.as_slice()) {
        return true;
    }
    match find(&case.leaves, name) {
        Some(wanted) => is_first_part(found, wanted),
        None => false,
    }
}

/// Says which files are neither as they were nor the first part of what they were to be.
fn push_files(differences: &mut String, case: &Case, found: &[File]) -> Result<(), AllocError> {
    for file in found {
        if !is_left_in_part(case, file) {
            let name = text_of(&file.0);
            writeln!(
                differences,
                "  {name}: it is neither as it was nor a first part"
            )?;
        }
    }
    Ok(())
}

/// Says what is no first part of what a call was to leave that ran out of memory. A pattern of a report has no first part.
pub(crate) fn push_part_differences(
    differences: &mut String,
    case: &Case,
    left: &Left,
) -> Result<(), AllocError> {
    if !case.is_any_order {
        push_text(differences, "out", &case.out, left.out.bytes())?;
    }
    push_text(differences, "errors", LINE, left.errors.bytes())?;
    push_files(differences, case, left.shelf.entries())
}
