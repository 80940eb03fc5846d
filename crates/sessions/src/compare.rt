//! What a call leaves is compared with what a case says.
use crate::call::{Left, call};
use crate::case::{Case, File, Sound, copy_of, find, put_file, text_of};
use crate::part::{MEMORY, push_part_differences};
use crate::pattern::{push_lines, push_pattern_difference};
use crate::sound::sound_file;
use crate::wav::{sample_at, samples_in};
use std::alloc::{AllocError, Global};
use std::marker::Sync;
use std::thread::Threads;

/// The first byte at which two texts differ.
fn first_difference(wanted: &[u8], found: &[u8]) -> usize {
    let mut place = 0usize;
    for byte in wanted {
        if found.get(place) != Some(byte) {
            break;
        }
        place = place.wrapping_add(1);
    }
    place
}

/// The line round a byte of a text, and its number. After the last line it is another one, which isn't there.
fn line_at(text: &[u8], place: usize) -> (usize, &str) {
    let (mut number, mut first, mut at) = (1usize, 0usize, 0usize);
    for byte in text {
        if *byte == b'\n' {
            if at >= place {
                break;
            }
            number = number.wrapping_add(1);
            first = at.wrapping_add(1);
        }
        at = at.wrapping_add(1);
    }
    let line = text.get(first..at).unwrap_or(&[]);
    if first >= text.len() {
        return (number, "(no line)");
    }
    (number, text_of(line))
}

/// Says which byte of a WAV file's head, or which sample, is another one.
fn push_wav_difference(
    differences: &mut String,
    what: &str,
    wanted: &[u8],
    found: &[u8],
    place: usize,
) -> Result<(), AllocError> {
    let (length, count) = (found.len(), wanted.len());
    if place < 44 {
        return writeln!(
            differences,
            "  {what}: another head from byte {place} on, {length} bytes (wanted {count})"
        );
    }
    let number = place.wrapping_sub(44) / 2;
    let found = sample_at(samples_in(found), number).unwrap_or(0);
    let wanted = sample_at(samples_in(wanted), number).unwrap_or(0);
    writeln!(
        differences,
        "  {what}: sample {number} is {found} (wanted {wanted}), {length} bytes (wanted {count})"
    )
}

/// Says where the bytes that were found are other ones than those that are wanted, where they are.
fn push_difference(
    differences: &mut String,
    what: &str,
    wanted: &[u8],
    found: &[u8],
) -> Result<(), AllocError> {
    if wanted == found {
        return Ok(());
    }
    let place = first_difference(wanted, found);
    if wanted.starts_with(b"RIFF") && found.starts_with(b"RIFF") {
        return push_wav_difference(differences, what, wanted, found, place);
    }
    push_text_difference(differences, what, wanted, found, place)
}

/// Says at which byte a text is another one, with its lines there.
fn push_text_difference(
    differences: &mut String,
    what: &str,
    wanted: &[u8],
    found: &[u8],
    place: usize,
) -> Result<(), AllocError> {
    let (number, line) = line_at(wanted, place);
    let (length, count) = (found.len(), wanted.len());
    writeln!(
        differences,
        "  {what}: line {number}, byte {place} of {length} (wanted {count})"
    )?;
    push_lines(differences, line, line_at(found, place).1)
}

/// Compares the status.
fn push_status_difference(
    differences: &mut String,
    wanted: usize,
    found: usize,
) -> Result<(), AllocError> {
    if wanted == found {
        return Ok(());
    }
    writeln!(differences, "  status: {found} (wanted {wanted})")
}

/// Compares standard output.
fn push_out_difference(
    alloc: Global,
    differences: &mut String,
    case: &Case,
    found: &[u8],
) -> Result<(), AllocError> {
    if case.is_any_order {
        push_pattern_difference(alloc, differences, text_of(&case.out), text_of(found))
    } else {
        push_difference(differences, "out", &case.out, found)
    }
}

/// Compares standard error, which has nothing where there may have been no memory for its line.
fn push_errors_difference(
    differences: &mut String,
    case: &Case,
    found: &[u8],
) -> Result<(), AllocError> {
    if case.may_lack_memory && found.is_empty() {
        return Ok(());
    }
    push_difference(differences, "errors", &case.errors, found)
}

/// Appends the file that follows from a report, or says why it can't be worked out.
fn push_sound_file(
    alloc: Global,
    differences: &mut String,
    leaves: &mut Vec<File>,
    case: &Case,
    sound: &Sound,
    report: &str,
) -> Result<(), AllocError> {
    match sound_file(alloc, case, sound, report) {
        Ok(bytes) => put_file(alloc, leaves, &sound.name, bytes),
        Err(why) => writeln!(differences, "  {}: {}", text_of(&sound.name), why.text()),
    }
}

/// Appends the files that follow from a report.
fn push_sound_files(
    alloc: Global,
    differences: &mut String,
    leaves: &mut Vec<File>,
    case: &Case,
    report: &str,
) -> Result<(), AllocError> {
    for sound in &case.sounds {
        push_sound_file(alloc, differences, leaves, case, sound, report)?;
    }
    Ok(())
}

/// Compares a file that is there.
fn push_file_difference(
    differences: &mut String,
    leaves: &[File],
    files: &[File],
    file: &File,
) -> Result<(), AllocError> {
    let (name, found) = file;
    let wanted = match find(leaves, name) {
        Some(bytes) => Some(bytes),
        None => find(files, name),
    };
    match wanted {
        Some(wanted) => push_difference(differences, text_of(name), wanted, found),
        None => writeln!(differences, "  {}: it was made", text_of(name)),
    }
}

/// Compares the files that are there.
fn push_file_differences(
    differences: &mut String,
    leaves: &[File],
    files: &[File],
    found: &[File],
) -> Result<(), AllocError> {
    for file in found {
        push_file_difference(differences, leaves, files, file)?;
    }
    Ok(())
}

/// Says which files aren't there.
fn push_missing(
    differences: &mut String,
    leaves: &[File],
    found: &[File],
) -> Result<(), AllocError> {
    for (name, _) in leaves {
        if find(found, name).is_none() {
            writeln!(differences, "  {}: it wasn't made", text_of(name))?;
        }
    }
    Ok(())
}

/// Compares the files.
fn push_files_difference(
    alloc: Global,
    differences: &mut String,
    case: &Case,
    left: &Left,
) -> Result<(), AllocError> {
    let mut leaves = copy_of(alloc, &case.leaves)?;
    let (report, found) = (text_of(left.out.bytes()), left.shelf.entries());
    push_sound_files(alloc, differences, &mut leaves, case, report)?;
    push_file_differences(differences, &leaves, &case.files, found)?;
    push_missing(differences, &leaves, found)
}

/// Runs a case, and says what is other than it must be: nothing where it passes.
pub(crate) fn push_differences<R: Threads + Sync>(
    rt: &R,
    alloc: Global,
    differences: &mut String,
    case: &Case,
) -> Result<(), AllocError> {
    let left = call(rt, alloc, case)?;
    if case.may_lack_memory && left.status == MEMORY {
        return push_part_differences(differences, case, &left);
    }
    push_status_difference(
        differences,
        usize::from(case.status),
        usize::from(left.status),
    )?;
    push_out_difference(alloc, differences, case, left.out.bytes())?;
    push_errors_difference(differences, case, left.errors.bytes())?;
    push_files_difference(alloc, differences, case, &left)
}
