//! Writes to a file of the system.
use std::fs::{File, OpenOptions};
use std::io::{ErrorKind, Seek, SeekFrom, Write};
use std::os::unix::fs::FileTypeExt;
use std::rt::Files;
use std::{fs, io};

/// Whether there is a FIFO of this path.
pub(crate) fn is_fifo<R: Files>(rt: &R, path: &str) -> bool {
    match fs::metadata(rt, path) {
        Ok(metadata) => metadata.file_type().is_fifo(),
        Err(_) => false,
    }
}

/// Opens a file to be written. One that can't be sought is refused, since it holds nothing in which
/// a head could be replaced; a FIFO isn't even opened, since that would wait for who reads it.
fn open_output<R: Files<File = File>>(
    rt: &R,
    options: &OpenOptions,
    path: &str,
) -> io::Result<File> {
    if is_fifo(rt, path) {
        return Err(ErrorKind::NotSeekable.into());
    }
    let mut file = options.open(rt, path)?;
    file.seek(SeekFrom::Start(0))?;
    Ok(file)
}

/// Writes these bytes to a file that is opened with the options: at its end where they ask to
/// append, and otherwise at its beginning.
pub(crate) fn write_bytes<R: Files<File = File>>(
    rt: &R,
    options: &OpenOptions,
    path: &str,
    bytes: &[u8],
) -> io::Result<()> {
    let mut file = open_output(rt, options, path)?;
    file.write_all(bytes)
}
