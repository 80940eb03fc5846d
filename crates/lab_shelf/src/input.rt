//! A file of the system that is read piece by piece.
ghost use Rattle.std.specs.Prelude.{◌≤◌, IfOk, vec_len};

use crate::output::is_fifo;
use std::alloc::Global;
use std::fs::File;
use std::io::{ErrorKind, Read, Seek, SeekFrom};
use std::rt::Files;
use std::{fs, io};

/// A file that is read: its path, the open file, and the number of the byte that it gives next.
#[derive(Drop)]
pub(crate) struct OpenInput {
    path: Vec<u8>,
    file: File,
    next: u64,
}

impl OpenInput {
    /// A file that is opened, with its next byte the one of this number.
    fn opened<R: Files<File = File>>(
        rt: &R,
        alloc: Global,
        path: &str,
        from: u64,
    ) -> io::Result<OpenInput> {
        // to open a FIFO waits for who writes into it, and then it is at its first byte
        if from > 0 && is_fifo(rt, path) {
            return Err(ErrorKind::NotSeekable.into());
        }
        let file = fs::open(rt, path)?;
        let path = Vec::from_slice(alloc, path.as_bytes())?;
        OpenInput {
            path,
            file,
            next: 0,
        }
        .at(from)
    }

    /// The file with its next byte the one of this number, to which a pipe can't be sought.
    fn at(mut self, from: u64) -> io::Result<OpenInput> {
        if self.next != from {
            self.file.seek(SeekFrom::Start(from))?;
            self.next = from;
        }
        Ok(self)
    }

    /// The next bytes: `most` of them, or as many as there are.
    fn read(&mut self, alloc: Global, most: u64) -> io::Result<Vec<u8>>
        ensures { IfOk result (λ bytes. vec_len bytes ≤ most) }
    {
        let mut bytes = Vec::new(alloc);
        (&self.file).take(most).read_to_end(&mut bytes)?;
        bytes.truncate(most as usize);
        self.next = self.next.saturating_add(bytes.len() as u64);
        Ok(bytes)
    }
}

/// The file of this path with its next byte the one of this number: `last`, where it is that file,
/// and else one that is opened.
fn input_at<R: Files<File = File>>(
    rt: &R,
    alloc: Global,
    last: Option<OpenInput>,
    path: &str,
    from: u64,
) -> io::Result<OpenInput> {
    if let Some(input) = last {
        if input.path.as_slice() == path.as_bytes() {
            return input.at(from);
        }
    }
    OpenInput::opened(rt, alloc, path, from)
}

/// A file's bytes from the byte `from` on, `most` of them or as many as there are, behind the file,
/// which is open for the next ones. `last` is the file that was read last.
pub(crate) fn read_piece<R: Files<File = File>>(
    rt: &R,
    alloc: Global,
    last: Option<OpenInput>,
    path: &str,
    from: u64,
    most: u64,
) -> io::Result<(OpenInput, Vec<u8>)>
    ensures { IfOk result (λ piece. vec_len piece.1 ≤ most) }
{
    let mut input = input_at(rt, alloc, last, path, from)?;
    let bytes = input.read(alloc, most)?;
    Ok((input, bytes))
}
