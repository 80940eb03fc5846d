//! Calls of the program over files in memory, with gates of the test's own.
ghost use Rattle.std.specs.Prelude.{◌≤◌, length};

use lab_commands::dmixlab;
use lab_shelf::{MemoryShelf, MemorySink};
use mix_core::Gate;
use std::alloc::{AllocError, Global};
use std::marker::{Send, Sync};
use std::thread::Threads;

// What is in a WAV file between its RIFF size and its data: a format of one channel at 48,000 Hz.
pub(super) const MONO: &[u8] =
    b"WAVEfmt \x10\x00\x00\x00\x01\x00\x01\x00\x80\xbb\x00\x00\x00\x77\x01\x00\x02\x00\x10\x00";

// The same of two channels.
pub(super) const STEREO: &[u8] =
    b"WAVEfmt \x10\x00\x00\x00\x01\x00\x02\x00\x80\xbb\x00\x00\x00\xee\x02\x00\x04\x00\x10\x00";

// What a run leaves: its status, its files, and what it put on standard output.
pub(super) struct Left {
    status: u8,
    shelf: MemoryShelf,
    out: MemorySink,
}

// One call wherever it is let go. A derive drops each part in turn there, and the proof goes through all of them.
impl Drop for Left {
    fn drop(self) {
        let Left {
            status: _,
            shelf: _,
            out: _,
        } = self;
    }
}

impl Left {
    // Whether the run was done, with this report, and this file of what the card played.
    pub(super) fn is_done(&self, report: &str, played: &[u8]) -> bool {
        self.status == 0 && self.out.bytes() == report.as_bytes() && self.held(b"o.wav") == played
    }

    // Whether the call ended with status 0.
    pub(super) fn is_ok(&self) -> bool {
        self.status == 0
    }

    // What the file of this name holds, which is nothing where there is none.
    pub(super) fn held(&self, name: &[u8]) -> &[u8] {
        self.shelf.file(name).unwrap_or(&[])
    }
}

// Runs the script `s` with the outputs `o.wav` and so on, over these files, with these gates.
pub(super) fn run_gated<R: Threads + Sync, G: Gate + Send>(
    rt: &R,
    alloc: Global,
    files: Vec<(Vec<u8>, Vec<u8>)>,
    gates: &mut [G],
) -> Result<Left, AllocError>
    requires { 128 ≤ length gates.old }
{
    call_gated(rt, alloc, &["run", "s", "o"], files, gates)
}

// Calls the program with these words, over these files, with these gates.
pub(super) fn call_gated<R: Threads + Sync, G: Gate + Send>(
    rt: &R,
    alloc: Global,
    call: &[&str],
    files: Vec<(Vec<u8>, Vec<u8>)>,
    gates: &mut [G],
) -> Result<Left, AllocError>
    requires { 128 ≤ length gates.old }
{
    let mut words = Vec::new(alloc);
    for word in call {
        words.push(Vec::from_slice(alloc, word.as_bytes())?)?;
    }
    let mut shelf = MemoryShelf::new(files, Vec::new(alloc));
    let mut out = MemorySink::new(alloc, Vec::new(alloc));
    let mut errors = MemorySink::new(alloc, Vec::new(alloc));
    let status = dmixlab(rt, alloc, &words, &mut shelf, &mut out, &mut errors, gates);
    Ok(Left { status, shelf, out })
}

// The files of a run: the script `s`, and a WAV file of one channel for each name, of runs of equal samples.
pub(super) fn files_of(
    alloc: Global,
    script: &str,
    wavs: &[(&str, &[(u16, i16)])],
) -> Result<Vec<(Vec<u8>, Vec<u8>)>, AllocError> {
    let mut files = Vec::new(alloc);
    let script = Vec::from_slice(alloc, script.as_bytes())?;
    files.push((Vec::from_slice(alloc, b"s")?, script))?;
    for (name, runs) in wavs {
        files.push((
            Vec::from_slice(alloc, name.as_bytes())?,
            mono_of(alloc, runs)?,
        ))?;
    }
    Ok(files)
}

// A WAV file of one channel, of runs of equal samples: each is a number of samples, and the sample.
pub(super) fn mono_of(alloc: Global, runs: &[(u16, i16)]) -> Result<Vec<u8>, AllocError> {
    let mut samples = Vec::new(alloc);
    for (count, sample) in runs {
        for _ in 0..*count {
            samples.push(*sample)?;
        }
    }
    wav_around(alloc, MONO, &samples)
}

// A WAV file of what is before its data, and of its samples.
pub(super) fn wav_around(
    alloc: Global,
    head: &[u8],
    samples: &[i16],
) -> Result<Vec<u8>, AllocError> {
    let size = u32::try_from(samples.len()).unwrap_or(0).wrapping_mul(2);
    let before = u32::try_from(head.len()).unwrap_or(0).wrapping_add(8);
    let mut bytes = Vec::new(alloc);
    bytes.extend_from_slice(b"RIFF")?;
    bytes.extend_from_slice(&size.wrapping_add(before).to_le_bytes())?;
    bytes.extend_from_slice(head)?;
    bytes.extend_from_slice(b"data")?;
    bytes.extend_from_slice(&size.to_le_bytes())?;
    for sample in samples {
        bytes.extend_from_slice(&sample.to_le_bytes())?;
    }
    Ok(bytes)
}
