//! The files that a run writes.
ghost use Rattle.std.specs.Prelude.{◌≡◌, IfErr, IfOk};
ghost use Rattle.lab_lines.specs.Limits.{IsScript};
ghost use Rattle.lab_output.specs.Files.{output_files, played_file, recorded_file, reader_channels};
ghost use Rattle.lab_stop.specs.declared.stop.Stop.TheVariants as stops;

use bindings::Bindings;
use lab_lines::{CardLine, ReaderLine, Script};
use lab_stop::Stop;
use std::alloc::{AllocError, Global};
use std::marker::Model;

/// The name of a file that a run writes. Contracts see it as its bytes.
#[derive(Debug, Drop)]
pub struct OutputName {
    bytes: Vec<u8>,
}

impl Model for OutputName {
    ghost use Rattle.std.specs.Prelude.{List, ℕ};

    ghost Value = { List ℕ };

    ghost view = { λ name. name.bytes.items };
}

impl OutputName {
    /// The name of these bytes.
    pub fn from_vec(bytes: Vec<u8>) -> OutputName
        ensures { result ≡ bytes.items }
    {
        OutputName { bytes }
    }

    /// The bytes of the name.
    pub fn as_slice(&self) -> &[u8]
        ensures { result.now ≡ self.now }
    {
        self.bytes.as_slice()
    }
}

/// A file that a run writes: a WAV file of 16-bit samples.
#[derive(Debug, Drop)]
pub struct OutputFile {
    /// Its name on the shelf.
    pub name: OutputName,
    /// Samples per frame, 1 to 8.
    pub channels: u16,
    /// Frames per second (Hz).
    pub rate: u32,
}

/// How many channels a reader has: those that its bindings name, or all of the card.
fn reader_channels(card: &CardLine, bindings: &Option<Bindings>) -> u16
    ensures { result ≡ reader_channels card.now bindings.now }
{
    match bindings {
        Some(bindings) => u16::from(bindings.len()),
        None => u16::from(card.channels),
    }
}

/// The file `OUT.wav` with what the card played, of the card's channels and rate.
pub fn played_file(alloc: Global, card: &CardLine, out: &[u8]) -> Result<OutputFile, AllocError>
    ensures { IfOk result (λ file. file ≡ played_file card.now out.now) }
{
    let mut name = Vec::from_slice(alloc, out)?;
    name.extend_from_slice(b".wav")?;
    Ok(OutputFile {
        name: OutputName::from_vec(name),
        channels: u16::from(card.channels),
        rate: card.rate,
    })
}

/// The file `OUT.NAME.wav` with what a reader took, of the reader's channels and the card's rate.
pub fn recorded_file(
    alloc: Global,
    card: &CardLine,
    out: &[u8],
    reader: &ReaderLine,
) -> Result<OutputFile, AllocError>
    ensures { IfOk result (λ file. file ≡ recorded_file card.now out.now reader.now) }
{
    let mut name = Vec::from_slice(alloc, out)?;
    name.push(b'.')?;
    name.extend_from_slice(reader.name.as_str().as_bytes())?;
    name.extend_from_slice(b".wav")?;
    Ok(OutputFile {
        name: OutputName::from_vec(name),
        channels: reader_channels(card, &reader.bindings),
        rate: card.rate,
    })
}

/// The files that a run of a script writes, in the order in which they are written: `OUT.wav` with what
/// the card played, of the card's channels and rate, and then `OUT.NAME.wav` with what each reader took,
/// of the reader's channels and the card's rate. A reader has the channels that its bindings name, or
/// all of the card's where it has no bindings.
///
/// No two of them have one name. The only error is `Stop::Memory`.
pub fn output_files(alloc: Global, script: &Script, out: &[u8]) -> Result<Vec<OutputFile>, Stop>
    requires script { IsScript script.now }
    ensures files { IfOk result (λ files. files.items ≡ output_files script.now out.now) }
    ensures only { IfErr result (λ stop. stop ≡ stops.Memory) }
{
    let mut files = Vec::new(alloc);
    files.push(played_file(alloc, &script.card, out)?)?;
    for reader in script.readers.as_slice() {
        files.push(recorded_file(alloc, &script.card, out, reader)?)?;
    }
    Ok(files)
}
