//! A WAV file of the shelf, read piece by piece.
ghost use Rattle.std.specs.Prelude.{◌≡◌, ◌*◌, ◌≤◌, ◌++◌, ℕ, List, [], Option, IfErr, IfOk, OnOk, length};
ghost use Rattle.std.specs.Option.{ForSome};
ghost use Rattle.lab_stop.specs.Effects.{AnswersFrom, OnlyReads};
ghost use Rattle.wav_io.specs.Reading.{IsRefusal, Reads, wav_file};
ghost use Rattle.lab_input.specs.declared.shape.Shape.{Shape};
ghost use Rattle.lab_input.specs.Input.{wav_in};
ghost use Rattle.lab_input.specs.Plug.{IsShape, sound_file, weight};
ghost use Rattle.lab_input.specs.Sound.{IsAfter, IsOfFile, IsPlainAfter, IsPlainOfFile};

use crate::plug::PlugReader;
use crate::shape::Shape;
use lab_shelf::Shelf;
use lab_stop::{PIECE_BYTES, Stop, fetch_piece, wav_stop};
use std::alloc::Global;
use wav_io::{Samples, Wav, WavError, WavReader};

/// The most bytes that a WAV file may have.
const WAV_MOST: u64 = 67_108_864;

/// A WAV file that comes in pieces: how far it is read, and the samples so far.
#[derive(Drop)]
struct SoundReader {
    reader: WavReader,
    samples: Vec<i16>,
}

impl SoundReader {
    /// A reader before the first piece of a file.
    fn new(alloc: Global) -> SoundReader
        ensures { IsPlainAfter result [] }
    {
        SoundReader {
            reader: WavReader::new(),
            samples: Vec::new(alloc),
        }
    }

    /// Takes the next piece of the file. An error is that of the whole file, whatever follows, or
    /// `Memory`.
    fn feed(&mut self, piece: &[u8]) -> Result<(), WavError>
        ensures more { (seen : List ℕ) → IsPlainAfter self.old seen
            → OnOk result (IsPlainAfter self.new (seen ++ piece.now)) }
        ensures refused { (seen rest : List ℕ) → IsPlainAfter self.old seen
            → IfErr result (λ e. IsRefusal e (wav_file ((seen ++ piece.now) ++ rest))) }
    {
        self.reader.feed(piece, &mut self.samples)
    }

    /// The sound of the file that ends here, or why it is refused.
    fn finish(self) -> Result<Wav, WavError>
        requires { IsPlainOfFile self }
        ensures { (seen : List ℕ) → IsPlainAfter self seen → Reads result (wav_file seen) }
    {
        let head = self.reader.finish()?;
        Ok(Wav {
            channels: head.channels,
            rate: head.rate,
            samples: Samples::from_vec(self.samples),
        })
    }
}

/// A WAV file that comes in pieces, as it is or converted.
enum FileReader {
    Plain(SoundReader),
    Plugged(PlugReader),
}

// One call wherever a reader is let go. A derive drops each part in turn there, and the proof goes through all of them.
impl Drop for FileReader {
    fn drop(self) {
        match self {
            FileReader::Plain(_) => (),
            FileReader::Plugged(_) => (),
        }
    }
}

impl FileReader {
    /// A reader before the first piece of a file, which is converted where there is a shape for it.
    fn new(alloc: Global, shape: Option<Shape>) -> FileReader
        requires { ForSome shape IsShape }
        ensures { IsAfter result shape [] }
    {
        match shape {
            Some(shape) => FileReader::Plugged(PlugReader::new(alloc, shape)),
            None => FileReader::Plain(SoundReader::new(alloc)),
        }
    }

    /// Takes the next piece of the file. An error is that of the whole file, whatever follows, or
    /// `Memory`.
    fn feed(&mut self, alloc: Global, piece: &[u8]) -> Result<(), WavError>
        requires { IsOfFile self.old }
        ensures more { (shape : Option Shape) (seen : List ℕ) → IsAfter self.old shape seen
            → OnOk result (IsAfter self.new shape (seen ++ piece.now)) }
        ensures refused { (shape : Option Shape) (seen rest : List ℕ) → IsAfter self.old shape seen
            → IfErr result (λ e. IsRefusal e (sound_file shape ((seen ++ piece.now) ++ rest))) }
    {
        match self {
            FileReader::Plain(reader) => reader.feed(piece),
            FileReader::Plugged(reader) => reader.feed(alloc, piece),
        }
    }

    /// The sound of the file that ends here, or why it is refused.
    fn finish(self) -> Result<Wav, WavError>
        requires { IsOfFile self }
        ensures { (shape : Option Shape) (seen : List ℕ) → IsAfter self shape seen
            → Reads result (sound_file shape seen) }
    {
        match self {
            FileReader::Plain(reader) => reader.finish(),
            FileReader::Plugged(reader) => reader.finish(),
        }
    }
}

/// How many bytes of a run's limit a sound takes whose file has so many: those, or the bytes of its samples where it was
/// converted and they are more.
fn weight(shape: Option<Shape>, bytes: u64, wav: &Wav) -> u64
    requires bytes { bytes ≤ 67_174_400 }
    requires short { ForSome shape (λ _. 2 * length wav.now.samples ≤ 67_108_864) }
    ensures value { result ≡ weight shape bytes wav.now }
    ensures few { result ≤ 67_174_400 }
{
    match shape {
        Some(_) => bytes.max(2 * wav.samples.len() as u64),
        None => bytes,
    }
}

/// The sound in a WAV file, converted where there is a shape, and how many bytes of a run's limit it takes. The file is
/// fetched piece by piece, at most one piece past the last byte that a WAV file may have, and only its samples are kept.
///
/// It stops with `Wav`, the file's name and why it is refused, and with `Read` and its name where the
/// shelf fails, which counts that; with `Memory` where no memory is left.
pub(crate) fn read_sound<S: Shelf>(
    shelf: &mut S,
    alloc: Global,
    shape: Option<Shape>,
    name: &[u8],
) -> Result<(Wav, u64), Stop>
    requires { ForSome shape IsShape }
    ensures sound { AnswersFrom S.Shelf (λ r. r) result shelf.old
        (λ files. wav_in files shape name.now) }
    ensures few { IfOk result (λ r. r.1 ≤ 67_174_400) }
    ensures only_reads { OnlyReads S.Shelf result shelf.old shelf.new }
{
    let mut sound = FileReader::new(alloc, shape);
    let mut length = 0;
    let mut is_last = false;
    while !is_last && length <= WAV_MOST {
        let piece = fetch_piece(shelf, alloc, name, length)?;
        if let Err(why) = sound.feed(alloc, &piece) {
            return Err(wav_stop(alloc, name, why));
        }
        length += piece.len() as u64;
        is_last = piece.len() < PIECE_BYTES;
    }
    match sound.finish() {
        Ok(wav) => {
            let bytes = weight(shape, length, &wav);
            Ok((wav, bytes))
        }
        Err(why) => Err(wav_stop(alloc, name, why)),
    }
}
