//! A WAV file that comes piece by piece, and is converted meanwhile.
ghost use Rattle.std.specs.Prelude.{◌≡◌, ◌++◌, ℕ, List, [], None, Ok, IfErr, IfOk, IfSome, OnOk};
ghost use Rattle.wav_io.specs.Reading.{IsRefusal, Reads};
ghost use Rattle.wav_io.specs.declared.error.WavError.TheVariants.{Memory};
ghost use Rattle.plug_chain.specs.Plugs.{Completes, IsBeginning};
ghost use Rattle.lab_input.specs.Plug.{IsShape, conversion_to, plug_file};
ghost use Rattle.lab_input.specs.Converting.{HasPiece, IsConverting, IsFed, IsPlugOfFile};

use crate::shape::{Shape, wide_of};
use plug_chain::{Plug, Table};
use std::alloc::Global;
use wav_io::{RawHead, RawReader, Samples, Wav, WavError};

/// The most samples that a converted sound may have: those of 67,108,864 bytes.
const SAMPLES_MOST: u64 = 33_554_432;

/// A WAV file that comes in pieces, each of which is converted as soon as it is there: how far it is read, the conversion
/// from the file's format on, the bytes of a piece's samples, how many of them came so far, and the samples that are known.
#[derive(Drop)]
pub(crate) struct PlugReader {
    shape: Shape,
    reader: RawReader,
    plug: Option<Plug>,
    body: Vec<u8>,
    taken: u32,
    samples: Vec<i16>,
}

/// The conversion that has begun, or else that of a file with this head.
fn begun(alloc: Global, plug: Option<Plug>, head: RawHead, shape: Shape) -> Result<Plug, WavError>
    requires { IsShape shape }
    ensures kept { IfSome plug (λ stage. result ≡ Ok stage) }
    ensures begins { plug ≡ None → IfOk result (λ p. IsBeginning p
        (conversion_to shape head.channels head.rate head.bits)) }
    ensures only_memory { IfErr result (λ e. e ≡ Memory) }
{
    if let Some(plug) = plug {
        return Ok(plug);
    }
    match Table::usual(alloc, head.channels as u8, shape.channels) {
        Ok(table) => Ok(Plug::new(wide_of(head.bits), table, head.rate, shape.rate)),
        Err(_) => Err(WavError::Memory),
    }
}

/// The samples of the whole conversion, where one has begun.
fn ended(plug: Option<Plug>, mut samples: Vec<i16>) -> Result<Vec<i16>, WavError>
    ensures some { IfSome plug (λ stage. IfOk result (λ v. Completes stage samples.items v.items)) }
    ensures none { plug ≡ None → IfOk result (λ v. v.items ≡ samples.items) }
    ensures only_memory { IfErr result (λ e. e ≡ Memory) }
{
    match plug {
        Some(plug) => match plug.finish(&mut samples) {
            Ok(()) => Ok(samples),
            Err(_) => Err(WavError::Memory),
        },
        None => Ok(samples),
    }
}

impl PlugReader {
    /// A reader before the first piece of a file, which is converted to this shape.
    pub(crate) fn new(alloc: Global, shape: Shape) -> PlugReader
        requires { IsShape shape }
        ensures shape { result.shape ≡ shape }
        ensures converting { IsConverting result [] }
    {
        PlugReader {
            shape,
            reader: RawReader::new(),
            plug: None,
            body: Vec::new(alloc),
            taken: 0,
            samples: Vec::new(alloc),
        }
    }

    /// Converts the bytes of a piece's samples in a file with this head. An error is that the converted samples are too many,
    /// or `Memory`.
    fn convert(&mut self, alloc: Global, head: RawHead) -> Result<(), WavError>
        requires { HasPiece self.old head.channels head.rate head.bits }
        ensures shape { self.new.shape ≡ self.old.shape }
        ensures more { (seen : List ℕ) → IsFed self.old head.channels head.rate head.bits seen
            → OnOk result (IsConverting self.new seen) }
        ensures refused { (seen rest : List ℕ)
            → IsFed self.old head.channels head.rate head.bits seen
            → IfErr result (λ e. IsRefusal e (plug_file self.old.shape (seen ++ rest))) }
    {
        let mut plug = begun(alloc, self.plug.take(), head, self.shape)?;
        self.taken += self.body.len() as u32;
        if plug.converted_len(self.taken) > SAMPLES_MOST {
            return Err(WavError::TooLong);
        }
        match plug.feed(&self.body, &mut self.samples) {
            Ok(()) => {
                self.plug = Some(plug);
                Ok(())
            }
            Err(_) => Err(WavError::Memory),
        }
    }

    /// Takes the next piece of the file. An error is that of the whole file, whatever follows, or `Memory`.
    pub(crate) fn feed(&mut self, alloc: Global, piece: &[u8]) -> Result<(), WavError>
        requires { IsPlugOfFile self.old }
        ensures shape { self.new.shape ≡ self.old.shape }
        ensures more { (seen : List ℕ) → IsConverting self.old seen
            → OnOk result (IsConverting self.new (seen ++ piece.now)) }
        ensures refused { (seen rest : List ℕ) → IsConverting self.old seen
            → IfErr result
            (λ e. IsRefusal e (plug_file self.old.shape ((seen ++ piece.now) ++ rest))) }
    {
        self.body.clear();
        self.reader.feed(piece, &mut self.body)?;
        match self.reader.head() {
            Some(head) => self.convert(alloc, head),
            None => Ok(()),
        }
    }

    /// The converted sound of the file that ends here, or why it is refused.
    pub(crate) fn finish(self) -> Result<Wav, WavError>
        requires { IsPlugOfFile self }
        ensures { (seen : List ℕ) → IsConverting self seen
            → Reads result (plug_file self.shape seen) }
    {
        let PlugReader {
            shape,
            reader,
            plug,
            body: _,
            taken: _,
            samples,
        } = self;
        reader.finish()?;
        let samples = ended(plug, samples)?;
        Ok(Wav {
            channels: u16::from(shape.channels),
            rate: shape.rate,
            samples: Samples::from_vec(samples),
        })
    }
}
