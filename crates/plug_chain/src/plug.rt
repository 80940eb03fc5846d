//! A plug: bytes in any pieces in, samples out.
ghost use Rattle.std.specs.Prelude.{◌≡◌, ◌↔◌, ℕ, IfErr, IsTrue, List, OnErr, OnOk, length};
ghost use Rattle.plug_chain.specs.Plugs.{Completes, Continues, IsBeginning, IsStage, plug_of};
ghost use Rattle.plug_chain.specs.Rates.{AreRates};

use crate::converter::{Converter, Progress};
use crate::rates::Rates;
use crate::table::Table;
use crate::wide::Wide;
use snd_base::PcmError;
use std::marker::Model;

/// A conversion of bytes that come in pieces into interleaved samples of 16 bits: what ALSA's `plug` plugin does for a
/// slave of another format, number of channels and rate, by whole numbers alone.
///
/// Each sample is widened or rounded down to 16 bits, each frame goes through the table, and an output frame lies on the
/// straight line between the two frames around it, rounded down. A rest that is no whole frame is dropped.
///
/// Contracts see a stage: the conversion, the bytes of the begun frame, the last whole frame, and where the next output
/// frame lies. It keeps no more than that of the bytes; that they led to the stage is a relation, `HasTakenBytes`.
#[derive(Debug, Drop)]
pub struct Plug {
    converter: Converter,
    progress: Progress,
}

impl Model for Plug {
    ghost use Rattle.plug_chain.specs.Plugs.{IsStage, Stage};
    ghost use Rattle.plug_chain.specs.Views.{stage_of};

    ghost Value = { Stage };

    ghost view = { λ p. stage_of p.converter p.progress };

    ghost invariant = { λ p. IsStage (stage_of p.converter p.progress) };
}

impl Plug {
    /// Whether a plug can be made for these rates: both are at least 1, and the output rate is at most 192000.
    pub fn can_new(in_rate: u32, out_rate: u32) -> bool
        ensures { IsTrue result ↔ AreRates (record { input = in_rate; output = out_rate }) }
    {
        1 <= in_rate && 1 <= out_rate && out_rate <= 192_000
    }

    /// A conversion that begins, from samples of this format and frames of the table's inputs at `in_rate` frames a second
    /// to frames of its outputs at `out_rate`. The caller has rates of at least 1, and an output rate of at most 192000.
    pub fn new(from: Wide, table: Table, in_rate: u32, out_rate: u32) -> Plug
        requires { AreRates (record { input = in_rate; output = out_rate }) }
        ensures { IsBeginning result (record {
          from = from;
          table = table;
          rates = record { input = in_rate; output = out_rate };
        }) }
    {
        let rates = Rates::new(in_rate, out_rate);
        let converter = Converter { from, table, rates };
        let progress = converter.start();
        Plug {
            converter,
            progress,
        }
    }

    /// How many samples the whole conversion of so many bytes has, whatever they are and whatever the plug has taken so far.
    /// So a caller can refuse bytes of which there would be too many samples before they are converted.
    pub fn converted_len(&self, bytes: u32) -> u64
        ensures value { (fed : List ℕ) → length fed ≡ bytes
            → length (plug_of self.now.conversion fed) ≡ result }
        ensures bound { IsStage self.now }
    {
        let frames = bytes / self.converter.frame_bytes() as u32;
        self.converter.rates.output_count(frames) * u64::from(self.converter.table.outputs())
    }

    /// Takes the next bytes, and appends the interleaved samples of each output frame that is known now: that lies at the
    /// last whole frame or before it. However the bytes are divided, all that was appended is what the conversion of all bytes
    /// so far has up to there. It refuses, with `Memory`, only where no memory is left; then plug and `out` are as before.
    pub fn feed(&mut self, bytes: &[u8], out: &mut Vec<i16>) -> Result<(), PcmError>
        ensures ok { OnOk result (Continues self.old self.new
            bytes.now out.old.items out.new.items) }
        ensures err { OnErr result ((self.new ≡ self.old) × (out.new.items ≡ out.old.items)) }
        ensures only_memory { IfErr result (λ e. e ≡ PcmError.Memory) }
    {
        let start = out.len();
        let mut progress = self.progress;
        match self.converter.take(&mut progress, bytes, out) {
            Ok(()) => {
                self.progress = progress;
                Ok(())
            }
            Err(_) => {
                out.truncate(start);
                Err(PcmError::Memory)
            }
        }
    }

    /// Ends the conversion, and appends what is left of it: the output frames that lie after the last frame, which stays.
    /// It refuses, with `Memory`, only where no memory is left; then `out` is as before.
    pub fn finish(self, out: &mut Vec<i16>) -> Result<(), PcmError>
        ensures ok { OnOk result (Completes self out.old.items out.new.items) }
        ensures err { OnErr result (out.new.items ≡ out.old.items) }
        ensures only_memory { IfErr result (λ e. e ≡ PcmError.Memory) }
    {
        let Plug {
            converter,
            progress,
        } = self;
        let start = out.len();
        match converter.rates.end(progress.course, out) {
            Ok(()) => Ok(()),
            Err(_) => {
                out.truncate(start);
                Err(PcmError::Memory)
            }
        }
    }
}
