//! The samples of the clients' files are of 16 bits: a fact for contracts, which each sample's type gives where it is read.
ghost use Rattle.std.specs.Prelude.{All};
ghost use Rattle.lap_word.specs.Clamp.{IsSample};
ghost use Rattle.run_laws.specs.OneSample.{AreSamples};

use wav_io::Wav;

/// Reads a sample.
fn read_sample(sample: i16)
    ensures { IsSample sample }
{}

/// Reads the samples of a file.
fn read_samples(samples: &[i16])
    ensures { All IsSample samples.now }
{
    for sample in samples {
        read_sample(*sample);
    }
}

/// The samples of each file are of 16 bits. It reads each sample, and does nothing else.
pub(crate) fn samples_are_of_16_bits(wavs: &[Wav])
    ensures { AreSamples wavs.now }
{
    for wav in wavs {
        read_samples(wav.samples.as_slice());
    }
}
