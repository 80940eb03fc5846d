//! The WAV files of a workload: the samples of one generator, file after file.
ghost use Rattle.std.specs.Prelude.{◌≡◌, All, OnOk, IfOk, IfErr, length, string_bytes};
ghost use Rattle.rand_pcg.specs.Lcg.{advance, next};
ghost use Rattle.rand_pcg.specs.Pcg.{multiplier_64};
ghost use Rattle.lab_make.specs.Files.{IsMadeSound, file_name, made_sounds, next_sample, samples_from, sound_from};

use rand_core::SeedableRng;
use rand_core::utils::NextWord;
use rand_pcg::Lcg64Xsh32;
use snd_base::PcmError;
use std::alloc::{AllocError, Global};
use wav_io::{Samples, Wav};

/// How many channels a made file has.
const CHANNELS: u16 = 2;

/// The rate of a made file, in Hz.
const RATE: u32 = 48000;

/// How many samples a made file has: 4,096 frames of two channels.
const SAMPLES: usize = 8192;

/// The next sample of a generator, which draws one word: its 14 highest bits less 8192, so that it is from -8192 to 8191.
#[tactic(auto, unfolding(crate::specs::Files::next_sample))]
fn next_sample(generator: &mut Lcg64Xsh32) -> i16
    ensures sample { result ≡ next_sample generator.old }
    ensures next { generator.new ≡ next 64 multiplier_64 generator.old }
{
    (generator.next_word() >> 18) as i16 - 8192
}

/// The next samples of a generator, as many as a file has.
#[tactic(auto, using(crate::proofs::Refused::IfOk_err))]
fn made_samples(alloc: Global, generator: &mut Lcg64Xsh32) -> Result<Vec<i16>, AllocError>
    ensures samples { IfOk result (λ samples. samples.items ≡ samples_from generator.old) }
    ensures next { OnOk result (generator.new ≡ advance 64 multiplier_64 8192 generator.old) }
{
    let mut samples = Vec::with_capacity(alloc, SAMPLES)?;
    for index in 0..SAMPLES {
        samples.push(next_sample(generator))?;
    }
    Ok(samples)
}

/// The next file of a generator.
#[tactic(auto, using(crate::proofs::Refused::IfOk_err))]
fn made_file(alloc: Global, generator: &mut Lcg64Xsh32) -> Result<Wav, AllocError>
    ensures file { IfOk result (λ file. file ≡ sound_from generator.old) }
    ensures next { OnOk result (generator.new ≡ advance 64 multiplier_64 8192 generator.old) }
{
    let samples = made_samples(alloc, generator)?;
    Ok(Wav {
        channels: CHANNELS,
        rate: RATE,
        samples: Samples::from_vec(samples),
    })
}

/// The files of a workload's clients, in the order of the clients: each is stereo, at 48,000 Hz, and
/// has 4,096 frames.
///
/// The samples are those of one generator, PCG-XSH-RR of 64 bits of state (`Lcg64Xsh32`), which is
/// seeded by the number once. Each sample takes one word of 32 bits, and is its 14 highest bits less
/// 8192: from -8192 to 8191. They are in order: channel 0 before channel 1, frame after frame, and
/// file after file.
///
/// # Errors
///
/// `Memory`, where memory ran out.
#[tactic(auto, using(crate::proofs::Refused::IfOk_err))]
pub fn made_files(alloc: Global, seed: u64, clients: u32) -> Result<Vec<Wav>, PcmError>
    ensures files { IfOk result (λ files. files.items ≡ made_sounds seed clients) }
    ensures count { IfOk result (λ files. length files.items ≡ clients) }
    ensures each { IfOk result (λ files. All IsMadeSound files.items) }
    ensures only { IfErr result (λ error. error ≡ PcmError.Memory) }
{
    let mut generator = Lcg64Xsh32::seed_from_u64(seed);
    let mut files = Vec::new(alloc);
    for client in 0..clients {
        files.push(made_file(alloc, &mut generator)?)?;
    }
    Ok(files)
}

/// The name of the file of the client of this number, counted from 0: `made-K.wav`.
///
/// The one error is that memory ran out.
pub fn file_name(alloc: Global, client: u32) -> Result<String, AllocError>
    ensures { IfOk result (λ name. string_bytes name ≡ file_name client) }
{
    format!(in alloc; "made-{client}.wav")
}
