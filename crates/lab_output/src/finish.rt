//! The end of a run's files.
ghost use Rattle.std.specs.Prelude.{◌≡◌, ◌≢◌, All, Err, OnErr, OnOk, length};
ghost use Rattle.std.specs.Option.{option_map};
ghost use Rattle.lab_shelf.specs.Files.{IsPartFinished, with_change, with_first_bytes};
ghost use Rattle.lab_output.specs.Files.{IsOutputFile, head_of};
ghost use Rattle.lab_output.specs.Going.{ClosedInPart, HasFile, HasHeadRoom, HaveFiles, HaveHeadRoom, FitsWavFile, closed_files};
ghost use Rattle.lab_stop.specs.Effects.{OnlyWrites};
ghost use Rattle.lab_stop.specs.declared.stop.Stop.TheVariants as stops;

use crate::file::OutputFile;
use lab_shelf::Shelf;
use lab_stop::{Stop, written};
use wav_io::header;

/// Puts the head of so many samples in the place of a file's first bytes.
fn finish_file<S: Shelf>(shelf: &mut S, file: &OutputFile, samples: usize) -> Result<(), Stop>
    requires file { IsOutputFile file.now }
    requires few { FitsWavFile samples }
    requires room { HasHeadRoom (S.files shelf.old) file.now.name }
    ensures closed { OnOk result (S.files shelf.new ≡ option_map
        (λ files. with_change (with_first_bytes (head_of file.now samples)) files file.now.name)
        (S.files shelf.old)) }
    ensures part { OnErr result (IsPartFinished (S.files shelf.old) (S.files shelf.new)
        file.now.name (head_of file.now samples)) }
    ensures only_writes { OnlyWrites S.Shelf result shelf.old shelf.new }
    ensures never { S.is_reliable shelf.old → HasFile (S.files shelf.old) file.now.name
        → result ≢ Err stops.Write }
{
    let frames = samples / usize::from(file.channels);
    let head = header(file.channels, file.rate, frames as u32);
    written(shelf.finish(file.name.as_slice(), &head))
}

/// Puts true heads in the places of the files' first bytes, in order. Each file has so many samples.
pub fn finish_files<S: Shelf>(
    shelf: &mut S,
    files: &[OutputFile],
    samples: &[usize],
) -> Result<(), Stop>
    requires files { All IsOutputFile files.now }
    requires few { All FitsWavFile samples.now }
    requires number { length samples.now ≡ length files.now }
    requires room { HaveHeadRoom (S.files shelf.old) files.now }
    ensures closed { OnOk result
        (S.files shelf.new ≡ option_map (closed_files files.now samples.now) (S.files shelf.old)) }
    ensures part { OnErr result
        (ClosedInPart files.now samples.now (S.files shelf.old) (S.files shelf.new)) }
    ensures only_writes { OnlyWrites S.Shelf result shelf.old shelf.new }
    ensures never { S.is_reliable shelf.old → HaveFiles (S.files shelf.old) files.now
        → result ≢ Err stops.Write }
{
    for number in 0..files.len() {
        finish_file(shelf, &files[number], samples[number])?;
    }
    Ok(())
}
