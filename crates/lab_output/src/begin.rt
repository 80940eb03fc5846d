//! The beginning of a run's files.
ghost use Rattle.std.specs.Prelude.{◌≡◌, ◌≢◌, All, Err, OnErr, OnOk};
ghost use Rattle.std.specs.Option.{option_map};
ghost use Rattle.lab_shelf.specs.Files.{IsPartWritten, with_file};
ghost use Rattle.lab_output.specs.Files.{IsOutputFile, open_head_of};
ghost use Rattle.lab_output.specs.Going.{OpenedInPart, opened_files};
ghost use Rattle.lab_stop.specs.Effects.{OnlyWrites};
ghost use Rattle.lab_stop.specs.declared.stop.Stop.TheVariants as stops;

use crate::file::OutputFile;
use lab_shelf::Shelf;
use lab_stop::{Stop, written};
use wav_io::open_header;

/// Begins a file: makes it hold an open head.
fn begin_file<S: Shelf>(shelf: &mut S, file: &OutputFile) -> Result<(), Stop>
    requires { IsOutputFile file.now }
    ensures opened { OnOk result (S.files shelf.new ≡ option_map
        (λ files. with_file files file.now.name (open_head_of file.now)) (S.files shelf.old)) }
    ensures part { OnErr result (IsPartWritten (S.files shelf.old) (S.files shelf.new) file.now.name
        (open_head_of file.now)) }
    ensures only_writes { OnlyWrites S.Shelf result shelf.old shelf.new }
    ensures never { S.is_reliable shelf.old → result ≢ Err stops.Write }
{
    let head = open_header(file.channels, file.rate);
    written(shelf.begin(file.name.as_slice(), &head))
}

/// Begins files, in order.
pub fn begin_files<S: Shelf>(shelf: &mut S, files: &[OutputFile]) -> Result<(), Stop>
    requires { All IsOutputFile files.now }
    ensures opened { OnOk result
        (S.files shelf.new ≡ option_map (opened_files files.now) (S.files shelf.old)) }
    ensures part { OnErr result
        (OpenedInPart files.now (S.files shelf.old) (S.files shelf.new)) }
    ensures only_writes { OnlyWrites S.Shelf result shelf.old shelf.new }
    ensures never { S.is_reliable shelf.old → result ≢ Err stops.Write }
{
    for file in files {
        begin_file(shelf, file)?;
    }
    Ok(())
}
