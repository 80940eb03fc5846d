//! What is appended to a run's files.
ghost use Rattle.std.specs.Prelude.{◌≡◌, ◌≢◌, ◌++◌, Err, OnErr, OnOk};
ghost use Rattle.std.specs.List.{flat_map};
ghost use Rattle.std.specs.Option.{option_map};
ghost use Rattle.lab_shelf.specs.Files.{IsPartAppended, with_change};
ghost use Rattle.lab_output.specs.Going.{HasFile};
ghost use Rattle.lab_stop.specs.Effects.{OnlyWrites};
ghost use Rattle.lab_stop.specs.declared.stop.Stop.TheVariants as stops;
ghost use Rattle.wav_io.specs.Canonical.{sample_bytes};

use crate::file::OutputFile;
use lab_shelf::Shelf;
use lab_stop::{Stop, written};
use std::alloc::Global;
use wav_io::append_samples;

/// Appends bytes to a file.
fn append_bytes<S: Shelf>(shelf: &mut S, name: &[u8], bytes: &[u8]) -> Result<(), Stop>
    ensures appended { OnOk result (S.files shelf.new ≡ option_map
        (λ files. with_change (λ content. content ++ bytes.now) files name.now)
        (S.files shelf.old)) }
    ensures part { OnErr result
        (IsPartAppended (S.files shelf.old) (S.files shelf.new) name.now bytes.now) }
    ensures only_writes { OnlyWrites S.Shelf result shelf.old shelf.new }
    ensures never { S.is_reliable shelf.old → HasFile (S.files shelf.old) name.now
        → result ≢ Err stops.Write }
{
    written(shelf.append(name, bytes))
}

/// Appends samples to a file, as one piece, unless there are none.
pub fn append_new<S: Shelf>(
    shelf: &mut S,
    alloc: Global,
    file: &OutputFile,
    samples: &[i16],
) -> Result<(), Stop>
    ensures appended { OnOk result (S.files shelf.new ≡ option_map
        (λ files. with_change (λ content. content ++ flat_map sample_bytes samples.now) files
        file.now.name) (S.files shelf.old)) }
    ensures part { OnErr result (IsPartAppended (S.files shelf.old) (S.files shelf.new)
        file.now.name (flat_map sample_bytes samples.now)) }
    ensures only_writes { OnlyWrites S.Shelf result shelf.old shelf.new }
    ensures never { S.is_reliable shelf.old → HasFile (S.files shelf.old) file.now.name
        → result ≢ Err stops.Write }
{
    if samples.is_empty() {
        return Ok(());
    }
    let mut bytes = Vec::new(alloc);
    append_samples(&mut bytes, samples)?;
    append_bytes(shelf, file.name.as_slice(), &bytes)
}
