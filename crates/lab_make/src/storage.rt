//! What is stored of a workload.
ghost use Rattle.std.specs.Prelude.{◌≡◌, ◌≢◌, ◌≤◌, All, Err, IfErr, IfOk, OnErr, OnOk, length};
ghost use Rattle.std.specs.Option.{option_map};
ghost use Rattle.wav_io.specs.Canonical.{canonical};
ghost use Rattle.lab_shelf.specs.Files.{IsPartWritten, with_file};
ghost use Rattle.lab_stop.specs.Effects.{OnlyWrites};
ghost use Rattle.lab_stop.specs.declared.stop.Stop.TheVariants as stops;
ghost use Rattle.lab_make.specs.Files.{IsMadeSound, file_name};
ghost use Rattle.lab_make.specs.Stored.{InputInPart, IsReadBack, StoredInPart, sound_files, with_files, with_input};

use crate::files::file_name;
use lab_shelf::Shelf;
use lab_stop::{Stop, written};
use std::alloc::Global;
use wav_io::{Wav, write_wav};

/// Makes a file of the shelf hold these bytes. It stops with `Write` where the shelf fails, which
/// counts that, and with `Memory` only where no memory is left; the file is as it was then, or holds
/// the first of the bytes.
pub fn store<S: Shelf>(shelf: &mut S, name: &[u8], bytes: &[u8]) -> Result<(), Stop>
    ensures stored { OnOk result (S.files shelf.new ≡ option_map
        (λ files. with_file files name.now bytes.now) (S.files shelf.old)) }
    ensures part { OnErr result
        (IsPartWritten (S.files shelf.old) (S.files shelf.new) name.now bytes.now) }
    ensures only_writes { OnlyWrites S.Shelf result shelf.old shelf.new }
    ensures never { S.is_reliable shelf.old → result ≢ Err stops.Write }
{
    written(shelf.store(name, bytes))
}

/// The bytes of the WAV file of a client.
fn client_bytes(alloc: Global, wav: &Wav) -> Result<Vec<u8>, Stop>
    requires { IsMadeSound wav.now }
    ensures bytes { IfOk result (λ bytes. bytes.items ≡ canonical wav.now) }
    ensures read { OnOk result (IsReadBack wav.now) }
    ensures only { IfErr result (λ stop. stop ≡ stops.Memory) }
{
    match write_wav(alloc, wav) {
        Ok(bytes) => Ok(bytes),
        Err(_) => Err(Stop::Memory),
    }
}

/// Stores the WAV file of the client of this number.
fn store_client<S: Shelf>(shelf: &mut S, alloc: Global, client: u32, wav: &Wav) -> Result<(), Stop>
    requires { IsMadeSound wav.now }
    ensures stored { OnOk result (S.files shelf.new ≡ option_map
        (λ files. with_file files (file_name client) (canonical wav.now)) (S.files shelf.old)) }
    ensures read { OnOk result (IsReadBack wav.now) }
    ensures part { OnErr result (IsPartWritten (S.files shelf.old) (S.files shelf.new)
        (file_name client) (canonical wav.now)) }
    ensures only_writes { OnlyWrites S.Shelf result shelf.old shelf.new }
    ensures never { S.is_reliable shelf.old → result ≢ Err stops.Write }
{
    let name = file_name(alloc, client)?;
    let bytes = client_bytes(alloc, wav)?;
    store(shelf, name.as_bytes(), &bytes)
}

/// Stores the WAV files of all clients, in order.
fn store_clients<S: Shelf>(shelf: &mut S, alloc: Global, wavs: &[Wav]) -> Result<(), Stop>
    requires sounds { All IsMadeSound wavs.now }
    requires few { length wavs.now ≤ 64 }
    ensures stored { OnOk result (S.files shelf.new ≡ option_map
        (with_files (sound_files 0 wavs.now)) (S.files shelf.old)) }
    ensures read { OnOk result (All IsReadBack wavs.now) }
    ensures part { OnErr result
        (StoredInPart (sound_files 0 wavs.now) (S.files shelf.old) (S.files shelf.new)) }
    ensures only_writes { OnlyWrites S.Shelf result shelf.old shelf.new }
    ensures never { S.is_reliable shelf.old → result ≢ Err stops.Write }
{
    for client in 0..wavs.len() {
        store_client(shelf, alloc, client as u32, &wavs[client])?;
    }
    Ok(())
}

/// Stores the WAV files of all clients, in order, and then the script's text.
///
/// It stops with `Write` where the shelf fails, which counts that, and with `Memory` only where no
/// memory is left.
pub fn store_input<S: Shelf>(
    shelf: &mut S,
    alloc: Global,
    wavs: &[Wav],
    script: &[u8],
) -> Result<(), Stop>
    requires sounds { All IsMadeSound wavs.now }
    requires few { length wavs.now ≤ 64 }
    ensures stored { OnOk result (S.files shelf.new ≡ option_map
        (with_input wavs.now script.now) (S.files shelf.old)) }
    ensures read { OnOk result (All IsReadBack wavs.now) }
    ensures part { OnErr result
        (InputInPart wavs.now script.now (S.files shelf.old) (S.files shelf.new)) }
    ensures only_writes { OnlyWrites S.Shelf result shelf.old shelf.new }
    ensures never { S.is_reliable shelf.old → result ≢ Err stops.Write }
{
    store_clients(shelf, alloc, wavs)?;
    store(shelf, b"made.script", script)
}
