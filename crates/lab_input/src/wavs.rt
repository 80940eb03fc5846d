//! The WAV files of a run, one after the other, and how many bytes they have together.
ghost use Rattle.std.specs.Prelude.{◌≡◌, ◌≤◌, IfOk, length};
ghost use Rattle.std.specs.Option.{ForSome};
ghost use Rattle.lab_stop.specs.Effects.{AnswersFrom, OnlyReads};
ghost use Rattle.lab_lines.specs.Limits.{IsCardLine};
ghost use Rattle.lab_input.specs.Input.{capture_in, most_of_run, sound_in, sounds_in};
ghost use Rattle.lab_input.specs.Plug.{IsShape};

use crate::shape::{Shape, shape_for};
use crate::sound::read_sound;
use lab_lines::{CardLine, ClientLine};
use lab_shelf::Shelf;
use lab_stop::{Stop, wav_stop};
use std::alloc::Global;
use wav_io::{Wav, WavError};

/// The most bytes that the WAV files of a run have together.
const RUN_MOST: u64 = 268_435_456;

/// The sound in a WAV file of a run, converted where there is a shape, and how many bytes the run's WAV files have so far; those before
/// it have `before`. It stops with `Wav` and `TooLong` also where they have too many.
#[tactic(auto, unfolding(crate::specs::Input::sound_in))]
fn read_within<S: Shelf>(
    shelf: &mut S,
    alloc: Global,
    before: u64,
    shape: Option<Shape>,
    name: &[u8],
) -> Result<(Wav, u64), Stop>
    requires few { before ≤ most_of_run }
    requires shape { ForSome shape IsShape }
    ensures sound { AnswersFrom S.Shelf (λ r. r) result shelf.old
        (λ files. sound_in files before shape name.now) }
    ensures few { IfOk result (λ r. r.1 ≤ most_of_run) }
    ensures only_reads { OnlyReads S.Shelf result shelf.old shelf.new }
{
    let (wav, bytes) = read_sound(shelf, alloc, shape, name)?;
    let total = before + bytes;
    if total <= RUN_MOST {
        Ok((wav, total))
    } else {
        Err(wav_stop(alloc, name, WavError::TooLong))
    }
}

/// The sound of the file that the card captures, if it has one, and how many bytes that file has.
#[tactic(auto, unfolding(crate::specs::Input::capture_in))]
pub(crate) fn read_capture<S: Shelf>(
    shelf: &mut S,
    alloc: Global,
    card: &CardLine,
) -> Result<(Option<Wav>, u64), Stop>
    ensures sound { AnswersFrom S.Shelf (λ r. r) result shelf.old
        (λ files. capture_in files card.now.capture) }
    ensures few { IfOk result (λ r. r.1 ≤ most_of_run) }
    ensures only_reads { OnlyReads S.Shelf result shelf.old shelf.new }
{
    match &card.capture {
        Some(file) => {
            let (wav, total) = read_within(shelf, alloc, 0, None, file.as_str().as_bytes())?;
            Ok((Some(wav), total))
        }
        None => Ok((None, 0)),
    }
}

/// The sounds in the files of a card's clients, in the order of the clients; those of clients with
/// `plug` are converted. The WAV files before them have `before` bytes.
pub(crate) fn read_wavs<S: Shelf>(
    shelf: &mut S,
    alloc: Global,
    before: u64,
    card: &CardLine,
    clients: &[ClientLine],
) -> Result<Vec<Wav>, Stop>
    requires few { before ≤ most_of_run }
    requires card { IsCardLine card.now }
    ensures sounds { AnswersFrom S.Shelf (λ v. v.items) result shelf.old
        (λ files. sounds_in files before card.now clients.now) }
    ensures number { IfOk result (λ wavs. length wavs.items ≡ length clients.now) }
    ensures only_reads { OnlyReads S.Shelf result shelf.old shelf.new }
{
    let mut wavs = Vec::new(alloc);
    let mut total = before;
    for client in clients {
        let shape = shape_for(card, client);
        let name = client.file.as_str().as_bytes();
        let (wav, bytes) = read_within(shelf, alloc, total, shape, name)?;
        wavs.push(wav)?;
        total = bytes;
    }
    Ok(wavs)
}
