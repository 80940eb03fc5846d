//! With what all clients and readers of a script are opened.
ghost use Rattle.std.specs.Prelude.{◌≡◌, All, IfErr, IfOk, length};
ghost use Rattle.lab_run.specs.Openings.{AreClientOpenings, AreReaderOpenings, IsSessionOf};
ghost use Rattle.lab_lines.specs.Limits.{IsCardLine, IsClientLine, IsReaderLine, IsScript};
ghost use Rattle.lab_actors.specs.Sessions.{AreUsable, session_with};

use crate::opening::{Opening, client_opening, reader_opening};
use crate::ring::ring_of;
use lab_lines::{CardLine, ClientLine, ReaderLine, Script};
use snd_base::{Geometry, PcmError};
use std::alloc::Global;
use wav_io::Wav;

/// The shape of the ring of a script's card, and with what each of its clients and readers is opened, in the order of their
/// lines; nothing for one whose opening is refused.
#[derive(Drop)]
pub struct Openings {
    pub ring: Geometry,
    pub clients: Vec<Option<Opening>>,
    pub readers: Vec<Option<Opening>>,
}

/// With what each client is opened, with its file.
fn client_openings(
    alloc: Global,
    card: &CardLine,
    lines: &[ClientLine],
    wavs: &[Wav],
) -> Result<Vec<Option<Opening>>, PcmError>
    requires card { IsCardLine card.now }
    requires lines { All (IsClientLine card.now) lines.now }
    requires files { length wavs.now ≡ length lines.now }
    ensures openings { IfOk result
        (λ all. AreClientOpenings card.now lines.now wavs.now all.items) }
    ensures usable { IfOk result (λ all. AreUsable card.now.channels card.now.ring all.items) }
    ensures only { IfErr result (λ e. e ≡ PcmError.Memory) }
{
    let mut openings = Vec::with_capacity(alloc, lines.len())?;
    for number in 0..lines.len() {
        openings.push(client_opening(card, &lines[number], &wavs[number]))?;
    }
    Ok(openings)
}

/// With what each reader is opened.
fn reader_openings(
    alloc: Global,
    card: &CardLine,
    lines: &[ReaderLine],
) -> Result<Vec<Option<Opening>>, PcmError>
    requires card { IsCardLine card.now }
    requires lines { All (IsReaderLine card.now) lines.now }
    ensures openings { IfOk result (λ all. AreReaderOpenings card.now lines.now all.items) }
    ensures usable { IfOk result (λ all. AreUsable card.now.channels card.now.ring all.items) }
    ensures only { IfErr result (λ e. e ≡ PcmError.Memory) }
{
    let mut openings = Vec::with_capacity(alloc, lines.len())?;
    for number in 0..lines.len() {
        openings.push(reader_opening(card, &lines[number]))?;
    }
    Ok(openings)
}

/// With what all clients and readers of a script are opened, each client with its file; so the session that a run of the script
/// is of. It copies no sample. It refuses, with `Memory`, only where no memory is left.
pub fn openings_of(alloc: Global, script: &Script, wavs: &[Wav]) -> Result<Openings, PcmError>
    requires script { IsScript script.now }
    requires files { length wavs.now ≡ length script.now.clients }
    ensures session { IfOk result
        (λ all. IsSessionOf script.now wavs.now (session_with script.now wavs.now all)) }
    ensures clients { IfOk result
        (λ all. AreUsable script.now.card.channels script.now.card.ring all.clients.items) }
    ensures readers { IfOk result
        (λ all. AreUsable script.now.card.channels script.now.card.ring all.readers.items) }
    ensures only { IfErr result (λ e. e ≡ PcmError.Memory) }
{
    let card = &script.card;
    let clients = client_openings(alloc, card, script.clients.as_slice(), wavs)?;
    let readers = reader_openings(alloc, card, script.readers.as_slice())?;
    Ok(Openings {
        ring: ring_of(card),
        clients,
        readers,
    })
}
