//! The lines of clients and readers.
ghost use Rattle.std.specs.Prelude.{◌≡◌};
ghost use Rattle.lab_script.specs.Causes.{Gives};
ghost use Rattle.lab_script.specs.Draft.{client_line, view, with_client, with_reader};
ghost use Rattle.text_words.specs.Lexing.{words_between};

use crate::causes::{first_of, refuse_if};
use crate::draft::Draft;
use crate::error::ScriptWhy;
use crate::keys::{Kind, check_keys, given};
use crate::names::named;
use crate::values::{bindings_where, number_given, read_file, read_name, small_where, stop_given};
use lab_lines::{CardLine, ClientLine, FileName, Name, ReaderLine};
use std::alloc::Global;

/// The client of this name, file and keys on a card.
fn client_line(
    alloc: Global,
    card: &CardLine,
    number: u32,
    name: Name,
    file: FileName,
    keys: &[u8],
) -> Result<ClientLine, ScriptWhy>
    ensures { Gives (λ c. c) result
        (client_line card.now number name file (words_between keys.now)) }
{
    let lead = number_given(b"lead", u64::from(card.period), keys);
    if lead >= u64::from(card.ring) {
        return Err(ScriptWhy::Fit);
    }
    let bindings = bindings_where(alloc, card.channels, given(b"bindings", keys))?;
    Ok(ClientLine {
        number,
        name,
        file,
        bindings,
        buffer: small_where(b"buffer", keys),
        period: small_where(b"period", keys),
        start: number_given(b"start", 1, keys),
        stop: stop_given(keys),
        lead: lead as u32,
        plug: given(b"plug", keys).is_some(),
    })
}

/// `client NAME FILE KEYS`.
#[tactic(auto, unfolding(crate::specs::Draft::with_client, crate::specs::Draft::client_of))]
pub fn add_client(
    alloc: Global,
    draft: &mut Draft,
    number: u32,
    words: &[u8],
) -> Result<(), ScriptWhy>
    ensures { Gives (λ u. view draft.new) result
        (with_client (view draft.old) number (words_between words.now)) }
{
    refuse_if(draft.body.len() != 0, ScriptWhy::Order)?;
    let (word, words) = first_of(words)?;
    let name = read_name(alloc, word)?;
    let (path, keys) = first_of(words)?;
    let file = read_file(alloc, path)?;
    check_keys(alloc, Kind::Client, keys)?;
    refuse_if(named(draft, word).is_some(), ScriptWhy::NameTwice)?;
    if draft.clients.len() >= 64 {
        return Err(ScriptWhy::TooMany);
    }
    let client = client_line(alloc, &draft.card, number, name, file, keys)?;
    draft.clients.push(client)?;
    Ok(())
}

/// `reader NAME KEYS`.
#[tactic(auto, unfolding(crate::specs::Draft::with_reader, crate::specs::Draft::reader_of))]
pub fn add_reader(
    alloc: Global,
    draft: &mut Draft,
    number: u32,
    words: &[u8],
) -> Result<(), ScriptWhy>
    ensures { Gives (λ u. view draft.new) result
        (with_reader (view draft.old) number (words_between words.now)) }
{
    refuse_if(draft.body.len() != 0, ScriptWhy::Order)?;
    let (word, keys) = first_of(words)?;
    let name = read_name(alloc, word)?;
    check_keys(alloc, Kind::Reader, keys)?;
    refuse_if(named(draft, word).is_some(), ScriptWhy::NameTwice)?;
    if draft.readers.len() >= 64 {
        return Err(ScriptWhy::TooMany);
    }
    let bindings = bindings_where(alloc, draft.card.channels, given(b"bindings", keys))?;
    draft.readers.push(ReaderLine {
        number,
        name,
        bindings,
        buffer: small_where(b"buffer", keys),
        period: small_where(b"period", keys),
        start: number_given(b"start", 1, keys),
        stop: stop_given(keys),
    })?;
    Ok(())
}
