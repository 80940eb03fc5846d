//! The names of clients and readers.
ghost use Rattle.std.specs.Prelude.{◌≡◌};
ghost use Rattle.std.specs.List.{position};
ghost use Rattle.lab_script.specs.Draft.{is_client, is_reader, actor_named, view};

use crate::draft::Draft;
use lab_lines::{Actor, ClientLine, ReaderLine};

/// The client of this name, counted from 0.
fn client_at(clients: &[ClientLine], name: &[u8]) -> Option<usize>
    ensures { result ≡ position (is_client name.now) clients.now }
{
    clients
        .iter()
        .position(|client| client.name.as_str().as_bytes() == name)
}

/// The reader of this name, counted from 0.
fn reader_at(readers: &[ReaderLine], name: &[u8]) -> Option<usize>
    ensures { result ≡ position (is_reader name.now) readers.now }
{
    readers
        .iter()
        .position(|reader| reader.name.as_str().as_bytes() == name)
}

/// The client or reader of this name.
pub fn named(draft: &Draft, name: &[u8]) -> Option<Actor>
    ensures { result ≡ actor_named (view draft.now) name.now }
{
    if let Some(number) = client_at(draft.clients.as_slice(), name) {
        return Some(Actor::Client(number as u32));
    }
    let number = reader_at(draft.readers.as_slice(), name)?;
    Some(Actor::Reader(number as u32))
}
