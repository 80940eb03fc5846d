//! What a script says.
ghost use Rattle.std.specs.Prelude.{◌≡◌, length};

use crate::line::Item;
use crate::name::{FileName, Name};
use bindings::Bindings;
use std::marker::Model;

/// How the clients share the card: their samples are added (`pcm_dmix`), or each channel has one
/// owner (`pcm_dshare`).
#[derive(Clone, Copy, Debug, PartialEq, Eq)]
pub enum Share {
    Dmix,
    Dshare,
}

/// The stop threshold, as of `snd_pcm_sw_params_set_stop_threshold`: a number of frames, or the
/// boundary, at which a stream never stops.
#[derive(Clone, Copy, Debug, PartialEq, Eq)]
pub enum Stop {
    At(u64),
    Never,
}

/// The card: the number of its line, how many channels it has, its rate in Hz, its period and ring in frames, how many clients
/// may be open at once, the lap of its ring on which it begins, the WAV file that it captures (silence
/// where there is none), and how its clients share it. The ring is what ALSA calls the buffer of the
/// slave PCM.
#[derive(Debug, Drop)]
pub struct CardLine {
    pub number: u32,
    pub channels: u8,
    pub rate: u32,
    pub period: u32,
    pub ring: u32,
    pub places: u32,
    pub lap: u32,
    pub capture: Option<FileName>,
    pub share: Share,
}

/// A client: the number of its line, its name, the WAV file that it plays, and to which channels of
/// the card the file's channels go (the `bindings` of a `pcm_dmix` definition), where that is given.
/// Its buffer and period in frames are chosen by the configuration where they aren't given; `stop` is
/// then the buffer size. `lead` is how many frames before the card's position a start is placed. With
/// `plug` the file may have another rate or format than the card (`pcm_plug`).
#[derive(Debug, Drop)]
pub struct ClientLine {
    pub number: u32,
    pub name: Name,
    pub file: FileName,
    pub bindings: Option<Bindings>,
    pub buffer: Option<u32>,
    pub period: Option<u32>,
    pub start: u64,
    pub stop: Option<Stop>,
    pub lead: u32,
    pub plug: bool,
}

/// A reader of what the card captures (`pcm_dsnoop`): the number of its line, its name, and what of a
/// client's it has.
#[derive(Debug, Drop)]
pub struct ReaderLine {
    pub number: u32,
    pub name: Name,
    pub bindings: Option<Bindings>,
    pub buffer: Option<u32>,
    pub period: Option<u32>,
    pub start: u64,
    pub stop: Option<Stop>,
}

/// The clients in the order of their lines. Contracts see the list of them.
#[derive(Debug, Drop)]
pub struct Clients {
    clients: Vec<ClientLine>,
}

impl Model for Clients {
    ghost use Rattle.std.specs.Prelude.{List};
    ghost use Rattle.lab_lines.specs.declared.script.ClientLine.{ClientLine};

    ghost Value = { List ClientLine };

    ghost view = { λ all. all.clients.items };
}

impl Clients {
    /// The clients of a list, which are taken as they are.
    pub fn from_vec(clients: Vec<ClientLine>) -> Clients
        ensures { result ≡ clients.items }
    {
        Clients { clients }
    }

    /// The clients, in order.
    pub fn as_slice(&self) -> &[ClientLine]
        ensures { result.now ≡ self.now }
    {
        self.clients.as_slice()
    }

    /// How many there are.
    pub fn len(&self) -> usize
        ensures { result ≡ length self.now }
    {
        self.clients.len()
    }

    /// The clients as a list.
    pub fn into_vec(self) -> Vec<ClientLine>
        ensures { result.items ≡ self }
    {
        self.clients
    }
}

/// The readers in the order of their lines. Contracts see the list of them.
#[derive(Debug, Drop)]
pub struct Readers {
    readers: Vec<ReaderLine>,
}

impl Model for Readers {
    ghost use Rattle.std.specs.Prelude.{List};
    ghost use Rattle.lab_lines.specs.declared.script.ReaderLine.{ReaderLine};

    ghost Value = { List ReaderLine };

    ghost view = { λ all. all.readers.items };
}

impl Readers {
    /// The readers of a list, which are taken as they are.
    pub fn from_vec(readers: Vec<ReaderLine>) -> Readers
        ensures { result ≡ readers.items }
    {
        Readers { readers }
    }

    /// The readers, in order.
    pub fn as_slice(&self) -> &[ReaderLine]
        ensures { result.now ≡ self.now }
    {
        self.readers.as_slice()
    }

    /// How many there are.
    pub fn len(&self) -> usize
        ensures { result ≡ length self.now }
    {
        self.readers.len()
    }

    /// The readers as a list.
    pub fn into_vec(self) -> Vec<ReaderLine>
        ensures { result.items ≡ self }
    {
        self.readers
    }
}

/// What is done, in order. Contracts see the list of it.
#[derive(Debug, Drop)]
pub struct Body {
    items: Vec<Item>,
}

impl Model for Body {
    ghost use Rattle.std.specs.Prelude.{List};
    ghost use Rattle.lab_lines.specs.declared.line.Item.{Item};

    ghost Value = { List Item };

    ghost view = { λ all. all.items.items };
}

impl Body {
    /// The items of a list, which are taken as they are.
    pub fn from_vec(items: Vec<Item>) -> Body
        ensures { result ≡ items.items }
    {
        Body { items }
    }

    /// The items, in order.
    pub fn as_slice(&self) -> &[Item]
        ensures { result.now ≡ self.now }
    {
        self.items.as_slice()
    }

    /// How many there are.
    pub fn len(&self) -> usize
        ensures { result ≡ length self.now }
    {
        self.items.len()
    }

    /// The items as a list.
    pub fn into_vec(self) -> Vec<Item>
        ensures { result.items ≡ self }
    {
        self.items
    }
}

/// What a script says: its card, its clients and readers, and what is done, in order.
#[derive(Debug, Drop)]
pub struct Script {
    pub card: CardLine,
    pub clients: Clients,
    pub readers: Readers,
    pub body: Body,
}
