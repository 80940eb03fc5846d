//! To which channel of the card each channel of a stream goes.
ghost use Rattle.std.specs.Prelude.{◌≡◌, ℕ, ◌<◌, ◌≤◌, length, slice_index};
ghost use Rattle.bindings.specs.Bound.{AreBindings, count_below, identity, in_eight_places, rising};

use std::marker::Model;

/// To which channel of the card each channel of a stream goes: at least 1 channel and at most 8, each bound to a card
/// channel of its own (the `bindings` of a `pcm_dmix` or `pcm_dsnoop` definition in asound.conf).
///
/// Contracts see the list of the card channels, in the order of the stream's channels.
#[derive(Clone, Copy, Debug, PartialEq, Eq)]
pub struct Bindings {
    channels: [u8; 8],
    order: [u8; 8],
    len: u8,
}

impl Model for Bindings {
    ghost use Rattle.std.specs.Prelude.{ℕ, List, length};
    ghost use Rattle.bindings.specs.Bound.{HoldsList, list_of, in_eight_places, rising};
    ghost use Rattle.bindings.specs.RisingLaws.{inverse_is};

    ghost Value = { List ℕ };

    ghost view = { list_of };

    ghost invariant = { HoldsList };

    ghost inverse = { λ list. record {
      channels = in_eight_places list;
      order = in_eight_places (rising list);
      len = length list;
    } };

    ghost inverse_ok = { inverse_is };
}

impl Bindings {
    /// The bindings of `channels` channels, 1 to 8, each to the card channel of the same number.
    pub fn identity(channels: u8) -> Bindings
        requires some { 1 ≤ channels }
        requires most { channels ≤ 8 }
        ensures { result ≡ identity channels }
    {
        let all = [0, 1, 2, 3, 4, 5, 6, 7];
        Bindings::bind(&all[..channels as usize])
    }

    /// Binds client channel i to the i-th card channel of a list that has no defect.
    pub(crate) fn bind(list: &[u8]) -> Bindings
        requires { AreBindings list.now }
        ensures { result ≡ list.now }
    {
        Bindings {
            channels: in_eight_places(list),
            order: rising_order(list),
            len: list.len() as u8,
        }
    }

    /// How many client channels are bound.
    pub fn len(&self) -> u8
        ensures value { result ≡ length self.now }
        ensures bound { AreBindings self.now }
    {
        self.len
    }

    /// The card channel that a client channel is bound to.
    pub fn card_channel(&self, client: u8) -> u8
        requires { client < length self.now }
        ensures value { result ≡ slice_index self.now client }
        ensures bound { AreBindings self.now }
    {
        self.channels[client as usize]
    }

    /// The client channel at a place, counted from 0, when they are sorted by card channel, the smallest first.
    pub fn rising(&self, place: u8) -> u8
        requires { place < length self.now }
        ensures value { result ≡ slice_index (rising self.now) place }
        ensures within { result < length self.now }
        ensures bound { AreBindings self.now }
    {
        self.order[place as usize]
    }
}

/// At most 8 numbers in 8 places, with zeros after them.
fn in_eight_places(list: &[u8]) -> [u8; 8]
    requires { length list.now ≤ 8 }
    ensures { result ≡ in_eight_places list.now }
{
    let mut places = [0; 8];
    for (place, number) in list.iter().enumerate() {
        places[place] = *number;
    }
    places
}

/// The client channels by rising card channel, in 8 places.
fn rising_order(list: &[u8]) -> [u8; 8]
    requires { AreBindings list.now }
    ensures { result ≡ in_eight_places (rising list.now) }
{
    let mut order = [0; 8];
    for (client, card_channel) in list.iter().enumerate() {
        order[count_below(list, *card_channel)] = client as u8;
    }
    order
}

/// How many of the bound card channels are below a card channel.
fn count_below(list: &[u8], card_channel: u8) -> usize
    ensures { result ≡ count_below list.now card_channel }
{
    list.iter().filter(|bound| **bound < card_channel).count()
}
