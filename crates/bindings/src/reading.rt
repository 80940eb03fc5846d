//! Lists of card channels, and what is wrong with them.
ghost use Rattle.std.specs.Prelude.{◌≡◌, ◌==◌, ◌<◌, ◌≤◌, All, IfOk, length};
ghost use Rattle.std.specs.List.{list_any};
ghost use Rattle.bindings.specs.Answers.{answer_of, entry_defect};

use crate::channels::Bindings;
use snd_base::Why;

impl Bindings {
    /// Binds client channel i to card channel `list[i]`, on a card of `card_channels` channels.
    ///
    /// - `BindingsEmpty`: the list has no entry.
    /// - `BindingsTooMany`: it has more than 8.
    /// - `BindingRange(channel)`: the first entry with a defect is a channel that the card does not have.
    /// - `BindingTwice(channel)`: the first entry with a defect is a channel that came earlier in the list.
    pub fn read(list: &[u32], card_channels: u8) -> Result<Bindings, Why>
        ensures answer { result ≡ answer_of list.now card_channels }
        ensures below { IfOk result (λ bindings.
            All (λ channel. channel < card_channels) bindings) }
    {
        if list.is_empty() {
            return Err(Why::BindingsEmpty);
        }
        if list.len() > 8 {
            return Err(Why::BindingsTooMany);
        }
        let mut channels = [0; 8];
        for place in 0..list.len() {
            if let Some(why) = defect(list, card_channels, place) {
                return Err(why);
            }
            channels[place] = list[place] as u8;
        }
        Ok(Bindings::bind(&channels[..list.len()]))
    }
}

/// What is wrong with the entry at a place of the list, if anything is.
fn defect(list: &[u32], card_channels: u8, place: usize) -> Option<Why>
    requires { place < length list.now }
    ensures { result ≡ entry_defect list.now card_channels place }
{
    let channel = list[place];
    if channel >= card_channels as u32 {
        return Some(Why::BindingRange(channel));
    }
    if stands_in(&list[..place], channel) {
        return Some(Why::BindingTwice(channel));
    }
    None
}

/// Whether a channel is in a list.
fn stands_in(list: &[u32], channel: u32) -> bool
    ensures { result ≡ list_any (λ bound. bound == channel) list.now }
{
    list.iter().any(|bound| *bound == channel)
}
