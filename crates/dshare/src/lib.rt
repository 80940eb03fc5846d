//! Channels with one owner: which channels of a card are claimed, as ALSA's `dshare` plugin shares a card by its channels.
#![tactic(auto)]

mod shares;

pub use shares::Shares;
