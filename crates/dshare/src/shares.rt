//! Which channels of a card are owned.
ghost use Rattle.std.specs.Prelude.{◌≡◌, ◌<◌, ◌≤◌, ◌↔◌, [], ◌∷◌, List, IfErr, IsTrue, OnErr, OnOk, is_some};
ghost use Rattle.std.specs.List.{list_any};
ghost use Rattle.dshare.specs.Owners.{AreFree, ClaimRow, busy, claimed, later, owner_of, released};
ghost use Rattle.dshare.specs.Shared.{AreOfCard, AreOwned, IsHeldShare, StandsFor, is_owned, latest_of, with_value_at, with_later_at};

use bindings::Bindings;
use snd_base::PcmError;
use std::marker::Model;

/// Which channels of a card are owned, and since when the others are silent. Each channel has one owner at most, as with
/// ALSA's `dshare` plugin (alsa-lib, `snd_pcm_dshare`); that a released channel can be claimed only past the last frame
/// that was placed there is this project's own rule.
///
/// It keeps no history; that it represents one is a relation. A new one represents the empty history, and after a claim or
/// a release each history that it represented before, with that as its last row.
#[derive(Clone, Copy, Debug)]
pub struct Shares {
    channels: u8,
    owned: [bool; 8],
    last: [Option<u64>; 8],
}

impl Model for Shares {
    ghost use Rattle.dshare.specs.Shared.{Ownership, IsHeldShare};

    ghost Value = { Ownership };

    ghost view = { λ s. record { channels = s.channels; owned = s.owned; last = s.last } };

    ghost invariant = { λ s. IsHeldShare (record {
      channels = s.channels;
      owned = s.owned;
      last = s.last;
    }) };

    ghost inverse = { λ v. record { channels = v.channels; owned = v.owned; last = v.last } };
}

impl Shares {
    /// A card of so many channels, 1 to 8, all of them free.
    pub fn new(card_channels: u8) -> Shares
        requires some { 1 ≤ card_channels }
        requires few { card_channels ≤ 8 }
        ensures channels { result.channels ≡ card_channels }
        ensures nothing { StandsFor result [] }
    {
        Shares {
            channels: card_channels,
            owned: [false; 8],
            last: [None; 8],
        }
    }

    /// Claims the card channels of the bindings, all or none, at a position in frames. The caller has bindings of this
    /// card (`can_claim`).
    ///
    /// `Busy` comes exactly where one of them isn't free: where it is owned, or where one of its earlier owners placed a frame
    /// at the position or past it. Its `until` is the position from which all of them are free, as far as that is known:
    /// None where one is owned, else the greatest last frame plus one; `seen` is the position.
    pub fn claim(&mut self, bindings: &Bindings, position: u64) -> Result<(), PcmError>
        requires { AreOfCard self.old bindings.now }
        ensures free { OnOk result ((h : List ClaimRow) → StandsFor self.old h
            → AreFree h position bindings.now) }
        ensures ok { OnOk result ((h : List ClaimRow) → StandsFor self.old h
            → StandsFor self.new (claimed bindings.now ∷ h)) }
        ensures busy { IfErr result (λ e. (h : List ClaimRow) → StandsFor self.old h
            → e ≡ busy h bindings.now position) }
        ensures not_free { OnErr result ((h : List ClaimRow) → StandsFor self.old h
            → ¬ AreFree h position bindings.now) }
        ensures err { OnErr result (self.new ≡ self.old) }
        ensures owned { OnOk result (AreOwned self.new bindings.now) }
        ensures channels { self.new.channels ≡ self.old.channels }
    {
        if self.any_owned(bindings) {
            return Err(PcmError::Busy {
                until: None,
                seen: position,
            });
        }
        if let Some(last) = self.latest(bindings) {
            if last >= position {
                return Err(PcmError::Busy {
                    until: last.checked_add(1),
                    seen: position,
                });
            }
        }
        self.mark(bindings, true);
        Ok(())
    }

    /// Whether the bindings are of this card, as `claim` asks: each of their channels is one of the card's.
    pub fn can_claim(&self, bindings: &Bindings) -> bool
        ensures { IsTrue result ↔ AreOfCard self.now bindings.now }
    {
        for client in 0..bindings.len() {
            if bindings.card_channel(client) >= self.channels {
                return false;
            }
        }
        true
    }

    /// Releases the card channels of the bindings, which are of this card and owned (`can_release`), with the last frame that
    /// their owner placed, if it placed one. With None the last frames of earlier owners still count.
    pub fn release(&mut self, bindings: &Bindings, last: Option<u64>)
        requires card { AreOfCard self.old bindings.now }
        requires owned { AreOwned self.old bindings.now }
        ensures released { (h : List ClaimRow) → StandsFor self.old h
            → StandsFor self.new (released bindings.now last ∷ h) }
        ensures channels { self.new.channels ≡ self.old.channels }
    {
        self.mark(bindings, false);
        self.raise(bindings, last);
    }

    /// Whether the bindings are of this card, and each of their channels is owned, as `release` asks.
    pub fn can_release(&self, bindings: &Bindings) -> bool
        ensures { IsTrue result ↔ (AreOfCard self.now bindings.now
            × AreOwned self.now bindings.now) }
    {
        for client in 0..bindings.len() {
            let channel = bindings.card_channel(client);
            if channel >= self.channels || !self.owned[channel as usize] {
                return false;
            }
        }
        true
    }

    /// Whether a channel of the card is owned.
    pub fn owned(&self, channel: u8) -> bool
        requires { channel < self.now.channels }
        ensures value { result ≡ is_owned self.now channel }
        ensures owner { (h : List ClaimRow) → StandsFor self.now h
            → result ≡ is_some (owner_of h channel) }
    {
        self.owned[channel as usize]
    }

    /// Whether one of these channels is owned.
    fn any_owned(&self, bindings: &Bindings) -> bool
        requires { AreOfCard self.now bindings.now }
        ensures { result ≡ list_any (is_owned self.now) bindings.now }
    {
        for client in 0..bindings.len() {
            if self.owned[bindings.card_channel(client) as usize] {
                return true;
            }
        }
        false
    }

    /// The greatest last frame of the earlier owners of these channels.
    fn latest(&self, bindings: &Bindings) -> Option<u64>
        requires { AreOfCard self.now bindings.now }
        ensures { result ≡ latest_of self.now bindings.now }
    {
        let mut latest = None;
        for client in 0..bindings.len() {
            latest = later(latest, self.last[bindings.card_channel(client) as usize]);
        }
        latest
    }

    /// Notes of these channels whether they are owned.
    fn mark(&mut self, bindings: &Bindings, owned: bool)
        requires { AreOfCard self.old bindings.now }
        ensures marked { self.new
            ≡ record self.old { owned = with_value_at owned self.old.owned bindings.now } }
        ensures bound { IsHeldShare self.old }
    {
        for client in 0..bindings.len() {
            self.owned[bindings.card_channel(client) as usize] = owned;
        }
    }

    /// Notes of these channels that a frame was placed there, if one was.
    fn raise(&mut self, bindings: &Bindings, frame: Option<u64>)
        requires { AreOfCard self.old bindings.now }
        ensures { self.new
            ≡ record self.old { last = with_later_at frame self.old.last bindings.now } }
    {
        for client in 0..bindings.len() {
            let channel = bindings.card_channel(client) as usize;
            self.last[channel] = later(frame, self.last[channel]);
        }
    }
}

/// The later of two frames, where there are such.
fn later(a: Option<u64>, b: Option<u64>) -> Option<u64>
    ensures { result ≡ later a b }
{
    match (a, b) {
        (None, frame) | (frame, None) => frame,
        (Some(a), Some(b)) => Some(a.max(b)),
    }
}
