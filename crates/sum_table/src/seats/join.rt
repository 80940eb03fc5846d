//! Seats are split and joined, meet notes, and end.
ghost use Rattle.std.specs.Prelude.{◌≡◌};

use super::mix::MixSeat;
use super::note::SeatNote;
use super::parts::{Amount, Both, Copied, Part};
use super::player::PlayerSeat;
use super::plays::Learn;
use super::reach::Reach;
use ring_rule::LapStart;
use snd_base::Cursor;
use std::marker::Brand;

/// Where a ring was closed: `position` is the position that the player published last, or the number of the first frame,
/// and `next` the next word that it would have taken.
#[derive(Clone, Copy, Debug, PartialEq, Eq)]
pub struct Closed {
    pub position: u64,
    pub next: Cursor,
}

impl<'a> MixSeat<'a> {
    ghost use Rattle.std.specs.Prelude.{◌≤◌, []};
    ghost use Rattle.sum_table.specs.Joins.{HasClosed, HasJoined, HasMet, HasNote, HasSplit, OneRing, note_key, note_ring};
    ghost use Rattle.sum_table.specs.Players.{player_key, player_ring};
    ghost use Rattle.sum_table.specs.Seats.{key_of, places_of_seat, ring_of, view_of};

    /// Moves some of this seat's places to a new seat of this member. The new seat has seen as much as this one, and has
    /// placed nothing. The caller shows that this seat has so many places, and that nothing was placed by it (`is_fresh`).
    pub fn split(&mut self, places: u32, member: u32) -> MixSeat<'a>
        requires places { places ≤ places_of_seat self.old }
        requires laid_nothing { (view_of self.old).laid ≡ [] }
        ensures { HasSplit self.old self.new result places member }
    {
        self.cut::<Brand>(places, member)
    }

    fn cut<B: Amount>(&mut self, places: u32, member: u32) -> MixSeat<'a>
        requires amount { B.amount ≡ places }
        requires places { places ≤ places_of_seat self.old }
        requires laid_nothing { (view_of self.old).laid ≡ [] }
        ensures { HasSplit self.old self.new result places member }
    {
        let ring = self.ring;
        let key = self.key;
        let seat = ring.split_seat::<Part<B>>(&mut self.seat);
        self.places -= places;
        MixSeat {
            ring,
            seat,
            key,
            member,
            places,
            reach: Reach::start(key.geometry),
            seen: self.seen,
            start: self.start,
        }
    }

    /// Takes over the other seat's places, its placed entries and all that it has seen; the later cursor stays. The caller
    /// shows that both seats are of one ring.
    pub fn join(&mut self, other: MixSeat<'_>)
        requires { OneRing (ring_of other) (key_of other) (ring_of self.old) (key_of self.old) }
        ensures { HasJoined self.old self.new other.entry }
    {
        let MixSeat {
            ring: _,
            seat,
            key: _,
            member: _,
            places,
            reach,
            seen,
            start: _,
        } = other;
        self.ring.join_seat::<Both>(&mut self.seat, seat);
        self.ring.load::<Learn>(&mut self.seat, 0);
        self.places += places;
        self.reach.join(&reach, places);
        self.seen = self.seen.max(seen);
    }

    /// A note of all that this seat has seen, for another seat of the ring to meet.
    pub fn note(&mut self) -> SeatNote<'a>
        ensures { HasNote self.old self.new result }
    {
        let ring = self.ring;
        let key = self.key;
        let seat = ring.split_seat::<Copied>(&mut self.seat);
        SeatNote {
            seat: MixSeat {
                ring,
                seat,
                key,
                member: self.member,
                places: 0,
                reach: Reach::start(key.geometry),
                seen: self.seen,
                start: self.start,
            },
        }
    }

    /// Meets a note: from now on this seat has seen what the note has seen. So no later position is before the greatest one
    /// of the note, and once the note has seen the card gone, every later position is gone. The caller shows that both are
    /// of one ring.
    pub fn meet(&mut self, note: SeatNote<'_>)
        requires { OneRing (note_ring note) (note_key note) (ring_of self.old) (key_of self.old) }
        ensures { HasMet self.old self.new note.entry }
    {
        let SeatNote { seat } = note;
        self.join(seat);
    }

    /// Ends this seat and the player's, and with them the ring's work: then the ring can be dropped. The caller shows that
    /// this seat has all places (`has_all_places`) and that both seats are of one ring.
    pub fn close(self, player: PlayerSeat<'_>) -> Closed
        requires all_places { places_of_seat self ≡ (key_of self).places }
        requires one_ring { OneRing (player_ring player) (player_key player)
            (ring_of self) (key_of self) }
        ensures { HasClosed self.entry player.entry result }
    {
        let MixSeat {
            ring,
            mut seat,
            key: _,
            member: _,
            places: _,
            reach: _,
            seen: _,
            start: _,
        } = self;
        let PlayerSeat {
            ring: _,
            seat: other,
            key: _,
            next,
            position,
            gone: _,
            start: _,
        } = player;
        ring.join_seat::<Both>(&mut seat, other);
        ring.load::<Learn>(&mut seat, 0);
        Closed { position, next }
    }
}

impl<'a> PlayerSeat<'a> {
    ghost use Rattle.sum_table.specs.Joins.{HasHeard, HasPlayerNote, OneRing, note_key, note_ring};
    ghost use Rattle.sum_table.specs.Players.{player_key, player_ring};

    /// A note of all that the player has seen, and so of each position that it published, for a seat of the ring to meet.
    pub fn note(&mut self) -> SeatNote<'a>
        ensures { HasPlayerNote self.old self.new result }
    {
        let ring = self.ring;
        let key = self.key;
        let seat = ring.split_seat::<Copied>(&mut self.seat);
        SeatNote {
            seat: MixSeat {
                ring,
                seat,
                key,
                member: 0,
                places: 0,
                reach: Reach::start(key.geometry),
                seen: self.position,
                start: LapStart::first(&key.geometry),
            },
        }
    }

    /// Meets a note, and learns that what it has seen is what this player did. The caller shows that both are of one ring.
    pub fn meet(&mut self, note: SeatNote<'_>)
        requires { OneRing (note_ring note) (note_key note)
            (player_ring self.old) (player_key self.old) }
        ensures { HasHeard self.old self.new note.entry }
    {
        let SeatNote { seat: met } = note;
        let MixSeat {
            ring: _,
            seat,
            key: _,
            member: _,
            places: _,
            reach: _,
            seen: _,
            start: _,
        } = met;
        self.ring.join_seat::<Both>(&mut self.seat, seat);
        self.ring.load::<Learn>(&mut self.seat, 0);
    }
}
