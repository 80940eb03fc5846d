//! The seats of a ring, and all that they do in single steps on its words. No code outside this module reaches the words of a
//! seat's ring.
ghost use Rattle.std.specs.Prelude.{◌≡◌};
ghost use Rattle.sum_table.specs.Exact.{IsFirst};
ghost use Rattle.sum_table.specs.Rings.{HasSeats};
ghost use Rattle.ring_rule.specs.Words.{words_of};

mod join;
mod mix;
mod note;
mod parts;
mod player;
mod plays;
mod reach;

use crate::rule::{Seat, Shared};
use crate::view::Key;
pub use join::Closed;
pub use mix::MixSeat;
pub(crate) use mix::RingSpot;
pub use note::SeatNote;
use parts::Deal;
pub use player::PlayerSeat;
use reach::Reach;
use ring_rule::LapStart;
use snd_base::Cursor;

/// The player's seat of a ring and its first mix seat, which has all places, of the ring's first seat.
pub(crate) fn deal<'a>(ring: &'a Shared, first: Seat, key: Key) -> (PlayerSeat<'a>, MixSeat<'a>)
    requires first { IsFirst first.table_id ring.now.table_id first.me key }
    requires key { key ≡ ring.now.key }
    requires room { ring.now.table_id.words ≡ words_of key.geometry }
    ensures { HasSeats key result.0 result.1 }
{
    let mut seat = first;
    let start = Cursor {
        frame: key.geometry.first_frame(),
        channel: 0,
    };
    let lap_start = LapStart::first(&key.geometry);
    let mix = ring.split_seat::<Deal>(&mut seat);
    let player = PlayerSeat {
        ring,
        seat,
        key,
        next: start,
        position: start.frame,
        gone: false,
        start: lap_start,
    };
    let mix = MixSeat {
        ring,
        seat: mix,
        key,
        member: 0,
        places: key.places,
        reach: Reach::start(key.geometry),
        seen: start.frame,
        start: lap_start,
    };
    (player, mix)
}
