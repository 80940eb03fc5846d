//! The seats of a ring, and all that they do in single steps on its words. No code outside this module reaches the words of a
//! seat's ring.
ghost use Rattle.std.specs.Prelude.{◌≡◌};
ghost use Rattle.ring_rule.specs.Words.{words_of};
ghost use Rattle.snoop_table.specs.Captured.{IsFirst};
ghost use Rattle.snoop_table.specs.Rings.{HasSeats};

mod desk;
mod join;
mod note;
mod parts;
mod place;
mod plays;
mod reader;
mod writer;

use crate::rule::{Seat, Shared};
use desk::Desk;
pub use note::SnoopNote;
use parts::Copied;
use place::WritePlace;
pub use reader::ReaderSeat;
use ring_rule::LapStart;
use snd_base::Geometry;
pub use writer::WriterSeat;

/// The writer's seat of a ring and its first reader's, of the ring's first seat.
pub(crate) fn deal<'a>(
    ring: &'a Shared,
    first: Seat,
    geometry: Geometry,
) -> (WriterSeat<'a>, ReaderSeat<'a>)
    requires first { IsFirst first.table_id ring.now.table_id first.me geometry }
    requires geometry { geometry ≡ ring.now.key }
    requires room { ring.now.table_id.words ≡ words_of geometry }
    ensures { HasSeats geometry result.0 result.1 }
{
    let mut seat = first;
    let reader = ring.split_seat::<Copied>(&mut seat);
    let place = WritePlace::first(&geometry);
    let desk = Desk {
        ring,
        seat,
        geometry,
        place,
        position: place.next.frame,
        gone: false,
    };
    let reader = ReaderSeat {
        ring,
        seat: reader,
        geometry,
        seen: place.next.frame,
        start: LapStart::first(&geometry),
    };
    (WriterSeat { desk }, reader)
}
