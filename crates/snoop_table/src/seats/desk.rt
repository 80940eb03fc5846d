//! Where the writer stores sample by sample.
ghost use Rattle.std.specs.Prelude.{◌≡◌, ◌<◌, length};
ghost use Rattle.snd_base.specs.Places.{lap};
ghost use Rattle.snoop_table.specs.Known.{IsWritePlace, IsWriter, SitsAt};

use super::place::WritePlace;
use super::plays::{Keep, Publish, Unplug};
use crate::rule::{Seat, Shared};
use snd_base::Geometry;
use snoop_core::snoop_word;

/// The writer's part of a ring: it stores the next sample, channel by channel.
#[derive(Drop)]
pub struct Desk<'a> {
    pub(super) ring: &'a Shared,
    pub(super) seat: Seat,
    pub(super) geometry: Geometry,
    pub(super) place: WritePlace,
    pub(super) position: u64,
    pub(super) gone: bool,
    ghost same_ring: { SitsAt seat.table_id ring.now.table_id geometry ring.now.key seat.me.1 },
    ghost known: { IsWriter seat.me.0 geometry place.next position gone },
    ghost at_next: { IsWritePlace geometry place },
}

impl Desk<'_> {
    ghost use Rattle.std.specs.Prelude.{◌≡◌, ◌<◌, length};
    ghost use Rattle.snoop_table.specs.Writers.{HasPublished, HasStored, HasStoredSample, HasUnplugged, desk_geometry, next_of_desk};

    // Stores the next sample, by one store.
    #[inline(always)]
    fn store_sample(&mut self, sample: i16)
        requires { lap (desk_geometry self.old) (next_of_desk self.old).frame < 4294967295 }
        ensures { HasStoredSample self.old self.new sample }
    {
        let word = snoop_word(self.place.laps as u32, sample);
        let behind = self.place.behind(&self.geometry);
        self.ring
            .store::<Keep>(&mut self.seat, self.place.index, word);
        self.place.next.frame = behind.next.frame;
        self.place.next.channel = behind.next.channel;
        self.place.index = behind.index;
        self.place.laps = behind.laps;
    }

    // Stores the samples of the next frame, one for each channel, by one store each.
    #[inline(always)]
    pub(super) fn store_frame(&mut self, frame: &[i16])
        requires whole { (next_of_desk self.old).channel ≡ 0 }
        requires channels { length frame.now ≡ (desk_geometry self.old).channels }
        requires room { lap (desk_geometry self.old) (next_of_desk self.old).frame < 4294967295 }
        ensures { HasStored self.old self.new frame.now }
    {
        for sample in frame {
            self.store_sample(*sample);
        }
    }

    // Publishes the number of the first frame that is not wholly stored, by one store.
    pub(super) fn publish(&mut self)
        ensures { HasPublished self.old self.new }
    {
        let word = lap_word::position_word(self.place.next.frame, self.gone);
        self.ring.store::<Publish>(&mut self.seat, 0, word);
        self.position = self.place.next.frame;
    }

    // Says that the card is gone, by one store.
    pub(super) fn unplug(&mut self)
        ensures { HasUnplugged self.old self.new }
    {
        let word = lap_word::position_word(self.position, true);
        self.ring.store::<Unplug>(&mut self.seat, 0, word);
        self.gone = true;
    }
}
