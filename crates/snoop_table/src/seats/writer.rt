//! The writer's seat at the snoop ring: it stores the captured frames in order and publishes the card's position.
ghost use Rattle.std.specs.Prelude.{◌≡◌};

use super::desk::Desk;
use snd_base::{Geometry, PcmError};

/// The writer's seat at a snoop ring, which it borrows. There is one for each ring.
///
/// Its meaning is its view, which has the list of all samples that it stored, the list of positions that it published, and
/// whether it unplugged the card. Between its calls it has stored whole frames.
#[derive(Drop)]
pub struct WriterSeat<'a> {
    pub(super) desk: Desk<'a>,
    ghost whole: { desk.place.next.channel ≡ 0 },
}

impl WriterSeat<'_> {
    ghost use Rattle.std.specs.Prelude.{◌≡◌, ◌↔◌, length, IfErr, IsErrOf, OnErr, OnOk};
    ghost use Rattle.snd_base.specs.Places.{lap};
    ghost use Rattle.snoop_table.specs.Captured.{next_to_store};
    ghost use Rattle.snoop_table.specs.Writers.{HasPublished, HasStored, HasUnplugged, desk_of, next_frame, writer_geometry, writer_track};

    /// The geometry of the ring.
    pub fn geometry(&self) -> Geometry
        ensures { result ≡ writer_geometry self.now }
    {
        self.desk.geometry
    }

    /// The number of the frame that is stored next: the first one that is not stored.
    pub fn next(&self) -> u64
        ensures value { result ≡ next_frame self.now }
        ensures behind_stored { result
            ≡ (next_to_store (writer_geometry self.now) (writer_track self.now)).frame }
    {
        self.desk.place.next.frame
    }

    /// Stores the next captured frame, of one sample for each channel, by one store for each, over the frame of the lap before.
    /// `LapEnd` comes exactly where the next frame's lap is 4294967295; nothing changes then.
    #[inline(always)]
    pub fn store_frame(&mut self, frame: &[i16]) -> Result<(), PcmError>
        requires { length frame.now ≡ (writer_geometry self.old).channels }
        ensures ok { OnOk result (HasStored (desk_of self.old) (desk_of self.new) frame.now) }
        ensures err { OnErr result (self.new ≡ self.old) }
        ensures lap_end { IsErrOf result PcmError.LapEnd
            ↔ (lap (writer_geometry self.old) (next_frame self.old) ≡ 4294967295) }
        ensures only { IfErr result (λ e. e ≡ PcmError.LapEnd) }
    {
        if self.desk.place.laps == 4294967296 {
            return Err(PcmError::LapEnd);
        }
        self.desk.store_frame(frame);
        Ok(())
    }

    /// Publishes the number of the first frame that is not stored as the position, by one store.
    pub fn publish(&mut self)
        ensures { HasPublished (desk_of self.old) (desk_of self.new) }
    {
        self.desk.publish();
    }

    /// Unplugs the card, by one store: from now on every position that is loaded says that it is gone.
    pub fn unplug(&mut self)
        ensures { HasUnplugged (desk_of self.old) (desk_of self.new) }
    {
        self.desk.unplug();
    }
}
