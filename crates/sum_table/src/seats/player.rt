//! The player's seat at the sum ring: it takes the words in order and publishes the card's position.
ghost use Rattle.ring_rule.specs.Spots.{IsLapStart};
ghost use Rattle.sum_table.specs.Known.{IsPlayer, SitsAt};

use super::plays::{Publish, Take, Unplug};
use crate::rule::{Seat, Shared};
use crate::view::Key;
use mix_core::Taken;
use ring_rule::LapStart;
use snd_base::{Cursor, Geometry, PcmError};

/// The player's seat at a sum ring, which it borrows. There is one for each ring.
///
/// Its meaning is its view, which has the list of everything that it took, the list of positions that it published, and
/// whether it unplugged the card.
#[derive(Drop)]
pub struct PlayerSeat<'a> {
    pub(super) ring: &'a Shared,
    pub(super) seat: Seat,
    pub(super) key: Key,
    pub(super) next: Cursor,
    pub(super) position: u64,
    pub(super) gone: bool,
    pub(super) start: LapStart,
    ghost same_ring: { SitsAt seat.table_id ring.now.table_id key ring.now.key seat.me.1 },
    ghost known: { IsPlayer seat.me.0 key next position gone },
    ghost lap_start: { IsLapStart key.geometry start },
}

impl PlayerSeat<'_> {
    ghost use Rattle.std.specs.Prelude.{◌≡◌, ◌<◌, ◌↔◌, true, false, IfOk, IfErr, OnErr, IsErrOf};
    ghost use Rattle.snd_base.specs.Places.{IsWithin, lap};
    ghost use Rattle.sum_table.specs.Exact.{next_at, position_at};
    ghost use Rattle.sum_table.specs.Players.{HasPublished, HasTaken, HasUnplugged, IsTurnedPlayer, next_of_player, player_geometry, position_of_player, track_of};

    /// The geometry of the ring.
    pub fn geometry(&self) -> Geometry
        ensures { result ≡ player_geometry self.now }
    {
        self.key.geometry
    }

    /// The position that it published last, a frame number, or the number of the first frame.
    pub fn position(&self) -> u64
        ensures value { result ≡ position_of_player self.now }
        ensures published_last { result
            ≡ position_at (player_geometry self.now) (track_of self.now) }
        ensures within { IsWithin (player_geometry self.now) result }
    {
        self.position
    }

    /// The next word to be taken: the word after everything that was taken, in the order of frames and channels.
    pub fn next(&self) -> Cursor
        ensures value { result ≡ next_of_player self.now }
        ensures behind_taken { result ≡ next_at (player_geometry self.now) (track_of self.now) }
        ensures channel { result.channel < (player_geometry self.now).channels }
        ensures within { IsWithin (player_geometry self.now) result.frame }
    {
        self.next
    }

    /// Takes the next word, by one swap, and leaves the empty word of the next lap in its place. The value is the sum of
    /// all samples that were placed there, saturated once to 16 bits. `LapEnd` comes exactly where the lap of
    /// the next word's frame is 4294967295; nothing changes then.
    #[inline(always)]
    pub fn take_word(&mut self) -> Result<Taken, PcmError>
        ensures ok { IfOk result (λ taken. HasTaken self.old self.new taken) }
        ensures err { OnErr result (self.new ≡ self.old) }
        ensures lap_end { IsErrOf result PcmError.LapEnd
            ↔ (lap (player_geometry self.old) (next_of_player self.old).frame ≡ 4294967295) }
        ensures only { IfErr result (λ e. e ≡ PcmError.LapEnd) }
    {
        if !self.turn_to_next() {
            return Err(PcmError::LapEnd);
        }
        let geometry = self.key.geometry;
        let Cursor { frame, channel } = self.next;
        let spot = self.start.spot_in_lap(&geometry, frame, channel);
        let empty = lap_word::pack(spot.lap as u32 + 1, 0, 0);
        let found = self.ring.swap::<Take>(&mut self.seat, spot.index, empty);
        let next = Cursor::behind(&geometry, frame, channel);
        self.next.frame = next.frame;
        self.next.channel = next.channel;
        Ok(Taken {
            frame,
            channel,
            value: lap_word::clamp(lap_word::sum(found)),
        })
    }

    // Goes to the lap of the next word's frame. `false` comes exactly where no word can have it; nothing changes then.
    #[inline(always)]
    fn turn_to_next(&mut self) -> bool
        ensures turned { result ≡ true → IsTurnedPlayer self.old self.new }
        ensures fits { (result ≡ true)
            ↔ (lap (player_geometry self.old) (next_of_player self.old).frame < 4294967295) }
        ensures unchanged { result ≡ false → self.new ≡ self.old }
    {
        let geometry = self.key.geometry;
        let frame = self.next.frame;
        if self.start.has(&geometry, frame) {
            return true;
        }
        let Some(start) = LapStart::of_frame(&geometry, frame) else {
            return false;
        };
        self.start = start;
        true
    }

    /// Publishes the number of the first frame that is not wholly taken as the position, by one store.
    pub fn publish(&mut self)
        ensures { HasPublished self.old self.new }
    {
        let word = lap_word::position_word(self.next.frame, self.gone);
        self.ring.store::<Publish>(&mut self.seat, 0, word);
        self.position = self.next.frame;
    }

    /// Unplugs the card, by one store: from now on every position that is loaded says that it is gone.
    pub fn unplug(&mut self)
        ensures { HasUnplugged self.old self.new }
    {
        let word = lap_word::position_word(self.position, true);
        self.ring.store::<Unplug>(&mut self.seat, 0, word);
        self.gone = true;
    }
}
