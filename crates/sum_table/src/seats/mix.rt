//! The seat of a client at the sum ring, and its single steps.
ghost use Rattle.std.specs.Prelude.{◌≡◌, ◌+◌, ◌<◌, negsuc, pos, ◌+ℤ◌, ◌≤ℤ◌};
ghost use Rattle.lap_word.specs.Word.{StandsFor, count_of, lap_of, sum_of};
ghost use Rattle.mix_core.specs.Laid.{signed_sample};
ghost use Rattle.sum_table.specs.Known.{IsKnown, SitsAt};
ghost use Rattle.ring_rule.specs.Spots.{IsLapStart};

use super::plays::{Exchange, Locate, Look};
use super::reach::Reach;
use crate::rule::{Seat, Shared};
use crate::view::Key;
use mix_core::{Entry, Kind, Position};
use ring_rule::{LapStart, Spot};
use snd_base::Steps;
use std::sync::ledger::Ledger;

/// A client's seat at a sum ring, which it borrows: with it a client places samples, in any thread.
///
/// Its meaning is its view: the places that it has, the entries that it placed, the cursor after the last of them, the
/// positions that it saw, the words that it found, and for each word at most one noted word. A place is the right of one client to add once at each
/// frame and channel. A seat is the port of its member (`MixPort`), and can add where it has at least one place.
#[derive(Drop)]
pub struct MixSeat<'a> {
    pub(super) ring: &'a Shared,
    pub(super) seat: Seat,
    pub(crate) key: Key,
    pub(crate) member: u32,
    pub(crate) places: u32,
    pub(crate) reach: Reach,
    pub(crate) seen: u64,
    pub(super) start: LapStart,
    ghost same_ring: { SitsAt seat.table_id ring.now.table_id key ring.now.key seat.me.1 },
    ghost known: { IsKnown seat.me.0 key places reach.marks seen reach.last },
    ghost one_geometry: { reach.geometry ≡ key.geometry },
    ghost lap_start: { IsLapStart key.geometry start },
}

/// Where a seat's steps find a word: the ring, and the word's spot there. The steps of one placement share it, so that the seat's
/// ring isn't loaded again for each of them.
#[derive(Clone, Copy)]
pub(crate) struct RingSpot<'a> {
    ring: &'a Shared,
    pub(crate) spot: Spot,
}

impl<'a> MixSeat<'a> {
    ghost use Rattle.std.specs.Prelude.{◌≡◌, ◌≢◌, ℕ, ◌+◌, ◌<◌, ◌≤◌, ◌↔◌, true, false, [], ◌∷◌, Option, Some, OnOk, IfErr, IfSome};
    ghost use Rattle.snd_base.specs.Places.{IsFrom, end_frame, lap};
    ghost use Rattle.lap_word.specs.Word.{lap_of};
    ghost use Rattle.mix_core.specs.Laid.{a_withdrawal, an_add};
    ghost use Rattle.sum_table.specs.Known.{free_from, last_frame};
    ghost use Rattle.mix_core.specs.Marks.{high_frame};
    ghost use Rattle.sum_table.specs.Seats.{CanAdd, HasLaid, HasLocated, HasLost, HasNoted, IsRingSpot, IsTurned, MayLay, SeatEndsIn, cursor_of_seat, entry_by, geometry_of, history_of, last_of_seat, marks_of_seat, member_of, places_of_seat, seen_of, noted_word, view_of};
    ghost use Rattle.sum_table.specs.Steps.{IsSumOf};

    /// How many places the seat has.
    pub fn places(&self) -> u32
        ensures value { result ≡ places_of_seat self.now }
        ensures of_view { result ≡ (view_of self.now).places }
    {
        self.places
    }

    /// The greatest frame that the seat placed in, or took over from a seat that was joined into it: the last one before its high. Neither the
    /// cursor nor the floor is past the frame after it, or past the first frame where nothing was placed.
    pub fn last(&self) -> Option<u64>
        ensures value { result ≡ last_of_seat self.now }
        ensures of_view { result ≡ last_frame (view_of self.now).laid }
        ensures before_high { result ≡ high_frame (geometry_of self.now) (marks_of_seat self.now) }
        ensures cursor_free { IsFrom (marks_of_seat self.now).cursor
            (free_from (geometry_of self.now) result) 0 }
        ensures floor_free { IsFrom (marks_of_seat self.now).floor
            (free_from (geometry_of self.now) result) 0 }
        ensures before_end { IfSome result (λ frame. frame < end_frame (geometry_of self.now)) }
    {
        self.reach.last()
    }

    // Goes to the lap of a frame. `false` comes exactly where no word can have it; nothing changes then.
    #[inline(always)]
    pub(crate) fn turn_to_frame(&mut self, frame: u64) -> bool
        ensures turned { result ≡ true → IsTurned self.old self.new frame }
        ensures fits { (result ≡ true) ↔ (lap (geometry_of self.old) frame < 4294967295) }
        ensures unchanged { result ≡ false → self.new ≡ self.old }
    {
        let geometry = self.key.geometry;
        if self.start.has(&geometry, frame) {
            return true;
        }
        let Some(start) = LapStart::of_frame(&geometry, frame) else {
            return false;
        };
        self.start = start;
        true
    }

    // Where the word of a frame of the seat's lap and a channel is.
    #[inline(always)]
    pub(crate) fn spot_in_lap(&self, frame: u64, channel: u8) -> RingSpot<'a>
        requires channel { channel < (geometry_of self.now).channels }
        requires in_lap { lap (geometry_of self.now) frame ≡ self.now.start.lap }
        ensures { IsRingSpot self.now frame channel result }
    {
        let geometry = self.key.geometry;
        let spot = self.start.spot_in_lap(&geometry, frame, channel);
        RingSpot {
            ring: self.ring,
            spot,
        }
    }

    // Where the word of a frame and channel is.
    #[inline(always)]
    pub(crate) fn spot(&self, frame: u64, channel: u8) -> RingSpot<'a>
        requires channel { channel < (geometry_of self.now).channels }
        ensures { IsRingSpot self.now frame channel result }
    {
        let geometry = self.key.geometry;
        let spot = self.start.spot(&geometry, frame, channel);
        RingSpot {
            ring: self.ring,
            spot,
        }
    }

    // Loads the position, in one step.
    pub(crate) fn locate(&mut self) -> Position
        ensures { HasLocated self.old self.new result }
    {
        let word = self.ring.load::<Locate>(&mut self.seat, 0);
        let position = Position {
            frame: lap_word::position_of(word),
            gone: lap_word::gone_of(word),
        };
        self.seen = position.frame;
        position
    }

    /// Loads the word of the frame's slot and a channel, in one step, which `steps` counts, and notes it. Where it has the
    /// frame's lap, it represents what was placed there so far.
    pub fn load_word<L: Ledger>(&mut self, frame: u64, channel: u8, steps: &mut Steps<L>) -> u64
        requires channel { channel < (geometry_of self.old).channels }
        ensures noted { HasNoted self.old self.new frame channel result }
        ensures sum { IsSumOf (geometry_of self.old) (history_of self.new) frame channel result }
        ensures ticks { steps.new ≡ steps.old + 1 }
    {
        let ring_spot = self.spot(frame, channel);
        self.look(frame, channel, ring_spot, steps)
    }

    // The same, where the word is known to be.
    #[inline(always)]
    pub(crate) fn look<L: Ledger>(
        &mut self,
        frame: u64,
        channel: u8,
        ring_spot: RingSpot<'_>,
        steps: &mut Steps<L>,
    ) -> u64
        requires channel { channel < (geometry_of self.old).channels }
        requires spot { IsRingSpot self.old frame channel ring_spot }
        ensures noted { HasNoted self.old self.new frame channel result }
        ensures sum { IsSumOf (geometry_of self.old) (history_of self.new) frame channel result }
        ensures ticks { steps.new ≡ steps.old + 1 }
    {
        steps.tick();
        ring_spot
            .ring
            .load::<Look>(&mut self.seat, ring_spot.spot.index)
    }

    /// Adds a sample to the word `old`, which the seat noted at this frame and channel and which has the frame's lap, by
    /// one compare-exchange, which `steps` counts. `Ok` says that the word was still `old`: the sample is placed, and the
    /// cursor is right after it. `Err` comes exactly where another word was found, which the seat notes: it is past
    /// `old` by lap and then by count.
    pub fn exchange_word<L: Ledger>(
        &mut self,
        frame: u64,
        channel: u8,
        old: u64,
        sample: i16,
        steps: &mut Steps<L>,
    ) -> Result<(), u64>
        requires can_add { CanAdd self.old }
        requires channel { channel < (geometry_of self.old).channels }
        requires noted { noted_word self.old frame channel ≡ Some old }
        requires of_lap { lap_of old ≡ lap (geometry_of self.old) frame }
        requires from_cursor { IsFrom (cursor_of_seat self.old) frame channel }
        requires ahead { frame < seen_of self.old + (geometry_of self.old).frames }
        requires lap_fits { lap (geometry_of self.old) frame < 4294967295 }
        ensures ok { OnOk result
            (HasLaid self.old self.new (an_add (member_of self.old) frame channel sample)) }
        ensures err { IfErr result (λ n. HasLost self.old self.new frame channel old n) }
        ensures ticks { steps.new ≡ steps.old + 1 }
    {
        let ring_spot = self.spot(frame, channel);
        self.exchange(Kind::Added, ring_spot, frame, channel, old, sample, steps)
    }

    /// Withdraws the sample of the seat's last standing add from the word `old`, which the seat noted at this frame and
    /// channel and which has the frame's lap, by one compare-exchange, which `steps` counts. `Ok` says that the word was still
    /// `old`: the sample is withdrawn, and the cursor is this frame and channel. `Err` comes exactly where another word was
    /// found, which the seat notes: it is past `old` by lap and then by count.
    pub fn withdraw_word<L: Ledger>(
        &mut self,
        frame: u64,
        channel: u8,
        old: u64,
        sample: i16,
        steps: &mut Steps<L>,
    ) -> Result<(), u64>
        requires last { SeatEndsIn self.old
            (an_add (member_of self.old) frame channel sample ∷ []) }
        requires noted { noted_word self.old frame channel ≡ Some old }
        requires of_lap { lap_of old ≡ lap (geometry_of self.old) frame }
        requires from_floor { IsFrom (marks_of_seat self.old).floor frame channel }
        ensures ok { OnOk result
            (HasLaid self.old self.new (a_withdrawal (member_of self.old) frame channel sample)) }
        ensures err { IfErr result (λ n. HasLost self.old self.new frame channel old n) }
        ensures ticks { steps.new ≡ steps.old + 1 }
    {
        let ring_spot = self.spot(frame, channel);
        self.exchange(
            Kind::Withdrawn,
            ring_spot,
            frame,
            channel,
            old,
            sample,
            steps,
        )
    }

    // One compare-exchange that places an entry of this kind, which `steps` counts, at the word of its frame and channel.
    #[inline(always)]
    pub(crate) fn exchange<L: Ledger>(
        &mut self,
        kind: Kind,
        ring_spot: RingSpot<'_>,
        frame: u64,
        channel: u8,
        old: u64,
        sample: i16,
        steps: &mut Steps<L>,
    ) -> Result<(), u64>
        requires may { MayLay kind self.old frame channel sample }
        requires noted { noted_word self.old frame channel ≡ Some old }
        requires of_lap { lap_of old ≡ lap (geometry_of self.old) frame }
        requires spot { IsRingSpot self.old frame channel ring_spot }
        ensures ok { OnOk result
            (HasLaid self.old self.new (entry_by self.old kind frame channel sample)) }
        ensures err { IfErr result (λ n. HasLost self.old self.new frame channel old n) }
        ensures ticks { steps.new ≡ steps.old + 1 }
    {
        steps.tick();
        let entry = Entry {
            member: self.member,
            frame,
            channel,
            sample,
            kind,
        };
        let new = changed(kind, old, sample);
        let index = ring_spot.spot.index;
        let found = ring_spot
            .ring
            .compare_exchange_with::<Exchange>(&mut self.seat, index, old, new, &entry);
        if found != old {
            return Err(found);
        }
        self.reach.lay(kind, frame, channel);
        Ok(())
    }
}

// The word after a sample was added to it, or withdrawn from it. It is changed as one number, by what one sample makes of a
// silent word, since the exchange waits for it.
fn changed(kind: Kind, word: u64, sample: i16) -> u64
    requires room { count_of word < 255 }
    requires low { negsuc 8388607 ≤ℤ (sum_of word +ℤ signed_sample kind sample) }
    requires high { (sum_of word +ℤ signed_sample kind sample) ≤ℤ pos 8388607 }
    ensures { StandsFor result (lap_of word) (count_of word + 1)
        (sum_of word +ℤ signed_sample kind sample) }
{
    let value = signed(kind, sample);
    word + (lap_word::pack(0, 1, value) - lap_word::pack(0, 0, 0))
}

// What a sample changes in the sum: it is added, or withdrawn.
fn signed(kind: Kind, sample: i16) -> i32
    ensures value { result ≡ signed_sample kind sample }
    ensures low { negsuc 32767 ≤ℤ result }
    ensures high { result ≤ℤ pos 32768 }
{
    match kind {
        Kind::Added => sample as i32,
        Kind::Withdrawn => -(sample as i32),
    }
}
