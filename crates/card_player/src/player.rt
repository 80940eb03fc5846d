//! The player of a card: whole frames are taken from a sum ring, and positions are published.
ghost use Rattle.std.specs.Prelude.{◌≤◌};

use snd_base::{Cursor, Geometry, PcmError};
use sum_table::{PlayerSeat, SeatNote};

/// The player of a card, over its seat at the sum ring. It takes the words of whole frames, in the order of frames and then
/// channels, and publishes the card's position at each multiple of the period, as a card's interrupts do (ALSA's
/// `snd_pcm_period_elapsed`).
///
/// Its meaning is its seat and its period, in frames.
pub struct CardPlayer<'a> {
    seat: PlayerSeat<'a>,
    period: u32,
    ghost period_least: { 1 ≤ period },
}

// One call wherever it is let go. A derive drops each part in turn there, and the proof goes through all of them.
impl<'a> Drop for CardPlayer<'a> {
    fn drop(self) {
        let CardPlayer { seat: _, period: _ } = self;
    }
}

impl<'a> CardPlayer<'a> {
    ghost use Rattle.std.specs.Prelude.{◌≡◌, ◌+◌, ◌*◌, ◌≤◌, ◌↔◌, IsTrue, [], length, IfErr, OnErr, OnOk, IsErrOf, nat_lt, ◌&&◌};
    ghost use Rattle.snd_base.specs.Places.{end_frame};
    ghost use Rattle.sum_table.specs.Joins.{HasHeard, HasPlayerNote, OneRing, note_key, note_ring};
    ghost use Rattle.sum_table.specs.Players.{HasPublished, HasUnplugged, next_of_player, player_key, player_ring, position_of_player};
    ghost use Rattle.card_player.specs.Plays.{EndsEarly, HasFrame, HasRoom, IsAtFrame, IsAtLapEnd, IsDue, PlaysAndPublishes, PlaysBy, PlaysFrames, PublishesPeriod, TakesFrameAt, frame_of, frames_left, geometry_of, is_multiple, period_of, seat_of};

    /// A player over this seat, with a period of so many frames, at least 1.
    pub fn new(seat: PlayerSeat<'a>, period: u32) -> CardPlayer<'a>
        requires { 1 ≤ period }
        ensures seat { seat_of result ≡ seat.entry }
        ensures period { period_of result ≡ period }
    {
        CardPlayer { seat, period }
    }

    /// The geometry of the ring.
    pub fn geometry(&self) -> Geometry
        ensures { result ≡ geometry_of self.now }
    {
        self.seat.geometry()
    }

    /// The next word to be taken.
    pub fn next(&self) -> Cursor
        ensures { result ≡ next_of_player (seat_of self.now) }
    {
        self.seat.next()
    }

    /// The position that was published last, a frame number, or the number of the first frame.
    pub fn position(&self) -> u64
        ensures { result ≡ position_of_player (seat_of self.now) }
    {
        self.seat.position()
    }

    /// Whether the next word is the first one of a frame, as the calls that take frames ask.
    pub fn is_at_frame(&self) -> bool
        ensures { IsTrue result ↔ IsAtFrame self.now }
    {
        self.seat.next().channel == 0
    }

    /// Whether the next frame is before the ring's end, as `take_frame_at` asks.
    pub fn has_frame(&self) -> bool
        ensures { IsTrue result ↔ HasFrame self.now }
    {
        self.seat.next().frame < self.seat.geometry().end_frame()
    }

    /// Takes the words of the next frame and writes their values into the first samples of `out`, in the order of the card's
    /// channels. Nothing is published.
    ///
    /// The caller has room for one sample of each channel, and a next word of channel 0 (`is_at_frame`). `LapEnd` comes
    /// exactly where the lap of the next frame is 4294967295; nothing changes then.
    pub fn take_frame(&mut self, out: &mut [i16]) -> Result<(), PcmError>
        requires room { (geometry_of self.old).channels ≤ length out.old }
        requires at_frame { IsAtFrame self.old }
        ensures ok { OnOk result (PlaysFrames self.old self.new 1 out.old out.new []) }
        ensures err { OnErr result (self.new ≡ self.old) }
        ensures out { OnErr result (out.new ≡ out.old) }
        ensures lap_end { IsErrOf result PcmError.LapEnd ↔ IsAtLapEnd self.old }
        ensures only { IfErr result (λ e. e ≡ PcmError.LapEnd) }
    {
        let geometry = self.seat.geometry();
        if geometry.lap(self.seat.next().frame) == 4294967295 {
            return Err(PcmError::LapEnd);
        }
        self.take_frame_at(out, 0);
        Ok(())
    }

    /// Takes the words of the next frame, which is before the ring's end (`has_frame`), and writes their values into `out` from
    /// an index on. Nothing is published.
    ///
    /// The caller has room there for one sample of each channel, and a next word of channel 0 (`is_at_frame`).
    #[inline(always)]
    pub fn take_frame_at(&mut self, out: &mut [i16], at: usize)
        requires room { HasRoom self.old at out.old }
        requires at_frame { IsAtFrame self.old }
        requires fits { HasFrame self.old }
        ensures { TakesFrameAt self.old self.new at out.old out.new }
    {
        let channels = self.seat.geometry().channels;
        self.take_frame_of(out, at, channels);
    }

    /// Takes a frame in the same way, of a card of so many channels (`geometry`). Where the caller has their number as a constant,
    /// no loop over them is left.
    #[inline(always)]
    pub fn take_frame_of(&mut self, out: &mut [i16], at: usize, channels: u8)
        requires channels { channels ≡ (geometry_of self.old).channels }
        requires room { HasRoom self.old at out.old }
        requires at_frame { IsAtFrame self.old }
        requires fits { HasFrame self.old }
        ensures { TakesFrameAt self.old self.new at out.old out.new }
    {
        for channel in 0..channels as usize {
            let Ok(taken) = self.seat.take_word() else {
                unreachable!()
            };
            out[at + channel] = taken.value;
        }
    }

    /// Plays as many frames as `out` has room for: takes the words of each, writes their values, interleaved, and publishes
    /// the position at each multiple of the period, and at the end where it isn't one. Samples of `out` that make no whole
    /// frame stay.
    ///
    /// The caller has a next word of channel 0 (`is_at_frame`). `LapEnd` comes exactly where the lap of one of these frames is
    /// 4294967295: then the frames before it are played, and published.
    pub fn play(&mut self, out: &mut [i16]) -> Result<(), PcmError>
        requires { IsAtFrame self.old }
        ensures plays { PlaysAndPublishes self.old self.new (frames_left self.old out.old)
            out.old out.new }
        ensures lap_end { IsErrOf result PcmError.LapEnd ↔ EndsEarly self.old out.old }
        ensures only { IfErr result (λ e. e ≡ PcmError.LapEnd) }
    {
        self.play_by(self.period, out)
    }

    /// Plays in the same way, by a period of so many frames, at least 1, in place of the player's own.
    pub fn play_by(&mut self, period: u32, out: &mut [i16]) -> Result<(), PcmError>
        requires period { 1 ≤ period }
        requires at_frame { IsAtFrame self.old }
        ensures plays { PlaysBy period self.old self.new (frames_left self.old out.old)
            out.old out.new }
        ensures lap_end { IsErrOf result PcmError.LapEnd ↔ EndsEarly self.old out.old }
        ensures only { IfErr result (λ e. e ≡ PcmError.LapEnd) }
    {
        let geometry = self.seat.geometry();
        let first = self.seat.next().frame;
        let frames = out.len() / geometry.channels as usize;
        let left = (geometry.end_frame() - first).min(frames as u64) as usize;
        self.play_frames(period, out, left);
        if left < frames {
            return Err(PcmError::LapEnd);
        }
        Ok(())
    }

    /// The next multiple of a period past the next frame. With it a loop over frames needs no division for each of them.
    pub fn next_period(&self, period: u32) -> u64
        requires { 1 ≤ period }
        ensures { IsDue period (frame_of self.now + 1) result }
    {
        let frame = self.seat.next().frame;
        frame + (period as u64 - frame % period as u64)
    }

    /// Whether the last of so many frames, which were just played, ended a period.
    pub fn has_ended_period(&self, period: u32, frames: usize) -> bool
        requires { 1 ≤ period }
        ensures { result ≡ (nat_lt 0 frames && is_multiple period (frame_of self.now)) }
    {
        frames > 0 && self.seat.next().frame % period as u64 == 0
    }

    /// Publishes the number of the first frame that isn't wholly taken as the position, by one store.
    pub fn publish(&mut self)
        ensures published { HasPublished (seat_of self.old) (seat_of self.new) }
        ensures period { period_of self.new ≡ period_of self.old }
    {
        self.seat.publish();
    }

    /// Unplugs the card, by one store: from now on every position that is loaded says that it is gone.
    pub fn unplug(&mut self)
        ensures unplugged { HasUnplugged (seat_of self.old) (seat_of self.new) }
        ensures period { period_of self.new ≡ period_of self.old }
    {
        self.seat.unplug();
    }

    /// A note of all that the player has seen, and so of each position that it published, for a seat of the ring to meet.
    pub fn note(&mut self) -> SeatNote<'a>
        ensures note { HasPlayerNote (seat_of self.old) (seat_of self.new) result }
        ensures period { period_of self.new ≡ period_of self.old }
    {
        self.seat.note()
    }

    /// Meets a note of a seat, and learns that what it has seen is what this player did. The caller shows that both are of one
    /// ring.
    pub fn meet(&mut self, note: SeatNote<'_>)
        requires { OneRing (note_ring note) (note_key note) (player_ring (seat_of self.old))
            (player_key (seat_of self.old)) }
        ensures heard { HasHeard (seat_of self.old) (seat_of self.new) note.entry }
        ensures period { period_of self.new ≡ period_of self.old }
    {
        self.seat.meet(note);
    }

    /// Gives the seat back.
    pub fn into_seat(self) -> PlayerSeat<'a>
        ensures { result ≡ seat_of self.entry }
    {
        let CardPlayer { seat, period: _ } = self;
        seat
    }

    // Plays so many frames, which the ring still has and `out` has room for.
    fn play_frames(&mut self, period: u32, out: &mut [i16], frames: usize)
        requires period { 1 ≤ period }
        requires room { frames * (geometry_of self.old).channels ≤ length out.old }
        requires at_frame { IsAtFrame self.old }
        requires fits { frame_of self.old + frames ≤ end_frame (geometry_of self.old) }
        ensures { PlaysBy period self.old self.new frames out.old out.new }
    {
        // For one channel there is a loop of its own in the machine code, without one over the channels.
        match self.seat.geometry().channels {
            1 => self.play_all(period, out, frames, 1),
            channels => self.play_all(period, out, frames, channels),
        }
    }

    // Plays so many frames of so many channels, in the code of its caller, which may know the number of channels.
    #[inline(always)]
    fn play_all(&mut self, period: u32, out: &mut [i16], frames: usize, channels: u8)
        requires channels { channels ≡ (geometry_of self.old).channels }
        requires period { 1 ≤ period }
        requires room { frames * (geometry_of self.old).channels ≤ length out.old }
        requires at_frame { IsAtFrame self.old }
        requires fits { frame_of self.old + frames ≤ end_frame (geometry_of self.old) }
        ensures { PlaysBy period self.old self.new frames out.old out.new }
    {
        let mut due = self.next_period(period);
        for frame in 0..frames {
            self.take_frame_of(out, frame * channels as usize, channels);
            due = self.publish_period(period, due);
        }
        if !self.has_ended_period(period, frames) {
            self.seat.publish();
        }
    }

    // Publishes the position where it is a multiple of the period, of which it is given the next one. Answers the next one past it.
    #[inline(always)]
    fn publish_period(&mut self, period: u32, due: u64) -> u64
        requires period { 1 ≤ period }
        requires due { IsDue period (frame_of self.old) due }
        ensures publishes { PublishesPeriod period self.old self.new }
        ensures due { IsDue period (frame_of self.new + 1) result }
    {
        if self.seat.next().frame != due {
            return due;
        }
        self.seat.publish();
        due + period as u64
    }
}
