//! The duplex card over the seats of both rings.
ghost use Rattle.std.specs.Prelude.{◌≤◌};
ghost use Rattle.card_sim.specs.Steps.{AreSeatsOfCard, IsAtPublished};

use crate::run::run_frames;
use crate::watch::Watch;
use card_player::CardPlayer;
use pcm_stream::is_same_ring;
use snd_base::{Geometry, PcmError};
use snoop_table::{SnoopNote, WriterSeat};
use sum_table::{PlayerSeat, SeatNote};

/// A duplex card: a player at the sum ring and a writer at the snoop ring, which are always at the same frame. A card that
/// doesn't record stores nothing in the snoop ring, and publishes nothing on it: for a ring that nobody reads. `'p` is the
/// borrow of the sum ring, and `'w` that of the snoop ring.
///
/// Its meaning is its player, its writer, its period, in frames, and whether it records.
pub struct Card<'p, 'w> {
    player: CardPlayer<'p>,
    writer: WriterSeat<'w>,
    period: u32,
    records: bool,
    ghost period_least: { 1 ≤ period },
    ghost in_step: { AreSeatsOfCard records player writer },
    ghost published: { IsAtPublished player },
}

// One call wherever it is let go. A derive drops each part in turn there, and the proof goes through all of them.
impl<'p, 'w> Drop for Card<'p, 'w> {
    fn drop(self) {
        let Card {
            player: _,
            writer: _,
            period: _,
            records: _,
        } = self;
    }
}

impl<'p, 'w> Card<'p, 'w> {
    ghost use Rattle.std.specs.Prelude.{◌≡◌, ◌<◌, ◌≤◌, ◌%◌, ◌↔◌, true, IsTrue, length, IfErr, IsErrOf};
    ghost use Rattle.sum_table.specs.Joins.{HasHeard, HasPlayerNote, OneRing, note_key, note_ring};
    ghost use Rattle.sum_table.specs.Players.{HasUnplugged, player_key, player_ring, position_of_player};
    ghost use Rattle.snoop_table.specs.Joins.{HasHeard as WriterHasHeard, HasWriterNote, OneRing as OneSnoopRing, note_geometry, note_ring as snoop_note_ring};
    ghost use Rattle.snoop_table.specs.Writers.{HasUnplugged as WriterHasUnplugged, desk_of, writer_geometry, writer_ring};
    ghost use Rattle.card_player.specs.Plays.{EndsEarly, frame_of, geometry_of, seat_of};
    ghost use Rattle.card_sim.specs.Steps.{AreInStep, AreSeatsOfCard, IsAtPublished};
    ghost use Rattle.card_sim.specs.Runs.{RunsThrough, moments_through, period_of, player_of, records_of, writer_of};

    /// A card that records, over a player and a writer, with a period of so many frames, at least 1.
    ///
    /// The caller has rings of one geometry, a player that takes next the first word of the frame that the writer stores next,
    /// and this frame is the player's last published position, or the first frame where it published none (`can_use`).
    pub fn new(player: CardPlayer<'p>, writer: WriterSeat<'w>, period: u32) -> Card<'p, 'w>
        requires period { 1 ≤ period }
        requires in_step { AreInStep player writer }
        requires published { IsAtPublished player }
        ensures player { player_of result ≡ player.entry }
        ensures writer { writer_of result ≡ writer.entry }
        ensures period { period_of result ≡ period }
        ensures records { records_of result ≡ true }
    {
        Card::with_records(player, writer, period, true)
    }

    /// A card as `new` makes it, which records or doesn't. One that doesn't record plays from the sum ring alone: no frame is
    /// stored in the snoop ring, so that its writer may be at another frame than the player.
    pub fn with_records(
        player: CardPlayer<'p>,
        writer: WriterSeat<'w>,
        period: u32,
        records: bool,
    ) -> Card<'p, 'w>
        requires period { 1 ≤ period }
        requires in_step { AreSeatsOfCard records player writer }
        requires published { IsAtPublished player }
        ensures player { player_of result ≡ player.entry }
        ensures writer { writer_of result ≡ writer.entry }
        ensures period { period_of result ≡ period }
        ensures records { records_of result ≡ records }
    {
        Card {
            player,
            writer,
            period,
            records,
        }
    }

    /// Whether a card can be made of this player and this writer, as `new` asks.
    pub fn can_use(player: &CardPlayer<'p>, writer: &WriterSeat<'w>) -> bool
        ensures { IsTrue result ↔ (AreInStep player.now writer.now × IsAtPublished player.now) }
    {
        if !player.is_at_frame() || !is_same_ring(&player.geometry(), &writer.geometry()) {
            return false;
        }
        let frame = player.next().frame;
        frame == writer.next() && frame == player.position()
    }

    /// How many channels the card has.
    pub fn channels(&self) -> u8
        ensures { result ≡ (geometry_of (player_of self.now)).channels }
    {
        self.player.geometry().channels
    }

    /// How many frames a period has.
    pub fn period(&self) -> u32
        ensures { result ≡ period_of self.now }
    {
        self.period
    }

    /// Whether the card stores the captured frames in the snoop ring.
    pub fn records(&self) -> bool
        ensures { result ≡ records_of self.now }
    {
        self.records
    }

    /// The geometry of both rings.
    pub fn geometry(&self) -> Geometry
        ensures { result ≡ geometry_of (player_of self.now) }
    {
        self.player.geometry()
    }

    /// The position that both rings published last, a frame number, or the number of the first frame.
    pub fn position(&self) -> u64
        ensures { result ≡ position_of_player (seat_of (player_of self.now)) }
    {
        self.player.next().frame
    }

    /// Runs for as many frames as the buffers hold: for each it stores the captured frame and then takes the played one into
    /// `out`, both interleaved. At each multiple of the period, and at the end where it isn't one, it publishes the sum ring's
    /// position and then the snoop ring's. A card that doesn't record stores nothing, and publishes the sum ring's position
    /// alone.
    ///
    /// `watch` is shown both seats after each of these steps, in their order; `NoWatch` is for a caller that doesn't look at them.
    /// A card that doesn't record shows it nothing.
    ///
    /// The caller has buffers of equally many samples, in whole frames. `LapEnd` comes exactly where the lap of one of these
    /// frames is 4294967295: then the frames before it are captured, played and published.
    pub fn run<W: Watch>(
        &mut self,
        captured: &[i16],
        out: &mut [i16],
        watch: &mut W,
    ) -> Result<(), PcmError>
        requires same { length captured.now ≡ length out.old }
        requires whole { length out.old % (geometry_of (player_of self.old)).channels ≡ 0 }
        ensures runs { RunsThrough self.old self.new captured.now out.old out.new }
        ensures watched { W.saw watch.old watch.new (moments_through self.old out.old) }
        ensures period { period_of self.new ≡ period_of self.old }
        ensures records { records_of self.new ≡ records_of self.old }
        ensures lap_end { IsErrOf result PcmError.LapEnd ↔ EndsEarly (player_of self.old) out.old }
        ensures only { IfErr result (λ e. e ≡ PcmError.LapEnd) }
    {
        if !self.records {
            return self.player.play_by(self.period, out);
        }
        let geometry = self.player.geometry();
        let first = self.player.next().frame;
        let frames = out.len() / geometry.channels as usize;
        let left = (geometry.end_frame() - first).min(frames as u64) as usize;
        run_frames(
            &mut self.player,
            &mut self.writer,
            self.period,
            captured,
            out,
            left,
            watch,
        );
        if left < frames {
            return Err(PcmError::LapEnd);
        }
        Ok(())
    }

    /// Unplugs the card from both rings, by one store each: from now on every position that is loaded says that it is gone.
    pub fn unplug(&mut self)
        ensures played { HasUnplugged (seat_of (player_of self.old))
            (seat_of (player_of self.new)) }
        ensures captured { WriterHasUnplugged (desk_of (writer_of self.old))
            (desk_of (writer_of self.new)) }
        ensures period { period_of self.new ≡ period_of self.old }
        ensures records { records_of self.new ≡ records_of self.old }
    {
        self.player.unplug();
        self.writer.unplug();
    }

    /// A note of the sum ring's player: of all that it has seen, and so of each position that it published.
    pub fn note_of_player(&mut self) -> SeatNote<'p>
        ensures note { HasPlayerNote (seat_of (player_of self.old))
            (seat_of (player_of self.new)) result }
        ensures writer { writer_of self.new ≡ writer_of self.old }
        ensures period { period_of self.new ≡ period_of self.old }
        ensures records { records_of self.new ≡ records_of self.old }
    {
        self.player.note()
    }

    /// The sum ring's player meets a note of a client's seat, and learns that what the seat has seen is what this player did.
    /// The caller shows that both are of one ring.
    pub fn meet_client(&mut self, note: SeatNote<'_>)
        requires { OneRing (note_ring note) (note_key note)
            (player_ring (seat_of (player_of self.old)))
            (player_key (seat_of (player_of self.old))) }
        ensures heard { HasHeard (seat_of (player_of self.old))
            (seat_of (player_of self.new)) note.entry }
        ensures writer { writer_of self.new ≡ writer_of self.old }
        ensures period { period_of self.new ≡ period_of self.old }
        ensures records { records_of self.new ≡ records_of self.old }
    {
        self.player.meet(note);
    }

    /// A note of the snoop ring's writer: of all that it has seen, and so of each position that it published.
    pub fn note_of_writer(&mut self) -> SnoopNote<'w>
        ensures note { HasWriterNote (writer_of self.old) (writer_of self.new) result }
        ensures player { player_of self.new ≡ player_of self.old }
        ensures period { period_of self.new ≡ period_of self.old }
        ensures records { records_of self.new ≡ records_of self.old }
    {
        self.writer.note()
    }

    /// The snoop ring's writer meets a note of a reader's seat, and learns that what the seat has seen is what this writer did.
    /// The caller shows that both are of one ring.
    pub fn meet_reader(&mut self, note: SnoopNote<'_>)
        requires { OneSnoopRing (snoop_note_ring note) (note_geometry note)
            (writer_ring (writer_of self.old)) (writer_geometry (writer_of self.old)) }
        ensures heard { WriterHasHeard (writer_of self.old) (writer_of self.new) note.entry }
        ensures player { player_of self.new ≡ player_of self.old }
        ensures period { period_of self.new ≡ period_of self.old }
        ensures records { records_of self.new ≡ records_of self.old }
    {
        self.writer.meet(note);
    }

    /// Gives the seats of both rings back.
    pub fn into_seats(self) -> (PlayerSeat<'p>, WriterSeat<'w>)
        ensures player { result.0 ≡ seat_of (player_of self.entry) }
        ensures writer { result.1 ≡ writer_of self.entry }
    {
        let Card {
            player,
            writer,
            period: _,
            records: _,
        } = self;
        (player.into_seat(), writer)
    }
}
