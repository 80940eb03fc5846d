//! The card of a script, and what its lines do in a phase.
ghost use Rattle.std.specs.Prelude.{◌≡◌, ◌+◌, ◌-◌, ◌*◌, ◌%◌, ◌/◌, ◌^◌, ◌<◌, ◌≤◌, ◌++◌, ◌∷◌, [], length, min, true, false, ◌↔◌, IsTrue, IfErr, OnOk, vec_capacity, vec_len};
ghost use Rattle.std.specs.Option.{option_copied};
ghost use Rattle.snd_base.specs.Places.{end_frame};
ghost use Rattle.lab_lines.specs.Script.{is_of_card, played_by};
ghost use Rattle.lab_lines.specs.declared.row.Row.{Row};
ghost use Rattle.lab_run.specs.Phases.{ops_by};
ghost use Rattle.card_player.specs.Plays.{positions_of};
ghost use Rattle.card_sim.specs.Runs.{RunsThrough, period_of, player_of, records_of};
ghost use Rattle.lab_card.specs.CardLines.{CardDid, CardPart, frames_by, positions_by, unplugs_by};
ghost use Rattle.lab_card.specs.Moves.{frame_of_card, geometry_of_card};
ghost use Rattle.lab_card.specs.Room.{FitsRing, HasRoom, KeepsRoom};

use crate::capture::{capture_frames, push_silence};
use crate::lines::{frame_count, is_of_card, line_count, plays_at_most, row_of};
use card_sim::{Card, NoWatch};
use core::mem::replace_with;
use lab_lines::{Line, Op, Row};
use snd_base::PcmError;
use std::alloc::Global;
use wav_io::Wav;

/// The card of a script: the card itself; the samples of all frames that it played, interleaved; the rows of its lines; and
/// the captured samples of the frames that it ran last.
#[derive(Drop)]
pub struct CardActor<'a> {
    pub card: Card<'a, 'a>,
    pub played: Vec<i16>,
    pub rows: Vec<Row>,
    pub captured: Vec<i16>,
}

/// Appends a row, for which there is room.
fn push_row(rows: &mut Vec<Row>, row: Row)
    requires { vec_len rows.old < vec_capacity rows.old }
    ensures items { rows.new.items ≡ rows.old.items ++ row ∷ [] }
    ensures room { vec_capacity rows.old ≤ vec_capacity rows.new }
    ensures one { vec_len rows.new ≡ vec_len rows.old + 1 }
{
    rows.push(row).unwrap();
}

/// Runs a card for as many frames as both buffers have, all of which are before the rings' end. It owns the card meanwhile, so
/// that the compiler keeps the card's fields in registers: behind a reference each atomic step loads and stores them anew. It has
/// machine code of its own, since within its caller's too few registers are left for them.
#[inline(never)]
fn run_over<'a>(card: Card<'a, 'a>, captured: &[i16], out: &mut [i16]) -> Card<'a, 'a>
    requires same { length captured.now ≡ length out.old }
    requires whole { length out.old % (geometry_of_card card).channels ≡ 0 }
    requires fits { frame_of_card card + length out.old / (geometry_of_card card).channels
        ≤ end_frame (geometry_of_card card) }
    ensures runs { RunsThrough card.entry result captured.now out.old out.new }
    ensures period { period_of result ≡ period_of card.entry }
    ensures records { records_of result ≡ records_of card.entry }
{
    let mut own = card;
    let Ok(()) = own.run(captured, out, &mut NoWatch) else {
        unreachable!()
    };
    own
}

/// How many frames a card plays to the end of its period.
fn frames_to_period(card: &Card<'_, '_>) -> usize
    ensures least { 1 ≤ result }
    ensures most { result ≤ period_of card.now }
    ensures ends { (frame_of_card card.now + result) % period_of card.now ≡ 0 }
{
    let period = card.period() as u64;
    (period - card.position() % period) as usize
}

impl<'a> CardActor<'a> {
    /// The card of a script that did no line yet.
    pub fn new(alloc: Global, card: Card<'a, 'a>) -> CardActor<'a>
        ensures card { result.card ≡ card.entry }
        ensures played { result.played.items ≡ [] }
        ensures rows { result.rows.items ≡ [] }
    {
        CardActor {
            card,
            played: Vec::new(alloc),
            rows: Vec::new(alloc),
            captured: Vec::new(alloc),
        }
    }

    /// Whether the frames that a phase's lines play are before the rings' end, as `take_room` and `run_lines` ask.
    pub fn can_run(&self, lines: &[Line]) -> bool
        ensures { IsTrue result ↔ FitsRing self.now (ops_by is_of_card lines.now) }
    {
        let left = self.card.geometry().end_frame() - self.card.position();
        plays_at_most(lines, left)
    }

    /// Takes the room that the lines of a phase want, so that `run_lines` takes no memory. It refuses, with `Memory`, only where
    /// no memory is left; then the played samples and the rows are as they were.
    ///
    /// The caller knows that the frames that the lines play are before the rings' end (`can_run`).
    pub fn take_room(&mut self, lines: &[Line]) -> Result<(), PcmError>
        requires { FitsRing self.old (ops_by is_of_card lines.now) }
        ensures room { OnOk result
            (HasRoom self.new (length (ops_by is_of_card lines.now))
            (frames_by (ops_by is_of_card lines.now))) }
        ensures card { self.new.card ≡ self.old.card }
        ensures played { self.new.played.items ≡ self.old.played.items }
        ensures rows { self.new.rows.items ≡ self.old.rows.items }
        ensures only { IfErr result (λ e. e ≡ PcmError.Memory) }
    {
        let channels = self.card.channels();
        let samples = frame_count(lines) * channels as u64;
        let period = self.card.period() as usize * channels as usize;
        self.captured.clear();
        self.captured.reserve(period)?;
        self.played.reserve(samples as usize)?;
        self.rows.reserve(line_count(lines))?;
        Ok(())
    }

    // Plays a few frames, which are before the rings' end, and for the captured samples of which there is room.
    fn run_piece(&mut self, capture: Option<&Wav>, frames: usize)
        requires fits { frame_of_card self.old.card + frames
            ≤ end_frame (geometry_of_card self.old.card) }
        requires room { HasRoom self.old 0 frames }
        requires few { frames ≤ period_of self.old.card }
        ensures did { CardDid (option_copied capture.entry) self.old self.new frames
            (positions_of (period_of self.old.card) (frame_of_card self.old.card) frames) false }
        ensures room { KeepsRoom self.old self.new 0 frames }
        ensures rows { self.new.rows ≡ self.old.rows }
    {
        replace_with(self, (capture, frames), CardActor::run_owned)
    }

    // The same by value, of a file that is captured and so many frames: so the card is a value of its own meanwhile (`run_over`).
    fn run_owned(self, asked: (Option<&Wav>, usize)) -> (CardActor<'a>, ())
        requires fits { frame_of_card self.card + asked.1 ≤ end_frame (geometry_of_card self.card) }
        requires room { HasRoom self 0 asked.1 }
        requires few { asked.1 ≤ period_of self.card }
        ensures did { CardDid (option_copied asked.entry.0) self.entry result.0 asked.entry.1
            (positions_of (period_of self.entry.card) (frame_of_card self.entry.card) asked.entry.1)
            false }
        ensures room { KeepsRoom self.entry result.0 0 asked.entry.1 }
        ensures rows { result.0.rows ≡ self.entry.rows }
    {
        let (capture, frames) = asked;
        let CardActor {
            card,
            mut played,
            rows,
            mut captured,
        } = self;
        let geometry = card.geometry();
        let from = card.position() - geometry.first_frame();
        capture_frames(&mut captured, capture, from, frames, geometry.channels);
        let at = played.len();
        push_silence(&mut played, frames * geometry.channels as usize);
        let card = run_over(card, captured.as_slice(), &mut played[at..]);
        (
            CardActor {
                card,
                played,
                rows,
                captured,
            },
            (),
        )
    }

    // Plays so many frames, period by period.
    fn play(&mut self, capture: Option<&Wav>, frames: u32)
        requires fits { frame_of_card self.old.card + frames
            ≤ end_frame (geometry_of_card self.old.card) }
        requires room { HasRoom self.old 0 frames }
        ensures did { CardDid (option_copied capture.entry) self.old self.new frames
            (positions_of (period_of self.old.card) (frame_of_card self.old.card) frames) false }
        ensures room { KeepsRoom self.old self.new 0 frames }
        ensures rows { self.new.rows ≡ self.old.rows }
    {
        let mut left = frames as usize;
        let mut piece = frames_to_period(&self.card);
        while piece < left {
            self.run_piece(capture, piece);
            left -= piece;
            piece = frames_to_period(&self.card);
        }
        self.run_piece(capture, left);
    }

    // Does what the card is asked for. What isn't the card's is nothing.
    fn do_op(&mut self, capture: Option<&Wav>, asked: Op)
        requires fits { frame_of_card self.old.card + played_by asked
            ≤ end_frame (geometry_of_card self.old.card) }
        requires room { HasRoom self.old 0 (played_by asked) }
        ensures did { CardDid (option_copied capture.entry) self.old self.new
            (frames_by (asked ∷ []))
            (positions_by (period_of self.old.card) (frame_of_card self.old.card) (asked ∷ []))
            (unplugs_by (asked ∷ [])) }
        ensures room { KeepsRoom self.old self.new 0 (played_by asked) }
        ensures rows { self.new.rows ≡ self.old.rows }
    {
        match asked {
            Op::Play(frames) => self.play(capture, frames),
            Op::Unplug => self.card.unplug(),
            _ => {}
        }
    }

    // Does one line, and appends its row.
    fn do_line(&mut self, capture: Option<&Wav>, phase: u32, asked: Op)
        requires fits { frame_of_card self.old.card + played_by asked
            ≤ end_frame (geometry_of_card self.old.card) }
        requires room { HasRoom self.old 1 (played_by asked) }
        ensures part { CardPart (option_copied capture.entry) phase self.old self.new (asked ∷ []) }
        ensures room { KeepsRoom self.old self.new 1 (played_by asked) }
    {
        let position = self.card.position();
        self.do_op(capture, asked);
        let row = row_of(phase, asked, position, self.card.position());
        push_row(&mut self.rows, row);
    }

    // Does a line where it is the card's.
    fn do_own(&mut self, capture: Option<&Wav>, phase: u32, line: &Line)
        requires fits { frame_of_card self.old.card + frames_by (ops_by is_of_card (line.now ∷ []))
            ≤ end_frame (geometry_of_card self.old.card) }
        requires room { HasRoom self.old (length (ops_by is_of_card (line.now ∷ [])))
            (frames_by (ops_by is_of_card (line.now ∷ []))) }
        ensures part { CardPart (option_copied capture.entry) phase self.old self.new
            (ops_by is_of_card (line.now ∷ [])) }
        ensures room { KeepsRoom self.old self.new (length (ops_by is_of_card (line.now ∷ [])))
            (frames_by (ops_by is_of_card (line.now ∷ []))) }
    {
        if is_of_card(line) {
            self.do_line(capture, phase, line.op);
        }
    }

    /// Does the card's lines of a phase, in order, with a file that it captures, or silence. It is given the phase's number and all
    /// its lines, and takes no memory.
    ///
    /// The caller has taken the room of the lines (`take_room`), and knows that the frames that they play are before the rings'
    /// end (`can_run`), as those of each script are.
    ///
    /// By `play` the card takes the next frames from the sum ring, whose samples come after those that it has, and captures the
    /// file's frames of the same numbers, counted from the card's first, where it records; it publishes its position at each
    /// multiple of its period, and at the end. `unplug` unplugs it from both rings. Each line appends its row.
    pub fn run_lines(&mut self, capture: Option<&Wav>, phase: u32, lines: &[Line])
        requires fits { FitsRing self.old (ops_by is_of_card lines.now) }
        requires room { HasRoom self.old (length (ops_by is_of_card lines.now))
            (frames_by (ops_by is_of_card lines.now)) }
        ensures { CardPart (option_copied capture.entry) phase self.old
            self.new (ops_by is_of_card lines.now) }
    {
        for index in 0..lines.len() {
            self.do_own(capture, phase, &lines[index]);
        }
    }
}
