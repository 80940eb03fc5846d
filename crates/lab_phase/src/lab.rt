//! The lab at its beginning, and what it holds so far.
mod end;

use crate::report_room::ReportRoom;
use card_player::CardPlayer;
use card_sim::Card;
use lab_actors::{Openings, openings_of};
use lab_card::CardActor;
use lab_clients::LabClients;
use lab_lines::{Row, Script};
use lab_readers::LabReaders;
use snd_base::PcmError;
use snoop_table::{ReaderSeat, WriterSeat};
use std::alloc::Global;
use sum_table::{MixSeat, PlayerSeat};
use wav_io::Wav;

/// A script's clients, readers and card over the seats of a sum ring and a snoop ring, between two items of its body. `'r` is the borrow
/// of the rings, and `'s` that of the script and the files.
///
/// Its meaning is the stage that a run of the script has reached: `IsAtStage`.
pub struct Lab<'r, 's> {
    pub(crate) alloc: Global,
    pub(crate) script: &'s Script,
    pub(crate) wavs: &'s [Wav],
    pub(crate) capture: Option<&'s Wav>,
    pub(crate) openings: Openings,
    // There is always one between two calls: an opening takes it apart and makes it anew.
    pub(crate) card: Option<CardActor<'r>>,
    pub(crate) clients: LabClients<'r>,
    pub(crate) readers: LabReaders<'r>,
    pub(crate) rows: Vec<Row>,
    pub(crate) room: ReportRoom,
    pub(crate) phases: u32,
    pub(crate) next: usize,
}

// One call wherever a lab is let go. A derive drops each part in turn there, and the proof goes through all of them.
impl<'r, 's> Drop for Lab<'r, 's> {
    fn drop(self) {
        let Lab {
            alloc: _,
            script: _,
            wavs: _,
            capture: _,
            openings: _,
            card: _,
            clients: _,
            readers: _,
            rows: _,
            room: _,
            phases: _,
            next: _,
        } = self;
    }
}

impl<'r, 's> Lab<'r, 's> {
    ghost use Rattle.std.specs.Prelude.{◌≡◌, ◌<◌, IfErr, IfOk, List, Option, [], length, slice_index_or, ℕ};
    ghost use Rattle.std.specs.Option.{option_copied};
    ghost use Rattle.snoop_table.specs.Readers.{geometry_of};
    ghost use Rattle.snoop_table.specs.Rings as snoop;
    ghost use Rattle.sum_table.specs.Rings as sum;
    ghost use Rattle.sum_table.specs.Seats.{key_of};
    ghost use Rattle.lab_lines.specs.Limits.{IsScript};
    ghost use Rattle.lab_run.specs.Openings.{IsRingOf};
    ghost use Rattle.lab_run.specs.Reader.{Reader};
    ghost use Rattle.lab_run.specs.Rules.{AtPort};
    ghost use Rattle.lab_run.specs.Stage.{first_stage, Stage};
    ghost use Rattle.lab_run.specs.LabRun.{recorded_by};
    ghost use Rattle.lab_readers.specs.AtStage.{readers_of};
    ghost use Rattle.lab_phase.specs.AtStage.{IsAtStage, IsOfScript, capture_of, items_done, played_of, readers_in, rows_of, session_of};

    /// The lab of a script, before the first item of its body. Its clients have these files, in the order of their lines, and its card
    /// captures a file, or silence. It refuses, with `Memory`, only where no memory is left; the seats have ended then.
    ///
    /// The caller has a script that was read, and the seats of two new rings of the script's card, of which `mix` has all places.
    pub fn new(
        alloc: Global,
        script: &'s Script,
        wavs: &'s [Wav],
        capture: Option<&'s Wav>,
        player: PlayerSeat<'r>,
        mix: MixSeat<'r>,
        writer: WriterSeat<'r>,
        reader: ReaderSeat<'r>,
    ) -> Result<Lab<'r, 's>, PcmError>
        requires script { IsScript script.now }
        requires files { length wavs.now ≡ length script.now.clients }
        requires sum_ring { sum.HasSeats (key_of mix) player mix }
        requires snoop_ring { snoop.HasSeats (geometry_of reader) writer reader }
        requires ring { IsRingOf script.now.card (key_of mix).geometry }
        requires one_shape { geometry_of reader ≡ (key_of mix).geometry }
        requires places { (key_of mix).places ≡ script.now.card.places }
        ensures script { IfOk result
            (IsOfScript script.now wavs.now (option_copied capture.entry)) }
        ensures first { IfOk result (λ lab. IsAtStage lab (first_stage (session_of lab))) }
        ensures none { IfOk result (λ lab. items_done lab ≡ 0) }
        ensures silent { IfOk result (λ lab. played_of lab ≡ []) }
        ensures only { IfErr result (λ e. e ≡ PcmError.Memory) }
    {
        let openings = openings_of(alloc, script, wavs)?;
        let clients = LabClients::new(
            alloc,
            script.clients.as_slice().len() as u32,
            mix,
            script.card.share,
        )?;
        let count = script.readers.as_slice().len();
        let readers = LabReaders::new(alloc, count as u32, reader)?;
        let room = ReportRoom::new(alloc, count)?;
        let period = script.card.period;
        let player = CardPlayer::new(player, period);
        // Where there is no reader nobody sees the snoop ring, and the card stores nothing in it.
        let card = Card::with_records(player, writer, period, count > 0);
        Ok(Lab {
            alloc,
            script,
            wavs,
            capture,
            openings,
            card: Some(CardActor::new(alloc, card)),
            clients,
            readers,
            rows: Vec::new(alloc),
            room,
            phases: 0,
            next: 0,
        })
    }

    /// The rows so far.
    pub fn rows(&self) -> &[Row]
        ensures { result.now ≡ rows_of self.now }
    {
        self.rows.as_slice()
    }

    /// The samples that the card played so far, interleaved.
    pub fn played(&self) -> &[i16]
        ensures { result.now ≡ played_of self.now }
    {
        match &self.card {
            Some(card) => card.played.as_slice(),
            None => &[],
        }
    }

    /// The samples that the reader of a number read so far, interleaved. The caller has the number of a reader.
    pub fn recorded(&self, reader: u32) -> &[i16]
        requires { reader < length (readers_of (readers_in self.now)) }
        ensures { (stage : Stage) (e : AtPort × Reader) → IsAtStage self.now stage
            → result.now ≡ recorded_by (session_of self.now) (capture_of self.now) reader
            (slice_index_or stage.readers reader e).1 }
    {
        self.readers.samples(reader)
    }
}
