//! The calls that the lines of an open reader name.
ghost use Rattle.std.specs.Prelude.{◌≡◌, ◌≤◌, ◌++◌, min, pos, replicate, vec_capacity};
ghost use Rattle.dsnoop_client.specs.FewerReads.{most_read};
ghost use Rattle.dsnoop_client.specs.View.{CanUse};
ghost use Rattle.lab_readers.specs.Lines.{HasReaderCalled, IsFewRead};
ghost use Rattle.lab_actors.specs.Room.{GrowsBy, HasSpace};
ghost use Rattle.lab_readers.specs.Room.{fitting_op, samples_wanted, spare_frames};

use dsnoop_client::Reader;
use lab_actors::{count_answer, done_answer, moved_answer};
use lab_lines::{Answer, Op};
use mix_core::Gate;
use snd_base::PcmError;
use snoop_core::SnoopPort;

/// Appends so many samples, for which there is room; each is 0.
fn push_silence(samples: &mut Vec<i16>, count: usize)
    requires { HasSpace count samples.old }
    ensures items { samples.new.items ≡ samples.old.items ++ replicate count (pos 0) }
    ensures room { GrowsBy count samples.old samples.new }
{
    samples.resize(samples.len() + count, 0).unwrap();
}

/// As many frames as a ring has at most, or as start a reader: a read of more does the same as one of so many.
pub(crate) fn most_read(reader: &Reader) -> u64
    ensures { result ≡ most_read reader.now }
{
    reader.params().start_threshold.max(16384)
}

/// For how many frames a read of `frames` frames wants room.
fn read_room(reader: &Reader, frames: u32) -> usize
    ensures value { result ≡ min frames (most_read reader.now) }
    ensures few { result ≤ frames }
{
    (frames as u64).min(most_read(reader)) as usize
}

/// The reader reads up to `frames` frames, and appends the samples of those that it got.
fn read<P: SnoopPort, G: Gate>(
    reader: &mut Reader,
    port: &mut P,
    gate: &mut G,
    samples: &mut Vec<i16>,
    frames: u32,
) -> Answer
    requires few { frames ≤ 4194304 }
    requires usable { CanUse reader.old (P.view port.old) }
    requires room { HasSpace (samples_wanted reader.old (Op.Read frames)) samples.old }
    ensures called { HasReaderCalled P.SnoopPort G.Gate (port.old, gate.old) (port.new, gate.new)
        reader.old reader.new samples.old.items samples.new.items (Op.Read frames) result }
    ensures room { GrowsBy (samples_wanted reader.old (Op.Read frames)) samples.old samples.new }
{
    let channels = reader.channels() as usize;
    let before = samples.len();
    let room = read_room(reader, frames);
    push_silence(samples, room * channels);
    let answer = reader.readi(port, gate, &mut samples[before..]);
    samples.truncate(before + answer.unwrap_or(0) as usize * channels);
    moved_answer(answer)
}

/// The call that a line of an open reader names. The samples of the frames that a read got are appended.
pub(crate) fn call<P: SnoopPort, G: Gate>(
    reader: &mut Reader,
    port: &mut P,
    gate: &mut G,
    samples: &mut Vec<i16>,
    asked: Op,
) -> Answer
    requires few { IsFewRead asked }
    requires usable { CanUse reader.old (P.view port.old) }
    requires room { HasSpace (samples_wanted reader.old asked) samples.old }
    ensures called { HasReaderCalled P.SnoopPort G.Gate (port.old, gate.old) (port.new, gate.new)
        reader.old reader.new samples.old.items samples.new.items asked result }
    ensures room { GrowsBy (samples_wanted reader.old asked) samples.old samples.new }
{
    match asked {
        Op::Read(frames) => read(reader, port, gate, samples, frames),
        Op::Start => done_answer(reader.start(port, gate)),
        Op::Sync => done_answer(reader.sync(port, gate)),
        Op::Avail => count_answer(reader.avail_update(port, gate)),
        Op::Drop => done_answer(reader.drop_pending()),
        Op::Prepare => done_answer(reader.prepare()),
        Op::Pause => done_answer(reader.pause(true)),
        _ => Answer::Failed(PcmError::BadState),
    }
}

/// How many frames of a reader there is room for yet.
fn spare_frames(reader: &Reader, samples: &Vec<i16>) -> u64
    ensures { result ≡ spare_frames reader.now samples.now }
{
    let spare = samples.capacity() - samples.len();
    (spare / reader.channels() as usize) as u64
}

/// What a line names, of no more frames than there is room for.
fn fitting(reader: &Reader, samples: &Vec<i16>, asked: Op) -> Op
    ensures { result ≡ fitting_op (spare_frames reader.now samples.now) asked }
{
    match asked {
        Op::Read(frames) => {
            let spare = spare_frames(reader, samples);
            Op::Read((frames as u64).min(spare) as u32)
        }
        other => other,
    }
}

/// The call that a line of an open reader names, where a read asks for no more frames than there is room for.
///
/// So it needs no room of its own: whether there is enough of it is what the caller shows of the lines of a phase.
pub(crate) fn call_fitting<P: SnoopPort, G: Gate>(
    reader: &mut Reader,
    port: &mut P,
    gate: &mut G,
    samples: &mut Vec<i16>,
    asked: Op,
) -> Answer
    requires few { IsFewRead asked }
    requires usable { CanUse reader.old (P.view port.old) }
    ensures called { HasReaderCalled P.SnoopPort G.Gate (port.old, gate.old) (port.new, gate.new)
        reader.old reader.new samples.old.items samples.new.items
        (fitting_op (spare_frames reader.old samples.old) asked) result }
    ensures room { vec_capacity samples.old ≤ vec_capacity samples.new }
{
    let asked = fitting(reader, samples, asked);
    call(reader, port, gate, samples, asked)
}
