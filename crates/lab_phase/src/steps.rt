//! The steps of a phase in which clients or readers have lines.
ghost use Rattle.std.specs.Prelude.{◌≡◌, IfErr, OnErr, OnOk, length};
ghost use Rattle.std.specs.Thread.{IsSend, IsSync};
ghost use Rattle.lab_lines.specs.Script.{is_of_card};
ghost use Rattle.lab_run.specs.Phases.{ops_by};
ghost use Rattle.lab_actors.specs.Room.{HasSpace};
ghost use Rattle.lab_card.specs.Room.{FitsRing};
ghost use Rattle.lab_phase.specs.PhaseInput.{CardCanRun, ClientsCanRun, ReadersCanRun, asks_of, busy_in};
ghost use Rattle.lab_phase.specs.PhaseSteps.{AreSameButRoom, CardHasRun, ClientsHaveRun, HaveGivenRows, HaveRoom, HaveRun, ReadersHaveRun, rows_by};

use lab_card::{CardActor, line_count};
use lab_clients::LabClients;
use lab_lines::{Line, Row};
use lab_readers::LabReaders;
use mix_core::Gate;
use snd_base::PcmError;
use std::marker::{Send, Sync};
use std::thread::{Threads, join_mut};
use wav_io::Wav;

/// How many gates are the clients'; the readers' are the ones after them.
pub(crate) const CLIENT_GATES: usize = 64;

/// What a phase asks of its actors: its number and its lines, the clients' files, and the file that the card captures.
#[derive(Clone, Copy)]
pub(crate) struct PhaseInput<'l> {
    pub wavs: &'l [Wav],
    pub capture: Option<&'l Wav>,
    pub phase: u32,
    pub lines: &'l [Line],
}

/// Takes the room that the lines want, so that nothing after it takes memory: the actors' for their lines, and the lab's for all rows of
/// the phase. It refuses, with `Memory`, only where no memory is left; then all are as they were, but for their room.
///
/// The caller knows that the frames that the card plays are before its rings' end.
pub(crate) fn take_room(
    card: &mut CardActor<'_>,
    clients: &mut LabClients<'_>,
    readers: &mut LabReaders<'_>,
    rows: &mut Vec<Row>,
    lines: &[Line],
) -> Result<(), PcmError>
    requires { FitsRing card.old (ops_by is_of_card lines.now) }
    ensures room { OnOk result (HaveRoom lines.now
        card.old card.new clients.old clients.new readers.old readers.new) }
    ensures rows_room { OnOk result (HasSpace (length lines.now) rows.new) }
    ensures kept { OnErr result (AreSameButRoom
        card.old card.new clients.old clients.new readers.old readers.new) }
    ensures rows { rows.new.items ≡ rows.old.items }
    ensures only { IfErr result (λ e. e ≡ PcmError.Memory) }
{
    rows.reserve(lines.len())?;
    card.take_room(lines)?;
    clients.take_room(lines)?;
    readers.take_room(lines)
}

/// All clients and all readers do their lines at once, each in a thread of its own where one can be made.
fn run_actors_at_once<R: Threads + Sync, G: Gate + Send>(
    rt: &R,
    clients: &mut LabClients<'_>,
    readers: &mut LabReaders<'_>,
    client_gates: &mut [G],
    reader_gates: &mut [G],
    asked: &PhaseInput<'_>,
)
    requires clients { ClientsCanRun (length client_gates.old) asked.now clients.old }
    requires readers { ReadersCanRun (length reader_gates.old) asked.now readers.old }
    ensures clients { ClientsHaveRun G.Gate client_gates.old client_gates.new (asks_of asked.now)
        clients.old clients.new }
    ensures readers { ReadersHaveRun G.Gate reader_gates.old reader_gates.new (asks_of asked.now)
        readers.old readers.new }
{
    let mut play = ||
        requires shared { IsSync R.row }
        requires sent { IsSend G.row }
        requires ready { ClientsCanRun (length client_gates.now) asked.now clients.now }
        ensures { ClientsHaveRun G.Gate client_gates.entry.now client_gates.exit.now
            (asks_of asked.entry.now) clients.entry.now clients.exit.now }
    { clients.run_lines_at_once(rt, client_gates, asked.wavs, asked.phase, asked.lines) };
    let mut record = ||
        requires shared { IsSync R.row }
        requires sent { IsSend G.row }
        requires ready { ReadersCanRun (length reader_gates.now) asked.now readers.now }
        ensures { ReadersHaveRun G.Gate reader_gates.entry.now reader_gates.exit.now
            (asks_of asked.entry.now) readers.entry.now readers.exit.now }
    { readers.run_lines_at_once(rt, reader_gates, asked.phase, asked.lines) };
    join_mut(rt, &mut play, &mut record);
}

/// The card and all actors do their lines at once, each in a thread of its own where one can be made.
fn run_at_once<R: Threads + Sync, G: Gate + Send>(
    rt: &R,
    card: &mut CardActor<'_>,
    clients: &mut LabClients<'_>,
    readers: &mut LabReaders<'_>,
    client_gates: &mut [G],
    reader_gates: &mut [G],
    asked: &PhaseInput<'_>,
)
    requires card { CardCanRun asked.now.lines.now card.old }
    requires clients { ClientsCanRun (length client_gates.old) asked.now clients.old }
    requires readers { ReadersCanRun (length reader_gates.old) asked.now readers.old }
    ensures { HaveRun G.Gate client_gates.old client_gates.new reader_gates.old reader_gates.new
        (asks_of asked.now) card.old card.new clients.old clients.new readers.old readers.new }
{
    let mut play = ||
        requires { CardCanRun asked.now.lines.now card.now }
        ensures { CardHasRun (asks_of asked.entry.now) card.entry.now card.exit.now }
    { card.run_lines(asked.capture, asked.phase, asked.lines) };
    let mut others = ||
        requires shared { IsSync R.row }
        requires sent { IsSend G.row }
        requires clients { ClientsCanRun (length client_gates.now) asked.now clients.now }
        requires readers { ReadersCanRun (length reader_gates.now) asked.now readers.now }
        ensures clients { ClientsHaveRun G.Gate client_gates.entry.now client_gates.exit.now
            (asks_of asked.entry.now) clients.entry.now clients.exit.now }
        ensures readers { ReadersHaveRun G.Gate reader_gates.entry.now reader_gates.exit.now
            (asks_of asked.entry.now) readers.entry.now readers.exit.now }
    { run_actors_at_once(rt, clients, readers, client_gates, reader_gates, asked) };
    join_mut(rt, &mut play, &mut others);
}

/// How many of the card, the clients and the readers have lines.
fn busy_count(clients: &LabClients<'_>, readers: &LabReaders<'_>, lines: &[Line]) -> usize
    ensures { result ≡ busy_in lines.now clients.now readers.now }
{
    let card = (line_count(lines) > 0) as usize;
    card + clients.busy_count(lines) + readers.busy_count(lines)
}

/// The card and all actors do their lines: at once where two of them have some, and else one after the other, without a thread.
pub(crate) fn run_all<R: Threads + Sync, G: Gate + Send>(
    rt: &R,
    card: &mut CardActor<'_>,
    clients: &mut LabClients<'_>,
    readers: &mut LabReaders<'_>,
    client_gates: &mut [G],
    reader_gates: &mut [G],
    asked: &PhaseInput<'_>,
)
    requires card { CardCanRun asked.now.lines.now card.old }
    requires clients { ClientsCanRun (length client_gates.old) asked.now clients.old }
    requires readers { ReadersCanRun (length reader_gates.old) asked.now readers.old }
    ensures { HaveRun G.Gate client_gates.old client_gates.new reader_gates.old reader_gates.new
        (asks_of asked.now) card.old card.new clients.old clients.new readers.old readers.new }
{
    if busy_count(clients, readers, asked.lines) > 1 {
        run_at_once(
            rt,
            card,
            clients,
            readers,
            client_gates,
            reader_gates,
            asked,
        );
    } else {
        card.run_lines(asked.capture, asked.phase, asked.lines);
        clients.run_lines(client_gates, asked.wavs, asked.phase, asked.lines);
        readers.run_lines(reader_gates, asked.phase, asked.lines);
    }
}

/// Moves the rows of a phase to the end of the lab's: the card's, then the clients', then the readers'. It takes no memory.
///
/// The caller has taken the room of them (`take_room`).
pub(crate) fn take_rows(
    rows: &mut Vec<Row>,
    card: &mut CardActor<'_>,
    clients: &mut LabClients<'_>,
    readers: &mut LabReaders<'_>,
)
    requires { HasSpace (length (rows_by card.old clients.old readers.old)) rows.old }
    ensures { HaveGivenRows rows.old.items rows.new.items
        card.old card.new clients.old clients.new readers.old readers.new }
{
    rows.append(&mut card.rows).unwrap();
    clients.take_rows(rows);
    readers.take_rows(rows);
}
