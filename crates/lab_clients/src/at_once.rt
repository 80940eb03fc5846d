//! All clients of a script in a phase at once, each in a thread.
ghost use Rattle.std.specs.Prelude.{◌≡◌, ◌<◌, ◌≤◌, All, length};
ghost use Rattle.lab_lines.specs.declared.line.Line.{Line};
ghost use Rattle.lab_run.specs.GateAsks.{AsksGate};
ghost use Rattle.lab_clients.specs.Lines.{IsFew};
ghost use Rattle.lab_clients.specs.OneClient.{RunsLines};
ghost use Rattle.lab_clients.specs.Steps.{AreReady, AreSameFrom, IsReadyAt, RunsAt, sound_at};
ghost use Rattle.lab_actors.specs.Walks.{AreEach};

use crate::client::LabClient;
use lab_actors::for_each_pair;
use lab_lines::Line;
use mix_core::Gate;
use std::thread::Threads;
use wav_io::Wav;

/// All clients do their lines at once, each with its gate and in a thread of its own where one can be made. The gates
/// beyond the clients are as they were.
pub(crate) fn run_at_once<R: Threads + Sync, G: Gate + Send>(
    rt: &R,
    clients: &mut [LabClient<'_>],
    gates: &mut [G],
    wavs: &[Wav],
    phase: u32,
    lines: &[Line],
)
    requires few { All (λ (line : Line). IsFew line.op) lines.now }
    requires gates { length clients.old ≤ length gates.old }
    requires files { length wavs.now ≡ length clients.old }
    requires ready { AreReady wavs.now lines.now clients.old }
    ensures run { AreEach (RunsAt G.Gate gates.old gates.new wavs.now phase lines.now) 0
        clients.old clients.new }
    ensures others { AreSameFrom (length clients.old) gates.old gates.new }
{
    for_each_pair(
        rt,
        clients,
        gates,
        &|number: usize, client: &mut LabClient<'_>, gate: &mut G|
            requires few { All (λ (line : Line). IsFew line.op) lines.now }
            requires file { number < length wavs.now }
            requires ready { IsReadyAt wavs.now lines.now number client.old }
            ensures { AsksGate G.Gate gate.old gate.new (λ before after asks.
                RunsLines before after asks phase (sound_at wavs.entry.now number)
                lines.entry.now client.old client.new) }
        {
            client.run_lines(gate, &wavs[number], phase, lines);
        },
    );
}
