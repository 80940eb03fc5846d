//! An open client of a script, and what its lines do in a phase.
ghost use Rattle.std.specs.Prelude.{◌≡◌, ◌++◌, ◌+◌, ◌<◌, ◌≤◌, [], All, IfErr, OnOk, false, if◌then◌else◌, true, vec_capacity, vec_len};
ghost use Rattle.dmix_client.specs.Calls.{is_paused};
ghost use Rattle.lab_lines.specs.declared.line.Line.{Line};
ghost use Rattle.lab_run.specs.Phases.{is_client, ops_by};
ghost use Rattle.lab_actors.specs.Lines.{line_count};
ghost use Rattle.lab_actors.specs.Countdown.{KeepsGate, at_gate_of, by_gate_of, left_of};
ghost use Rattle.lab_actors.specs.Room.{GrowsBy, HasSpace};
ghost use Rattle.lab_clients.specs.Lines.{HasClientAnswered, IsFew, IsReady, ends_stretch, laid_of};
ghost use Rattle.lab_clients.specs.Parts.{ClientLine, ClientPart, ClientTurn};

use crate::calls::call;
use dmix_client::Client;
use lab_actors::{Countdown, Tally, is_of, line_count, push_row};
use lab_lines::{Actor, Answer, Line, Op, Row};
use lab_run::{client_lines_are_parts, lines_without_calls, parts_grow};
use mix_core::{Gate, MixPort};
use pcm_states::State;
use snd_base::{PcmError, Segment};
use std::marker::Brand;
use std::sync::ledger::{Blank, Ledger};
use wav_io::Wav;

/// An open client of a script, by its number in the order of the clients' lines: its stream; how many asks a `die` lets pass
/// yet, where there was one; the segments of its stretches that ended; and the rows of its lines.
#[derive(Drop)]
pub struct ClientActor {
    pub(crate) number: u32,
    pub(crate) client: Client,
    pub(crate) left: Option<u32>,
    pub(crate) ended: Vec<Segment>,
    pub(crate) rows: Vec<Row>,
}

/// Whether a client is paused.
fn is_paused(client: &Client) -> bool
    ensures { result ≡ is_paused client.now.stream.status.state }
{
    match client.state() {
        State::Paused => true,
        _ => false,
    }
}

/// Whether a line ended a stretch: a prepare that was done, and a resume after which a client that was paused isn't.
fn ends_stretch(asked: Op, answer: Answer, was_paused: bool, paused: bool) -> bool
    ensures { result ≡ ends_stretch asked answer was_paused paused }
{
    match (asked, answer) {
        (Op::Prepare, Answer::Done) => true,
        (Op::Resume, _) => was_paused && !paused,
        _ => false,
    }
}

/// Appends the segment of a stretch that ended, where it has a sample, and for which there is room.
fn push_ended(ended: &mut Vec<Segment>, segment: Segment, ends: bool)
    requires { vec_len ended.old < vec_capacity ended.old }
    ensures items { ended.new.items ≡ ended.old.items ++ (if ends then laid_of segment else []) }
    ensures room { vec_capacity ended.old ≤ vec_capacity ended.new }
    ensures few { vec_len ended.new ≤ vec_len ended.old + 1 }
{
    if ends && (segment.whole != 0 || segment.part != 0) {
        ended.push(segment).unwrap();
    }
}

/// What a line of an open client is answered: after a stop nothing is done any more, and a `die` lets so many asks pass.
fn answer_line<P: MixPort, G: Gate, L: Ledger>(
    client: &mut Client,
    port: &mut P,
    gate: &mut Countdown<'_, G, L>,
    wav: &Wav,
    asked: Op,
) -> Answer
    requires few { IsFew asked }
    requires ready { IsReady P.MixPort wav.now port.old client.old }
    ensures answered { HasClientAnswered P.MixPort left_of (by_gate_of G.stops) at_gate_of
        (port.old, gate.old) (port.new, gate.new)
        wav.now client.old client.new asked result }
    ensures own_gate { KeepsGate G.asked gate.old gate.new }
{
    lines_without_calls();
    if client.is_stopped() {
        return Answer::Failed(PcmError::Stopped);
    }
    if let Op::Die(asks) = asked {
        gate.let_pass(asks);
        return Answer::Done;
    }
    client_lines_are_parts::<P, Countdown<'_, G, L>>();
    call(client, port, gate, wav, asked)
}

impl ClientActor {
    /// Takes the room that the lines of a phase want, so that `run_lines` takes no memory. It refuses, with `Memory`, only
    /// where no memory is left; then the rows and segments are as they were.
    pub(crate) fn take_room(&mut self, lines: &[Line]) -> Result<(), PcmError>
        ensures rows { OnOk result
            (HasSpace (line_count (Actor.Client self.old.number) lines.now) self.new.rows) }
        ensures ended { OnOk result
            (HasSpace (line_count (Actor.Client self.old.number) lines.now) self.new.ended) }
        ensures same_rows { self.new.rows.items ≡ self.old.rows.items }
        ensures same_ended { self.new.ended.items ≡ self.old.ended.items }
        ensures same { (self.new.number ≡ self.old.number) × (self.new.client ≡ self.old.client)
            × (self.new.left ≡ self.old.left) }
        ensures only { IfErr result (λ e. e ≡ PcmError.Memory) }
    {
        let count = line_count(lines, Actor::Client(self.number));
        self.rows.reserve(count)?;
        self.ended.reserve(count)?;
        Ok(())
    }

    /// Does one line.
    fn do_line<P: MixPort, G: Gate, L: Ledger>(
        &mut self,
        port: &mut P,
        gate: &mut Countdown<'_, G, L>,
        wav: &Wav,
        phase: u32,
        asked: Op,
    )
        requires few { IsFew asked }
        requires ready { IsReady P.MixPort wav.now port.old self.old.client }
        requires rows_room { HasSpace 1 self.old.rows }
        requires ended_room { HasSpace 1 self.old.ended }
        ensures line { ClientLine P.MixPort left_of (by_gate_of G.stops) at_gate_of
            (port.old, gate.old) (port.new, gate.new)
            phase wav.now self.old self.new asked }
        ensures ready { IsReady P.MixPort wav.now port.new self.new.client }
        ensures own_gate { KeepsGate G.asked gate.old gate.new }
        ensures rows_room { GrowsBy 1 self.old.rows self.new.rows }
        ensures ended_room { GrowsBy 1 self.old.ended self.new.ended }
    {
        let segment = self.client.segment();
        let was_paused = is_paused(&self.client);
        let answer = answer_line(&mut self.client, port, gate, wav, asked);
        let paused = is_paused(&self.client);
        let ends = ends_stretch(asked, answer, was_paused, paused);
        push_ended(&mut self.ended, segment, ends);
        let row = Row {
            phase,
            actor: Actor::Client(self.number),
            op: asked,
            answer,
            state: self.client.state(),
            seen: self.client.seen(),
        };
        push_row(&mut self.rows, row);
    }

    /// Does the lines of this client, in order.
    fn do_lines<P: MixPort, G: Gate, L: Ledger>(
        &mut self,
        port: &mut P,
        gate: &mut Countdown<'_, G, L>,
        wav: &Wav,
        phase: u32,
        lines: &[Line],
    )
        requires few { All (λ (line : Line). IsFew line.op) lines.now }
        requires ready { IsReady P.MixPort wav.now port.old self.old.client }
        requires rows_room { HasSpace (line_count (Actor.Client self.old.number) lines.now)
            self.old.rows }
        requires ended_room { HasSpace (line_count (Actor.Client self.old.number) lines.now)
            self.old.ended }
        ensures part { ClientPart P.MixPort left_of (by_gate_of G.stops) at_gate_of
            (port.old, gate.old) (port.new, gate.new)
            phase wav.now self.old self.new (ops_by (is_client self.old.number) lines.now) }
        ensures ready { IsReady P.MixPort wav.now port.new self.new.client }
        ensures own_gate { KeepsGate G.asked gate.old gate.new }
    {
        parts_grow();
        for index in 0..lines.len() {
            let line = &lines[index];
            if is_of(line, Actor::Client(self.number)) {
                self.do_line(port, gate, wav, phase, line.op);
            }
        }
    }

    // The same at the ledger of a blank.
    fn run_at<P: MixPort, G: Gate, L: Ledger>(
        &mut self,
        port: &mut P,
        gate: &mut G,
        wav: &Wav,
        phase: u32,
        lines: &[Line],
        blank: Blank,
    )
        requires name { blank.name ≡ L.name }
        requires parts { blank.parts ≡ L.parts }
        requires two { 1 < blank.parts }
        requires few { All (λ (line : Line). IsFew line.op) lines.now }
        requires ready { IsReady P.MixPort wav.now port.old self.old.client }
        requires rows_room { HasSpace (line_count (Actor.Client self.old.number) lines.now)
            self.old.rows }
        requires ended_room { HasSpace (line_count (Actor.Client self.old.number) lines.now)
            self.old.ended }
        ensures part { ClientTurn P.MixPort G.Gate (port.old, gate.old) (port.new, gate.new)
            phase wav.now self.old self.new (ops_by (is_client self.old.number) lines.now) }
        ensures ready { IsReady P.MixPort wav.now port.new self.new.client }
    {
        let tally: Tally<L> = Tally::open(blank);
        let mut countdown = Countdown::new(gate, self.left, tally);
        self.do_lines(port, &mut countdown, wav, phase, lines);
        self.left = countdown.end();
    }

    /// Does the lines of a phase that are this client's, in order, at its port and with its gate.
    ///
    /// The caller has taken the room of the lines (`take_room`), and has the client at its port with its file (`IsReady`); no
    /// write is of more than 4,194,304 frames.
    ///
    /// Each line makes one call of the stream and appends its row. A write offers the next frames of the file, or those that are
    /// left. A `die` lets the next asks pass, as many as it says and those of kind `Again` beside them, and each later one
    /// stops the client; a later `die` takes its place. After a stop, every line is answered with `Stopped` and nothing is done.
    /// What the lines did is the client's part of a run, with the asks of its own gate: `part` says so, whatever the port did before.
    pub(crate) fn run_lines<P: MixPort, G: Gate>(
        &mut self,
        port: &mut P,
        gate: &mut G,
        wav: &Wav,
        phase: u32,
        lines: &[Line],
    )
        requires few { All (λ (line : Line). IsFew line.op) lines.now }
        requires ready { IsReady P.MixPort wav.now port.old self.old.client }
        requires rows_room { HasSpace (line_count (Actor.Client self.old.number) lines.now)
            self.old.rows }
        requires ended_room { HasSpace (line_count (Actor.Client self.old.number) lines.now)
            self.old.ended }
        ensures part { ClientTurn P.MixPort G.Gate (port.old, gate.old) (port.new, gate.new)
            phase wav.now self.old self.new (ops_by (is_client self.old.number) lines.now) }
        ensures ready { IsReady P.MixPort wav.now port.new self.new.client }
    {
        self.run_at::<P, G, Brand>(port, gate, wav, phase, lines, Blank::new(2));
    }
}
