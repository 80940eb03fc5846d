//! The gate of an actor while its lines run, which counts a `die` down.
ghost use Rattle.std.specs.Prelude.{◌≡◌};
ghost use Rattle.lab_run.specs.Rules.{left_after, lets_pass};

use crate::tally::Tally;
use mix_core::{Gate, Pass, StepKind};
use std::sync::ledger::Ledger;

/// An actor's gate, in front of which the asks are counted that a `die` lets pass.
///
/// Without a `die` every ask goes to the actor's gate. After a `die` of k the next k asks go to it, and each later one is
/// answered with a stop. An ask of kind `Again` isn't counted, and always goes to the actor's gate. How many of the others
/// went there is counted too, without a byte at run time.
#[derive(Drop)]
pub struct Countdown<'g, G, L: Ledger> {
    gate: &'g mut G,
    left: Option<u32>,
    tally: Tally<L>,
}

/// Counts an ask down, and says whether it may go on to the actor's gate.
fn count_down(left: &mut Option<u32>) -> bool
    ensures passes { result ≡ lets_pass 1 left.old }
    ensures left { left.new ≡ left_after 1 left.old }
{
    match *left {
        None => true,
        Some(0) => false,
        Some(asks) => {
            *left = Some(asks - 1);
            true
        }
    }
}

impl<'g, G: Gate, L: Ledger> Countdown<'g, G, L> {
    ghost use Rattle.std.specs.Prelude.{◌≡◌, ◌+◌, ◌∷◌, [], Some};
    ghost use Rattle.mix_core.specs.Gate.{stops_after};
    ghost use Rattle.lab_run.specs.PortSteps.{kind_count};
    ghost use Rattle.lab_actors.specs.Countdown.{CountsAsks, IsSameGate, all_stops, at_gate_of, by_gate_of, left_of};

    /// The gate of an actor, of which a `die` before let `left` asks pass yet. What it counts goes on in `tally`.
    pub fn new(gate: &'g mut G, left: Option<u32>, tally: Tally<L>) -> Countdown<'g, G, L>
        ensures same_gate { result.gate.ghost_name ≡ gate.entry.ghost_name }
        ensures gate { result.gate.now ≡ gate.old }
        ensures left { left_of result ≡ left }
        ensures by_gate { by_gate_of G.stops result ≡ G.stops gate.old }
        ensures stops { all_stops G.stops result ≡ G.stops gate.old + tally.deaths }
        ensures at_gate { at_gate_of result ≡ tally.asks }
    {
        Countdown { gate, left, tally }
    }

    /// Lets so many asks pass from now on.
    pub fn let_pass(&mut self, asks: u32)
        ensures same_gate { IsSameGate self.old self.new }
        ensures gate { self.new.gate.now ≡ self.old.gate.now }
        ensures left { left_of self.new ≡ Some asks }
        ensures by_gate { by_gate_of G.stops self.new ≡ by_gate_of G.stops self.old }
        ensures at_gate { at_gate_of self.new ≡ at_gate_of self.old }
    {
        self.left = Some(asks);
    }

    /// An ask that a `die` counts, and that comes to the own gate where it lets it.
    fn pass_counted(&mut self, step: StepKind) -> Pass
        requires { kind_count step ≡ 1 }
        ensures answer { all_stops G.stops self.new
            ≡ stops_after result (all_stops G.stops self.old) }
        ensures asked { CountsAsks G.stops G.asked self.old self.new (step ∷ []) result }
    {
        if !count_down(&mut self.left) {
            self.tally.count_death();
            return Pass::Stop;
        }
        self.tally.count_ask();
        self.gate.pass(step)
    }

    /// Gives the actor's gate back, and answers how many asks more a `die` lets pass, where there was one.
    pub fn end(self) -> Option<u32>
        ensures left { result ≡ left_of self.entry }
        ensures gate { self.exit.0.now ≡ self.entry.gate.now }
    {
        let Countdown { left, .. } = self;
        left
    }
}

impl<G: Gate, L: Ledger> Gate for Countdown<'_, G, L> {
    ghost use Rattle.lab_actors.specs.Countdown.{CountsAsks, all_stops};
    ghost use Rattle.lab_actors.specs.CountdownLaws.{CountsAsks-composes};

    ghost stops = { all_stops G.stops };

    ghost asked = { CountsAsks G.stops G.asked };

    ghost asked_composes = { CountsAsks-composes G.stops G.asked G.asked_composes };

    fn pass(&mut self, step: StepKind) -> Pass {
        match step {
            StepKind::Again => self.gate.pass(step),
            StepKind::Position | StepKind::Look | StepKind::Exchange => self.pass_counted(step),
        }
    }
}
