//! The gate, which is asked before each atomic step of a client or reader and may stop it.
ghost use Rattle.std.specs.Prelude.{◌≡◌, ℕ, List, [], ◌∷◌, IfErr};
ghost use Rattle.mix_core.specs.declared.gate.Pass.{Pass};
ghost use Rattle.mix_core.specs.declared.gate.StepKind.{StepKind};
ghost use Rattle.mix_core.specs.Gate.{AsksCompose, pass_of, stops_after};

use snd_base::PcmError;

/// The kind of the step that is to be made: a load of the position, the first load of a word, the first compare-exchange
/// of a placement or withdrawal, and each further one.
#[derive(Clone, Copy, Debug, PartialEq, Eq)]
pub enum StepKind {
    Position,
    Look,
    Exchange,
    Again,
}

/// Whether the step may be made.
#[derive(Clone, Copy, Debug, PartialEq, Eq)]
pub enum Pass {
    Go,
    Stop,
}

/// A gate is asked once before each atomic step, and a call that it stops answers `Stopped`.
///
/// Its meaning is `stops`, the number of its stops so far, which rises by one at each `Stop` and stays at each `Go` (a
/// gate whose count cannot rise any more answers `Go`), and `asked`: the kinds of the asks between two states of it, in
/// order, and the answer to the last of them (`Go` where there was none). All asks before the last were answered `Go`,
/// so a list that ends in a stop says that nothing was asked after the stop. A gate that keeps no account of its asks
/// lets `asked` hold of every list.
pub trait Gate {
    ghost stops: { Self → ℕ };

    ghost asked: { Self → Self → List StepKind → Pass → Type 0 };

    /// Asks whether a step of this kind may be made.
    fn pass(&mut self, step: StepKind) -> Pass
        ensures answer { stops self.new ≡ stops_after result (stops self.old) }
        ensures asked { asked self.old self.new (step ∷ []) result };

    ghost asked_composes: { AsksCompose asked };
}

/// The gate that lets every step pass. It keeps no account of its asks.
#[derive(Clone, Copy, Debug, PartialEq, Eq)]
pub struct NeverStops;

impl Gate for NeverStops {
    ghost use Rattle.std.specs.Prelude.{⊤};

    ghost stops = { λ _. 0 };

    ghost asked = { λ _ _ _ _. ⊤ };

    ghost asked_composes = { record { none = λ _. tt; joined = λ _ _ _ _ _ _ _ _. tt } };

    fn pass(&mut self, _step: StepKind) -> Pass {
        Pass::Go
    }
}

/// Asks the gate for a step: Ok where it may be made, `Stopped` exactly where the gate answered `Stop`.
pub fn ask<G: Gate>(gate: &mut G, step: StepKind) -> Result<(), PcmError>
    ensures answer { G.stops gate.new ≡ stops_after (pass_of result) (G.stops gate.old) }
    ensures only_stopped { IfErr result (λ e. e ≡ PcmError.Stopped) }
    ensures asked { G.asked gate.old gate.new (step ∷ []) (pass_of result) }
{
    match gate.pass(step) {
        Pass::Go => Ok(()),
        Pass::Stop => Err(PcmError::Stopped),
    }
}
