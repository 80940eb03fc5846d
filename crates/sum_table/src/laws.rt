//! What holds of every history. This function does nothing: its clause is a fact.
ghost use Rattle.std.specs.Prelude.{ℕ, List, ◌++◌, ◌∷◌};
ghost use Rattle.snd_base.specs.declared.geometry.Geometry.{Geometry};
ghost use Rattle.mix_core.specs.declared.port.Entry.{Entry};
ghost use Rattle.mix_core.specs.History.{IsLegal, IsReply, Row, late_row};

/// An add that is late changes nothing. So the history that a ring keeps leaves these adds out, and each of them can be
/// put into it at its own step: the history is legal with it as well.
pub fn late_adds_change_nothing()
    ensures { (g : Geometry) (members : ℕ) (h later : List Row) (e : Entry)
        → IsLegal g members (h ++ later)
        → IsReply g members h (late_row e)
        → IsLegal g members (h ++ late_row e ∷ later) }
{}
