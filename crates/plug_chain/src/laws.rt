//! What holds of every conversion. These functions do nothing: their clauses are facts.
ghost use Rattle.std.specs.Prelude.{◌≡◌, ℕ, List, [], length, ◌++◌, ◌*◌, ◌/◌, ◌<◌, ◌≤◌};
ghost use Rattle.plug_chain.specs.Frames.{Conversion, frame_count};
ghost use Rattle.plug_chain.specs.Plugs.{known_of, plug_of};
ghost use Rattle.plug_chain.specs.Rates.{AreRates, RatePair, output_count};
ghost use Rattle.plug_chain.specs.Tables.{IsTable};

/// Output frame j lies at `j * input / output` frames: it is there exactly where that is before the end of the frames.
pub fn output_frames_lie_before_the_end()
    ensures there { (r : RatePair) → (n j : ℕ) → AreRates r
        → j < output_count r n → j * r.input / r.output < n }
    ensures all { (r : RatePair) → (n j : ℕ) → AreRates r
        → j * r.input / r.output < n → j < output_count r n }
{}

/// A conversion has a whole frame of the table's outputs for each output frame, more bytes don't make it shorter, and of no
/// bytes it has no sample.
pub fn conversions_have_whole_frames()
    ensures length { (c : Conversion) → (bytes : List ℕ) → AreRates c.rates
        → length (plug_of c bytes) ≡ output_count c.rates (frame_count c bytes) * c.table.outputs }
    ensures longer { (c : Conversion) → (bytes more : List ℕ) → AreRates c.rates → IsTable c.table
        → length (plug_of c bytes) ≤ length (plug_of c (bytes ++ more)) }
    ensures none { (c : Conversion) → AreRates c.rates
        → (plug_of c [] ≡ []) × (known_of c [] ≡ []) }
{}
