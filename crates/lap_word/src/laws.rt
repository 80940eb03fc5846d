//! What holds of every word and of every sum. These functions do nothing: their clauses are facts.
ghost use Rattle.std.specs.Prelude.{◌≡◌, ℕ, ◌^◌, ◌<◌, ℤ, Bool};
ghost use Rattle.lap_word.specs.Clamp.{clamp_of, IsNearest};
ghost use Rattle.lap_word.specs.Position.{gone_in, position_in, word_of};
ghost use Rattle.lap_word.specs.Word.{StandsFor, lap_of, count_of, sum_of};

/// Each number of 64 bits represents three numbers: its lap, its count and its sum.
pub fn word_stands_for_its_fields()
    ensures { (w : ℕ) → w < 2 ^ 64 → StandsFor w (lap_of w) (count_of w) (sum_of w) }
{}

/// A word represents nothing else, and no two words represent the same three numbers.
pub fn fields_are_unique()
    ensures fields { (w l c : ℕ) → (s : ℤ) → StandsFor w l c s
        → (lap_of w ≡ l) × (count_of w ≡ c) × (sum_of w ≡ s) }
    ensures word { (v w l c : ℕ) → (s : ℤ) → StandsFor v l c s → StandsFor w l c s → v ≡ w }
{}

/// A sum is saturated to the number from -32768 to 32767 that is nearest to it.
pub fn clamp_is_nearest()
    ensures { (x : ℤ) → IsNearest x (clamp_of x) }
{}

/// A position word has the position below 2 to the power 63 and the gone bit that it was made of.
pub fn position_words_are_read_back()
    ensures { (position : ℕ) (gone : Bool) → position < 2 ^ 63
        → (position_in (word_of position gone) ≡ position)
        × (gone_in (word_of position gone) ≡ gone) }
{}
