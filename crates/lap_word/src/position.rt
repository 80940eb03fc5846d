//! The word of the card's position.
ghost use Rattle.std.specs.Prelude.{◌≡◌, ◌<◌, ◌^◌};
ghost use Rattle.lap_word.specs.Position.{gone_in, position_in, word_of};

/// What is added to a position in the word of a card that is gone: 2 to the power 63.
const GONE: u64 = 9223372036854775808;

/// The word of a position, a frame number below 2 to the power 63, and of whether the card is gone.
pub fn position_word(position: u64, gone: bool) -> u64
    requires { position < 2 ^ 63 }
    ensures { result ≡ word_of position gone }
{
    if gone { position + GONE } else { position }
}

/// The position, a frame number, that any word has.
pub fn position_of(word: u64) -> u64
    ensures { result ≡ position_in word }
{
    word % GONE
}

/// Whether the card is gone, as any word has it.
pub fn gone_of(word: u64) -> bool
    ensures { result ≡ gone_in word }
{
    word >= GONE
}
