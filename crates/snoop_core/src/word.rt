//! The words of a capture ring.
ghost use Rattle.std.specs.Prelude.{◌≡◌};
ghost use Rattle.snoop_core.specs.Word.{HoldsSample, laps_of, sample_of};

/// What a word grows by with one lap: 2 to the power 32.
const LAP_UNIT: u64 = 4294967296;

/// The number of samples of 16 bits: 2 to the power 16.
const SAMPLES: u64 = 65536;

/// What is added to a sample, so that no word holds a negative number: 2 to the power 15.
const SAMPLE_OFFSET: i32 = 32768;

/// The word of a sample: `laps` is one more than the lap of its frame. A slot in which no frame was stored yet has the word of
/// the sample 0 with the number of the ring's first lap.
#[inline]
pub fn snoop_word(laps: u32, sample: i16) -> u64
    ensures { HoldsSample result laps sample }
{
    laps as u64 * LAP_UNIT + (sample as i32 + SAMPLE_OFFSET) as u64
}

/// The laps that any word says: one more than the lap of the frame that it holds.
#[inline]
pub fn laps(word: u64) -> u32
    ensures { result ≡ laps_of word }
{
    (word / LAP_UNIT) as u32
}

/// The sample of any word.
#[inline]
pub fn sample(word: u64) -> i16
    ensures { result ≡ sample_of word }
{
    ((word % SAMPLES) as i32 - SAMPLE_OFFSET) as i16
}
