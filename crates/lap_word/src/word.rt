//! Making, reading and changing a word.
ghost use Rattle.std.specs.Prelude.{◌≡◌, ◌+◌, ◌<◌, ◌↔◌, IsTrue, pos, negsuc, ◌+ℤ◌, ◌≤ℤ◌, ◌-ℤ◌};
ghost use Rattle.lap_word.specs.Word.{CanAdd, CanWithdraw, IsSum, StandsFor, lap_of, count_of, sum_of};

/// What a word grows by with one count: 2 to the power 24.
const COUNT_UNIT: u64 = 16777216;

/// What a word grows by with one lap: 2 to the power 32.
const LAP_UNIT: u64 = 4294967296;

/// What is added to a sum, so that no word holds a negative number: 2 to the power 23.
const SUM_OFFSET: i64 = 8388608;

/// The word of a lap, of the `count` of samples that were added or withdrawn in that lap, and of the
/// `sum` that is left, which lies from -8388608 to 8388607.
pub fn pack(lap: u32, count: u8, sum: i32) -> u64
    requires sum_low { negsuc 8388607 ≤ℤ sum }
    requires sum_high { sum ≤ℤ pos 8388607 }
    ensures stands { StandsFor result lap count sum }
{
    let raised = (sum as i64 + SUM_OFFSET) as u64;
    lap as u64 * LAP_UNIT + count as u64 * COUNT_UNIT + raised
}

/// The lap of any word.
pub fn lap(word: u64) -> u32
    ensures lap { result ≡ lap_of word }
{
    (word / LAP_UNIT) as u32
}

/// How many samples were added or withdrawn in the lap of any word.
pub fn count(word: u64) -> u8
    ensures count { result ≡ count_of word }
{
    (word % LAP_UNIT / COUNT_UNIT) as u8
}

/// The sum of the samples that were added in the lap of any word and not withdrawn, from -8388608 to
/// 8388607.
pub fn sum(word: u64) -> i32
    ensures sum { result ≡ sum_of word }
{
    ((word % COUNT_UNIT) as i64 - SUM_OFFSET) as i32
}

/// Whether a word can have this sum.
fn is_sum(sum: i32) -> bool
    ensures { IsTrue result ↔ IsSum sum }
{
    -8388608 <= sum && sum <= 8388607
}

/// Whether `add` may be called: the word's count is below 255, and its sum with the sample is from
/// -8388608 to 8388607.
pub fn can_add(word: u64, sample: i16) -> bool
    ensures { IsTrue result ↔ CanAdd word sample }
{
    count(word) < 255 && is_sum(sum(word) + sample as i32)
}

/// Whether `withdraw` may be called: the word's count is below 255, and its sum without the sample
/// is from -8388608 to 8388607.
pub fn can_withdraw(word: u64, sample: i16) -> bool
    ensures { IsTrue result ↔ CanWithdraw word sample }
{
    count(word) < 255 && is_sum(sum(word) - sample as i32)
}

/// Whether `taken` may be called: the word's lap is below 4294967295.
pub fn can_take(word: u64) -> bool
    ensures { IsTrue result ↔ (lap_of word < 4294967295) }
{
    lap(word) < 4294967295
}

/// The word after one more sample: its count is one higher, and its sum has the sample. The caller
/// has a count below 255 and a sum that stays from -8388608 to 8388607 (`can_add`).
pub fn add(word: u64, sample: i16) -> u64
    requires room { count_of word < 255 }
    requires sum_low { negsuc 8388607 ≤ℤ (sum_of word +ℤ sample) }
    requires sum_high { (sum_of word +ℤ sample) ≤ℤ pos 8388607 }
    ensures stands { StandsFor result (lap_of word) (count_of word + 1) (sum_of word +ℤ sample) }
{
    pack(lap(word), count(word) + 1, sum(word) + sample as i32)
}

/// The word after one sample was withdrawn: its count is one higher, as after each change, and its
/// sum has lost the sample. The caller has a count below 255 and a sum that stays from -8388608 to
/// 8388607 (`can_withdraw`).
pub fn withdraw(word: u64, sample: i16) -> u64
    requires room { count_of word < 255 }
    requires sum_low { negsuc 8388607 ≤ℤ (sum_of word -ℤ sample) }
    requires sum_high { (sum_of word -ℤ sample) ≤ℤ pos 8388607 }
    ensures stands { StandsFor result (lap_of word) (count_of word + 1) (sum_of word -ℤ sample) }
{
    pack(lap(word), count(word) + 1, sum(word) - sample as i32)
}

/// The word after the player took it: the next lap, with nothing added. The caller has a lap
/// below 4294967295 (`can_take`).
pub fn taken(word: u64) -> u64
    requires lap_room { lap_of word < 4294967295 }
    ensures stands { StandsFor result (lap_of word + 1) 0 (pos 0) }
{
    pack(lap(word) + 1, 0, 0)
}
