//! The words that are numbers, and the parts of a list.
ghost use Rattle.std.specs.Prelude.{◌≡◌, ◌≤◌, ◌<◌, ◌+◌, ◌-◌, ◌*◌, ◌∷◌, [], true, length, IfSome, IfNone};
ghost use Rattle.std.specs.Str.{all_ascii_digits};
ghost use Rattle.std.specs.Str.Parse.{digits_value};
ghost use Rattle.text_words.specs.Word.{parts_of, number_of_word, within, lacks_leading_zero, is_decimal, decimal_of};

use crate::lexing::first_place;

/// The first part of a list whose parts are joined by commas, and what follows its comma, where there
/// is a comma.
pub fn split_part(list: &[u8]) -> Option<(&[u8], &[u8])>
    ensures some { IfSome result (λ c. parts_of list.now ≡ c.0.now ∷ parts_of c.1.now) }
    ensures none { IfNone result (parts_of list.now ≡ list.now ∷ []) }
    ensures shorter { IfSome result (λ c. length c.1.now < length list.now) }
{
    let end = first_place(list, b',')?;
    Some((&list[..end], &list[end + 1..]))
}

/// Whether each byte of a word is a decimal digit; that is so of a word without a byte.
pub fn are_digits(word: &[u8]) -> bool
    ensures { result ≡ all_ascii_digits word.now }
{
    word.iter().all(|b| b.is_ascii_digit())
}

/// The number that at most 19 decimal digits mean, which may begin with zeros; of none it is 0.
pub fn digits_value(word: &[u8]) -> u64
    requires most { length word.now ≤ 19 }
    requires digits { all_ascii_digits word.now ≡ true }
    ensures { result ≡ digits_value 10 word.now }
{
    let mut value = 0;
    for b in word {
        value = value * 10 + u64::from(*b - b'0');
    }
    value
}

/// A number with one digit more, where it is below 2^64.
fn with_digit(value: u64, digit: u8) -> Option<u64>
    requires low { 48 ≤ digit }
    requires high { digit ≤ 57 }
    ensures { result ≡ within 18446744073709551615 (value * 10 + (digit - 48)) }
{
    value.checked_mul(10)?.checked_add(u64::from(digit - b'0'))
}

/// The number that decimal digits mean, however many, where it is below 2^64; they may begin with zeros.
pub fn checked_value(word: &[u8]) -> Option<u64>
    requires { all_ascii_digits word.now ≡ true }
    ensures { result ≡ within 18446744073709551615 (digits_value 10 word.now) }
{
    let mut value: u64 = 0;
    for b in word {
        value = with_digit(value, *b)?;
    }
    Some(value)
}

/// The number that a word means, where it has 1 to 19 decimal digits, which may begin with zeros.
pub fn read_number(word: &[u8]) -> Option<u64>
    ensures { result ≡ number_of_word word.now }
{
    if word.is_empty() || word.len() > 19 {
        return None;
    }
    if !are_digits(word) {
        return None;
    }
    Some(digits_value(word))
}

/// Whether a word has a byte, and no leading zero.
fn lacks_leading_zero(word: &[u8]) -> bool
    ensures { result ≡ lacks_leading_zero word.now }
{
    match word {
        [] => false,
        [_] => true,
        [first, ..] => *first != b'0',
    }
}

/// Whether a word is the decimal form of a number: at least one digit, and no leading zero.
pub fn is_decimal(word: &[u8]) -> bool
    ensures { result ≡ is_decimal word.now }
{
    lacks_leading_zero(word) && are_digits(word)
}

/// The number up to a limit whose decimal form a word is.
pub fn decimal_of(most: u64, word: &[u8]) -> Option<u64>
    ensures value { result ≡ decimal_of most word.now }
    ensures most { IfSome result (λ n. n ≤ most) }
{
    if !is_decimal(word) {
        return None;
    }
    let value = checked_value(word)?;
    if value <= most { Some(value) } else { None }
}
