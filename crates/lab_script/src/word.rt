//! The words that are names and files.
ghost use Rattle.std.specs.Prelude.{◌≡◌};
ghost use Rattle.std.specs.List.{list_all};
ghost use Rattle.lab_lines.specs.Names.{is_name, is_name_byte, is_file, is_file_byte, begins_lower};

use crate::keyword::keyword_of;

/// Whether each byte of a word can be in a name: a lower-case letter, a digit or `_`.
fn are_name_bytes(word: &[u8]) -> bool
    ensures { result ≡ list_all is_name_byte word.now }
{
    word.iter().all(|b| b.is_ascii_lowercase() || b.is_ascii_digit() || *b == b'_')
}

/// Whether a word begins with a lower-case letter.
fn begins_lower(word: &[u8]) -> bool
    ensures { result ≡ begins_lower word.now }
{
    match word {
        [first, ..] => first.is_ascii_lowercase(),
        [] => false,
    }
}

/// Whether a word has the form of a name: a keyword hasn't.
#[tactic(auto, using(crate::proofs::Words::row_of_keywords))]
pub fn is_name(word: &[u8]) -> bool
    ensures { result ≡ is_name word.now }
{
    begins_lower(word) && word.len() <= 32 && are_name_bytes(word) && !keyword_of(word).is_some()
}

/// Whether each byte of a word can be in a file's name: a visible one, but `#`.
fn are_file_bytes(word: &[u8]) -> bool
    ensures { result ≡ list_all is_file_byte word.now }
{
    word.iter().all(|b| 33 <= *b && *b <= 126 && *b != b'#')
}

/// Whether a word has the form of a file's name.
pub fn is_file(word: &[u8]) -> bool
    ensures { result ≡ is_file word.now }
{
    !word.is_empty() && word.len() <= 255 && are_file_bytes(word)
}
