//! The words that no name is.
ghost use Rattle.std.specs.Prelude.{◌≡◌};
ghost use Rattle.lab_script.specs.Draft.{keywords};
ghost use Rattle.text_words.specs.Table.{row_of};

use text_words::row_of;

/// The words that no name is.
#[derive(Clone, Copy)]
pub enum Keyword {
    Card,
    Client,
    Reader,
    Open,
    Close,
    Phase,
    End,
}

/// The keywords, by their words.
const KEYWORDS: [(&[u8], Keyword); 7] = [
    (b"card", Keyword::Card),
    (b"client", Keyword::Client),
    (b"reader", Keyword::Reader),
    (b"open", Keyword::Open),
    (b"close", Keyword::Close),
    (b"phase", Keyword::Phase),
    (b"end", Keyword::End),
];

/// The keyword that a word is.
pub fn keyword_of(word: &[u8]) -> Option<Keyword>
    ensures { result ≡ row_of keywords word.now }
{
    row_of(&KEYWORDS, word)
}
