//! The name of a client or reader.
ghost use Rattle.std.specs.Prelude.{◌≡◌, string_bytes};

use std::marker::Model;

/// A declared name. The reader makes each of 1 to 32 bytes, a lower-case letter and then lower-case
/// letters, digits or `_`, and none of the words `card`, `client`, `reader`, `open`, `close`, `phase`
/// and `end`. Contracts see it as its bytes.
#[derive(Debug, Drop)]
pub struct Name {
    text: String,
}

impl Model for Name {
    ghost use Rattle.std.specs.Prelude.{List, ℕ, string_bytes};

    ghost Value = { List ℕ };

    ghost view = { λ name. string_bytes name.text };
}

impl Name {
    /// The name over a text, which is taken as it is, whatever its form.
    pub fn from_text(text: String) -> Name
        ensures { result ≡ string_bytes text }
    {
        Name { text }
    }

    /// The name's text.
    pub fn as_str(&self) -> &str
        ensures { result.now ≡ self.now }
    {
        self.text.as_str()
    }

    /// The text that it was made of.
    pub fn into_text(self) -> String
        ensures { string_bytes result ≡ self }
    {
        self.text
    }
}

/// A file's name in a script. The reader makes each of 1 to 255 bytes from 33 to 126, without `#`.
/// Contracts see it as its bytes.
#[derive(Debug, Drop)]
pub struct FileName {
    text: String,
}

impl Model for FileName {
    ghost use Rattle.std.specs.Prelude.{List, ℕ, string_bytes};

    ghost Value = { List ℕ };

    ghost view = { λ name. string_bytes name.text };
}

impl FileName {
    /// The file's name over a text, which is taken as it is, whatever its form.
    pub fn from_text(text: String) -> FileName
        ensures { result ≡ string_bytes text }
    {
        FileName { text }
    }

    /// The name's text.
    pub fn as_str(&self) -> &str
        ensures { result.now ≡ self.now }
    {
        self.text.as_str()
    }

    /// The text that it was made of.
    pub fn into_text(self) -> String
        ensures { string_bytes result ≡ self }
    {
        self.text
    }
}
