//! Why a script is refused.
ghost use Rattle.std.specs.Prelude.{◌≡◌, Some};
ghost use Rattle.lab_script.specs.ErrorText.{error_text, why_name, why_text};

use std::alloc::{AllocError, AllocFailed};
use std::fmt;
use thiserror::Error;

/// Why a script is refused.
#[derive(Clone, Copy, PartialEq, Eq, Error)]
pub enum ScriptWhy {
    /// A line begins with a word of the language that can't begin a line here.
    Order,
    /// A word isn't one of those allowed here.
    Word,
    /// The line ends where a word must follow.
    Missing,
    /// A word follows a line that is whole.
    Extra,
    /// A declared name isn't of the form of a name.
    Name,
    /// A file word has a byte that it can't have, or is too long.
    File,
    /// A word that must be a number isn't one.
    Number,
    /// A number is out of its range.
    Range,
    /// A key is given a second time on its line.
    KeyTwice,
    /// A name is declared a second time.
    NameTwice,
    /// There are more clients, readers or phases than a script may have.
    TooMany,
    /// The ring, the period or the lead don't fit together.
    Fit,
    /// The bindings bind no channel.
    BindingsEmpty,
    /// The bindings bind more than eight channels.
    BindingsTooMany,
    /// The bindings name a channel that the card doesn't have.
    BindingRange(u32),
    /// The bindings name a channel of the card twice.
    BindingTwice(u32),
    /// A phase that unplugs the card has another line.
    Alone,
    /// The card plays or is unplugged after it was unplugged.
    Unplugged,
    /// The card plays more frames than a script may play.
    Frames,
    /// The card plays past the last lap of its ring.
    LapEnd,
    /// The text ends within a phase.
    Unended,
    /// The text has no line with words.
    NoCard,
    /// The text is longer than a script may be.
    TooLong,
    /// Memory ran out.
    Memory,
}

impl ScriptWhy {
    /// Its name, by which it is printed.
    fn name(&self) -> &'static str
        ensures { result.now ≡ why_name self.now }
    {
        match self {
            ScriptWhy::Order => "Order",
            ScriptWhy::Word => "Word",
            ScriptWhy::Missing => "Missing",
            ScriptWhy::Extra => "Extra",
            ScriptWhy::Name => "Name",
            ScriptWhy::File => "File",
            ScriptWhy::Number => "Number",
            ScriptWhy::Range => "Range",
            ScriptWhy::KeyTwice => "KeyTwice",
            ScriptWhy::NameTwice => "NameTwice",
            ScriptWhy::TooMany => "TooMany",
            ScriptWhy::Fit => "Fit",
            ScriptWhy::BindingsEmpty => "BindingsEmpty",
            ScriptWhy::BindingsTooMany => "BindingsTooMany",
            ScriptWhy::BindingRange(_) => "BindingRange",
            ScriptWhy::BindingTwice(_) => "BindingTwice",
            ScriptWhy::Alone => "Alone",
            ScriptWhy::Unplugged => "Unplugged",
            ScriptWhy::Frames => "Frames",
            ScriptWhy::LapEnd => "LapEnd",
            ScriptWhy::Unended => "Unended",
            ScriptWhy::NoCard => "NoCard",
            ScriptWhy::TooLong => "TooLong",
            ScriptWhy::Memory => "Memory",
        }
    }
}

impl fmt::Debug for ScriptWhy {
    fn fmt<W: fmt::Write>(&self, f: &mut fmt::Formatter<W>) -> fmt::Result {
        match self {
            ScriptWhy::BindingRange(number) | ScriptWhy::BindingTwice(number) => {
                f.debug_tuple(self.name()).field(number).finish()
            }
            _ => f.write_str(self.name()),
        }
    }
}

impl fmt::Display for ScriptWhy {
    ghost output = { λ why. Some (why_text why) };

    fn fmt<W: fmt::Write>(&self, f: &mut fmt::Formatter<W>) -> fmt::Result {
        f.write_str(self.name())?;
        match self {
            ScriptWhy::BindingRange(number) | ScriptWhy::BindingTwice(number) => {
                write!(f, " {number}")
            }
            _ => Ok(()),
        }
    }
}

/// A refusal of a script: why, and the number of the line that it is about, from 1 on, or 0 for the
/// text as a whole.
#[derive(Clone, Copy, Debug, PartialEq, Eq, Error)]
pub struct ScriptError {
    pub line: u32,
    pub why: ScriptWhy,
}

impl fmt::Display for ScriptError {
    ghost output = { λ error. Some (error_text error) };

    fn fmt<W: fmt::Write>(&self, f: &mut fmt::Formatter<W>) -> fmt::Result {
        write!(f, "line {}: {}", self.line, self.why)
    }
}

impl From<AllocError> for ScriptWhy {
    ghost use Rattle.lab_script.specs.declared.error.ScriptWhy.TheVariants as why;

    ghost from_gives = { λ _ e. e ≡ why.Memory };

    fn from(_error: AllocError) -> ScriptWhy {
        ScriptWhy::Memory
    }
}

impl<T: Drop> From<AllocFailed<T>> for ScriptWhy {
    ghost use Rattle.lab_script.specs.declared.error.ScriptWhy.TheVariants as why;

    ghost from_gives = { λ _ e. e ≡ why.Memory };

    fn from(_error: AllocFailed<T>) -> ScriptWhy {
        ScriptWhy::Memory
    }
}
