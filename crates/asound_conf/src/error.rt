//! Why a configuration text, or a device in it, is refused.
ghost use Rattle.std.specs.Prelude.{◌≡◌, Some};
ghost use Rattle.asound_conf.specs.ErrorText.{error_text, why_name, why_text};

use std::alloc::{AllocError, AllocFailed};
use std::fmt;
use thiserror::Error;

/// Why a configuration text or a device in it is refused.
#[derive(Clone, Copy, PartialEq, Eq, Error)]
pub enum ConfWhy {
    /// The text is longer than a configuration may be.
    TooLong,
    /// A byte begins no token, or is a control byte in quotes.
    Byte,
    /// A backslash is in quotes.
    Escape,
    /// A line ends within quotes, or the text within a group or an array.
    Unclosed,
    /// A word begins with `<`: another file is to be included.
    Include,
    /// A part of a key begins with `@`: it is a function.
    Function,
    /// A part of a key begins with `+`, `-` or `?`.
    Prefix,
    /// A mark is where a key must be, or a part of a key is empty.
    Key,
    /// A mark closes what isn't the innermost that is open.
    Close,
    /// A mark, or the text's end, is where a value must be.
    Value,
    /// Groups are within each other more than 16 deep.
    Deep,
    /// A text is put where a group is, or a group where a text is.
    Kind,
    /// There is no device of this name, or it has no slave.
    Missing,
    /// The device is of another type than dmix, dsnoop and dshare.
    PluginType,
    /// The samples' format is another than 16 bits, little-endian.
    Format,
    /// A text that must be a number isn't one.
    Number,
    /// A number is out of its range.
    Range,
    /// The ring isn't a multiple of the period, or holds less than two periods.
    Fit,
    /// The bindings aren't a group of numbers with the names 0, 1 and so on.
    BindingKey,
    /// The bindings bind no channel.
    BindingsEmpty,
    /// The bindings bind more than eight channels.
    BindingsTooMany,
    /// The bindings name a channel that the card doesn't have.
    BindingRange(u32),
    /// The bindings name a channel of the card twice.
    BindingTwice(u32),
    /// Memory ran out.
    Memory,
}

impl ConfWhy {
    /// Its name, by which it is printed.
    fn name(&self) -> &'static str
        ensures { result.now ≡ why_name self.now }
    {
        match self {
            ConfWhy::TooLong => "TooLong",
            ConfWhy::Byte => "Byte",
            ConfWhy::Escape => "Escape",
            ConfWhy::Unclosed => "Unclosed",
            ConfWhy::Include => "Include",
            ConfWhy::Function => "Function",
            ConfWhy::Prefix => "Prefix",
            ConfWhy::Key => "Key",
            ConfWhy::Close => "Close",
            ConfWhy::Value => "Value",
            ConfWhy::Deep => "Deep",
            ConfWhy::Kind => "Kind",
            ConfWhy::Missing => "Missing",
            ConfWhy::PluginType => "PluginType",
            ConfWhy::Format => "Format",
            ConfWhy::Number => "Number",
            ConfWhy::Range => "Range",
            ConfWhy::Fit => "Fit",
            ConfWhy::BindingKey => "BindingKey",
            ConfWhy::BindingsEmpty => "BindingsEmpty",
            ConfWhy::BindingsTooMany => "BindingsTooMany",
            ConfWhy::BindingRange(_) => "BindingRange",
            ConfWhy::BindingTwice(_) => "BindingTwice",
            ConfWhy::Memory => "Memory",
        }
    }
}

impl fmt::Debug for ConfWhy {
    fn fmt<W: fmt::Write>(&self, f: &mut fmt::Formatter<W>) -> fmt::Result {
        match self {
            ConfWhy::BindingRange(number) | ConfWhy::BindingTwice(number) => {
                f.debug_tuple(self.name()).field(number).finish()
            }
            _ => f.write_str(self.name()),
        }
    }
}

impl fmt::Display for ConfWhy {
    ghost output = { λ why. Some (why_text why) };

    fn fmt<W: fmt::Write>(&self, f: &mut fmt::Formatter<W>) -> fmt::Result {
        f.write_str(self.name())?;
        match self {
            ConfWhy::BindingRange(number) | ConfWhy::BindingTwice(number) => {
                write!(f, " {number}")
            }
            _ => Ok(()),
        }
    }
}

/// A refusal: why, and the number of the line that it is about, from 1 on, or 0 for the text as a whole.
#[derive(Clone, Copy, Debug, PartialEq, Eq, Error)]
pub struct ConfError {
    pub line: u32,
    pub why: ConfWhy,
}

impl fmt::Display for ConfError {
    ghost output = { λ error. Some (error_text error) };

    fn fmt<W: fmt::Write>(&self, f: &mut fmt::Formatter<W>) -> fmt::Result {
        write!(f, "line {}: {}", self.line, self.why)
    }
}

impl From<AllocError> for ConfWhy {
    ghost use Rattle.asound_conf.specs.declared.error.ConfWhy.TheVariants as why;

    ghost from_gives = { λ _ e. e ≡ why.Memory };

    fn from(_error: AllocError) -> ConfWhy {
        ConfWhy::Memory
    }
}

impl<T: Drop> From<AllocFailed<T>> for ConfWhy {
    ghost use Rattle.asound_conf.specs.declared.error.ConfWhy.TheVariants as why;

    ghost from_gives = { λ _ e. e ≡ why.Memory };

    fn from(_error: AllocFailed<T>) -> ConfWhy {
        ConfWhy::Memory
    }
}
