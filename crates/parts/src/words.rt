//! The words of a line, and what they stand for.
use std::alloc::{AllocError, AllocFailed};

/// Why a line can't be read.
pub(crate) struct Refusal(&'static str);

impl Drop for Refusal {
    fn drop(self) {
        let Refusal(_) = self;
    }
}

impl Refusal {
    /// The reason.
    pub(crate) fn text(&self) -> &str {
        self.0
    }
}

impl From<&'static str> for Refusal {
    fn from(why: &'static str) -> Refusal {
        Refusal(why)
    }
}

impl From<AllocError> for Refusal {
    fn from(_error: AllocError) -> Refusal {
        Refusal("no memory is left")
    }
}

impl<T: Drop> From<AllocFailed<T>> for Refusal {
    fn from(_failed: AllocFailed<T>) -> Refusal {
        Refusal("no memory is left")
    }
}

/// The next word of a line, which is taken off it.
pub(crate) fn word<'a>(rest: &mut &'a str) -> &'a str {
    let (word, more) = rest.split_once(' ').unwrap_or((*rest, ""));
    *rest = more;
    word
}

/// The number that the next word is.
pub(crate) fn number(rest: &mut &str) -> Result<u64, Refusal> {
    match word(rest).parse::<u64>() {
        Ok(number) => Ok(number),
        Err(_) => Err("a number is expected".into()),
    }
}

/// The number of 32 bits that the next word is.
pub(crate) fn count(rest: &mut &str) -> Result<u32, Refusal> {
    match u32::try_from(number(rest)?) {
        Ok(count) => Ok(count),
        Err(_) => Err("a number of 32 bits is expected".into()),
    }
}

/// The number of 8 bits that the next word is.
pub(crate) fn byte(rest: &mut &str) -> Result<u8, Refusal> {
    match u8::try_from(number(rest)?) {
        Ok(byte) => Ok(byte),
        Err(_) => Err("a number of 8 bits is expected".into()),
    }
}

/// The sample that a word is.
pub(crate) fn sample(word: &str) -> Result<i16, Refusal> {
    match word.parse::<i16>() {
        Ok(sample) => Ok(sample),
        Err(_) => Err("a sample is expected".into()),
    }
}
