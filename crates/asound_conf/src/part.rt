//! The parts of a key.
ghost use Rattle.std.specs.Prelude.{◌≡◌, ◌++◌, ◌≤◌, ◌<◌, ◌+◌, ◌^◌, ◌∷◌, [], List, ℕ, OnOk, IfNone, IfSome, position, take, drop, length};
ghost use Rattle.std.specs.Fmt.{decimal};
ghost use Rattle.std.specs.List.{list_any, slice_split};
ghost use Rattle.asound_conf.specs.Key.{begins, has_prefix, is_dot, is_function, is_nameless, key_defect, part_named, key_part, word_parts};
ghost use Rattle.asound_conf.specs.Parts.{part_in, parts_in};
ghost use Rattle.asound_conf.specs.Table.{name_in, span_in};

use crate::cell::{Name, Span};
use crate::error::ConfWhy;
use crate::table::span_in;
use itoa::Buffer;
use std::alloc::AllocError;

/// A part of a key: the name of a node in its group.
#[derive(Clone, Copy)]
pub struct Part {
    /// Whether `!` is before the part: the node of this name is removed first.
    pub removes: bool,
    /// The node's name.
    pub name: Name,
}

/// Whether some bytes begin with this one.
pub fn begins(bytes: &[u8], b: u8) -> bool
    ensures { result ≡ begins b bytes.now }
{
    !bytes.is_empty() && bytes[0] == b
}

/// The part of a word's piece between dots, which begins at this place of the text. A `!` before the name is a mark.
fn part_of(piece: &[u8], start: u32) -> Part
    requires { start + length piece.now < 2 ^ 32 }
    ensures { (text : List ℕ)
        → span_in text (record { start = start; count = length piece.now }) ≡ piece.now
        → part_in text result ≡ key_part piece.now }
{
    if begins(piece, b'!') {
        return Part {
            removes: true,
            name: Name::Bytes(Span {
                start: start + 1,
                count: (piece.len() - 1) as u32,
            }),
        };
    }
    Part {
        removes: false,
        name: Name::Bytes(Span {
            start,
            count: piece.len() as u32,
        }),
    }
}

/// The place of the first dot.
fn first_dot(word: &[u8]) -> Option<usize>
    ensures { result ≡ position is_dot word.now }
{
    word.iter().position(|b| *b == b'.')
}

/// A word's first piece, and what follows its dot, where it has a dot.
fn split_piece(word: &[u8]) -> Option<(&[u8], &[u8])>
    ensures some { IfSome result (λ c. slice_split is_dot word.now
        ≡ c.0.now ∷ slice_split is_dot c.1.now) }
    ensures none { IfNone result (slice_split is_dot word.now ≡ word.now ∷ []) }
    ensures piece { IfSome result (λ c. c.0.now ≡ take (length c.0.now) word.now) }
    ensures behind { IfSome result (λ c. c.1.now ≡ drop (length c.0.now + 1) word.now) }
    ensures sizes { IfSome result (λ c. length c.0.now + 1 + length c.1.now ≡ length word.now) }
{
    let end = first_dot(word)?;
    Some((&word[..end], &word[end + 1..]))
}

/// Adds the parts of a word that begins at this place of the text.
pub fn push_parts(parts: &mut Vec<Part>, word: &[u8], start: u32) -> Result<(), AllocError>
    requires { start + length word.now < 2 ^ 32 }
    ensures parts { OnOk result ((text : List ℕ)
        → span_in text (record { start = start; count = length word.now }) ≡ word.now
        → parts_in text parts.new.items ≡ parts_in text parts.old.items ++ word_parts word.now) }
    ensures kept { OnOk result (take (length parts.old.items) parts.new.items ≡ parts.old.items) }
    ensures more { OnOk result (length parts.old.items < length parts.new.items) }
{
    let mut rest = word;
    let mut at = start;
    while let Some((piece, behind)) = split_piece(rest) {
        parts.push(part_of(piece, at))?;
        at += piece.len() as u32 + 1;
        rest = behind;
    }
    parts.push(part_of(rest, at))?;
    Ok(())
}

/// Adds the one part of a quoted text that begins at this place of the text.
pub fn push_name(parts: &mut Vec<Part>, name: &[u8], start: u32) -> Result<(), AllocError>
    requires { start + length name.now < 2 ^ 32 }
    ensures parts { OnOk result ((text : List ℕ)
        → span_in text (record { start = start; count = length name.now }) ≡ name.now
        → parts_in text parts.new.items ≡ parts_in text parts.old.items
        ++ part_named name.now ∷ []) }
    ensures kept { OnOk result (take (length parts.old.items) parts.new.items ≡ parts.old.items) }
    ensures more { OnOk result (length parts.old.items < length parts.new.items) }
{
    parts.push(Part {
        removes: false,
        name: Name::Bytes(Span {
            start,
            count: name.len() as u32,
        }),
    })?;
    Ok(())
}

/// Whether a part's name begins with this byte.
fn name_begins(text: &[u8], name: Name, b: u8) -> bool
    ensures { result ≡ begins b (name_in text.now name) }
{
    match name {
        Name::Bytes(span) => begins(span_in(text, span), b),
        Name::Number(number) => {
            let mut buffer = Buffer::new();
            begins(buffer.format(number).as_bytes(), b)
        }
    }
}

/// Whether a part's name has a prefix.
fn has_prefix(text: &[u8], part: Part) -> bool
    ensures { result ≡ has_prefix (part_in text.now part) }
{
    name_begins(text, part.name, b'+')
        || name_begins(text, part.name, b'-')
        || name_begins(text, part.name, b'?')
}

/// Whether a part has no name.
fn is_nameless(text: &[u8], part: Part) -> bool
    ensures { result ≡ is_nameless (part_in text.now part) }
{
    match part.name {
        Name::Bytes(span) => span_in(text, span).is_empty(),
        Name::Number(number) => {
            let mut buffer = Buffer::new();
            buffer.format(number).as_bytes().is_empty()
        }
    }
}

/// Whether a part is the name of a function.
fn any_function(text: &[u8], parts: &[Part]) -> bool
    ensures { result ≡ list_any (λ part. is_function (part_in text.now part)) parts.now }
{
    parts.iter().any(|part| name_begins(text, part.name, b'@'))
}

/// Whether a part's name has a prefix.
fn any_prefix(text: &[u8], parts: &[Part]) -> bool
    ensures { result ≡ list_any (λ part. has_prefix (part_in text.now part)) parts.now }
{
    parts.iter().any(|part| has_prefix(text, *part))
}

/// Whether a part has no name.
fn any_nameless(text: &[u8], parts: &[Part]) -> bool
    ensures { result ≡ list_any (λ part. is_nameless (part_in text.now part)) parts.now }
{
    parts.iter().any(|part| is_nameless(text, *part))
}

/// What is wrong with the parts of a key.
#[tactic(auto, using(crate::proofs::PartLists::list_any_map))]
pub fn key_defect(text: &[u8], parts: &[Part]) -> Option<ConfWhy>
    ensures { result ≡ key_defect (parts_in text.now parts.now) }
{
    if any_function(text, parts) {
        return Some(ConfWhy::Function);
    }
    if any_prefix(text, parts) {
        return Some(ConfWhy::Prefix);
    }
    if any_nameless(text, parts) {
        return Some(ConfWhy::Key);
    }
    None
}
