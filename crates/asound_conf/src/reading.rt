//! What each token does at its place.
ghost use Rattle.std.specs.Prelude.{◌≡◌, ◌≤◌, ◌<◌, ◌+◌, ◌^◌, drop, length};
ghost use Rattle.asound_conf.specs.Parts.{parts_in};
ghost use Rattle.asound_conf.specs.Opening.{key_cause};
ghost use Rattle.asound_conf.specs.Rows.{group_of};

use crate::bracket::{Awaits, Bracket};
use crate::cell::{Name, Span};
use crate::conf::Conf;
use crate::error::{ConfError, ConfWhy};
use crate::group::{meets_text, put};
use crate::line::last_line;
use crate::part::{Part, begins, key_defect, push_name, push_parts};
use crate::table::Table;
use crate::token::{Mark, Token};
use std::alloc::{AllocError, Global};

/// Groups may be within each other this deep, the text's own counted.
const DEEPEST: usize = 16;

/// Where a reader of tokens is.
#[derive(Drop)]
pub struct Reading {
    /// The nodes so far.
    table: Table,
    /// The parts of keys that lead to the innermost group that is open, and after them those of a key that lead from there
    /// to the place of what comes next.
    path: Vec<Part>,
    /// The innermost bracket that is open, or the text itself.
    here: Bracket,
    /// The brackets around it, the outermost first.
    outer: Vec<Bracket>,
    /// What may come next.
    awaits: Awaits,
}

/// The parts of a key, which are after so many others.
fn key_behind(path: &[Part], names: usize) -> &[Part]
    requires { names ≤ length path.now }
    ensures { result.now ≡ drop names path.now }
{
    &path[names..]
}

/// Why a key of these parts is refused within this bracket.
fn key_cause(table: &Table, here: Bracket, key: &[Part]) -> Option<ConfWhy>
    ensures { result ≡ key_cause here.names (parts_in table.now.text key.now)
        (group_of here.group table.now.rows) }
{
    if let Some(why) = key_defect(table.text(), key) {
        return Some(why);
    }
    if key.len() > DEEPEST || here.names > DEEPEST - key.len() {
        return Some(ConfWhy::Deep);
    }
    if meets_text(table, here.group, key) {
        return Some(ConfWhy::Kind);
    }
    None
}

impl Reading {
    ghost use Rattle.std.specs.Prelude.{◌∷◌, [], IfOk, OnOk, IsTrue, IsFalse, Some, None, Ok, ℕ, not, if◌then◌else◌};
    ghost use Rattle.asound_conf.specs.Answer.{Leads};
    ghost use Rattle.asound_conf.specs.Grammar.{at_number, close_group, close_to, equals_at, end_of_text, last_line, why_misplaced, open_group_at, open_group, put_key, put_text, separator_at, start, step, take_mark, take_text, value_place};
    ghost use Rattle.asound_conf.specs.Key.{key_defect, part_named, word_parts};
    ghost use Rattle.asound_conf.specs.Reading.{IsBeforeKey, IsReading, Places, Reads, before_key, rest_of_key, state_of};
    ghost use Rattle.asound_conf.specs.Start.{AreAt, IsTokenAt};
    ghost use Rattle.asound_conf.specs.Table.{span_in};
    ghost use Rattle.asound_conf.specs.Token.{token_of};

    /// A reader before the first token of a text.
    pub fn new(alloc: Global, text: &[u8]) -> Result<Reading, AllocError>
        ensures start { IfOk result (λ r. state_of r ≡ start) }
        ensures valid { IfOk result (λ r. IsReading r) }
        ensures text { IfOk result (λ r. r.table.text ≡ text.now) }
    {
        Ok(Reading {
            table: Table::new(alloc, text)?,
            path: Vec::new(alloc),
            here: Bracket {
                line: 0,
                array: false,
                values: 0,
                names: 0,
                group: 0,
            },
            outer: Vec::new(alloc),
            awaits: Awaits::Item { separator: false },
        })
    }

    /// Goes to where the next value of `[ ]` is put. The count of values can't pass its type's end in a text that is
    /// short enough to be read.
    fn go_to_number(&mut self) -> Result<(), ConfWhy>
        requires valid { IsReading self.old }
        requires none { length (rest_of_key self.old) ≡ 0 }
        ensures leads { Leads result (state_of self.new) (Ok (at_number (state_of self.old))) }
        ensures key { IfOk result (λ _. 1 ≤ length (rest_of_key self.new)) }
        ensures valid { OnOk result (IsReading self.new) }
        ensures text { self.new.table.text ≡ self.old.table.text }
    {
        let values = self.here.values;
        let next = values.checked_add(1).ok_or(ConfWhy::Memory)?;
        self.path.push(Part {
            removes: false,
            name: Name::Number(values),
        })?;
        self.here.values = next;
        self.awaits = Awaits::Value { equals: false };
        Ok(())
    }

    /// Goes to where a value is put, and says whether one can come: after a key, or within `[ ]`.
    fn go_to_value(&mut self) -> Result<bool, ConfWhy>
        requires valid { IsReading self.old }
        ensures place { Places result (state_of self.old) (state_of self.new)
            (value_place (state_of self.old) self.old.awaits self.old.here.array) }
        ensures key { IfOk result (λ can. IsTrue can → 1 ≤ length (rest_of_key self.new)) }
        ensures none { IfOk result (λ can. IsFalse can → length (rest_of_key self.new) ≡ 0) }
        ensures valid { OnOk result (IsReading self.new) }
        ensures text { self.new.table.text ≡ self.old.table.text }
    {
        if let Awaits::Value { .. } = self.awaits {
            return Ok(true);
        }
        if !self.here.array {
            return Ok(false);
        }
        self.go_to_number()?;
        Ok(true)
    }

    /// Puts a text at its place.
    fn put_text(&mut self, text: Span) -> Result<(), ConfWhy>
        requires valid { IsReading self.old }
        requires some { 1 ≤ length (rest_of_key self.old) }
        ensures leads { Leads result (state_of self.new)
            (put_text (state_of self.old) (span_in self.old.table.text text)) }
        ensures valid { OnOk result (IsReading self.new) }
        ensures text { self.new.table.text ≡ self.old.table.text }
    {
        let key = key_behind(self.path.as_slice(), self.here.names);
        let answer = put(&mut self.table, self.here.group, key, Some(text));
        self.awaits = Awaits::Item { separator: true };
        self.path.truncate(self.here.names);
        match answer {
            Ok(_) => Ok(()),
            Err(why) => Err(why),
        }
    }

    /// Takes a key, whose parts are after those of the path.
    fn take_key(&mut self) -> Result<(), ConfWhy>
        requires valid { IsBeforeKey self.old }
        requires some { 1 ≤ length (rest_of_key self.old) }
        ensures leads { Leads result (state_of self.new) (put_key (before_key self.old)
            (key_defect (parts_in self.old.table.text (rest_of_key self.old)))
            (parts_in self.old.table.text (rest_of_key self.old))) }
        ensures valid { OnOk result (IsReading self.new) }
        ensures text { self.new.table.text ≡ self.old.table.text }
    {
        let key = key_behind(self.path.as_slice(), self.here.names);
        if let Some(why) = key_cause(&self.table, self.here, key) {
            return Err(why);
        }
        self.awaits = Awaits::Value { equals: true };
        Ok(())
    }

    /// Takes a word at this place of the text as a key.
    fn take_word_key(&mut self, word: &[u8], start: u32) -> Result<(), ConfWhy>
        requires valid { IsReading self.old }
        requires none { length (rest_of_key self.old) ≡ 0 }
        requires at { AreAt self.old.table.text start word.now }
        ensures leads { Leads result (state_of self.new)
            (put_key (state_of self.old) (key_defect (word_parts word.now)) (word_parts word.now)) }
        ensures valid { OnOk result (IsReading self.new) }
        ensures text { self.new.table.text ≡ self.old.table.text }
    {
        push_parts(&mut self.path, word, start)?;
        self.take_key()
    }

    /// Takes a quoted text at this place of the text as a key of one part.
    fn take_quoted_key(&mut self, text: &[u8], start: u32) -> Result<(), ConfWhy>
        requires valid { IsReading self.old }
        requires none { length (rest_of_key self.old) ≡ 0 }
        requires at { AreAt self.old.table.text start text.now }
        ensures leads { Leads result (state_of self.new) (put_key (state_of self.old)
            (key_defect (part_named text.now ∷ [])) (part_named text.now ∷ [])) }
        ensures valid { OnOk result (IsReading self.new) }
        ensures text { self.new.table.text ≡ self.old.table.text }
    {
        push_name(&mut self.path, text, start)?;
        self.take_key()
    }

    /// Takes a word at this place of the text.
    fn take_word(&mut self, word: &[u8], start: u32) -> Result<(), ConfWhy>
        requires valid { IsReading self.old }
        requires at { AreAt self.old.table.text start word.now }
        ensures leads { Leads result (state_of self.new)
            (take_text (state_of self.old) (word_parts word.now) word.now) }
        ensures valid { OnOk result (IsReading self.new) }
        ensures text { self.new.table.text ≡ self.old.table.text }
    {
        if self.go_to_value()? {
            self.put_text(Span {
                start,
                count: word.len() as u32,
            })
        } else {
            self.take_word_key(word, start)
        }
    }

    /// Takes a quoted text at this place of the text.
    fn take_quoted(&mut self, text: &[u8], start: u32) -> Result<(), ConfWhy>
        requires valid { IsReading self.old }
        requires at { AreAt self.old.table.text start text.now }
        ensures leads { Leads result (state_of self.new)
            (take_text (state_of self.old) (part_named text.now ∷ []) text.now) }
        ensures valid { OnOk result (IsReading self.new) }
        ensures text { self.new.table.text ≡ self.old.table.text }
    {
        if self.go_to_value()? {
            self.put_text(Span {
                start,
                count: text.len() as u32,
            })
        } else {
            self.take_quoted_key(text, start)
        }
    }

    /// Opens a group or an array at its place.
    fn open_group(&mut self, line: u32, array: bool) -> Result<(), ConfWhy>
        requires valid { IsReading self.old }
        requires some { 1 ≤ length (rest_of_key self.old) }
        ensures leads { Leads result (state_of self.new)
            (open_group (state_of self.old) line array) }
        ensures valid { OnOk result (IsReading self.new) }
        ensures text { self.new.table.text ≡ self.old.table.text }
    {
        if self.path.len() >= DEEPEST {
            return Err(ConfWhy::Deep);
        }
        let key = key_behind(self.path.as_slice(), self.here.names);
        let group = put(&mut self.table, self.here.group, key, None)?;
        self.outer.push(Bracket {
            line: self.here.line,
            array: self.here.array,
            values: self.here.values,
            names: self.here.names,
            group: self.here.group,
        })?;
        self.here = Bracket {
            line,
            array,
            values: 0,
            names: self.path.len(),
            group,
        };
        self.awaits = Awaits::Item { separator: false };
        Ok(())
    }

    /// Takes a mark that opens a group or an array.
    fn open(&mut self, line: u32, array: bool) -> Result<(), ConfWhy>
        requires valid { IsReading self.old }
        ensures leads { Leads result (state_of self.new)
            (open_group_at (value_place (state_of self.old) self.old.awaits self.old.here.array)
            line array) }
        ensures valid { OnOk result (IsReading self.new) }
        ensures text { self.new.table.text ≡ self.old.table.text }
    {
        if self.go_to_value()? {
            self.open_group(line, array)
        } else {
            Err(ConfWhy::Key)
        }
    }

    /// Goes to what is around the innermost group.
    fn leave(&mut self) -> Result<(), ConfWhy>
        requires valid { IsReading self.old }
        requires none { length (rest_of_key self.old) ≡ 0 }
        ensures leads { Leads result (state_of self.new)
            (close_to (state_of self.old) (state_of self.old).outer) }
        ensures valid { OnOk result (IsReading self.new) }
        ensures text { self.new.table.text ≡ self.old.table.text }
    {
        let Some(around) = self.outer.pop() else {
            return Err(ConfWhy::Close);
        };
        self.path.truncate(around.names);
        self.here = around;
        self.awaits = Awaits::Item { separator: true };
        Ok(())
    }

    /// Takes a mark that closes a group, or an array.
    fn close(&mut self, array: bool) -> Result<(), ConfWhy>
        requires valid { IsReading self.old }
        ensures leads { Leads result (state_of self.new)
            (close_group (state_of self.old) self.old.awaits
            (if array then self.old.here.array else not self.old.here.array)) }
        ensures valid { OnOk result (IsReading self.new) }
        ensures text { self.new.table.text ≡ self.old.table.text }
    {
        if let Awaits::Value { .. } = self.awaits {
            return Err(ConfWhy::Value);
        }
        if self.here.array != array {
            return Err(ConfWhy::Close);
        }
        self.leave()
    }

    /// What a mark is that has no place here.
    fn misplaced(&self) -> ConfWhy
        ensures { result ≡ why_misplaced (state_of self.now) }
    {
        if self.here.array {
            ConfWhy::Value
        } else {
            ConfWhy::Key
        }
    }

    /// Takes an `=`.
    fn equals(&mut self) -> Result<(), ConfWhy>
        requires valid { IsReading self.old }
        ensures leads { Leads result (state_of self.new)
            (equals_at (state_of self.old) self.old.awaits) }
        ensures valid { OnOk result (IsReading self.new) }
        ensures text { self.new.table.text ≡ self.old.table.text }
    {
        match self.awaits {
            Awaits::Value { equals: true } => {
                self.awaits = Awaits::Value { equals: false };
                Ok(())
            }
            Awaits::Value { equals: false } => Err(ConfWhy::Value),
            Awaits::Item { .. } => Err(self.misplaced()),
        }
    }

    /// Takes a `,` or `;`.
    fn separator(&mut self) -> Result<(), ConfWhy>
        requires valid { IsReading self.old }
        ensures leads { Leads result (state_of self.new)
            (separator_at (state_of self.old) self.old.awaits) }
        ensures valid { OnOk result (IsReading self.new) }
        ensures text { self.new.table.text ≡ self.old.table.text }
    {
        match self.awaits {
            Awaits::Item { separator: true } => {
                self.awaits = Awaits::Item { separator: false };
                Ok(())
            }
            Awaits::Item { separator: false } => Err(self.misplaced()),
            Awaits::Value { .. } => Err(ConfWhy::Value),
        }
    }

    /// Takes a mark.
    fn take_mark(&mut self, line: u32, mark: Mark) -> Result<(), ConfWhy>
        requires valid { IsReading self.old }
        ensures leads { Leads result (state_of self.new) (take_mark (state_of self.old) line mark) }
        ensures valid { OnOk result (IsReading self.new) }
        ensures text { self.new.table.text ≡ self.old.table.text }
    {
        match mark {
            Mark::OpenBrace => self.open(line, false),
            Mark::OpenBracket => self.open(line, true),
            Mark::CloseBrace => self.close(false),
            Mark::CloseBracket => self.close(true),
            Mark::Equals => self.equals(),
            Mark::Comma | Mark::Semicolon => self.separator(),
        }
    }

    /// Takes a token of this line, whose bytes are at this place of the text. After an `Err` the reader is of no more use.
    pub fn take(&mut self, line: u32, token: Token<'_>, start: u32) -> Result<(), ConfWhy>
        requires valid { IsReading self.old }
        requires given { IsTokenAt self.old.table.text start token }
        ensures leads { Leads result (state_of self.new)
            (step (state_of self.old) line (token_of token.entry)) }
        ensures valid { OnOk result (IsReading self.new) }
        ensures text { self.new.table.text ≡ self.old.table.text }
    {
        match token {
            Token::Word(word) => {
                if begins(word, b'<') {
                    return Err(ConfWhy::Include);
                }
                self.take_word(word, start)
            }
            Token::Quoted(text) => self.take_quoted(text, start),
            Token::Mark(mark) => self.take_mark(line, mark),
            Token::Bad(why) => Err(why),
        }
    }

    /// The group at the text's end.
    pub fn finish(self) -> Result<Conf, ConfError>
        requires { length self.table.text < 2 ^ 31 }
        ensures { Reads result (end_of_text (state_of self) (last_line self.table.text)
            (state_of self).outer self.awaits) }
    {
        if !self.outer.is_empty() {
            return Err(ConfError {
                line: self.here.line,
                why: ConfWhy::Unclosed,
            });
        }
        if let Awaits::Value { .. } = self.awaits {
            return Err(ConfError {
                line: last_line(self.table.text()),
                why: ConfWhy::Value,
            });
        }
        Ok(Conf::of(self.table))
    }
}
