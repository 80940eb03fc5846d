//! What follows keys.
ghost use Rattle.std.specs.Prelude.{◌≡◌, ◌≤◌, ◌<◌, [], IfOk, IsAscii, length, option_map, string_bytes};
ghost use Rattle.std.specs.Option.{option_map_or};
ghost use Rattle.lab_script.specs.Causes.{Gives};
ghost use Rattle.lab_script.specs.Keys.{number_in, numbers_of, name_of, file_of, value_of, word_after, number_or_zero, number_given, number_within, byte_given, small_given, small_where, stop_given, share_named, share_given, file_where, bindings_where, why_of};
ghost use Rattle.lab_script.specs.declared.keys.Takes.TheVariants as takes;
ghost use Rattle.text_words.specs.Lexing.{words_between};
ghost use Rattle.text_words.specs.Word.{parts_of};

use crate::causes::refuse_if;
use crate::error::ScriptWhy;
use crate::keys::{Takes, given};
use crate::word::{is_file, is_name};
use bindings::Bindings;
use lab_lines::{FileName, Name, Share, Stop};
use snd_base::Why;
use std::alloc::{AllocError, Global};
use text_words::{read_number, split_part};

/// A word that must be a number from least to most.
pub fn number_in(least: u64, most: u64, word: &[u8]) -> Result<u64, ScriptWhy>
    ensures value { result ≡ number_in least most word.now }
    ensures most { IfOk result (λ n. n ≤ most) }
{
    let Some(n) = read_number(word) else {
        return Err(ScriptWhy::Number);
    };
    if n < least || n > most {
        return Err(ScriptWhy::Range);
    }
    Ok(n)
}

/// The numbers of a list that is joined by commas.
fn read_numbers(alloc: Global, list: &[u8]) -> Result<Vec<u32>, ScriptWhy>
    ensures { Gives (λ v. v.items) result (numbers_of list.now) }
{
    let mut numbers = Vec::new(alloc);
    let mut rest = list;
    while let Some((part, behind)) = split_part(rest) {
        let n = number_in(0, 4_294_967_295, part)?;
        numbers.push(n as u32)?;
        rest = behind;
    }
    let last = number_in(0, 4_294_967_295, rest)?;
    numbers.push(last as u32)?;
    Ok(numbers)
}

/// Some ASCII bytes as a text.
fn text_of(alloc: Global, bytes: &[u8]) -> Result<String, AllocError>
    requires { IsAscii bytes.now }
    ensures { IfOk result (λ text. string_bytes text ≡ bytes.now) }
{
    let text = str::from_utf8(bytes).unwrap();
    String::from_str(alloc, text)
}

/// A word that must be a name.
pub fn read_name(alloc: Global, word: &[u8]) -> Result<Name, ScriptWhy>
    ensures { Gives (λ n. n) result (name_of word.now) }
{
    if !is_name(word) {
        return Err(ScriptWhy::Name);
    }
    Ok(Name::from_text(text_of(alloc, word)?))
}

/// A word that must be a file's name.
pub fn read_file(alloc: Global, word: &[u8]) -> Result<FileName, ScriptWhy>
    ensures { Gives (λ f. f) result (file_of word.now) }
{
    if !is_file(word) {
        return Err(ScriptWhy::File);
    }
    Ok(FileName::from_text(text_of(alloc, word)?))
}

/// A word that must be a number from least to most.
fn check_number(least: u64, most: u64, word: &[u8]) -> Result<(), ScriptWhy>
    ensures { result ≡ value_of (takes.Number least most) word.now }
{
    number_in(least, most, word)?;
    Ok(())
}

/// Whether a word can follow a key that takes this.
pub fn check_value(alloc: Global, takes: Takes, word: &[u8]) -> Result<(), ScriptWhy>
    ensures { Gives (λ u. u) result (value_of takes word.now) }
{
    match takes {
        Takes::Number(least, most) => check_number(least, most, word),
        Takes::NumberOrNever(least, most) => {
            if word == b"never".as_slice() {
                return Ok(());
            }
            check_number(least, most, word)
        }
        Takes::File => refuse_if(!is_file(word), ScriptWhy::File),
        Takes::Bindings => {
            read_numbers(alloc, word)?;
            Ok(())
        }
        Takes::Share => {
            if word == b"dmix".as_slice() {
                return Ok(());
            }
            refuse_if(word != b"dshare".as_slice(), ScriptWhy::Word)
        }
        Takes::Plug => refuse_if(word != b"linear".as_slice(), ScriptWhy::Word),
    }
}

/// The number that a word means, or 0.
fn number_or_zero(word: &[u8]) -> u64
    ensures { result ≡ number_or_zero word.now }
{
    match read_number(word) {
        Some(n) => n,
        None => 0,
    }
}

/// The number after a key, or another one where it isn't given.
pub fn number_given(key: &[u8], otherwise: u64, words: &[u8]) -> u64
    ensures { result ≡ number_given key.now otherwise (words_between words.now) }
{
    match given(key, words) {
        Some(word) => number_or_zero(word),
        None => otherwise,
    }
}

/// A number, or 0 where it is above 4294967295.
fn in_32_bits(n: u64) -> u32
    ensures { result ≡ number_within 4294967295 n }
{
    if n <= 4_294_967_295 { n as u32 } else { 0 }
}

/// The number after a key, where it is given.
pub fn small_where(key: &[u8], words: &[u8]) -> Option<u32>
    ensures { result ≡ small_where key.now (words_between words.now) }
{
    let word = given(key, words)?;
    Some(in_32_bits(number_or_zero(word)))
}

/// The number after a key, or another one where it isn't given.
pub fn small_given(key: &[u8], otherwise: u32, words: &[u8]) -> u32
    ensures { result ≡ small_given key.now otherwise (words_between words.now) }
{
    in_32_bits(number_given(key, u64::from(otherwise), words))
}

/// The number after a key, or another one where it isn't given.
pub fn byte_given(key: &[u8], otherwise: u8, words: &[u8]) -> u8
    ensures { result ≡ byte_given key.now otherwise (words_between words.now) }
{
    let n = number_given(key, u64::from(otherwise), words);
    if n <= 255 { n as u8 } else { 0 }
}

/// The stop threshold, where it is given.
pub fn stop_given(words: &[u8]) -> Option<Stop>
    ensures { result ≡ stop_given (words_between words.now) }
{
    let word = given(b"stop", words)?;
    if word == b"never".as_slice() {
        return Some(Stop::Never);
    }
    Some(Stop::At(number_or_zero(word)))
}

/// How clients share the card.
pub fn share_given(words: &[u8]) -> Share
    ensures { result ≡ share_given (words_between words.now) }
{
    let Some(word) = given(b"share", words) else {
        return Share::Dmix;
    };
    if word == b"dshare".as_slice() {
        Share::Dshare
    } else {
        Share::Dmix
    }
}

/// A file, where there is one.
pub fn file_where(alloc: Global, word: Option<&[u8]>) -> Result<Option<FileName>, ScriptWhy>
    ensures { Gives (λ f. f) result (file_where (option_map (λ w. w.now) word.entry)) }
{
    match word {
        None => Ok(None),
        Some(word) => {
            let file = read_file(alloc, word)?;
            Ok(Some(file))
        }
    }
}

/// Why bindings are refused.
fn why_of(defect: Why) -> ScriptWhy
    ensures { result ≡ why_of defect }
{
    match defect {
        Why::BindingsEmpty => ScriptWhy::BindingsEmpty,
        Why::BindingsTooMany => ScriptWhy::BindingsTooMany,
        Why::BindingRange(channel) => ScriptWhy::BindingRange(channel),
        Why::BindingTwice(channel) => ScriptWhy::BindingTwice(channel),
        _ => ScriptWhy::BindingsEmpty,
    }
}

/// The bindings of a word on a card of so many channels, where there is one.
pub fn bindings_where(
    alloc: Global,
    channels: u8,
    word: Option<&[u8]>,
) -> Result<Option<Bindings>, ScriptWhy>
    ensures { Gives (λ b. b) result (bindings_where channels (option_map (λ w. w.now) word.entry)) }
{
    let Some(word) = word else {
        return Ok(None);
    };
    let numbers = read_numbers(alloc, word)?;
    match Bindings::read(numbers.as_slice(), channels) {
        Ok(bindings) => Ok(Some(bindings)),
        Err(defect) => Err(why_of(defect)),
    }
}
