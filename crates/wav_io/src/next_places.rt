//! Where the bytes of the opening, of a chunk's head and of the format chunk lead.

ghost use Rattle.std.specs.Prelude.{◌≡◌, ◌≢◌, ◌+◌, ◌≤◌, ◌++◌, ℕ, List, [], length, take, drop, IfSome, IfOk, IfErr, IsTrue};
ghost use Rattle.std.specs.Int.{w16, w32};
ghost use Rattle.std.specs.Str.{bytes_eq};
ghost use Rattle.wav_io.specs.declared.error.WavError.TheVariants.{Memory};
ghost use Rattle.wav_io.specs.declared.format.Depths.{Depths};
ghost use Rattle.wav_io.specs.Chunks.{chunks};
ghost use Rattle.wav_io.specs.Formats.{IsFormat, terms_of, format_of};
ghost use Rattle.wav_io.specs.Pieces.{LeadsTo, chunk_of_size, bytes_after};
ghost use Rattle.wav_io.specs.Reading.{scan_of, found_in, finding_after, verdict_of_format, format_chunk};

use crate::error::WavError;
use crate::fields::{u16_at, u32_at};
use crate::format::{Depths, Format};
use crate::place::Place;

#[tactic(auto, unfolding(crate::specs::Formats::terms_of))]
fn read_terms(depths: Depths, body: &[u8]) -> Result<Format, WavError>
    requires { 16 ≤ length body.now }
    ensures value { result ≡ terms_of depths body.now }
    ensures in_order { IfOk result IsFormat }
    ensures refused { IfErr result (λ e. e ≢ Memory) }
{
    let channels = u16_at(body, 2);
    if channels < 1 || 8 < channels {
        return Err(WavError::Channels(channels));
    }
    let rate = u32_at(body, 4);
    if rate == 0 {
        return Err(WavError::RateZero);
    }
    let bits = u16_at(body, 14);
    if depths.accepts(bits) {
        Ok(Format {
            channels,
            rate,
            bits,
        })
    } else {
        Err(WavError::Bits(bits))
    }
}

#[tactic(auto, unfolding(crate::specs::Formats::format_of, crate::specs::Formats::extensible_of))]
fn read_format(depths: Depths, body: &[u8]) -> Result<Format, WavError>
    requires { 16 ≤ length body.now }
    ensures value { result ≡ format_of depths body.now }
    ensures in_order { IfOk result IsFormat }
    ensures refused { IfErr result (λ e. e ≢ Memory) }
{
    let tag = u16_at(body, 0);
    if tag == 1 {
        return read_terms(depths, body);
    }
    if tag != 0xfffe {
        return Err(WavError::Tag(tag));
    }
    if body.len() < 40 {
        return Err(WavError::ShortFormat);
    }
    let extended = u16_at(body, 24);
    if extended == 1 {
        read_terms(depths, body)
    } else {
        Err(WavError::Tag(extended))
    }
}

/// The place after the body of a format chunk, of which these are the first 40 bytes or all.
pub fn after_format(depths: Depths, pad: usize, body: &[u8]) -> Place
    requires { 16 ≤ length body.now }
    ensures { LeadsTo depths result (λ more.
        finding_after (verdict_of_format (format_of depths body.now))
        (λ f. scan_of depths f (chunks (drop pad more)))) }
{
    match read_format(depths, body) {
        Ok(format) => Place::Head {
            format: Some(format),
            skip: pad,
        },
        Err(error) => Place::Refused(error),
    }
}

/// The place after the head of a format chunk with a body of this size, after a format or not.
fn after_format_head(format: Option<Format>, size: usize) -> Place
    ensures { (depths : Depths) (name : List ℕ) → LeadsTo depths result
        (λ more. finding_after (format_chunk depths format (chunk_of_size name size more))
        (λ f. scan_of depths f (chunks (bytes_after size more)))) }
{
    if format.is_some() {
        return Place::Refused(WavError::FormatTwice);
    }
    if size < 16 {
        return Place::Refused(WavError::ShortFormat);
    }
    Place::FormatBody {
        missing: size,
        pad: size % 2,
    }
}

/// The place after a chunk's head of eight bytes, after a format or not.
pub fn after_head(format: Option<Format>, head: &[u8]) -> Place
    requires in_order { IfSome format IsFormat }
    requires eight { length head.now ≡ 8 }
    ensures { (depths : Depths)
        → LeadsTo depths result (λ more. scan_of depths format (chunks (head.now ++ more))) }
{
    let size = u32_at(head, 4) as usize;
    let name = &head[..4];
    if name == b"fmt ".as_slice() {
        return after_format_head(format, size);
    }
    if name == b"data".as_slice() {
        return match format {
            Some(format) => Place::DataBody {
                format,
                missing: size,
            },
            None => Place::Refused(WavError::NoFormat),
        };
    }
    Place::Head {
        format,
        skip: size + size % 2,
    }
}

/// Whether these four bytes are at a place.
pub fn is_at(bytes: &[u8], place: usize, name: &[u8]) -> bool
    requires near { place ≤ 8 }
    requires four { length name.now ≡ 4 }
    ensures { result ≡ bytes_eq (take 4 (drop place bytes.now)) name.now }
{
    if bytes.len() < place + 4 {
        return false;
    }
    &bytes[place..place + 4] == name
}

/// The place after the first 12 bytes of a file.
pub fn after_opening(bytes: &[u8]) -> Place
    requires { length bytes.now ≡ 12 }
    ensures { (depths : Depths)
        → LeadsTo depths result (λ more. found_in depths (bytes.now ++ more)) }
{
    if !is_at(bytes, 0, b"RIFF") {
        return Place::Refused(WavError::NotRiff);
    }
    if !is_at(bytes, 8, b"WAVE") {
        return Place::Refused(WavError::NotWave);
    }
    Place::Head {
        format: None,
        skip: 0,
    }
}
