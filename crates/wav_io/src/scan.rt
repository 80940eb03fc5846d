//! The one machine under all readers: it goes through a file's chunks, in whatever pieces the bytes come.

ghost use Rattle.std.specs.Prelude.{◌≡◌, ◌≢◌, ◌+◌, ◌-◌, ◌<◌, ◌≤◌, ◌++◌, [], ℕ, List, length, take, None, Ok, Err, OnOk, IfOk, IfErr, IfSome, IfNone};
ghost use Rattle.wav_io.specs.declared.error.WavError.TheVariants.{Memory};
ghost use Rattle.wav_io.specs.declared.place.Place.TheVariants.{Opening, DataBody, Refused};
ghost use Rattle.wav_io.specs.Pieces.{GoesOn, IsSoundPlace, IsWalked, with_front};
ghost use Rattle.wav_io.specs.Formats.{IsFormat};
ghost use Rattle.wav_io.specs.Reading.{at_end, ended};
ghost use Rattle.wav_io.specs.Scans.{IsScan, to_come, part_bytes, GoesThrough, IsAfterData, FollowsData, refusal_of};

use crate::error::WavError;
use crate::format::{Depths, Format};
use crate::kept_bytes::Kept;
use crate::next_places::is_at;
use crate::place::Place;
use crate::steps::{format_body, head, opening};

const MOST: usize = 67_108_864;

/// How far a file is read.
#[derive(Drop)]
pub struct Scan {
    /// Where the next byte is.
    pub place: Place,
    /// Bytes before it that are still needed.
    pub kept: Kept,
    /// How many bytes came.
    pub seen: usize,
}

/// A part of a file's data, and its format.
#[derive(Clone, Copy)]
pub struct Part<'a> {
    pub format: Format,
    pub body: &'a [u8],
}

/// Why a file without data is refused, after a format or not.
fn without_data(format: Option<Format>) -> WavError
    ensures value { at_end (ended format) ≡ Err result }
    ensures refused { result ≢ Memory }
{
    match format {
        Some(_) => WavError::NoData,
        None => WavError::NoFormat,
    }
}

impl Scan {
    /// Before the first byte.
    pub fn new() -> Scan
        ensures { result ≡ record { place = Opening; kept = []; seen = 0 } }
    {
        Scan {
            place: Place::Opening,
            kept: Kept::new(),
            seen: 0,
        }
    }

    /// Goes on by a step, and gives the bytes that follow; `None` in the data and after a refusal.
    fn step<'a>(&mut self, depths: Depths, bytes: &'a [u8]) -> Option<&'a [u8]>
        requires place { IsSoundPlace self.old.place self.old.kept }
        requires some { 0 < length bytes.now }
        ensures goes_on { IfSome result (λ behind. GoesOn depths self.old.place self.old.kept
            bytes.now self.new.place self.new.kept behind.now) }
        ensures shorter { IfSome result (λ behind. length behind.now < length bytes.now) }
        ensures counted { self.new.seen ≡ self.old.seen }
        ensures none { IfNone result ((self.new ≡ self.old) × IsWalked self.old.place bytes.now) }
    {
        let (place, behind) = match self.place {
            Place::Opening => opening(&mut self.kept, bytes),
            Place::Head { format, skip } => head(&mut self.kept, format, skip, bytes),
            Place::FormatBody { missing, pad } => {
                format_body(&mut self.kept, depths, missing, pad, bytes)
            }
            Place::DataBody { .. } | Place::Refused(_) => return None,
        };
        self.place = place;
        Some(behind)
    }

    /// Goes on up to the data, to a refusal or to the end of the bytes, and gives the bytes that follow.
    fn walk<'a>(&mut self, depths: Depths, bytes: &'a [u8]) -> &'a [u8]
        requires place { IsSoundPlace self.old.place self.old.kept }
        ensures goes_on { GoesOn depths self.old.place self.old.kept bytes.now self.new.place
            self.new.kept result.now }
        ensures walked { IsWalked self.new.place result.now }
        ensures counted { self.new.seen ≡ self.old.seen }
    {
        let mut rest = bytes;
        while !rest.is_empty() {
            match self.step(depths, rest) {
                Some(behind) => rest = behind,
                None => return rest,
            }
        }
        rest
    }

    /// Goes on in the data.
    fn data<'a>(&mut self, format: Format, missing: usize, bytes: &'a [u8]) -> Part<'a>
        ensures place { self.new
            ≡ record self.old { place = DataBody format (missing - length bytes.now) } }
        ensures part { result.format ≡ format }
        ensures body { result.body.now ≡ take missing bytes.now }
    {
        let body = &bytes[..missing.min(bytes.len())];
        self.place = Place::DataBody {
            format,
            missing: missing - body.len(),
        };
        Part { format, body }
    }

    /// Goes on to the end of the bytes, and gives the part of them that is in the data.
    fn go<'a>(&mut self, depths: Depths, bytes: &'a [u8]) -> Option<Part<'a>>
        requires place { IsSoundPlace self.old.place self.old.kept }
        ensures { GoesThrough depths self.old bytes.now result self.new }
    {
        if let Place::DataBody { format, missing } = self.place {
            return Some(self.data(format, missing, bytes));
        }
        let rest = self.walk(depths, bytes);
        if let Place::DataBody { format, missing } = self.place {
            return Some(self.data(format, missing, rest));
        }
        None
    }

    /// Goes on to the end of a piece, and gives the part of it that is in the data. An error comes again with each further
    /// piece, and at the end.
    pub fn advance<'a>(
        &mut self,
        depths: Depths,
        piece: &'a [u8],
    ) -> Result<Option<Part<'a>>, WavError>
        requires { IsScan self.old }
        ensures scan { IsScan self.new }
        ensures ok { IfOk result (λ part. (more : List ℕ)
            → to_come depths self.old (piece.now ++ more)
            ≡ with_front (part_bytes part) (to_come depths self.new more)) }
        ensures err { IfErr result (λ e. (more : List ℕ)
            → to_come depths self.old (piece.now ++ more) ≡ Err e) }
        ensures refused { IfErr result (λ e. (self.new.place ≡ Refused e) × (e ≢ Memory)) }
        ensures behind { IfOk result (λ part. IsAfterData part self.new.place) }
        ensures no_refusal { OnOk result (refusal_of self.new.place ≡ None) }
        ensures follows { FollowsData self.old.place result }
    {
        if let Place::Refused(error) = self.place {
            return Err(error);
        }
        let (near, _) = piece.split_at(piece.len().min(MOST - self.seen));
        let part = self.go(depths, near);
        self.seen += near.len();
        if let Place::Refused(error) = self.place {
            return Err(error);
        }
        if near.len() < piece.len() {
            self.place = Place::Refused(WavError::TooLong);
            return Err(WavError::TooLong);
        }
        Ok(part)
    }

    /// The format of the file that ends here, or why it is refused.
    pub fn finish(&self, depths: Depths) -> Result<Format, WavError>
        requires { IsScan self.now }
        ensures ok { IfOk result (λ format. to_come depths self.now []
            ≡ Ok (record { format = format; body = [] })) }
        ensures err { IfErr result (λ e. to_come depths self.now [] ≡ Err e) }
        ensures in_order { IfOk result IsFormat }
        ensures refused { IfErr result (λ e. e ≢ Memory) }
        ensures place { IfOk result (λ format. (n : ℕ) × (self.now.place ≡ DataBody format n)) }
    {
        match self.place {
            Place::Opening if is_at(self.kept.as_slice(), 0, b"RIFF") => Err(WavError::NotWave),
            Place::Opening => Err(WavError::NotRiff),
            Place::Head { format, .. } => Err(without_data(format)),
            Place::FormatBody { .. } => Err(WavError::ShortFormat),
            Place::DataBody { format, .. } => Ok(format),
            Place::Refused(error) => Err(error),
        }
    }
}
