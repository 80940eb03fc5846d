//! The steps of a reader through the chunks of a file.

ghost use Rattle.std.specs.Prelude.{◌<◌, length};
ghost use Rattle.wav_io.specs.declared.format.Depths.{Depths};
ghost use Rattle.wav_io.specs.declared.place.Place.TheVariants.{Opening, Head, FormatBody};
ghost use Rattle.wav_io.specs.Pieces.{GoesOn, IsSoundPlace};

use crate::format::{Depths, Format};
use crate::kept_bytes::Kept;
use crate::next_places::{after_format, after_head, after_opening};
use crate::place::Place;

/// Goes on in the 12 bytes before the first chunk, and gives the bytes that follow.
pub fn opening<'a>(kept: &mut Kept, bytes: &'a [u8]) -> (Place, &'a [u8])
    requires place { IsSoundPlace Opening kept.old }
    requires some { 0 < length bytes.now }
    ensures goes_on { (depths : Depths)
        → GoesOn depths Opening kept.old bytes.now result.0 kept.new result.1.now }
    ensures shorter { length result.1.now < length bytes.now }
{
    let behind = kept.fill(12, bytes);
    if kept.len() < 12 {
        return (Place::Opening, behind);
    }
    let place = after_opening(kept.as_slice());
    kept.clear();
    (place, behind)
}

/// Goes on before a chunk's head or in it, and gives the bytes that follow.
pub fn head<'a>(
    kept: &mut Kept,
    format: Option<Format>,
    skip: usize,
    bytes: &'a [u8],
) -> (Place, &'a [u8])
    requires place { IsSoundPlace (Head format skip) kept.old }
    requires some { 0 < length bytes.now }
    ensures goes_on { (depths : Depths)
        → GoesOn depths (Head format skip) kept.old bytes.now result.0 kept.new result.1.now }
    ensures shorter { length result.1.now < length bytes.now }
{
    if skip > 0 {
        let gone = skip.min(bytes.len());
        let (_, behind) = bytes.split_at(gone);
        let place = Place::Head {
            format,
            skip: skip - gone,
        };
        return (place, behind);
    }
    let behind = kept.fill(8, bytes);
    if kept.len() < 8 {
        return (Place::Head { format, skip: 0 }, behind);
    }
    let place = after_head(format, kept.as_slice());
    kept.clear();
    (place, behind)
}

/// Goes on in the body of a format chunk, and gives the bytes that follow.
pub fn format_body<'a>(
    kept: &mut Kept,
    depths: Depths,
    missing: usize,
    pad: usize,
    bytes: &'a [u8],
) -> (Place, &'a [u8])
    requires place { IsSoundPlace (FormatBody missing pad) kept.old }
    requires some { 0 < length bytes.now }
    ensures goes_on { GoesOn depths (FormatBody missing pad) kept.old bytes.now result.0 kept.new
        result.1.now }
    ensures shorter { length result.1.now < length bytes.now }
{
    let (body, behind) = bytes.split_at(missing.min(bytes.len()));
    kept.fill(40, body);
    if body.len() < missing {
        let place = Place::FormatBody {
            missing: missing - body.len(),
            pad,
        };
        return (place, behind);
    }
    let place = after_format(depths, pad, kept.as_slice());
    kept.clear();
    (place, behind)
}
