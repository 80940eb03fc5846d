//! Whether the segments of a report can be.
ghost use Rattle.std.specs.Prelude.{◌≡◌, ◌≤◌, ◌<◌, ◌^◌, ◌+◌, ◌*◌, ◌/◌, length, not, option_map};
ghost use Rattle.std.specs.List.{position};
ghost use Rattle.lab_lines.specs.Script.{first_frame};
ghost use Rattle.lab_run.specs.Client.{frames_of};
ghost use Rattle.lab_check.specs.Segments.{is_bound, is_right_segment, is_segment_of, is_within};

use crate::channels::bound_by;
use crate::frames::{first_frame, frames_of};
use crate::sources::source_of;
use lab_lines::{CardLine, ClientLine, Script};
use snd_base::Segment;
use wav_io::Wav;

/// Whether a client's bindings name as many channels as its file has, all of which the card has.
fn is_bound(card: &CardLine, line: &ClientLine, wav: &Wav) -> bool
    ensures { result ≡ is_bound card.now line.now wav.now }
{
    u16::from(bound_by(line, wav).len()) == wav.channels && wav.channels <= u16::from(card.channels)
}

/// Whether a client with so many channels and frames has the samples of a segment, which has one and isn't before the card's
/// first frame.
fn is_within(card: &CardLine, segment: &Segment, channels: u16, frames: u64) -> bool
    ensures { result ≡ is_within card.now segment.now channels frames }
{
    let more = u64::from(segment.part > 0);
    (segment.whole > 0 || segment.part > 0)
        && u16::from(segment.part) < channels
        && first_frame(card) <= segment.card
        && segment.whole <= frames
        && segment.source <= frames - segment.whole
        && more <= frames - segment.whole - segment.source
}

/// Whether a segment of a report can be.
fn is_right_segment(script: &Script, wavs: &[Wav], client: u32, segment: &Segment) -> bool
    ensures { result ≡ is_right_segment script.now wavs.now (client, segment.now) }
{
    match source_of(script, wavs, client) {
        Some((line, wav)) => {
            is_bound(&script.card, line, wav)
                && is_within(&script.card, segment, wav.channels, frames_of(wav))
        }
        None => false,
    }
}

/// The place of the first segment that can't be.
pub(crate) fn wrong_segment(
    script: &Script,
    wavs: &[Wav],
    segments: &[(u32, Segment)],
) -> Option<usize>
    ensures { result ≡ position (λ segment. not (is_right_segment script.now wavs.now segment))
        segments.now }
{
    segments.iter().position(|(client, segment)| !is_right_segment(script, wavs, *client, segment))
}
