//! The segments of a client, with its number.
ghost use Rattle.std.specs.Prelude.{◌≡◌, ◌≤◌, ◌++◌, length, map, vec_capacity};
ghost use Rattle.std.specs.Option.{option_to_list};
ghost use Rattle.lab_run.specs.Client.{stretch_of};
ghost use Rattle.lab_actors.specs.Room.{HasSpace};

use dmix_client::Client;
use snd_base::Segment;

/// The segment of a client's present stretch, where it has a sample.
pub(crate) fn present_segment(client: &Client) -> Option<Segment>
    ensures { option_to_list result ≡ stretch_of client.now.stream }
{
    let segment = client.segment();
    if segment.whole == 0 && segment.part == 0 {
        None
    } else {
        Some(segment)
    }
}

/// Appends segments, each with a client's number. The caller has room for them.
pub(crate) fn push_segments(all: &mut Vec<(u32, Segment)>, number: u32, segments: &[Segment])
    requires { HasSpace (length segments.now) all.old }
    ensures segments { all.new.items ≡ all.old.items ++ map (λ s. (number, s)) segments.now }
    ensures room { vec_capacity all.old ≤ vec_capacity all.new }
{
    for segment in segments {
        all.push((number, *segment)).unwrap();
    }
}

/// Appends a segment, if there is one. The caller has room for it.
pub(crate) fn push_segment(all: &mut Vec<(u32, Segment)>, number: u32, segment: Option<Segment>)
    requires { HasSpace (length (option_to_list segment)) all.old }
    ensures segments { all.new.items
        ≡ all.old.items ++ map (λ s. (number, s)) (option_to_list segment) }
    ensures room { vec_capacity all.old ≤ vec_capacity all.new }
{
    if let Some(segment) = segment {
        all.push((number, segment)).unwrap();
    }
}
