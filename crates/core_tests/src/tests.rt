//! A worked value for what a clause defines, where neither a session nor a line of `parts` shows one.

mod callers;
mod refusals;
mod words;

use asound_conf::{ConfText, Group, Node, read_conf};
use hw_space::Config;
use mix_core::NeverStops;
use pcm_format::{Areas, Format, copy_frames, silence_frames};
use pcm_states::{Call, State};
use pcm_stream::{Direction, Status};
use plug_chain::{Plug, Table, Wide};
use ring_pointers::Pointers;
use snd_base::{Geometry, PcmError, Why};
use snoop_core::{Loaded, SnoopCore, SnoopPort, can_load};
use std::alloc::{AllocError, Global};
use std::process::Abort;
use sw_limits::{SwParams, boundary};

// The numbers of Linux's errno.h, beside those that the rows of the state table have.
#[test]
fn refusals_have_the_numbers_of_errno(rt: HostRuntime) {
    let busy = PcmError::Busy {
        until: None,
        seen: 0,
    };
    assert!(rt; PcmError::Invalid(Why::Config).code() == 22);
    assert!(rt; busy.code() == 16);
    assert!(rt; PcmError::LapEnd.code() == 75);
    assert!(rt; PcmError::Stopped.code() == 4);
    assert!(rt; PcmError::Memory.code() == 12);
}

// The numbers of alsa/pcm.h.
#[test]
fn states_directions_and_formats_have_the_numbers_of_alsa(rt: HostRuntime) {
    assert!(rt; State::Open.number() == 0);
    assert!(rt; State::Disconnected.number() == 8);
    assert!(rt; (Direction::Playback as u32) == 0);
    assert!(rt; (Direction::Capture as u32) == 1);
    assert!(rt; Format::S8.number() == 0);
    assert!(rt; Format::S16Be.number() == 3);
    assert!(rt; (Format::U8.bits(), Format::U8.silence()) == (8, 128));
}

// A stopped stream refuses each call so, also where the card is gone. A capture stream is drained in no state, and what a call
// finds later doesn't refuse it beforehand.
#[test]
fn a_stream_admits_a_call_by_its_state(rt: HostRuntime) {
    let running = Status::at_open().in_state(State::Running);
    let gone = running.in_state(State::Disconnected);
    assert!(rt; gone.stop().admit(Direction::Capture, Call::Sync) == Err(PcmError::Stopped));
    assert!(rt; gone.admit(Direction::Capture, Call::Drain) == Err(PcmError::NoDevice));
    assert!(rt; running.admit(Direction::Capture, Call::Drain) == Err(PcmError::BadState));
    assert!(rt; running.admit(Direction::Capture, Call::Pause) == Err(PcmError::NotSupported));
    assert!(rt; running.admit(Direction::Playback, Call::Drain) == Ok(()));
    let prepared = running.in_state(State::Prepared);
    assert!(rt; prepared.admit(Direction::Playback, Call::Start) == Ok(()));
}

// From ten frames before the boundary on, where 64 frames further are 54 behind it.
#[test]
fn pointers_have_their_difference_across_the_boundary(rt: HostRuntime) {
    let edge = 4611686018427387904;
    let mut pointers = Pointers::at(256, edge, edge - 10, edge - 10);
    pointers.forward_appl(64);
    assert!(rt; (pointers.appl(), pointers.avail_playback()) == (54, 192));
    pointers.forward_hw(64);
    assert!(rt; (pointers.hw(), pointers.avail_playback()) == (54, 256));
    assert!(rt; pointers.avail_capture() == 0);
}

// 256 * 2^54 is 2^62, and 6000 * 2^50 with 6000 more is the last double below 2^63. Its defects are looked for in this order.
#[test]
fn thresholds_reach_to_the_boundary(rt: HostRuntime) {
    let config = Config {
        channels: 2,
        rate: 48000,
        period_size: 64,
        buffer_size: 256,
        periods: 4,
    };
    let edge = 4611686018427387904;
    assert!(rt; (boundary(256), boundary(6000)) == (edge, 6755399441055744000));
    let mut params = SwParams::defaults(&config);
    params.start_threshold = edge;
    params.stop_threshold = edge;
    assert!(rt; params.check(&config) == Ok(()));
    params.stop_threshold = edge + 1;
    assert!(rt; params.check(&config) == Err(Why::StopRange));
    params.start_threshold = 0;
    assert!(rt; params.check(&config) == Err(Why::StartRange));
    params.avail_min = 0;
    assert!(rt; params.check(&config) == Err(Why::AvailMinZero));
}

// The samples of bytes that a plug takes in two pieces.
fn converted(alloc: Global, mut plug: Plug, pieces: [&[u8]; 2]) -> Result<Vec<i16>, PcmError> {
    let mut out = Vec::new(alloc);
    plug.feed(pieces[0], &mut out)?;
    plug.feed(pieces[1], &mut out)?;
    plug.finish(&mut out)?;
    Ok(out)
}

// Two frames of three channels: 127 * 256 * (1 + 1 - 1) is 32512, and 127 * 256 * 2 - 256 is past 32767.
#[test]
fn a_sum_of_channels_is_saturated_once(rt: HostRuntime) -> Result<(), PcmError> {
    let table = Table::new(rt.alloc(), 3, 1, &[65536, 65536, -65536])?;
    let plug = Plug::new(Wide::S8, table, 8000, 8000);
    let out = converted(rt.alloc(), plug, [&[127, 127, 127, 127], &[127, 1]])?;
    assert!(rt; out.as_slice() == [32512, 32767].as_slice());
    Ok(())
}

// Two big-endian frames of two channels, 3 and -4, 0 and 2: half of -1 is rounded down to -1.
#[test]
fn the_high_byte_comes_first(rt: HostRuntime) -> Result<(), PcmError> {
    let table = Table::usual(rt.alloc(), 2, 1)?;
    let plug = Plug::new(Wide::S16Be, table, 8000, 8000);
    let out = converted(rt.alloc(), plug, [&[0, 3, 255], &[252, 0, 0, 0, 2]])?;
    assert!(rt; out.as_slice() == [-1, 1].as_slice());
    Ok(())
}

// Two frames of two channels, from a buffer frame by frame into one channel by channel.
#[test]
#[tactic(auto, using(pcm_format::specs::PlaceLaws::HoldsRange_whole))]
fn frames_are_copied_between_layouts(rt: HostRuntime) {
    let from = Areas {
        channels: 2,
        frames: 2,
        interleaved: true,
    };
    let to = Areas {
        interleaved: false,
        ..from
    };
    let mut samples = [0i16; 4];
    copy_frames(&[1, 2, 3, 4], &from, 0, &mut samples, &to, 0, 2);
    assert!(rt; samples == [1, 3, 2, 4]);
    silence_frames(&mut samples, &to, 1, 1);
    assert!(rt; samples == [1, 0, 2, 0]);
}

// Stores a frame of a core with one channel, and says whether that was done.
fn store(core: &mut SnoopCore, sample: i16) -> bool {
    core.geometry().channels == 1 && core.store(&[sample]).is_ok()
}

// Loads a frame of such a core where a reader may, and gives nothing elsewhere.
fn load(core: &mut SnoopCore, frame: u64) -> Option<(Loaded, i16)> {
    let mut out = [0i16];
    let mut turn = core.turn();
    if !can_load(&turn, frame, &out) {
        return None;
    }
    match turn.load_frame(&mut NeverStops, frame, &mut out) {
        Ok(loaded) => Some((loaded, out[0])),
        Err(_) => None,
    }
}

// A frame is stored over frame 0, whose slot it has, before it is published, and leaves frame 1. Its word has lap 2, one more
// than its own, and the sample 7: 2 * 4294967296 + 32768 + 7.
#[test]
fn a_frame_is_overtaken_by_the_one_a_lap_later(rt: HostRuntime) -> Result<(), PcmError> {
    let geometry = Geometry {
        frames: 64,
        channels: 1,
        first_lap: 0,
    };
    let mut core = SnoopCore::new(rt.alloc(), geometry)?;
    for number in 0..64_u8 {
        assert!(rt; store(&mut core, number as i16));
    }
    core.publish();
    assert!(rt; store(&mut core, 7));
    let overtaken = Loaded::Overtaken {
        channel: 0,
        seen: 8589967367,
    };
    assert!(rt; load(&mut core, 0) == Some((overtaken, 0)));
    assert!(rt; load(&mut core, 1) == Some((Loaded::Got, 1)));
    Ok(())
}

// Appends a node in a group: its name, and its text or `{}`.
fn append_node(line: &mut Vec<u8>, name: ConfText<'_>, node: Node<'_>) -> Result<(), AllocError> {
    match name {
        ConfText::Bytes(bytes) => line.extend_from_slice(bytes)?,
        ConfText::Number(number) => line.push(b'0' + (number % 10) as u8)?,
    }
    line.push(b' ')?;
    let text = match node {
        Node::Text(text) => text,
        Node::Group(_) => b"{}".as_slice(),
    };
    line.extend_from_slice(text)?;
    line.extend_from_slice(b";")
}

// The nodes in a group.
fn nodes_of(alloc: Global, group: Group<'_>) -> Result<Vec<u8>, AllocError> {
    let mut line = Vec::new(alloc);
    for (name, node) in group.items() {
        append_node(&mut line, name, node)?;
    }
    Ok(line)
}

// Whether the nodes in a group are these: not where memory runs out.
fn has_nodes(alloc: Global, group: Group<'_>, nodes: &[u8]) -> bool {
    match nodes_of(alloc, group) {
        Ok(line) => line.as_slice() == nodes,
        Err(_) => false,
    }
}

// Goes through the groups of a configuration.
fn walk(rt: &impl Abort, alloc: Global, root: Group<'_>) {
    assert!(rt; has_nodes(alloc, root, b"a {};f {};"));
    let Some(Node::Group(first)) = root.get(b"a") else {
        panic!(rt; "no group a")
    };
    let Some(Node::Group(list)) = root.get(b"f") else {
        panic!(rt; "no group f")
    };
    assert!(rt; has_nodes(alloc, first, b"b d;e 1;"));
    assert!(rt; has_nodes(alloc, list, b"0 x;1 y;"));
    assert!(rt; list.len() == 2);
    assert!(rt; root.get(b"b").is_none());
}

// The values of `[ ]` are named by their numbers, and a text that is put again stays in its place.
#[test]
fn a_configuration_is_walked(rt: HostRuntime) {
    match read_conf(rt.alloc(), b"a { b c e 1 b d } f [ x y ]") {
        Ok(conf) => walk(&rt, rt.alloc(), conf.root()),
        Err(_) => panic!(rt; "it isn't read"),
    }
}
