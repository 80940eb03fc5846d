//! Each caller of the library once, where there is memory, with values worked out by hand, and the calls that a client or a reader
//! makes by no line of a script.
use bindings::Bindings;
use dmix_client::Client;
use dsnoop_client::Reader;
use examples::{mix_two, read_pieces, sum_in_threads};
use hw_space::Config;
use mix_core::{Core, Taken};
use pcm_states::State;
use snd_base::{Geometry, PcmError, Segment, Why};
use snoop_core::SnoopCore;
use std::alloc::Global;
use std::process::Abort;
use wav_io::WavError;

const MONO_RING: Geometry = Geometry {
    frames: 64,
    channels: 1,
    first_lap: 0,
};

const MONO: Config = Config {
    channels: 1,
    rate: 48000,
    period_size: 16,
    buffer_size: 64,
    periods: 4,
};

/// The segment of a first stretch from the card's first frame on.
fn from_start(frames: u64) -> Segment {
    Segment {
        source: 0,
        card: 0,
        whole: frames,
        part: 0,
    }
}

/// What is taken of a channel of its own.
fn taken(frame: u64, value: i16) -> Taken {
    Taken {
        frame,
        channel: 0,
        value,
    }
}

// Both begin at frame 0. 40000 is past the greatest sample, and -60000 before the least one.
#[test]
fn what_two_clients_placed_is_summed_and_saturated(rt: HostRuntime) -> Result<(), PcmError> {
    let first = [1000i16, 20000, -30000];
    let second = [234i16, 20000, -30000, 7];
    let mixed = mix_two(rt.alloc(), MONO_RING, MONO, &first, &second, 5)?;
    let wanted = [
        taken(0, 1234),
        taken(1, 32767),
        taken(2, -32768),
        taken(3, 7),
        taken(4, 0),
    ];
    assert!(rt; mixed.taken.as_slice() == wanted.as_slice());
    assert!(rt; mixed.first == from_start(3));
    assert!(rt; mixed.second == from_start(4));
    Ok(())
}

#[test]
fn a_configuration_that_does_not_fit_is_refused(rt: HostRuntime) {
    let stereo = Config {
        channels: 2,
        ..MONO
    };
    let refused = mix_two(rt.alloc(), MONO_RING, stereo, &[], &[], 1).err();
    assert!(rt; refused == Some(PcmError::Invalid(Why::Config)));
}

#[test]
fn two_threads_add_to_one_word(rt: HostRuntime) {
    assert!(rt; sum_in_threads(&rt, rt.alloc(), -5, 7) == Ok(2));
    assert!(rt; sum_in_threads(&rt, rt.alloc(), 20000, 15000) == Ok(32767));
}

/// The canonical mono file of the samples 1 and -2 at 48000 Hz.
const FILE: &[u8] = &[
    0x52, 0x49, 0x46, 0x46, 0x28, 0x00, 0x00, 0x00, 0x57, 0x41, 0x56, 0x45, 0x66, 0x6d, 0x74, 0x20,
    0x10, 0x00, 0x00, 0x00, 0x01, 0x00, 0x01, 0x00, 0x80, 0xbb, 0x00, 0x00, 0x00, 0x77, 0x01, 0x00,
    0x02, 0x00, 0x10, 0x00, 0x64, 0x61, 0x74, 0x61, 0x04, 0x00, 0x00, 0x00, 0x01, 0x00, 0xfe, 0xff,
];

// Whether these pieces are a file of the samples 1 and -2 in mono at 48000 Hz.
fn is_read(alloc: Global, pieces: &[&[u8]]) -> bool {
    match read_pieces(alloc, pieces) {
        Ok(wav) => {
            wav.channels == 1
                && wav.rate == 48000
                && wav.samples.as_slice() == [1i16, -2].as_slice()
        }
        Err(_) => false,
    }
}

#[test]
fn a_file_in_pieces_is_the_whole_file(rt: HostRuntime) {
    assert!(rt; is_read(rt.alloc(), &[&FILE[..3], &FILE[3..45], &[], &FILE[45..]]));
    let refused = read_pieces(rt.alloc(), &[b"RI", b"FX"]).err();
    assert!(rt; refused == Some(WavError::NotRiff));
}

// Frees a client that is configured.
fn free_client(rt: &impl Abort, client: &mut Client, core: &mut Core) {
    assert!(rt; client.config() == Some(MONO));
    assert!(rt; core.members() > 0);
    assert!(rt; client.can_use(&core.turn(0)));
    assert!(rt; client.hw_free().is_ok());
    assert!(rt; client.state() == State::Open);
    assert!(rt; client.config().is_none());
}

// The calls that no line of a script makes, each once: what is set up is configured until it is freed.
#[test]
fn a_client_gives_its_configuration_up(rt: HostRuntime) -> Result<(), PcmError> {
    let mut core = Core::new(rt.alloc(), MONO_RING, 1)?;
    let mut client = Client::new(rt.alloc(), MONO_RING, 0, 0);
    assert!(rt; client.config().is_none());
    let done = client.hw_params(rt.alloc(), MONO, Bindings::identity(1));
    assert!(rt; done.is_ok());
    free_client(&rt, &mut client, &mut core);
    Ok(())
}

// Configures a reader, whose room for frames is any number of samples of one channel, and frees it.
fn configure_reader(rt: &impl Abort, alloc: Global, reader: &mut Reader, core: &mut SnoopCore) {
    assert!(rt; reader.config().is_none());
    let bindings = Bindings::identity(1);
    assert!(rt; reader.can_run_with(&MONO, &bindings));
    assert!(rt; reader.hw_params(alloc, MONO, bindings).is_ok());
    assert!(rt; reader.config() == Some(MONO));
    assert!(rt; reader.can_use(&core.turn()));
    assert!(rt; reader.can_read(&[0; 5]));
    assert!(rt; reader.hw_free().is_ok());
    assert!(rt; reader.state() == State::Open);
    assert!(rt; reader.config().is_none());
}

// The same of a reader.
#[test]
fn a_reader_gives_its_configuration_up(rt: HostRuntime) -> Result<(), PcmError> {
    let mut core = SnoopCore::new(rt.alloc(), MONO_RING)?;
    let mut reader = Reader::new(rt.alloc(), MONO_RING);
    configure_reader(&rt, rt.alloc(), &mut reader, &mut core);
    Ok(())
}
