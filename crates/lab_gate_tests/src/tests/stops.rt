//! A client or reader that is stopped before each of its steps by the gate that is handed in.
use super::calls::{STEREO, call_gated, files_of, mono_of, run_gated, wav_around};
use mix_core::{Gate, Pass, StepKind};
use std::alloc::{AllocError, Global};
use std::marker::Sync;
use std::test::Fail;
use std::thread::Threads;

// The steps that a client's write of 64 stereo frames makes: one load, and two for each of 128 samples.
const ALL: u32 = 257;

// How many samples were placed in so many steps: after the load of the position each takes two.
fn samples_placed(steps: u32) -> u32 {
    steps.min(ALL).saturating_sub(1) / 2
}

// The report where client a's steps are so many.
fn report_of_steps(alloc: Global, steps: u32) -> Result<String, AllocError> {
    let mut text = String::new(alloc);
    text.push_str("dmixlab 1\n0 a open = ok PREPARED -\n0 b open = ok PREPARED -\n")?;
    text.push_str(if steps == 0 {
        "1 a write 64 = stopped PREPARED -\n"
    } else if steps < ALL {
        "1 a write 64 = stopped RUNNING 0\n"
    } else {
        "1 a write 64 = 64 RUNNING 0\n"
    })?;
    text.push_str("2 b write 64 = 64 RUNNING 0\n3 card play 128 = 128 RUNNING 128\n")?;
    let samples = samples_placed(steps);
    if samples > 0 {
        writeln!(text, "segment a 0 64 {} {}", samples / 2, samples % 2)?;
    }
    text.push_str("segment b 0 64 64 0\nplayed 0 128\nend\n")?;
    Ok(text)
}

// What is played where so many of client a's samples were placed: 30000 + 10000 and -30000 - 10000 are saturated.
fn played_with(alloc: Global, samples: u32) -> Result<Vec<u8>, AllocError> {
    let mut played = Vec::new(alloc);
    for _ in 0..128u32 {
        played.push(0i16)?;
    }
    for number in 0..128u32 {
        played.push(match (number < samples, number % 2) {
            (true, 0) => 32767,
            (true, _) => -32768,
            (false, 0) => 10000,
            (false, _) => -10000,
        })?;
    }
    wav_around(alloc, STEREO, &played)
}

// A run in which a and then b write 64 stereo frames.
const BOTH: &str =
    "card channels 2 rate 48000 period 64 ring 256\nclient a a.wav\nclient b b.wav\nopen a\nopen b\nphase\na write 64\nend\nphase\nb write 64\nend\nphase\ncard play 128\nend\n";

// Its files.
fn files_of_both(alloc: Global) -> Result<Vec<(Vec<u8>, Vec<u8>)>, AllocError> {
    let mut files = files_of(alloc, BOTH, &[])?;
    for (name, sample) in [("a.wav", 30000i16), ("b.wav", 10000i16)] {
        let mut samples = Vec::new(alloc);
        for _ in 0..64u32 {
            samples.push(sample)?;
            samples.push(sample.wrapping_neg())?;
        }
        let file = wav_around(alloc, STEREO, &samples)?;
        files.push((Vec::from_slice(alloc, name.as_bytes())?, file))?;
    }
    Ok(files)
}

// A gate that lets some steps pass, and stops all that follow.
#[derive(Clone, Copy)]
struct StopsAfter {
    left: u32,
    stops: u32,
}

impl Gate for StopsAfter {
    ghost use Rattle.std.specs.Prelude.{⊤};

    ghost stops = { λ g. g.stops };

    ghost asked = { λ _ _ _ _. ⊤ };

    ghost asked_composes = { record { none = λ _. tt; joined = λ _ _ _ _ _ _ _ _. tt } };

    fn pass(&mut self, _step: StepKind) -> Pass {
        if self.left > 0 || self.stops == u32::MAX {
            self.left = self.left.saturating_sub(1);
            return Pass::Go;
        }
        self.stops += 1;
        Pass::Stop
    }
}

// The gate that lets all steps of a test pass.
const NEVER: StopsAfter = StopsAfter {
    left: 1_000_000,
    stops: 0,
};

// Whether a run whose client a may make so many steps leaves what it placed by then, and whether no other client was asked of its gate.
fn is_stopped_after<R: Threads + Sync>(
    rt: &R,
    alloc: Global,
    steps: u32,
) -> Result<bool, AllocError> {
    let mut gates = [NEVER; 128];
    gates[0].left = steps;
    let left = run_gated(rt, alloc, files_of_both(alloc)?, &mut gates)?;
    let report = report_of_steps(alloc, steps)?;
    let played = played_with(alloc, samples_placed(steps))?;
    let stops = if steps < ALL { 1 } else { 0 };
    Ok(left.is_done(&report, &played) && gates[0].stops == stops && gates[1].stops == 0)
}

// A gate of a client stops it before any of its steps.
#[test]
fn a_gate_stops_its_client_alone(rt: HostRuntime) -> Result<(), Fail> {
    for steps in 0..=ALL {
        assert!(rt; is_stopped_after(&rt, rt.alloc(), steps)?, "{steps}");
    }
    Ok(())
}

// Two readers of what the card captured. The second one's start, its sync and the loads of two frames pass, and its read stops.
const READERS: &str =
    "card channels 1 rate 48000 period 64 ring 256 capture c.wav\nreader r\nreader q\nopen r\nopen q\nphase\nr start\nq start\nend\nphase\ncard play 4\nend\nphase\nr read 4\nq read 4\nq sync\nend\nopen q\n";

const READERS_REPORT: &str =
    "dmixlab 1\n0 r open = ok PREPARED -\n0 q open = ok PREPARED -\n1 r start = ok RUNNING 0\n1 q start = ok RUNNING 0\n2 card play 4 = 4 RUNNING 4\n3 r read 4 = 4 RUNNING 4\n3 q read 4 = stopped RUNNING 4\n3 q sync = stopped RUNNING 4\n3 q open = ok PREPARED -\nrun r 0 4\nplayed 0 4\nend\n";

// The gates of readers are after the 64 of clients.
#[test]
fn a_gate_stops_its_reader_alone(rt: HostRuntime) -> Result<(), Fail> {
    let alloc = rt.alloc();
    let mut gates = [NEVER; 128];
    gates[65].left = 4;
    let files = files_of(alloc, READERS, &[("c.wav", &[(3, 7), (1, 8)])])?;
    let left = run_gated(&rt, alloc, files, &mut gates)?;
    assert!(rt; left.is_done(READERS_REPORT, &mono_of(alloc, &[(4, 0)])?));
    assert!(rt; left.held(b"o.r.wav") == mono_of(alloc, &[(3, 7), (1, 8)])?.as_slice());
    assert!(rt; left.held(b"o.q.wav") == mono_of(alloc, &[])?.as_slice());
    assert!(rt; gates[65].stops == 1);
    Ok(())
}

// A workload of two clients and one turn, in which they write 65 and 66 frames and then the card plays 64. The first client is stopped before its first step.
const MADE_REPORT: &str =
    "dmixlab 1\n0 c0 open = ok PREPARED -\n0 c1 open = ok PREPARED -\n1 c0 write 65 = stopped PREPARED -\n1 c1 write 66 = 66 RUNNING 0\n2 card play 64 = 64 RUNNING 64\nsegment c1 0 64 66 0\nplayed 0 64\nend\n";

// A gate of a client of a workload stops it. What the card played is before both clients' frames.
#[test]
fn a_gate_stops_a_client_of_a_workload(rt: HostRuntime) -> Result<(), Fail> {
    let alloc = rt.alloc();
    let mut gates = [NEVER; 128];
    gates[0].left = 0;
    let left = call_gated(
        &rt,
        alloc,
        &["make", "7", "2", "1"],
        Vec::new(alloc),
        &mut gates,
    )?;
    let silence = wav_around(alloc, STEREO, &[0i16; 128])?;
    assert!(rt; left.is_ok());
    assert!(rt; left.held(b"made.report") == MADE_REPORT.as_bytes());
    assert!(rt; left.held(b"made.wav") == silence.as_slice());
    assert!(rt; gates[0].stops == 1 && gates[1].stops == 0);
    Ok(())
}
