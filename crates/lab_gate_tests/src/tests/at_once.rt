//! Clients that run at the same time: gates of the tests' own let each go on only once the other one has got so far. A run that did
//! one after the other would wait in vain, and stop one of them.
use super::calls::{files_of, mono_of, run_gated};
use mix_core::{Gate, Pass, StepKind};
use std::sync::atomic::{AtomicU64, Ordering};
use std::test::Fail;

// How often a gate was asked: in all, for a first exchange, and for a further one.
#[derive(Drop)]
struct Asks {
    all: AtomicU64,
    exchanges: AtomicU64,
    further: AtomicU64,
}

// No asks yet.
fn no_asks() -> Asks {
    Asks {
        all: AtomicU64::new(0),
        exchanges: AtomicU64::new(0),
        further: AtomicU64::new(0),
    }
}

// A gate that counts its asks, and waits, before each step or before an exchange alone, until another count has got so far.
// It looks at that count so often at most, and then stops its actor.
#[derive(Clone, Copy)]
struct Waits<'a> {
    own: &'a Asks,
    other: &'a AtomicU64,
    wanted: u64,
    at_exchanges: bool,
    stopped: bool,
}

const MOST_LOOKS: u32 = 100_000_000;

impl Waits<'_> {
    // Counts an ask.
    fn count(&self, step: StepKind) {
        self.own.all.fetch_add(1, Ordering::SeqCst);
        match step {
            StepKind::Exchange => {
                self.own.exchanges.fetch_add(1, Ordering::SeqCst);
            }
            StepKind::Again => {
                self.own.further.fetch_add(1, Ordering::SeqCst);
            }
            StepKind::Position | StepKind::Look => {}
        }
    }

    // Whether the other count has got so far, now or after some looks.
    fn has_come(&self) -> bool {
        for _ in 0..MOST_LOOKS {
            if self.other.load(Ordering::SeqCst) >= self.wanted {
                return true;
            }
        }
        false
    }
}

impl Gate for Waits<'_> {
    ghost use Rattle.std.specs.Prelude.{⊤, if◌then◌else◌};

    ghost stops = { λ g. if g.stopped then 1 else 0 };

    ghost asked = { λ _ _ _ _. ⊤ };

    ghost asked_composes = { record { none = λ _. tt; joined = λ _ _ _ _ _ _ _ _. tt } };

    fn pass(&mut self, step: StepKind) -> Pass {
        self.count(step);
        let is_free = self.at_exchanges && step != StepKind::Exchange;
        if self.stopped || is_free || self.has_come() {
            return Pass::Go;
        }
        self.stopped = true;
        Pass::Stop
    }
}

// Two clients that write these numbers of frames in one phase, of which the card plays 128.
const BOTH_64: &str =
    "card channels 1 rate 48000 period 64 ring 256\nclient a a.wav\nclient b b.wav\nopen a\nopen b\nphase\na write 64\nb write 64\nend\nphase\ncard play 128\nend\n";

const ONE_AND_TWO: &str =
    "card channels 1 rate 48000 period 64 ring 256\nclient a a.wav\nclient b b.wav\nopen a\nopen b\nphase\na write 1\nb write 2\nend\nphase\ncard play 128\nend\n";

const WAVS: &[(&str, &[(u16, i16)])] = &[("a.wav", &[(64, 30000)]), ("b.wav", &[(64, 10000)])];

#[test]
fn two_clients_wait_for_each_other(rt: HostRuntime) -> Result<(), Fail> {
    let alloc = rt.alloc();
    let (a, b, rest) = (no_asks(), no_asks(), no_asks());
    let idle = Waits {
        own: &rest,
        other: &rest.all,
        wanted: 0,
        at_exchanges: false,
        stopped: false,
    };
    let mut gates = [idle; 128];
    gates[0] = Waits {
        own: &a,
        other: &b.all,
        wanted: 1,
        ..idle
    };
    gates[1] = Waits {
        own: &b,
        other: &a.all,
        wanted: 1,
        ..idle
    };
    let left = run_gated(&rt, alloc, files_of(alloc, BOTH_64, WAVS)?, &mut gates)?;
    let report =
        "dmixlab 1\n0 a open = ok PREPARED -\n0 b open = ok PREPARED -\n1 a write 64 = 64 RUNNING 0\n1 b write 64 = 64 RUNNING 0\n2 card play 128 = 128 RUNNING 128\nsegment a 0 64 64 0\nsegment b 0 64 64 0\nplayed 0 128\nend\n";
    assert!(rt; left.is_done(report, &mono_of(alloc, &[(64, 0), (64, 32767)])?));
    Ok(())
}

// b exchanges once a is about to, and a once b has: a finds that the word has changed, and exchanges again. At the fourth ask b
// has placed its first frame.
#[test]
fn a_lost_exchange_is_made_again(rt: HostRuntime) -> Result<(), Fail> {
    let alloc = rt.alloc();
    let (a, b, rest) = (no_asks(), no_asks(), no_asks());
    let idle = Waits {
        own: &rest,
        other: &rest.all,
        wanted: 0,
        at_exchanges: true,
        stopped: false,
    };
    let mut gates = [idle; 128];
    gates[0] = Waits {
        own: &a,
        other: &b.all,
        wanted: 4,
        ..idle
    };
    gates[1] = Waits {
        own: &b,
        other: &a.exchanges,
        wanted: 1,
        ..idle
    };
    let left = run_gated(&rt, alloc, files_of(alloc, ONE_AND_TWO, WAVS)?, &mut gates)?;
    let report =
        "dmixlab 1\n0 a open = ok PREPARED -\n0 b open = ok PREPARED -\n1 a write 1 = 1 RUNNING 0\n1 b write 2 = 2 RUNNING 0\n2 card play 128 = 128 RUNNING 128\nsegment a 0 64 1 0\nsegment b 0 64 2 0\nplayed 0 128\nend\n";
    assert!(rt;
        left.is_done(
            report,
            &mono_of(alloc, &[(64, 0), (1, 32767), (1, 10000), (62, 0)])?
        )
    );
    assert!(rt; a.further.load(Ordering::SeqCst) == 1);
    assert!(rt; b.further.load(Ordering::SeqCst) == 0);
    assert!(rt; a.all.load(Ordering::SeqCst) == 4);
    assert!(rt; b.all.load(Ordering::SeqCst) == 5);
    Ok(())
}
