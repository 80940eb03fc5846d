//! The port through which a reader loads the frames that a card captured.
ghost use Rattle.std.specs.Prelude.{◌≡◌, ℕ, ◌<◌, ◌≤◌, List, [], ◌∷◌, Option, Some, IfErr, length};
ghost use Rattle.snd_base.specs.Places.{IsWithin, first_frame};
ghost use Rattle.snd_base.specs.Relations.{Composes};
ghost use Rattle.mix_core.specs.declared.port.Position.{Position};
ghost use Rattle.mix_core.specs.Port.{AreRisingFrom, last_frame, load_of};
ghost use Rattle.snoop_core.specs.declared.port.Frame.{Frame};
ghost use Rattle.snoop_core.specs.declared.port.Got.{Got};
ghost use Rattle.snoop_core.specs.Port.{Gets, LoadsPosition, ShowsFrom, SnoopView, numbered_frame, got_of};

use mix_core::{Gate, Position};
use snd_base::{Geometry, PcmError};
use std::collections::LinkedList;

/// How the load of a captured frame ended: all its channels were loaded, or a later frame was stored over it before that,
/// as the word `seen` at the channel shows, whose lap is past the frame's.
#[derive(Clone, Copy, Debug, PartialEq, Eq)]
pub enum Loaded {
    Got,
    Overtaken { channel: u8, seen: u64 },
}

/// What came of the step that was to load a captured frame: it was loaded whole, or it was overtaken at a channel, as the
/// word `seen` shows, whose lap is past the frame's, or the gate stopped it.
#[derive(Clone, Copy, Debug, PartialEq, Eq)]
pub enum Got {
    Whole,
    Overtaken { channel: u8, seen: u64 },
    Stopped,
}

impl Got {
    /// What came of a load of a frame, by its result; every error is a stop.
    pub fn of(answer: Result<Loaded, PcmError>) -> Got
        ensures { result ≡ got_of answer }
    {
        match answer {
            Ok(Loaded::Got) => Got::Whole,
            Ok(Loaded::Overtaken { channel, seen }) => Got::Overtaken { channel, seen },
            Err(_) => Got::Stopped,
        }
    }
}

/// A captured frame: its absolute number, and its samples, one for each channel of the card, in order. No value of it is
/// made: it is what proofs speak of.
pub struct Frame {
    pub number: u64,
    pub samples: LinkedList<i16>,
}

/// The port of one reader to a ring of captured frames.
///
/// Its meaning is one plain view (the ring's geometry and the greatest position seen), what it shows of the ring's words, and
/// two relations between an earlier and a later state of it: which positions it loaded in between (`loaded`), and which frames
/// it got (`got`). Each of its two calls that take steps is one step between two states of port and gate: it `LoadsPosition`,
/// or it `Gets` a frame.
///
/// `finds` is what a ring adds to this by itself, between the states before and after the load of a frame: what a ring with
/// one owner knows beforehand of the outcome.
pub trait SnoopPort {
    // The geometry, and the greatest position seen.
    ghost view: { Self → SnoopView };

    // The word that the ring shows at a frame and channel, where it shows one.
    ghost shows: { Self → ℕ → ℕ → Option ℕ };

    // Which positions were loaded between two states, in order.
    ghost loaded: { Self → Self → List Position → Type 0 };

    // Which captured frames were got between two states, in order.
    ghost got: { Self → Self → List Frame → Type 0 };

    // What the load of the frame of a number that ended so found, between two states.
    ghost finds: { Self → Self → ℕ → Got → Type 0 };

    /// The ring's geometry.
    fn geometry(&self) -> Geometry
        ensures { result ≡ (view self.now).geometry };

    /// The greatest position that this port has seen, a frame number; at first the number of the first frame.
    fn seen(&self) -> u64
        ensures value { result ≡ (view self.now).seen }
        ensures within { IsWithin (view self.now).geometry result };

    /// Loads the card's position, after one ask of the gate, of kind `Position`. It is not below the one seen before.
    /// `Stopped` comes exactly where the gate stopped; nothing was loaded then.
    fn position<G: Gate>(&mut self, gate: &mut G) -> Result<Position, PcmError>
        ensures step { LoadsPosition view loaded got G.stops G.asked self.old gate.old
            (load_of result) self.new gate.new }
        ensures only_stopped { IfErr result (λ e. e ≡ PcmError.Stopped) };

    /// Loads the captured frame of an absolute number into `out`, one sample for each channel of the card, in order.
    ///
    /// A caller shows that the frame is one that was captured, as far as the port has seen, and that `out` has room for its
    /// samples: as many as the ring has channels (`can_load`).
    ///
    /// `Got` says that `out` is this frame. `Overtaken` comes only where a word of a later lap is at one of the frame's
    /// channels, which the port then shows, and `Stopped` exactly where the gate stopped; `out` holds nothing of use then.
    ///
    /// The gate is asked once before each channel is loaded, each time for a `Look`. A frame that is more than the ring's
    /// length before the position seen is overtaken at its first channel.
    fn load_frame<G: Gate>(
        &mut self,
        gate: &mut G,
        frame: u64,
        out: &mut [i16],
    ) -> Result<Loaded, PcmError>
        requires least { first_frame (view self.old).geometry ≤ frame }
        requires stored { frame < (view self.old).seen }
        requires room { length out.old ≡ (view self.old).geometry.channels }
        ensures step { Gets view shows loaded got finds G.stops G.asked self.old gate.old
            (numbered_frame frame out.new) (got_of result) self.new gate.new }
        ensures only_stopped { IfErr result (λ e. e ≡ PcmError.Stopped) };

    // The positions that were loaded between two states never fall, and the last of them is the one seen.
    ghost loaded_rising: { (p q : Self) (ps : List Position) → loaded p q ps
        → AreRisingFrom (view p).seen ps };

    ghost loaded_last: { (p q : Self) (ps : List Position) → loaded p q ps
        → (view q).seen ≡ last_frame (view p).seen ps };

    // No word that is shown falls, by its lap.
    ghost shown_got: { (p q : Self) (fs : List Frame) (f c word : ℕ) → got p q fs
        → shows p f c ≡ Some word → ShowsFrom shows q f c word };

    // Both relations hold of nothing between a state and itself, and are joined; the short forms are for the search.
    ghost loaded_composes: { Composes loaded };

    ghost got_composes: { Composes got };

    ghost loaded_then_nothing: { (p q r : Self) (ps : List Position) → loaded p q ps → loaded q r []
        → loaded p r ps };

    ghost nothing_then_loaded: { (p q r : Self) (ps : List Position) → loaded p q [] → loaded q r ps
        → loaded p r ps };

    ghost got_then_nothing: { (p q r : Self) (fs : List Frame) → got p q fs → got q r []
        → got p r fs };

    ghost nothing_then_got: { (p q r : Self) (fs : List Frame) → got p q [] → got q r fs
        → got p r fs };
}
