//! The port through which a client places samples into a ring and withdraws them.
ghost use Rattle.std.specs.Prelude.{◌≡◌, ℕ, ◌+◌, ◌<◌, ◌≤◌, ◌↔◌, true, List, [], ◌∷◌, ◌++◌, Option, Some, IfErr, IsErrOf, ◌⊎◌, ℤ};
ghost use Rattle.snd_base.specs.Places.{IsFrom, IsWithin, lap};
ghost use Rattle.snd_base.specs.Relations.{Composes};
ghost use Rattle.mix_core.specs.declared.port.Entry.{Entry};
ghost use Rattle.mix_core.specs.declared.port.Ended.{Ended};
ghost use Rattle.mix_core.specs.declared.port.Position.{Position};
ghost use Rattle.mix_core.specs.Laid.{AreAdds, a_withdrawal, an_add, marks_from};
ghost use Rattle.mix_core.specs.Port.{AreRisingFrom, Lays, Loads, PortView, ShowsFrom, Stays, ended_of, last_frame, load_of};

use crate::gate::Gate;
use snd_base::{Cursor, Geometry, PcmError};

/// A position of the card: the number of the first frame that is not yet published as taken, and whether the card is
/// gone.
#[derive(Clone, Copy, Debug, PartialEq, Eq)]
pub struct Position {
    pub frame: u64,
    pub gone: bool,
}

/// How a placement ended: the sample was added once, or the frame and channel were taken before, as the word `seen`
/// shows, whose lap is past the frame's.
#[derive(Clone, Copy, Debug, PartialEq, Eq)]
pub enum Placed {
    In,
    Late { seen: u64 },
}

/// What came of one step that was to place a sample or to withdraw one: it was done, or it was late, as the word `seen`
/// shows, whose lap is past the frame's, or the gate stopped it. Of several steps in a row it says how the last one ended.
#[derive(Clone, Copy, Debug, PartialEq, Eq)]
pub enum Ended {
    Whole,
    Late { seen: u64 },
    Stopped,
}

impl Ended {
    /// How a placement or withdrawal ended, by its result; every error is a stop.
    pub fn of(answer: Result<Placed, PcmError>) -> Ended
        ensures { result ≡ ended_of answer }
    {
        match answer {
            Ok(Placed::In) => Ended::Whole,
            Ok(Placed::Late { seen }) => Ended::Late { seen },
            Err(_) => Ended::Stopped,
        }
    }
}

/// Whether a sample was added or withdrawn.
#[derive(Clone, Copy, Debug, PartialEq, Eq)]
pub enum Kind {
    Added,
    Withdrawn,
}

/// One sample that was placed in a ring or withdrawn from it: by which member, at which frame (by its absolute number) and
/// channel.
#[derive(Clone, Copy, Debug, PartialEq, Eq)]
pub struct Entry {
    pub member: u32,
    pub frame: u64,
    pub channel: u8,
    pub sample: i16,
    pub kind: Kind,
}

/// The port of one member to a ring.
///
/// Its meaning is one plain view (the ring's geometry, its member, whether it can add at all, the member's marks and the
/// greatest position seen), what it shows of the ring's words, which standing adds it has, and two relations between an
/// earlier and a later state of it: which entries it placed or withdrew in between (`laid`), and which positions it loaded
/// (`loaded`). Each of its three calls that take steps is one step between two states of port and gate: `Loads` a
/// position, or `Lays` an entry, an add or a withdrawal.
///
/// `finds` is what a ring adds to this by itself, between the states before and after a placement or withdrawal: the words
/// that it found, in order, and what a ring with one owner knows beforehand of the outcome.
pub trait MixPort {
    // The geometry, the member, whether it can add, the member's marks, and the greatest position seen.
    ghost view: { Self → PortView };

    // The word that the ring shows at a frame and channel, where it shows one.
    ghost shows: { Self → ℕ → ℕ → Option ℕ };

    // Whether the member's standing adds end in a list.
    ghost ends_in: { Self → List Entry → Type 0 };

    // Which entries were placed between two states, in order.
    ghost laid: { Self → Self → List Entry → Type 0 };

    // Which positions were loaded between two states, in order.
    ghost loaded: { Self → Self → List Position → Type 0 };

    // What an attempt to place an entry that ended so found, word by word, between two states.
    ghost finds: { Self → Self → Entry → Ended → List ℕ → Type 0 };

    /// The ring's geometry.
    fn geometry(&self) -> Geometry
        ensures { result ≡ (view self.now).geometry };

    /// The number of the member whose port this is.
    fn member(&self) -> u32
        ensures { result ≡ (view self.now).member };

    /// Whether the port may place samples at all.
    fn can_add(&self) -> bool
        ensures { result ≡ (view self.now).can_add };

    /// The first frame and channel, by frame and then by channel, that this port may still add to.
    fn cursor(&self) -> Cursor
        ensures value { result ≡ (view self.now).marks.cursor }
        ensures within { IsWithin (view self.now).geometry result.frame };

    /// The frame and channel, by frame and then by channel, before which this port withdraws nothing any more.
    fn floor(&self) -> Cursor
        ensures value { result ≡ (view self.now).marks.floor }
        ensures within { IsWithin (view self.now).geometry result.frame };

    /// The greatest cursor that this port had, by frame and then by channel: from there on it never placed a sample.
    fn high(&self) -> Cursor
        ensures value { result ≡ (view self.now).marks.high }
        ensures within { IsWithin (view self.now).geometry result.frame };

    /// The greatest position that this port has seen, a frame number; at first the number of the first frame.
    fn seen(&self) -> u64
        ensures value { result ≡ (view self.now).seen }
        ensures within { IsWithin (view self.now).geometry result };

    /// Loads the card's position, after one ask of the gate, of kind `Position`. It is not below the one seen before.
    /// `Stopped` comes exactly where the gate stopped; nothing was loaded then.
    fn position<G: Gate>(&mut self, gate: &mut G) -> Result<Position, PcmError>
        ensures step { Loads view laid loaded G.stops G.asked self.old gate.old
            (load_of result) self.new gate.new }
        ensures only_stopped { IfErr result (λ e. e ≡ PcmError.Stopped) };

    /// Adds a sample at a frame (its absolute number) and channel, and moves the cursor to the next channel.
    ///
    /// A caller shows four things, which `can_place` tests: the port can add at all; the channel is one of the ring's; the frame and channel aren't
    /// before the port's cursor, so that no member has two adds in one word; and the frame is less than the ring's length
    /// past the position that the port has seen, so that its slot isn't still in use by an earlier frame.
    ///
    /// `Late` comes only where this call found a word of this slot and channel whose lap is past the frame's; nothing was
    /// added, and the cursor stays. `Stopped` comes exactly where the gate stopped, and nothing was added. `LapEnd` comes
    /// exactly where the frame's lap is at least 4294967295; nothing was asked then, and nothing changed.
    ///
    /// The asks are a `Look`, an `Exchange`, and an `Again` for each further exchange; one `Look` alone where the frame is
    /// before the position seen.
    fn place<G: Gate>(
        &mut self,
        gate: &mut G,
        frame: u64,
        channel: u8,
        sample: i16,
    ) -> Result<Placed, PcmError>
        requires can_add { (view self.old).can_add ≡ true }
        requires channel { channel < (view self.old).geometry.channels }
        requires from_cursor { IsFrom (view self.old).marks.cursor frame channel }
        requires ahead { frame < (view self.old).seen + (view self.old).geometry.frames }
        ensures step { lap (view self.old).geometry frame < 4294967295
            → Lays view laid loaded shows finds G.stops G.asked self.old gate.old
            (an_add (view self.old).member frame channel sample)
            (ended_of result) self.new gate.new }
        ensures lap_end { IsErrOf result PcmError.LapEnd
            ↔ (4294967295 ≤ lap (view self.old).geometry frame) }
        ensures unchanged { IsErrOf result PcmError.LapEnd
            → Stays view laid loaded self.old self.new × (gate.new ≡ gate.old) }
        ensures only { IfErr result (λ e. (e ≡ PcmError.LapEnd) ⊎ (e ≡ PcmError.Stopped)) };

    /// Withdraws the sample of the port's last standing add, which is at this frame (its absolute number) and channel, and
    /// moves the cursor back to it.
    ///
    /// A caller shows two things: the port's last standing add is exactly this one, and the frame and channel aren't before
    /// the port's floor.
    ///
    /// `Late` comes only where this call found a word of this slot and channel whose lap is past the frame's, and `Stopped`
    /// exactly where the gate stopped; nothing was withdrawn then. The asks are those of `place`.
    fn withdraw<G: Gate>(
        &mut self,
        gate: &mut G,
        frame: u64,
        channel: u8,
        sample: i16,
    ) -> Result<Placed, PcmError>
        requires last { ends_in self.old (an_add (view self.old).member frame channel sample ∷ []) }
        requires from_floor { IsFrom (view self.old).marks.floor frame channel }
        ensures step { Lays view laid loaded shows finds G.stops G.asked self.old gate.old
            (a_withdrawal (view self.old).member frame channel sample)
            (ended_of result) self.new gate.new }
        ensures only_stopped { IfErr result (λ e. e ≡ PcmError.Stopped) };

    // What was placed between two states moves the marks, and the words that are shown never fall.
    ghost laid_marks: { (p q : Self) (es : List Entry) → laid p q es
        → (view q).marks ≡ marks_from (view p).geometry (view p).marks es };

    ghost shown_laid: { (p q : Self) (es : List Entry) (f c word : ℕ) → laid p q es
        → shows p f c ≡ Some word → ShowsFrom shows q f c word };

    // The positions that were loaded between two states never fall, and the last of them is the one seen.
    ghost loaded_rising: { (p q : Self) (ps : List Position) → loaded p q ps
        → AreRisingFrom (view p).seen ps };

    ghost loaded_last: { (p q : Self) (ps : List Position) → loaded p q ps
        → (view q).seen ≡ last_frame (view p).seen ps };

    // The standing adds: each part at the end of a list in which they end, after adds, after nothing, after a withdrawal.
    ghost ends_in_part: { (p : Self) (xs ys : List Entry) → ends_in p (xs ++ ys) → ends_in p ys };

    ghost held_laid: { (p q : Self) (xs es : List Entry) → AreAdds es → laid p q es → ends_in p xs
        → ends_in q (xs ++ es) };

    ghost held_nothing: { (p q : Self) (xs : List Entry) → laid p q [] → ends_in p xs
        → ends_in q xs };

    ghost held_back: { (p q : Self) (xs : List Entry) (f c : ℕ) (s : ℤ)
        → IsFrom (view p).marks.floor f c
        → laid p q (a_withdrawal (view p).member f c s ∷ [])
        → ends_in p (xs ++ an_add (view p).member f c s ∷ []) → ends_in q xs };

    // Both relations hold of nothing between a state and itself, and are joined; the short forms are for the search.
    ghost laid_composes: { Composes laid };

    ghost loaded_composes: { Composes loaded };

    ghost laid_then_nothing: { (p q r : Self) (es : List Entry) → laid p q es → laid q r []
        → laid p r es };

    ghost nothing_then_laid: { (p q r : Self) (es : List Entry) → laid p q [] → laid q r es
        → laid p r es };

    ghost loaded_then_nothing: { (p q r : Self) (ps : List Position) → loaded p q ps → loaded q r []
        → loaded p r ps };

    ghost nothing_then_loaded: { (p q r : Self) (ps : List Position) → loaded p q [] → loaded q r ps
        → loaded p r ps };
}
