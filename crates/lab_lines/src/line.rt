//! Who does what: the lines of a script's body.
ghost use Rattle.std.specs.Prelude.{◌≡◌, length};

use std::marker::Model;

/// Who does what a line says: the card, or the client or reader of this number, counted from 0 in the
/// order of the clients' or the readers' lines.
#[derive(Clone, Copy, Debug, PartialEq, Eq)]
pub enum Actor {
    Card,
    Client(u32),
    Reader(u32),
}

/// What a line asks for. Counts are of frames, but that of `Die`, which is of steps.
#[derive(Clone, Copy, Debug, PartialEq, Eq)]
pub enum Op {
    /// The card plays so many frames.
    Play(u32),
    /// The card is unplugged.
    Unplug,
    /// The client offers the next so many frames of its file, as by `snd_pcm_writei`.
    Write(u32),
    /// The reader asks for so many frames, as by `snd_pcm_readi`.
    Read(u32),
    /// `snd_pcm_start`.
    Start,
    /// `snd_pcm_hwsync`.
    Sync,
    /// `snd_pcm_avail`, which syncs first.
    Avail,
    /// `snd_pcm_delay`.
    Delay,
    /// `snd_pcm_drain`.
    Drain,
    /// `snd_pcm_drop`.
    Drop,
    /// `snd_pcm_prepare`.
    Prepare,
    /// `snd_pcm_pause`, which sets a running stream to pause.
    Pause,
    /// `snd_pcm_pause`, which lets a paused stream go on.
    Resume,
    /// `snd_pcm_rewind` by so many frames.
    Rewind(u32),
    /// `snd_pcm_rewindable`.
    Rewindable,
    /// The client or reader dies at the step after the next so many.
    Die(u32),
    /// The opening of a client or reader, as by `snd_pcm_open` and `snd_pcm_hw_params`.
    Opens,
    /// `snd_pcm_close`.
    Closes,
}

/// A line of a phase: its number in the script's text, from 1 on, who does it, and what it asks for.
#[derive(Clone, Copy, Debug, PartialEq, Eq)]
pub struct Line {
    pub number: u32,
    pub actor: Actor,
    pub op: Op,
}

/// A phase: its lines in order. It may have none. Contracts see the list of them.
#[derive(Debug, Drop)]
pub struct Phase {
    lines: Vec<Line>,
}

impl Model for Phase {
    ghost use Rattle.std.specs.Prelude.{List};
    ghost use Rattle.lab_lines.specs.declared.line.Line.{Line};

    ghost Value = { List Line };

    ghost view = { λ phase. phase.lines.items };
}

impl Phase {
    /// The phase of these lines, which are taken as they are.
    pub fn from_vec(lines: Vec<Line>) -> Phase
        ensures { result ≡ lines.items }
    {
        Phase { lines }
    }

    /// The lines, in order.
    pub fn as_slice(&self) -> &[Line]
        ensures { result.now ≡ self.now }
    {
        self.lines.as_slice()
    }

    /// How many lines there are.
    pub fn len(&self) -> usize
        ensures { result ≡ length self.now }
    {
        self.lines.len()
    }

    /// The lines that it was made of.
    pub fn into_vec(self) -> Vec<Line>
        ensures { result.items ≡ self }
    {
        self.lines
    }
}

/// What comes in a script's body: an actor is opened or closed, by the line of this number, or a phase.
#[derive(Debug, Drop)]
pub enum Item {
    Opens { number: u32, actor: Actor },
    Closes { number: u32, actor: Actor },
    Phase(Phase),
}
