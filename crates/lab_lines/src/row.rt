//! A row of a report: what one line of a script was answered.
ghost use Rattle.std.specs.Prelude.{◌≡◌};
ghost use Rattle.lab_lines.specs.Rows.{request_of_row};

use crate::line::{Actor, Op};
use crate::request::Request;
use pcm_states::State;
use snd_base::PcmError;

/// What a line of a script was answered.
#[derive(Clone, Copy, Debug, PartialEq, Eq)]
pub enum Answer {
    /// The line was done, and there is no number to give.
    Done,
    /// How many frames were written, read, played or taken back, or are available, delayed or can be taken back.
    Count(u64),
    /// The line was refused.
    Failed(PcmError),
}

/// What one line of a script did.
#[derive(Clone, Copy, Debug, PartialEq, Eq)]
pub struct Row {
    /// The number of the line's phase, from 1 on; for an opening or a closing, the number of phases before it.
    pub phase: u32,
    /// Who did it.
    pub actor: Actor,
    /// What the line asked for.
    pub op: Op,
    /// What it was answered.
    pub answer: Answer,
    /// The actor's state afterwards (ALSA's `snd_pcm_state_t`).
    pub state: State,
    /// The position of the card, in frames, that the actor saw last since its opening, if it saw one; for the
    /// card, the position that it published.
    pub seen: Option<u64>,
}

impl Row {
    /// What the row is about.
    pub fn request(&self) -> Request
        ensures { result ≡ request_of_row self.now }
    {
        Request {
            phase: self.phase,
            actor: self.actor,
            op: self.op,
        }
    }
}
