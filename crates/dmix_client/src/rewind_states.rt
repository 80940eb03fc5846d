//! What a client is after it took frames back.
ghost use Rattle.std.specs.Prelude.{◌≡◌, ℕ, ◌+◌, ◌-◌, ◌^◌, ◌<◌, ◌≤◌, length};
ghost use Rattle.mix_core.specs.Port.{OnLate};
ghost use Rattle.dmix_client.specs.Calls.{late_at, with_number};
ghost use Rattle.dmix_client.specs.Rewind.{back_of, last_channel, last_laid, rewindable_of, after_rewind, taken_back, without_frames};

use crate::after_calls::{found_at, is_stop};
use crate::commit::Commit;
use crate::stream::{PlaybackStream, Stretch};
use mix_core::{Ended, Position};
use pcm_states::{Call, State, next};
use snd_base::{Cursor, PcmError, XrunWhy};

impl PlaybackStream {
    /// How many frames can be taken back at a port with this floor.
    pub(crate) fn rewindable(&self, floor: Cursor) -> u64
        requires { floor.frame < 2 ^ 63 }
        ensures { result ≡ rewindable_of floor self.now }
    {
        let from = self.seen.unwrap_or(0).max(floor.first_free(0));
        let Stretch {
            written,
            committed,
            card,
            ..
        } = self.stretch;
        written.saturating_sub(committed) + committed.saturating_sub(from.saturating_sub(card))
    }

    /// How many of the last `frames` frames are committed.
    pub(crate) fn back(&self, frames: u64) -> u64
        ensures { result ≡ back_of self.now frames }
    {
        frames.saturating_sub(self.pending())
    }

    /// The last `frames` frames, which were pending, are taken back.
    pub(crate) fn without(&self, frames: u64) -> PlaybackStream
        ensures { result ≡ without_frames self.now frames }
    {
        PlaybackStream {
            stretch: Stretch {
                written: self.stretch.written.saturating_sub(frames),
                ..self.stretch
            },
            fed: self.fed.saturating_sub(frames),
            ..*self
        }
    }

    /// Of the last `frames` frames the pending ones are taken back, and of the committed ones all but what is left.
    pub(crate) fn taken_back(&self, frames: u64, left: Commit) -> PlaybackStream
        requires few { left.frames ≤ frames }
        requires fits { frames ≤ self.now.stretch.written }
        requires fed { self.now.stretch.written ≤ self.now.fed }
        requires committed { left.frames ≤ back_of self.now frames }
        requires back { back_of self.now frames ≤ self.now.stretch.committed }
        ensures { result ≡ taken_back self.now frames left }
    {
        PlaybackStream {
            stretch: Stretch {
                written: self.stretch.written - (frames - left.frames),
                committed: self.stretch.committed - (self.back(frames) - left.frames),
                part: left.part,
                ..self.stretch
            },
            fed: self.fed - (frames - left.frames),
            ..*self
        }
    }

    /// The card's frame of the last sample that is placed.
    fn last_laid(&self) -> u64
        requires { self.now.stretch.card + self.now.stretch.committed < 2 ^ 64 }
        ensures { result ≡ last_laid self.now }
    {
        if self.stretch.part == 0 {
            self.stretch.card + self.stretch.committed.saturating_sub(1)
        } else {
            self.stretch.card + self.stretch.committed
        }
    }

    /// The card's channel of the last sample that is placed.
    fn last_channel(&self) -> u8
        requires { self.now.stretch.part < length self.now.setup.bindings }
        ensures { result ≡ last_channel self.now }
    {
        let last = if self.stretch.part == 0 {
            self.setup.bindings.len()
        } else {
            self.stretch.part
        };
        self.setup
            .bindings
            .card_channel(self.setup.bindings.rising(last - 1))
    }

    /// Why withdrawals were late, where they were.
    fn late_withdrawal(&self, ended: Ended) -> Option<XrunWhy>
        requires fits { self.now.stretch.card + self.now.stretch.committed < 2 ^ 64 }
        requires part { OnLate ended (λ _. self.now.stretch.part < length self.now.setup.bindings) }
        ensures { result ≡ late_at ended (last_laid self.now) (last_channel self.now) }
    {
        match ended {
            Ended::Late { seen } => Some(XrunWhy::Late {
                frame: self.last_laid(),
                channel: self.last_channel(),
                seen,
            }),
            _ => None,
        }
    }
}

/// A rewind of `frames` frames, by what is left of the committed ones.
pub(crate) fn rewound(
    stream: &mut PlaybackStream,
    frames: u64,
    left: Commit,
) -> Result<u64, PcmError>
    requires few { left.frames ≤ frames }
    requires written { frames ≤ stream.old.stretch.written }
    requires fed { stream.old.stretch.written ≤ stream.old.fed }
    requires committed { left.frames ≤ back_of stream.old frames }
    requires back { back_of stream.old frames ≤ stream.old.stretch.committed }
    requires fits { stream.old.stretch.card + stream.old.stretch.committed < 2 ^ 64 }
    requires part { OnLate left.ended (λ _. left.part < length stream.old.setup.bindings) }
    ensures { (stream.new, result) ≡ after_rewind stream.old frames left }
{
    *stream = stream.taken_back(frames, left);
    if is_stop(left.ended) {
        return stream.stop_call();
    }
    let here = Position {
        frame: 0,
        gone: false,
    };
    let facts = found_at(here, stream.late_withdrawal(left.ended));
    let answer = stream.end_with(next(State::Running, Call::Transfer, facts));
    with_count(stream, frames, answer)
}

/// The number of frames, where the withdrawals before went well.
fn with_count(
    stream: &PlaybackStream,
    frames: u64,
    answer: Result<(), PcmError>,
) -> Result<u64, PcmError>
    ensures { with_number (λ d. frames) (stream.now, answer) ≡ (stream.now, result) }
{
    match answer {
        Ok(()) => Ok(frames),
        Err(error) => Err(error),
    }
}

/// The frames that can be taken back, where the load before went well.
pub(crate) fn with_rewindable(
    stream: &PlaybackStream,
    floor: Cursor,
    answer: Result<(), PcmError>,
) -> Result<u64, PcmError>
    requires { floor.frame < 2 ^ 63 }
    ensures { with_number (rewindable_of floor) (stream.now, answer) ≡ (stream.now, result) }
{
    match answer {
        Ok(()) => Ok(stream.rewindable(floor)),
        Err(error) => Err(error),
    }
}
