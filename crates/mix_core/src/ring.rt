//! A ring with one owner: the core.
ghost use Rattle.std.specs.Prelude.{◌≡◌, ◌+◌, ◌<◌, ◌≤◌, ◌↔◌, length, IfOk, IfErr, OnErr, IsErrOf, MatchOption};
ghost use Rattle.snd_base.specs.Places.{IsFrom, IsWithin, first_free, lap};
ghost use Rattle.mix_core.specs.declared.port.Kind.TheVariants.{Added, Withdrawn};
ghost use Rattle.mix_core.specs.Calls.{IsLaidBy, IsNew, IsPublished, IsRefused, IsTaken, IsUnplugged};
ghost use Rattle.mix_core.specs.View.{IsLateWord, IsUntaken, cursor_at, marks_at};

use crate::event::Taken;
use crate::marks::Marks;
use crate::port::{Entry, Position};
use snd_base::{Cursor, Geometry, PcmError};
use std::alloc::Global;
use std::marker::Model;

/// A mix ring with one owner: the words of its slots and channels, a cursor for each member, and the player's place.
/// The clients' samples are summed as ALSA's dmix plugin sums them (alsa-lib, `snd_pcm_dmix`), in one word for each slot
/// and channel, and saturated to 16 bits once, when the player takes the word.
///
/// A core keeps no history of what happened to it; that it represents one is a relation. A new core represents the empty
/// history. For each history that a core represented before a call, it represents afterwards that history with this at its
/// end:
///
/// - after `take` a take with the frame, channel and value that were taken, or one that was refused with `LapEnd`;
/// - after `publish` a publication of the position;
/// - after a placement or withdrawal through a `Turn` that answers `In` the member's add or withdrawal, in time, and after
///   one that answers `Late` the same, late (a withdrawal where the history holds its sample last);
/// - after `run` its events, each with its reply, except those with the reply `Outside`;
/// - after `unplug` and every other call nothing. So it is after a placement that ends with `LapEnd`, since it could only
///   be an add with the reply `Outside`, and those are left out, and after one that ends with `Stopped`, since it is none.
///
/// An add or withdrawal that was late changes nothing, so the core represents the history without it too.
pub struct Core {
    geometry: Geometry,
    words: Vec<u64>,
    marks: Vec<Marks>,
    next: Cursor,
    position: u64,
    gone: bool,
}

// One call wherever it is let go. A derive drops each part in turn there, and the proof goes through all of them.
impl Drop for Core {
    fn drop(self) {
        let Core {
            geometry: _,
            words: _,
            marks: _,
            next: _,
            position: _,
            gone: _,
        } = self;
    }
}

impl Model for Core {
    ghost use Rattle.mix_core.specs.View.{View};

    ghost Value = { View };

    ghost use Rattle.mix_core.specs.Sound.{IsSound};

    ghost view = { λ a. record {
      geometry = a.geometry;
      words = a.words.items;
      marks = a.marks.items;
      next = a.next;
      position = a.position;
      gone = a.gone;
    } };

    ghost invariant = { λ a. IsSound (record {
      geometry = a.geometry;
      words = a.words.items;
      marks = a.marks.items;
      next = a.next;
      position = a.position;
      gone = a.gone;
    }) };
}

impl Core {
    /// A core of this geometry for `members` members, 1 to 64, with silent words. It refuses, with `Memory`, only where
    /// no memory is left.
    pub fn new(alloc: Global, geometry: Geometry, members: u32) -> Result<Core, PcmError>
        requires least { 1 ≤ members }
        requires most { members ≤ 64 }
        ensures ok { IfOk result (λ core. IsNew core geometry members) }
        ensures only_memory { IfErr result (λ e. e ≡ PcmError.Memory) }
    {
        let silent = lap_word::pack(geometry.first_lap, 0, 0);
        let room = geometry.frames as usize * geometry.channels as usize;
        let first = Cursor {
            frame: geometry.first_frame(),
            channel: 0,
        };
        let words = vec![in alloc; silent; room]?;
        let marks = vec![in alloc; Marks::start(&geometry); members as usize]?;
        Ok(Core {
            geometry,
            words,
            marks,
            next: first,
            position: first.frame,
            gone: false,
        })
    }

    /// Takes the next word, in the order of frames and channels, and leaves the empty word of the next lap in its place.
    /// The value is the sum of the samples that were added there, saturated once to 16 bits. `LapEnd`
    /// comes exactly where the next frame's lap is 4294967295; nothing changes then.
    pub fn take(&mut self) -> Result<Taken, PcmError>
        ensures ok { IfOk result (λ taken. IsTaken self.old self.new taken) }
        ensures err { OnErr result (IsRefused self.old self.new) }
        ensures lap_end { IsErrOf result PcmError.LapEnd
            ↔ (lap self.old.geometry self.old.next.frame ≡ 4294967295) }
        ensures only { IfErr result (λ e. e ≡ PcmError.LapEnd) }
    {
        if self.geometry.lap(self.next.frame) == 4294967295 {
            return Err(PcmError::LapEnd);
        }
        let Cursor { frame, channel } = self.next;
        let at = self.geometry.word_index(frame, channel);
        let word = self.words[at];
        self.words[at] = lap_word::taken(word);
        self.next = Cursor::behind(&self.geometry, frame, channel);
        Ok(Taken {
            frame,
            channel,
            value: lap_word::clamp(lap_word::sum(word)),
        })
    }

    /// Publishes the number of the first frame that is not wholly taken as the position.
    pub fn publish(&mut self)
        ensures { IsPublished self.old self.new }
    {
        self.position = self.next.frame;
    }

    /// Unplugs the card: from now on every position that is loaded says that it is gone.
    pub fn unplug(&mut self)
        ensures { IsUnplugged self.old self.new }
    {
        self.gone = true;
    }

    /// The geometry of the core's ring.
    pub fn geometry(&self) -> Geometry
        ensures { result ≡ self.now.geometry }
    {
        self.geometry
    }

    /// How many members the core has, 1 to 64.
    pub fn members(&self) -> u32
        ensures { result ≡ length self.now.marks }
    {
        self.marks.len() as u32
    }

    /// The next word to be taken: its frame and channel.
    pub fn next(&self) -> Cursor
        ensures { result ≡ self.now.next }
    {
        self.next
    }

    /// The position that was published last, or the number of the first frame, and whether the card is gone.
    pub fn position(&self) -> Position
        ensures frame { result.frame ≡ self.now.position }
        ensures gone { result.gone ≡ self.now.gone }
        ensures within { IsWithin self.now.geometry result.frame }
    {
        Position {
            frame: self.position,
            gone: self.gone,
        }
    }

    /// The first frame and channel that a member may still add to.
    pub fn cursor(&self, member: u32) -> Cursor
        requires { member < length self.now.marks }
        ensures value { result ≡ cursor_at self.now member }
        ensures within { IsWithin self.now.geometry result.frame }
    {
        self.marks[member as usize].cursor
    }

    /// The first frame and channel that a member may still withdraw from.
    pub fn floor(&self, member: u32) -> Cursor
        requires { member < length self.now.marks }
        ensures value { result ≡ (marks_at self.now member).floor }
        ensures within { IsWithin self.now.geometry result.frame }
    {
        self.marks[member as usize].floor
    }

    /// The greatest cursor that a member had, by frame and then by channel.
    pub fn high(&self, member: u32) -> Cursor
        requires { member < length self.now.marks }
        ensures value { result ≡ (marks_at self.now member).high }
        ensures within { IsWithin self.now.geometry result.frame }
    {
        self.marks[member as usize].high
    }

    /// The word of a frame and channel that was taken, and None where they are not taken yet.
    pub(crate) fn late_word(&self, frame: u64, channel: u8) -> Option<u64>
        requires channel { channel < self.now.geometry.channels }
        requires ahead { frame < self.now.position + self.now.geometry.frames }
        ensures { MatchOption result (IsUntaken self.now frame channel)
            (λ word. IsLateWord self.now frame channel word) }
    {
        let word = self.words[self.geometry.word_index(frame, channel)];
        if lap_word::lap(word) as u64 == self.geometry.lap(frame) {
            None
        } else {
            Some(word)
        }
    }

    /// Adds the entry's sample to the word of its frame and channel, which are not taken yet, and moves its member's
    /// cursor right after them.
    pub(crate) fn add(&mut self, entry: Entry)
        requires kind { entry.kind ≡ Added }
        requires member { entry.member < length self.old.marks }
        requires channel { entry.channel < self.old.geometry.channels }
        requires from_cursor { IsFrom (cursor_at self.old entry.member) entry.frame entry.channel }
        requires untaken { first_free self.old.next entry.channel ≤ entry.frame }
        requires ahead { entry.frame < self.old.position + self.old.geometry.frames }
        requires lap_fits { lap self.old.geometry entry.frame < 4294967295 }
        ensures { IsLaidBy self.old self.new entry }
    {
        let at = self.geometry.word_index(entry.frame, entry.channel);
        let word = self.words[at];
        self.words[at] = lap_word::add(word, entry.sample);
        let member = entry.member as usize;
        self.marks[member] = self.marks[member].added(&self.geometry, entry.frame, entry.channel);
    }

    /// Takes the entry's sample off the word of its frame and channel, which are not taken yet, and moves its member's cursor
    /// back to them.
    pub(crate) fn withdraw(&mut self, entry: Entry)
        requires kind { entry.kind ≡ Withdrawn }
        requires member { entry.member < length self.old.marks }
        requires channel { entry.channel < self.old.geometry.channels }
        requires from_floor { IsFrom (marks_at self.old entry.member).floor entry.frame
            entry.channel }
        requires before_cursor { entry.frame
            < first_free (cursor_at self.old entry.member) entry.channel }
        requires untaken { first_free self.old.next entry.channel ≤ entry.frame }
        requires ahead { entry.frame < self.old.position + self.old.geometry.frames }
        ensures { IsLaidBy self.old self.new entry }
    {
        let at = self.geometry.word_index(entry.frame, entry.channel);
        let word = self.words[at];
        self.words[at] = lap_word::withdraw(word, entry.sample);
        let member = entry.member as usize;
        self.marks[member] = self.marks[member].withdrawn(entry.frame, entry.channel);
    }
}
