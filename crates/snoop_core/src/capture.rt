//! A ring of captured frames with one owner: the core.
ghost use Rattle.std.specs.Prelude.{◌≡◌, ◌<◌, ◌≤◌, ◌↔◌, length, IfErr, IfOk, IsErrOf, OnErr, OnOk};
ghost use Rattle.snd_base.specs.Places.{IsWithin, first_frame, lap};
ghost use Rattle.snoop_core.specs.View.{IsFoundWord, IsNew, IsPublished, IsStored, IsUnplugged, geometry_of, next_frame};

use crate::ring::SampleRing;
use mix_core::Position;
use snd_base::{Geometry, PcmError};
use std::alloc::Global;
use std::marker::Model;

/// A capture ring with one owner: the words of its slots and channels, and how far the card has stored and published. The card
/// stores each captured frame once, and all readers take it from there, as ALSA's dsnoop plugin lets them (alsa-lib,
/// `snd_pcm_dsnoop`). Here each word has the lap of its frame, so that a reader sees where it was overtaken.
///
/// A core represents a list of stored samples, of whole frames one after the other, of which it keeps those of the last lap.
/// A new core represents the empty list. For each list that a core represented before `store`, it represents afterwards this
/// list with the stored frame at its end, and after every other call the same list.
pub struct SnoopCore {
    ring: SampleRing,
    position: u64,
    gone: bool,
}

// One call wherever it is let go. A derive drops each part in turn there, and the proof goes through all of them.
impl Drop for SnoopCore {
    fn drop(self) {
        let SnoopCore {
            ring: _,
            position: _,
            gone: _,
        } = self;
    }
}

impl Model for SnoopCore {
    ghost use Rattle.snoop_core.specs.View.{IsSoundSnoop, SnoopCoreView};

    ghost Value = { SnoopCoreView };

    ghost view = { λ a. record { ring = a.ring; position = a.position; gone = a.gone } };

    ghost invariant = { λ a. IsSoundSnoop (record {
      ring = a.ring;
      position = a.position;
      gone = a.gone;
    }) };
}

impl SnoopCore {
    /// A core of this geometry, in which nothing is stored: each word has the sample 0 and the number of the first lap. It
    /// refuses, with `Memory`, only where no memory is left.
    pub fn new(alloc: Global, geometry: Geometry) -> Result<SnoopCore, PcmError>
        ensures ok { IfOk result (λ core. IsNew core geometry) }
        ensures only_memory { IfErr result (λ e. e ≡ PcmError.Memory) }
    {
        let ring = SampleRing::new(alloc, geometry)?;
        Ok(SnoopCore {
            ring,
            position: geometry.first_frame(),
            gone: false,
        })
    }

    /// Stores the next captured frame, of one sample for each channel, over the frame of the lap before. `LapEnd` comes exactly
    /// where the next frame's lap is 4294967295; nothing changes then.
    pub fn store(&mut self, frame: &[i16]) -> Result<(), PcmError>
        requires { length frame.now ≡ (geometry_of self.old).channels }
        ensures ok { OnOk result (IsStored self.old self.new frame.now) }
        ensures err { OnErr result (self.new ≡ self.old) }
        ensures lap_end { IsErrOf result PcmError.LapEnd
            ↔ (lap (geometry_of self.old) (next_frame self.old) ≡ 4294967295) }
        ensures only { IfErr result (λ e. e ≡ PcmError.LapEnd) }
    {
        if self.ring.geometry().lap(self.ring.next().frame) == 4294967295 {
            return Err(PcmError::LapEnd);
        }
        self.ring.store_frame(frame);
        Ok(())
    }

    /// Publishes the number of the first frame that is not stored as the position.
    pub fn publish(&mut self)
        ensures { IsPublished self.old self.new }
    {
        self.position = self.ring.next().frame;
    }

    /// Unplugs the card: from now on every position that is loaded says that it is gone.
    pub fn unplug(&mut self)
        ensures { IsUnplugged self.old self.new }
    {
        self.gone = true;
    }

    /// The geometry of the core's ring.
    pub fn geometry(&self) -> Geometry
        ensures { result ≡ geometry_of self.now }
    {
        self.ring.geometry()
    }

    /// The number of the frame that is stored next.
    pub fn next(&self) -> u64
        ensures { result ≡ next_frame self.now }
    {
        self.ring.next().frame
    }

    /// The position that was published last, or the number of the first frame, and whether the card is gone.
    pub fn position(&self) -> Position
        ensures frame { result.frame ≡ self.now.position }
        ensures gone { result.gone ≡ self.now.gone }
        ensures within { IsWithin (geometry_of self.now) result.frame }
    {
        Position {
            frame: self.position,
            gone: self.gone,
        }
    }

    /// The word of a published frame's slot and a channel.
    pub(crate) fn word(&self, frame: u64, channel: u8) -> u64
        requires channel { channel < (geometry_of self.now).channels }
        requires least { first_frame (geometry_of self.now) ≤ frame }
        requires published { frame < self.now.position }
        ensures { IsFoundWord self.now frame channel result }
    {
        self.ring.word(frame, channel)
    }
}
