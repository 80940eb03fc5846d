//! The words of a ring with one owner, which are stored one after the other.
ghost use Rattle.std.specs.Prelude.{◌≡◌, ◌+◌, ◌<◌, length, IfOk, IfErr};
ghost use Rattle.snd_base.specs.Places.{lap};
ghost use Rattle.snoop_core.specs.Ring.{IsFrameStored, IsNewRing, IsSampleStored, IsSoundRing, ring_word};

use crate::word::snoop_word;
use snd_base::{Cursor, Geometry, PcmError};
use std::alloc::Global;
use std::marker::Model;

/// The words of a ring, slot by slot, and the place that is stored next. Contracts see it as these.
#[derive(Drop)]
pub(crate) struct SampleRing {
    geometry: Geometry,
    words: Vec<u64>,
    next: Cursor,
}

impl Model for SampleRing {
    ghost use Rattle.snoop_core.specs.Ring.{IsSoundRing, RingView};

    ghost Value = { RingView };

    ghost view = { λ a. record { geometry = a.geometry; words = a.words.items; next = a.next } };

    ghost invariant = { λ a. IsSoundRing (record {
      geometry = a.geometry;
      words = a.words.items;
      next = a.next;
    }) };
}

impl SampleRing {
    /// A ring in which nothing is stored yet. It refuses, with `Memory`, only where no memory is left.
    pub(crate) fn new(alloc: Global, geometry: Geometry) -> Result<SampleRing, PcmError>
        ensures ok { IfOk result (λ ring. IsNewRing ring geometry) }
        ensures only_memory { IfErr result (λ e. e ≡ PcmError.Memory) }
    {
        let silent = snoop_word(geometry.first_lap, 0);
        let room = geometry.frames as usize * geometry.channels as usize;
        let words = vec![in alloc; silent; room]?;
        let next = Cursor {
            frame: geometry.first_frame(),
            channel: 0,
        };
        Ok(SampleRing {
            geometry,
            words,
            next,
        })
    }

    pub(crate) fn geometry(&self) -> Geometry
        ensures { result ≡ self.now.geometry }
    {
        self.geometry
    }

    /// The frame and channel that are stored next.
    pub(crate) fn next(&self) -> Cursor
        ensures { result ≡ self.now.next }
    {
        self.next
    }

    /// The word of a frame's slot and a channel.
    pub(crate) fn word(&self, frame: u64, channel: u8) -> u64
        requires { channel < self.now.geometry.channels }
        ensures { result ≡ ring_word self.now frame channel }
    {
        self.words[self.geometry.word_index(frame, channel)]
    }

    /// Stores the sample of the next frame and channel.
    fn store_sample(&mut self, sample: i16)
        requires { lap self.old.geometry self.old.next.frame < 4294967295 }
        ensures { IsSampleStored self.old self.new sample }
    {
        let Cursor { frame, channel } = self.next;
        let at = self.geometry.word_index(frame, channel);
        self.words[at] = snoop_word(self.geometry.lap(frame) as u32 + 1, sample);
        self.next = Cursor::behind(&self.geometry, frame, channel);
    }

    /// Stores the samples of the next frame, one for each channel.
    pub(crate) fn store_frame(&mut self, frame: &[i16])
        requires sound { IsSoundRing self.old }
        requires whole { self.old.next.channel ≡ 0 }
        requires channels { length frame.now ≡ self.old.geometry.channels }
        requires room { lap self.old.geometry self.old.next.frame < 4294967295 }
        ensures { IsFrameStored self.old self.new frame.now }
    {
        for sample in frame {
            self.store_sample(*sample);
        }
    }
}
