//! The two pointers of a ring buffer.
ghost use Rattle.std.specs.Prelude.{◌≡◌, ℕ, ◌+◌, ◌-◌, ◌%◌, ◌^◌, ◌<◌, ◌≤◌};
ghost use Rattle.ring_pointers.specs.Wrapped.{WrappedPointers, IsWrapped, StandFor, AreNear, distance};

use std::marker::Model;

/// The hardware pointer and the application pointer of a ring buffer of `size` frames.
///
/// Both count frames and wrap at the boundary, a multiple of the size that is so large that two
/// pointers never come a boundary apart (`snd_pcm_sw_params_get_boundary` and
/// `snd_pcm_forwardable` of alsa/pcm.h). So they represent two counts that never wrap: as long as
/// these differ by less than 2 to the power 48, the frames that are available are the plain
/// difference of the counts.
#[derive(Clone, Copy, Debug, PartialEq, Eq)]
pub struct Pointers {
    size: u32,
    boundary: u64,
    hw: u64,
    appl: u64,
}

impl Model for Pointers {
    ghost Value = { WrappedPointers };

    ghost view = { λ p. record { size = p.size; boundary = p.boundary; hw = p.hw; appl = p.appl } };

    ghost invariant = { λ p. IsWrapped (record {
      size = p.size;
      boundary = p.boundary;
      hw = p.hw;
      appl = p.appl;
    }) };

    ghost inverse = { λ p. record {
      size = p.size;
      boundary = p.boundary;
      hw = p.hw;
      appl = p.appl;
    } };
}

impl Pointers {
    /// Pointers at `hw` and `appl`, in frames, over a buffer of `size` frames.
    ///
    /// The caller has a size from 1 to 65536, a boundary that is a multiple of it, at least 2 to the
    /// power 61 and less than 2 to the power 63, and both pointers below the boundary.
    pub fn at(size: u32, boundary: u64, hw: u64, appl: u64) -> Pointers
        requires size_least { 1 ≤ size }
        requires size_most { size ≤ 65536 }
        requires boundary_least { 2 ^ 61 ≤ boundary }
        requires boundary_most { boundary < 2 ^ 63 }
        requires multiple { boundary % size ≡ 0 }
        requires hw_below { hw < boundary }
        requires appl_below { appl < boundary }
        ensures size { result.size ≡ size }
        ensures boundary { result.boundary ≡ boundary }
        ensures hw { result.hw ≡ hw }
        ensures appl { result.appl ≡ appl }
        ensures counts { StandFor result hw appl }
    {
        Pointers {
            size,
            boundary,
            hw,
            appl,
        }
    }

    /// The hardware pointer, in frames, below the boundary.
    pub fn hw(&self) -> u64
        ensures { result ≡ self.now.hw }
    {
        self.hw
    }

    /// The application pointer, in frames, below the boundary.
    pub fn appl(&self) -> u64
        ensures { result ≡ self.now.appl }
    {
        self.appl
    }

    /// The frames that can be written: a whole buffer ahead of the hardware pointer, less what is
    /// written already (`snd_pcm_avail` of alsa/pcm.h, for playback).
    pub fn avail_playback(&self) -> u64
        ensures wrapped { result ≡ distance self.now.boundary self.now.appl
            (self.now.hw + self.now.size) }
        ensures counts { (hw appl : ℕ) → StandFor self.now hw appl → AreNear hw appl →
            appl ≤ hw + self.now.size → result ≡ hw + self.now.size - appl }
    {
        frames_between(self.appl, self.hw + self.size as u64, self.boundary)
    }

    /// The frames that can be read: those between the application pointer and the hardware pointer
    /// (`snd_pcm_avail` of alsa/pcm.h, for capture).
    pub fn avail_capture(&self) -> u64
        ensures wrapped { result ≡ distance self.now.boundary self.now.appl self.now.hw }
        ensures counts { (hw appl : ℕ) → StandFor self.now hw appl → AreNear hw appl →
            appl ≤ hw → result ≡ hw - appl }
    {
        frames_between(self.appl, self.hw, self.boundary)
    }

    /// Moves the application pointer on by `frames`, less than 2 to the power 48, and wraps it
    /// (`snd_pcm_forward` of alsa/pcm.h).
    pub fn forward_appl(&mut self, frames: u64)
        requires { frames < 2 ^ 48 }
        ensures moved { self.new
            ≡ record self.old { appl = (self.old.appl + frames) % self.old.boundary } }
        ensures counts { (hw appl : ℕ) → StandFor self.old hw appl
            → StandFor self.new hw (appl + frames) }
    {
        self.appl = moved_on(self.appl, frames, self.boundary);
    }

    /// Moves the hardware pointer on by `frames`, less than 2 to the power 48, and wraps it.
    pub fn forward_hw(&mut self, frames: u64)
        requires { frames < 2 ^ 48 }
        ensures moved { self.new
            ≡ record self.old { hw = (self.old.hw + frames) % self.old.boundary } }
        ensures counts { (hw appl : ℕ) → StandFor self.old hw appl
            → StandFor self.new (hw + frames) appl }
    {
        self.hw = moved_on(self.hw, frames, self.boundary);
    }
}

/// A pointer after `frames` more, going on at 0 past the boundary.
fn moved_on(pointer: u64, frames: u64, boundary: u64) -> u64
    requires below { pointer < boundary }
    requires few { frames ≤ boundary }
    requires boundary_most { boundary < 2 ^ 63 }
    ensures { result ≡ (pointer + frames) % boundary }
{
    let next = pointer + frames;
    if next < boundary {
        next
    } else {
        next - boundary
    }
}

/// The frames from one pointer on to another, going on at 0 past the boundary.
fn frames_between(from: u64, to: u64, boundary: u64) -> u64
    requires below { from < boundary }
    requires to_below { to < boundary + boundary }
    requires boundary_most { boundary < 2 ^ 63 }
    ensures { result ≡ distance boundary from to }
{
    if to < from {
        to + boundary - from
    } else if to - from < boundary {
        to - from
    } else {
        to - from - boundary
    }
}
