//! Bytes divided into frames, and frames made into output frames.
ghost use Rattle.std.specs.Prelude.{◌≡◌, ◌<◌, ◌≤◌, [], ◌∷◌, ◌++◌, length, OnOk, IfOk};
ghost use Rattle.plug_chain.specs.Held.{part_bytes, samples_of};
ghost use Rattle.plug_chain.specs.Growth.{Extends};
ghost use Rattle.plug_chain.specs.Frames.{frame_bytes, frame_from_bytes, frames_of_bytes, rest_of, samples_in};
ghost use Rattle.plug_chain.specs.Plugs.{Continues, HasTakenBytes, IsStage};
ghost use Rattle.plug_chain.specs.Courses.{Advances, IsOn};
ghost use Rattle.plug_chain.specs.Views.{conversion_of, stage_of};

use crate::frame::{Frame, Part};
use crate::interpolation::Course;
use crate::rates::Rates;
use crate::table::Table;
use crate::wide::Wide;
use std::alloc::AllocError;

/// How bytes are converted.
#[derive(Debug, Drop)]
pub(crate) struct Converter {
    pub(crate) from: Wide,
    pub(crate) table: Table,
    pub(crate) rates: Rates,
}

/// How far a conversion has come: the begun frame, and the course of the whole ones.
#[derive(Clone, Copy, Debug)]
pub(crate) struct Progress {
    pub(crate) part: Part,
    pub(crate) course: Course,
}

impl Converter {
    /// How many bytes a frame has: 1 to 32.
    pub(crate) fn frame_bytes(&self) -> usize
        ensures value { result ≡ frame_bytes (conversion_of self.now) }
        ensures least { 1 ≤ result }
        ensures most { result ≤ 32 }
    {
        self.table.inputs() as usize * self.from.bytes() as usize
    }

    /// Where a conversion begins.
    pub(crate) fn start(&self) -> Progress
        ensures stage { IsStage (stage_of self.now result) }
        ensures nothing { HasTakenBytes (stage_of self.now result) [] }
    {
        Progress {
            part: Part::empty(),
            course: self.rates.start(self.table.outputs()),
        }
    }

    /// Puts the samples of one frame's bytes into a frame.
    fn read(&self, bytes: &[u8], frame: &mut Frame)
        requires bytes { length bytes.now ≡ frame_bytes (conversion_of self.now) }
        requires channels { length (samples_of frame.old) ≡ self.now.table.inputs }
        ensures { samples_of frame.new ≡ samples_in self.now.from self.now.table.inputs bytes.now }
    {
        let width = self.from.bytes() as usize;
        let mut rest = bytes;
        for channel in 0..self.table.inputs() {
            let (sample, behind) = rest.split_at(width);
            frame.put(channel, self.from.sample(sample));
            rest = behind;
        }
    }

    /// Takes one frame's bytes.
    #[inline(always)]
    fn take_frame(
        &self,
        course: &mut Course,
        bytes: &[u8],
        out: &mut Vec<i16>,
    ) -> Result<(), AllocError>
        requires bytes { length bytes.now ≡ frame_bytes (conversion_of self.now) }
        requires course { IsOn self.now.rates self.now.table.outputs course.old }
        ensures course { OnOk result (IsOn self.now.rates self.now.table.outputs course.new) }
        ensures ok { OnOk result (Advances self.now.rates self.now.table.outputs
            (frame_from_bytes (conversion_of self.now) bytes.now ∷ []) course.old course.new
            out.old.items out.new.items) }
        ensures grows { Extends out.old.items out.new.items }
    {
        let mut samples = Frame::silent(self.table.inputs());
        self.read(bytes, &mut samples);
        let mut frame = Frame::silent(self.table.outputs());
        self.table.mix(samples.as_slice(), &mut frame);
        self.rates.advance(course, &frame, out)
    }

    /// Takes all whole frames of these bytes, and returns the bytes after them.
    fn take_frames<'a>(
        &self,
        course: &mut Course,
        bytes: &'a [u8],
        out: &mut Vec<i16>,
    ) -> Result<&'a [u8], AllocError>
        requires { IsOn self.now.rates self.now.table.outputs course.old }
        ensures course { OnOk result (IsOn self.now.rates self.now.table.outputs course.new) }
        ensures ok { OnOk result (Advances self.now.rates self.now.table.outputs
            (frames_of_bytes (conversion_of self.now) bytes.now) course.old course.new
            out.old.items out.new.items) }
        ensures rest { IfOk result (λ rest. rest.now ≡ rest_of (conversion_of self.now) bytes.now) }
        ensures grows { Extends out.old.items out.new.items }
    {
        let width = self.frame_bytes();
        let mut rest = bytes;
        while rest.len() >= width {
            let (frame, behind) = rest.split_at(width);
            self.take_frame(course, frame, out)?;
            rest = behind;
        }
        Ok(rest)
    }

    /// Takes bytes from the beginning of a frame on.
    fn take_whole(
        &self,
        progress: &mut Progress,
        bytes: &[u8],
        out: &mut Vec<i16>,
    ) -> Result<(), AllocError>
        requires stage { IsStage (stage_of self.now progress.old) }
        requires whole { part_bytes progress.old.part ≡ [] }
        ensures stage { OnOk result (IsStage (stage_of self.now progress.new)) }
        ensures ok { OnOk result (Advances self.now.rates self.now.table.outputs
            (frames_of_bytes (conversion_of self.now) bytes.now)
            progress.old.course progress.new.course out.old.items out.new.items) }
        ensures part { OnOk result (part_bytes progress.new.part
            ≡ rest_of (conversion_of self.now) bytes.now) }
        ensures grows { Extends out.old.items out.new.items }
    {
        let rest = self.take_frames(&mut progress.course, bytes, out)?;
        progress.part.extend(rest);
        Ok(())
    }

    /// Takes the bytes that the begun frame lacks, and returns the bytes after them.
    fn fill<'a>(&self, part: &mut Part, bytes: &'a [u8]) -> &'a [u8]
        requires { length (part_bytes part.old) ≤ frame_bytes (conversion_of self.now) }
        ensures same { part_bytes part.new ++ result.now ≡ part_bytes part.old ++ bytes.now }
        ensures most { length (part_bytes part.new) ≤ frame_bytes (conversion_of self.now) }
        ensures short { length (part_bytes part.new) < frame_bytes (conversion_of self.now)
            → result.now ≡ [] }
    {
        let missing = self.frame_bytes() - part.as_slice().len();
        let (more, behind) = bytes.split_at(missing.min(bytes.len()));
        part.extend(more);
        behind
    }

    /// Takes the next bytes, and appends the samples of each output frame that is known now.
    pub(crate) fn take(
        &self,
        progress: &mut Progress,
        bytes: &[u8],
        out: &mut Vec<i16>,
    ) -> Result<(), AllocError>
        requires { IsStage (stage_of self.now progress.old) }
        ensures stage { OnOk result (IsStage (stage_of self.now progress.new)) }
        ensures ok { OnOk result (Continues (stage_of self.now progress.old)
            (stage_of self.now progress.new) bytes.now out.old.items out.new.items) }
        ensures grows { Extends out.old.items out.new.items }
    {
        if progress.part.as_slice().is_empty() {
            return self.take_whole(progress, bytes, out);
        }
        let rest = self.fill(&mut progress.part, bytes);
        if progress.part.as_slice().len() < self.frame_bytes() {
            return Ok(());
        }
        self.take_frame(&mut progress.course, progress.part.as_slice(), out)?;
        progress.part = Part::empty();
        self.take_whole(progress, rest, out)
    }
}
