//! Frames on a straight line between two frames.
ghost use Rattle.std.specs.Prelude.{◌≡◌, ◌≤◌, [], ◌∷◌, ◌++◌, length, pos, ◌*ℤ◌, OnOk};
ghost use Rattle.std.specs.Int.{int_div_euclid};
ghost use Rattle.plug_chain.specs.Held.{samples_of};
ghost use Rattle.plug_chain.specs.Growth.{Extends};
ghost use Rattle.plug_chain.specs.Rates.{AreRates, IsRise, frame_between, on_line};
ghost use Rattle.plug_chain.specs.Courses.{Advances, Ends, IsCourseAfter, IsOn};

use crate::frame::Frame;
use crate::rates::Rates;
use std::alloc::AllocError;

/// The last frame that came, and where the next output frame lies: so many parts past the frame before it, of which there
/// are as many in a frame as the output rate.
#[derive(Clone, Copy, Debug)]
pub(crate) struct Course {
    pub(crate) last: Frame,
    pub(crate) place: u64,
}

/// A part of a rise, `part` of `parts`, rounded down. A fall is divided by its size, which is then rounded up: sizes mostly
/// fit 32 bits, where a division takes half the time.
fn part_of_rise(rise: i64, part: u32, parts: u32) -> i64
    requires rise { IsRise rise }
    requires some { 1 ≤ parts }
    requires within { part ≤ parts }
    ensures { result ≡ int_div_euclid (rise *ℤ pos part) (pos parts) }
{
    let size = rise.unsigned_abs() * u64::from(part);
    if rise < 0 {
        -(size.div_ceil(u64::from(parts)) as i64)
    } else {
        (size / u64::from(parts)) as i64
    }
}

/// The sample at `part` of `parts` on the line from one sample to another, rounded down.
fn sample_between(from: i16, to: i16, part: u32, parts: u32) -> i16
    requires some { 1 ≤ parts }
    requires within { part ≤ parts }
    ensures { result ≡ on_line part parts from to }
{
    let rise = i64::from(to) - i64::from(from);
    (i64::from(from) + part_of_rise(rise, part, parts)) as i16
}

/// Appends the frame at `part` of `parts` between two frames.
fn push_between(
    from: &[i16],
    to: &[i16],
    part: u32,
    parts: u32,
    out: &mut Vec<i16>,
) -> Result<(), AllocError>
    requires some { 1 ≤ parts }
    requires within { part ≤ parts }
    requires channels { length from.now ≡ length to.now }
    ensures ok { OnOk result (out.new.items ≡ out.old.items
        ++ frame_between part parts from.now to.now) }
    ensures grows { Extends out.old.items out.new.items }
{
    for (channel, start) in from.iter().enumerate() {
        out.push(sample_between(*start, to[channel], part, parts))?;
    }
    Ok(())
}

/// Appends the samples of a frame, one by one: a copy of so few bytes at once would wait for their stores.
fn push_all(samples: &[i16], out: &mut Vec<i16>) -> Result<(), AllocError>
    ensures ok { OnOk result (out.new.items ≡ out.old.items ++ samples.now) }
    ensures grows { Extends out.old.items out.new.items }
{
    for sample in samples {
        out.push(*sample)?;
    }
    Ok(())
}

impl Rates {
    /// Where the next output frame lies before the first frame has come: right at that frame.
    pub(crate) fn start(self, channels: u8) -> Course
        requires { channels ≤ 8 }
        ensures rates { AreRates self }
        ensures course { IsOn self channels result }
        ensures empty { IsCourseAfter self channels [] result }
    {
        Course {
            last: Frame::silent(channels),
            place: u64::from(self.output()),
        }
    }

    /// Appends the next output frame, which lies before the next frame or at it.
    fn push_frame(self, course: &Course, next: &Frame, out: &mut Vec<i16>) -> Result<(), AllocError>
        requires within { course.now.place ≤ self.output }
        requires channels { length (samples_of course.now.last) ≡ length (samples_of next.now) }
        ensures ok { OnOk result (out.new.items ≡ out.old.items ++ frame_between course.now.place
            self.output (samples_of course.now.last) (samples_of next.now)) }
        ensures grows { Extends out.old.items out.new.items }
    {
        let parts = self.output();
        let part = course.place as u32;
        if part == parts {
            push_all(next.as_slice(), out)
        } else {
            push_between(course.last.as_slice(), next.as_slice(), part, parts, out)
        }
    }

    /// Takes the next frame, and appends each output frame that is known now.
    pub(crate) fn advance(
        self,
        course: &mut Course,
        next: &Frame,
        out: &mut Vec<i16>,
    ) -> Result<(), AllocError>
        requires { IsOn self (length (samples_of next.now)) course.old }
        ensures course { OnOk result (IsOn self (length (samples_of next.now)) course.new) }
        ensures ok { OnOk result (Advances self (length (samples_of next.now))
            (samples_of next.now ∷ []) course.old course.new out.old.items out.new.items) }
        ensures grows { Extends out.old.items out.new.items }
    {
        let parts = u64::from(self.output());
        while course.place <= parts {
            self.push_frame(course, next, out)?;
            course.place += u64::from(self.input());
        }
        course.place -= parts;
        course.last = *next;
        Ok(())
    }

    /// Appends each output frame that lies after the last frame.
    pub(crate) fn end(self, course: Course, out: &mut Vec<i16>) -> Result<(), AllocError>
        requires { IsOn self (length (samples_of course.last)) course }
        ensures ok { OnOk result (Ends self (length (samples_of course.last)) course
            out.old.items out.new.items) }
        ensures grows { Extends out.old.items out.new.items }
    {
        let mut place = course.place;
        while place < u64::from(self.output()) {
            push_all(course.last.as_slice(), out)?;
            place += u64::from(self.input());
        }
        Ok(())
    }
}
