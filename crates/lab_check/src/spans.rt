//! Spans of frames of the card, in which a frame is looked up in a few steps, however many they are.
ghost use Rattle.std.specs.Prelude.{◌≡◌, ◌-◌, ◌<◌, ◌^◌, ◌&&◌, ◌||◌, ℕ, IfOk, OnOk, nat_le};
ghost use Rattle.std.specs.List.{list_any};
ghost use Rattle.std.specs.List.Sorted.{IsPermutation};
ghost use Rattle.lab_check.specs.Covering.{reaches_frame};
ghost use Rattle.lab_check.specs.Spans.{AreRising, IsIndexed, greatest_ends, is_in_some, is_in_span};

use std::alloc::{AllocError, Global};
use std::marker::Model;

/// Frames of the card, one after the other: from `first` to `last`.
#[derive(Clone, Copy, Debug, PartialEq, Eq)]
pub struct FrameSpan {
    pub first: u64,
    pub last: u64,
}

/// Spans by rising first frame, and beside each the greatest last frame of those up to it. So a frame is in one of them exactly
/// where the number beside the last span that begins by then isn't below it. Contracts see the spans.
#[derive(Drop)]
pub struct SpanIndex {
    spans: Vec<FrameSpan>,
    ends: Vec<u64>,
}

impl Model for SpanIndex {
    ghost use Rattle.std.specs.Prelude.{List};
    ghost use Rattle.lab_check.specs.Spans.{IsIndexed};
    ghost use Rattle.lab_check.specs.declared.spans.FrameSpan.{FrameSpan};

    ghost Value = { List FrameSpan };

    ghost view = { λ index. index.spans.items };

    ghost invariant = { λ index. IsIndexed index.spans.items index.ends.items };
}

/// The frames from one on up to the one that is so many behind it, if there is such a number. Frames past the numbers of 64 bits
/// are left out.
pub(crate) fn span_of(first: u64, count: Option<u64>) -> Option<FrameSpan>
    ensures { (frame : ℕ) → frame < 2 ^ 64
        → is_in_some frame result ≡ reaches_frame first count frame }
{
    match count {
        Some(count) => {
            let last = first.saturating_add(count);
            Some(FrameSpan { first, last })
        }
        None => None,
    }
}

/// Appends a span, where there is one.
pub(crate) fn push_span(
    spans: &mut Vec<FrameSpan>,
    span: Option<FrameSpan>,
) -> Result<(), AllocError>
    ensures { OnOk result ((frame : ℕ) → list_any (is_in_span frame) spans.new.items
        ≡ (list_any (is_in_span frame) spans.old.items || is_in_some frame span)) }
{
    match span {
        Some(span) => {
            spans.push(span)?;
            Ok(())
        }
        None => Ok(()),
    }
}

/// Sorts spans by their first frames.
fn sort_spans(spans: &mut Vec<FrameSpan>)
    ensures rising { AreRising spans.new.items }
    ensures moved { IsPermutation spans.old.items spans.new.items }
{
    spans.sort_unstable_by_key(|span| span.first);
}

/// Beside each of some spans the greatest last frame of those up to it.
fn ends_of(alloc: Global, spans: &[FrameSpan]) -> Result<Vec<u64>, AllocError>
    ensures { IfOk result (λ ends. ends.items ≡ greatest_ends 0 spans.now) }
{
    let mut ends = Vec::new(alloc);
    let mut most: u64 = 0;
    for span in spans {
        most = most.max(span.last);
        ends.push(most)?;
    }
    Ok(ends)
}

/// Whether a frame is in one of some spans, which stand by rising first frame with the greatest last frames so far.
fn is_in_spans(spans: &[FrameSpan], ends: &[u64], frame: u64) -> bool
    requires { IsIndexed spans.now ends.now }
    ensures { result ≡ list_any (is_in_span frame) spans.now }
{
    let before = spans.partition_point(|span| span.first <= frame);
    if before == 0 {
        return false;
    }
    frame <= ends[before - 1]
}

impl SpanIndex {
    /// An index of some spans.
    pub(crate) fn new(alloc: Global, mut spans: Vec<FrameSpan>) -> Result<SpanIndex, AllocError>
        ensures { IfOk result (λ index. (frame : ℕ) → list_any (is_in_span frame) index
            ≡ list_any (is_in_span frame) spans.items) }
    {
        sort_spans(&mut spans);
        let ends = ends_of(alloc, spans.as_slice())?;
        Ok(SpanIndex { spans, ends })
    }

    /// Whether a frame is in one of the spans.
    pub(crate) fn has(&self, frame: u64) -> bool
        ensures { result ≡ list_any (is_in_span frame) self.now }
    {
        is_in_spans(self.spans.as_slice(), self.ends.as_slice(), frame)
    }
}
