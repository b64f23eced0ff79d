//! What was read of a file before it was asked for.

ghost use Rattle.std.specs.Prelude.{◌≡◌, IfSome, length};
ghost use Rattle.http_ranges.specs.KeptParts.{IsPartOf};

use crate::span::Span;
use std::alloc::{AllocError, Global};

/// Where the bytes of a span are kept.
#[derive(Clone, Copy, Debug, PartialEq, Eq)]
pub(crate) struct KeptSpan {
    pub(crate) span: Span,
    /// Where they begin in the bytes that are kept.
    pub(crate) from: usize,
}

/// What was read of a file before it was asked for.
#[derive(Drop)]
pub(crate) struct Kept {
    pub(crate) bytes: Vec<u8>,
    spans: Vec<KeptSpan>,
}

impl Kept {
    ghost use Rattle.http_ranges.specs.KeptParts.{IsKept};

    /// Nothing is kept. It takes no memory.
    pub(crate) fn new(alloc: Global) -> Kept {
        Kept {
            bytes: Vec::new(alloc),
            spans: Vec::new(alloc),
        }
    }

    /// The bytes of the file from the offset on, if so many are kept in one span. A span is found that starts last before
    /// the offset, or there.
    pub(crate) fn find(&self, offset: u64, len: usize) -> Option<&[u8]>
        ensures kept { IfSome result (λ part. IsKept self.now offset len part.now) }
        ensures whole { IfSome result (λ part. length part.now ≡ len) }
    {
        let place = self.place_before(offset)?;
        if place >= self.spans.len() {
            return None;
        }
        let kept = self.spans[place];
        part_of(&self.bytes, kept, offset, len)
    }

    /// The place of a span that starts last before the offset, or there.
    fn place_before(&self, offset: u64) -> Option<usize> {
        match self
            .spans
            .binary_search_by_key(&offset, |kept| kept.span.start)
        {
            Ok(place) => Some(place),
            Err(place) => place.checked_sub(1),
        }
    }

    /// Notes that the bytes of a span were put after those that were kept, from this place on.
    pub(crate) fn note(&mut self, span: Span, from: usize) -> Result<(), AllocError> {
        self.spans.push(KeptSpan { span, from })?;
        Ok(())
    }

    /// Puts the spans in order, so that each is found.
    pub(crate) fn sort(&mut self) {
        self.spans.sort_unstable_by_key(|kept| kept.span.start);
    }
}

/// So many of the kept bytes of a span, from an offset of the file on; `None` where it hasn't so many.
fn part_of(bytes: &[u8], kept: KeptSpan, offset: u64, len: usize) -> Option<&[u8]>
    ensures part { IfSome result (λ part. IsPartOf bytes.now kept offset len part.now) }
    ensures whole { IfSome result (λ part. length part.now ≡ len) }
{
    let skipped = offset.checked_sub(kept.span.start)?;
    let end = offset.checked_add(len as u64)?;
    if end > kept.span.end {
        return None;
    }
    let from = kept.from.checked_add(skipped as usize)?;
    let to = from.checked_add(len)?;
    if to > bytes.len() {
        return None;
    }
    Some(&bytes[from..to])
}
