//! Parts of a file that are asked for together.

ghost use Rattle.std.specs.Prelude.{◌≡◌, ◌+◌, IfOk, max};
ghost use Rattle.std.specs.List.{AllByRecursion};
ghost use Rattle.http_ranges.specs.Spans.{AreApart, AreInOrder, CoveredBy, IsDrawn, IsShort, Rises, joined, joins, merged};

use crate::limits::{GAP_LIMIT, SPAN_LIMIT};
use std::alloc::{AllocError, Global};

/// The bytes of a file from the start up to the end, which isn't one of them.
#[derive(Clone, Copy, Debug, PartialEq, Eq)]
pub struct Span {
    pub start: u64,
    pub end: u64,
}

/// Joins spans that lie close, so that few requests bring them: those that overlap, and those with 4,096 bytes between them at
/// most, as long as what they make together has 262,144 bytes at most. They should be given by rising start.
///
/// Refused only where memory runs out.
pub fn joined(alloc: Global, sorted: &[Span]) -> Result<Vec<Span>, AllocError>
    ensures is { IfOk result (λ spans. spans.items ≡ joined sorted.now) }
    // Each span that was given is in one of them.
    ensures covered { IfOk result (λ spans. AllByRecursion (CoveredBy spans.items) sorted.now) }
    // They have no byte but those of the spans that were given, and of gaps between them.
    ensures drawn { IfOk result (λ spans. AllByRecursion (IsDrawn sorted.now) spans.items) }
    // Each starts at the end of the one before it or later.
    ensures rises { AreInOrder sorted.now → IfOk result (λ spans. Rises spans.items) }
    // None gets too long by joining.
    ensures short { AreApart sorted.now
        → IfOk result (λ spans. AllByRecursion IsShort spans.items) }
{
    join_all(alloc, sorted)
}

/// The same.
fn join_all(alloc: Global, sorted: &[Span]) -> Result<Vec<Span>, AllocError>
    ensures { IfOk result (λ spans. spans.items ≡ joined sorted.now) }
{
    let mut spans = Vec::new(alloc);
    let Some((first, rest)) = sorted.split_first() else {
        return Ok(spans);
    };
    let mut last = *first;
    for span in rest {
        if joins(last, *span) {
            last = merged(last, *span);
        } else {
            spans.push(last)?;
            last = *span;
        }
    }
    spans.push(last)?;
    Ok(spans)
}

/// Whether a span is asked for together with the one before it.
fn joins(last: Span, span: Span) -> bool
    ensures { result ≡ joins last span }
{
    last.start <= span.start
        && (span.start < last.end
            || (span.start <= last.end.saturating_add(GAP_LIMIT)
                && span.end <= last.start.saturating_add(SPAN_LIMIT)))
}

/// The span that has both, where the second doesn't start before the first.
fn merged(last: Span, span: Span) -> Span
    ensures { result ≡ merged last span }
{
    Span {
        start: last.start,
        end: last.end.max(span.end),
    }
}
