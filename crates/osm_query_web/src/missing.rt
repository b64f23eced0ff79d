//! What is missing of a pack.

ghost use Rattle.std.specs.Prelude.{◌≡◌, IfOk, List};
ghost use Rattle.osm_query_web.specs.Spans.{table_of};
ghost use Rattle.osm_query_web.specs.internal.Reading.{AreOf, AreWantedAmong, AreWantedOf};
ghost use Rattle.osm_query_web.specs.declared.span.Span.{Span};

use crate::pieces::Pieces;
use crate::span::Span;
use std::alloc::{AllocError, Global};

/// Those of the noted spans that are to be fetched, in order, each once.
pub(crate) fn wanted_of(
    alloc: Global,
    pieces: &Pieces<'_>,
    noted: &[Span],
) -> Result<Vec<Span>, AllocError>
    ensures { (spans : List Span) → AreOf spans pieces.now
        → IfOk result (λ wanted. AreWantedOf pieces.now.size spans noted.now wanted.items) }
{
    let mut wanted = lacking(alloc, pieces, noted)?;
    wanted.sort_unstable();
    wanted.dedup();
    Ok(wanted)
}

/// Those of the noted spans that are to be fetched, in the order in which they were noted.
fn lacking(alloc: Global, pieces: &Pieces<'_>, noted: &[Span]) -> Result<Vec<Span>, AllocError>
    ensures { (spans : List Span) → AreOf spans pieces.now
        → IfOk result (λ wanted. AreWantedAmong pieces.now.size spans noted.now wanted.items) }
{
    let mut wanted = Vec::new(alloc);
    for span in noted {
        if pieces.lacks(*span) {
            wanted.push(*span)?;
        }
    }
    Ok(wanted)
}

/// The table of these spans.
pub(crate) fn table_of(alloc: Global, spans: &[Span]) -> Result<Vec<u8>, AllocError>
    ensures { IfOk result (λ table. table.items ≡ table_of spans.now) }
{
    let mut table = Vec::new(alloc);
    for span in spans {
        span.put(&mut table)?;
    }
    Ok(table)
}
