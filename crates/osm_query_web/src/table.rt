//! Tables of pieces.

ghost use Rattle.std.specs.Prelude.{◌≡◌, ◌<◌, ◌≤◌, ◌^◌, ◌↔◌, IfOk, IsTrue};
ghost use Rattle.osm_query_web.specs.Pieces.{IsTable, total_len};
ghost use Rattle.osm_query_web.specs.Spans.{FitsSize, spans_in};
ghost use Rattle.osm_query_web.specs.internal.Reading.{pieces_from};

use crate::piece::Piece;
use crate::span::Span;
use std::alloc::{AllocError, Global};

/// Whether a table lists pieces of a pack of `size` bytes which together have `len` bytes. It takes no memory.
pub(crate) fn is_table(size: u64, len: u64, table: &[u8]) -> bool
    ensures { IsTrue result ↔ IsTable size len table.now }
{
    let mut left = table;
    let mut least = 0;
    let mut taken = 0;
    while let Some((span, rest)) = Span::split(left) {
        if !may_stand(span, least, size) {
            return false;
        }
        taken += span.len;
        least = (span.start + span.len).saturating_add(1);
        left = rest;
    }
    left.is_empty() && taken == len
}

/// Whether a piece may stand there: it doesn't begin before `least`, has some bytes and is within the pack.
fn may_stand(span: Span, least: u64, size: u64) -> bool
    ensures { IsTrue result ↔ ((least ≤ span.start) × (0 < span.len) × FitsSize size span) }
{
    least <= span.start && span.len > 0 && span.is_within(size)
}

/// The pieces that a table lists.
pub(crate) fn list_pieces(alloc: Global, table: &[u8]) -> Result<Vec<Piece>, AllocError>
    requires { total_len (spans_in table.now) < 2 ^ 64 }
    ensures { IfOk result (λ pieces. pieces.items ≡ pieces_from 0 (spans_in table.now)) }
{
    let mut pieces = Vec::new(alloc);
    let mut left = table;
    let mut at = 0;
    while let Some((span, rest)) = Span::split(left) {
        pieces.push(Piece { span, at })?;
        at += span.len;
        left = rest;
    }
    Ok(pieces)
}
