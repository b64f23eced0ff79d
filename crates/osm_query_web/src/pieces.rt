//! The pieces of a pack.

ghost use Rattle.std.specs.List.{Contains};
ghost use Rattle.std.specs.Prelude.{◌≡◌, ◌↔◌, ℕ, Err, IfNone, IfOk, IfSome, IsTrue, List, length};
ghost use Rattle.osm_query_web.specs.Pieces.{IsMissing, IsTable, IsWanted, total_len};
ghost use Rattle.osm_query_web.specs.Spans.{Has, in_span};
ghost use Rattle.osm_query_web.specs.internal.Reading.{AreOf, ArePiecesOf, AreReadFrom};
ghost use Rattle.osm_query_web.specs.declared.span.Span.{Span};

use crate::piece::Piece;
use crate::span::Span;
use crate::table::{is_table, list_pieces};
use std::alloc::Global;

/// Why pieces aren't read.
#[derive(Clone, Copy, Debug, PartialEq, Eq)]
pub(crate) enum NotRead {
    /// The table doesn't list pieces of a pack of this size that have so many bytes.
    Malformed,
    /// Memory was refused.
    Memory,
}

/// What a page has of a pack: the size of it, and some of its bytes in pieces.
#[derive(Drop)]
pub(crate) struct Pieces<'a> {
    /// How many bytes the whole pack has.
    pub(crate) size: u64,
    /// The pieces in the order of the pack, with at least one byte between one and the next.
    pub(crate) pieces: Vec<Piece>,
    /// Their bytes, one after the other.
    pub(crate) bytes: &'a [u8],
}

impl<'a> Pieces<'a> {
    /// The pieces that a table lists, of a pack of so many bytes, with their bytes one after the other. The table has sixteen
    /// bytes for each piece: its start in the pack and its length, the low byte first.
    ///
    /// Refused with `Malformed` just where the table isn't formed so, before memory is taken: its length, or an empty piece, or
    /// one that doesn't begin after the byte that follows the one before it, or ends beyond the pack, or other lengths than
    /// those of the bytes. With `Memory` where that is refused.
    pub(crate) fn read(
        alloc: Global,
        size: u64,
        table: &[u8],
        bytes: &'a [u8],
    ) -> Result<Pieces<'a>, NotRead>
        ensures read { IfOk result (AreReadFrom size table.now bytes.now) }
        ensures malformed { (result ≡ Err NotRead.Malformed)
            ↔ (¬ IsTable size (length bytes.now) table.now) }
    {
        if !is_table(size, bytes.len() as u64, table) {
            return Err(NotRead::Malformed);
        }
        match list_pieces(alloc, table) {
            Ok(pieces) => Ok(Pieces {
                size,
                pieces,
                bytes,
            }),
            Err(_) => Err(NotRead::Memory),
        }
    }

    /// The bytes in a span, where one piece has them all. A binary search.
    pub(crate) fn find(&self, wanted: Span) -> Option<&[u8]>
        ensures found { (file : List ℕ) → ArePiecesOf self.now file
            → IfSome result (λ part. part.now ≡ in_span file wanted) }
        ensures missing { (spans : List Span) → AreOf spans self.now
            → total_len spans ≡ length self.now.bytes.now → IfNone result (IsMissing spans wanted) }
    {
        self.holder_of(wanted)?.part(self.bytes, wanted)
    }

    /// Whether a span is to be fetched: it has some bytes and is within the pack, and no piece has all of it.
    pub(crate) fn lacks(&self, span: Span) -> bool
        ensures { (spans : List Span) → AreOf spans self.now
            → (IsTrue result ↔ IsWanted self.now.size spans span) }
    {
        span.len > 0 && span.is_within(self.size) && self.holder_of(span).is_none()
    }

    /// The piece that has all of a span: no other than the last one that begins where the span does, or before.
    fn holder_of(&self, wanted: Span) -> Option<Piece>
        ensures found { IfSome result
            (λ piece. Contains self.now.pieces.items piece × Has piece.span wanted) }
        ensures missing { (spans : List Span) → AreOf spans self.now
            → IfNone result (IsMissing spans wanted) }
    {
        let count = self
            .pieces
            .partition_point(|piece| piece.span.start <= wanted.start);
        let piece = *self.pieces.get(count.checked_sub(1)?)?;
        piece.span.has(wanted).then_some(piece)
    }
}
