//! A piece of a pack.

ghost use Rattle.std.specs.Prelude.{◌≡◌, ◌+◌, ◌-◌, ◌≤◌, IfSome, IsSome, drop, length, take};
ghost use Rattle.osm_query_web.specs.Spans.{Has};

use crate::span::Span;

/// A piece of a pack: the span in which it stands, and where its bytes begin among those of all pieces.
#[derive(Clone, Copy, Debug, PartialEq, Eq)]
pub(crate) struct Piece {
    pub(crate) span: Span,
    pub(crate) at: u64,
}

impl Piece {
    /// The bytes in a span that the piece has, out of those of all pieces; none where they end before.
    pub(crate) fn part(self, bytes: &[u8], wanted: Span) -> Option<&[u8]>
        requires { Has self.span wanted }
        ensures part { IfSome result (λ part. part.now
            ≡ take wanted.len (drop (self.at + (wanted.start - self.span.start)) bytes.now)) }
        ensures whole { self.at + self.span.len ≤ length bytes.now → IsSome result }
    {
        let from = self.at.checked_add(wanted.start - self.span.start)?;
        let to = from.checked_add(wanted.len)?;
        bytes.get(from as usize..to as usize)
    }
}
