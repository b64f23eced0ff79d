//! Parts of a pack.

ghost use Rattle.std.specs.Prelude.{◌≡◌, ◌++◌, ◌<◌, ◌≤◌, ◌↔◌, IsTrue, MatchOption, OnOk, drop, length};
ghost use Rattle.osm_query_web.specs.Spans.{Has, FitsSize, first_span, span_bytes};

use std::alloc::AllocError;

/// The bytes of a pack from the start on, so many of them.
#[derive(Clone, Copy, Debug, PartialEq, Eq, PartialOrd, Ord)]
pub(crate) struct Span {
    pub(crate) start: u64,
    pub(crate) len: u64,
}

impl Span {
    /// The span at the front of a table, and what is left of it; none where it has fewer than sixteen bytes.
    pub(crate) fn split(table: &[u8]) -> Option<(Span, &[u8])>
        ensures { MatchOption result (length table.now < 16)
            (λ found. (16 ≤ length table.now) × (found.0 ≡ first_span table.now)
            × (found.1.now ≡ drop 16 table.now)) }
    {
        let (start, rest) = table.split_first_chunk()?;
        let (len, rest) = rest.split_first_chunk()?;
        let span = Span {
            start: u64::from_le_bytes(*start),
            len: u64::from_le_bytes(*len),
        };
        Some((span, rest))
    }

    /// Appends the span to a table.
    pub(crate) fn put(self, table: &mut Vec<u8>) -> Result<(), AllocError>
        ensures { OnOk result (table.new.items ≡ table.old.items ++ span_bytes self) }
    {
        table.extend_from_slice(&self.start.to_le_bytes())?;
        table.extend_from_slice(&self.len.to_le_bytes())?;
        Ok(())
    }

    /// Whether a pack of so many bytes has all of it.
    pub(crate) fn is_within(self, size: u64) -> bool
        ensures { IsTrue result ↔ FitsSize size self }
    {
        self.start <= size && self.len <= size - self.start
    }

    /// Whether it has all of another one.
    pub(crate) fn has(self, other: Span) -> bool
        ensures { IsTrue result ↔ Has self other }
    {
        let Some(skipped) = other.start.checked_sub(self.start) else {
            return false;
        };
        skipped <= self.len && other.len <= self.len - skipped
    }
}
