//! A pack that is read from pieces.

ghost use Rattle.std.specs.Prelude.{◌≡◌, ◌++◌, ◌⊎◌, ℕ, IfErr, IfOk, List, OnOk, Ok, drop, length, take, true};

use crate::pieces::Pieces;
use crate::span::Span;
use node_pack::{Place, ReadAt, ReadFault};
use std::alloc::{AllocError, Global};
use std::cell::Cell;

/// How many missing spans are noted at most.
const MISSED_LIMIT: usize = 65_536;

/// Reads a pack from those pieces of it that are at hand, and notes which spans are missing.
#[derive(Drop)]
pub(crate) struct PieceReader<'a> {
    pub(crate) alloc: Global,
    pub(crate) pieces: &'a Pieces<'a>,
    /// What was to be read and isn't in one piece. It is read by the caller once the reader is gone.
    pub(crate) missed: &'a Cell<Vec<Span>>,
}

impl PieceReader<'_> {
    /// Notes a span, if it is missing and there is room for it.
    fn note(&self, span: Span) -> Result<(), AllocError> {
        if !self.pieces.lacks(span) {
            return Ok(());
        }
        let mut missed = self.missed.replace(Vec::new(self.alloc));
        let noted = if missed.len() < MISSED_LIMIT {
            missed.push(span)
        } else {
            Ok(())
        };
        self.missed.set(missed);
        noted?;
        Ok(())
    }
}

impl ReadAt for PieceReader<'_> {
    ghost use Rattle.osm_query_web.specs.Pieces.{IsMissing, total_len};
    ghost use Rattle.osm_query_web.specs.internal.Reading.{AreOf, ArePiecesOf};
    ghost use Rattle.osm_query_web.specs.declared.span.Span.{Span};

    ghost reads = { λ reader file. ArePiecesOf reader.pieces.now file };

    /// It doesn't fail.
    fn size(&mut self) -> Result<u64, ReadFault>
        ensures size { (bytes : List ℕ) → ArePiecesOf self.old.pieces.now bytes
            → IfOk result (λ size. size ≡ length bytes) }
        ensures stays { (bytes : List ℕ) → ArePiecesOf self.old.pieces.now bytes
            → ArePiecesOf self.new.pieces.now bytes }
        ensures is { result ≡ Ok self.old.pieces.now.size }
    {
        Ok(self.pieces.size)
    }

    /// Refused with `Device` where no piece has all these bytes, which is noted if the pack has them, and else for memory
    /// alone.
    fn read_at(&mut self, offset: u64, len: usize, into: &mut Vec<u8>) -> Result<(), ReadFault>
        ensures read { (bytes : List ℕ) → ArePiecesOf self.old.pieces.now bytes → OnOk result
            (into.new.items ≡ into.old.items ++ take len (drop offset bytes)) }
        ensures stays { (bytes : List ℕ) → ArePiecesOf self.old.pieces.now bytes
            → ArePiecesOf self.new.pieces.now bytes }
        ensures refused { (spans : List Span) → AreOf spans self.old.pieces.now
            → total_len spans ≡ length self.old.pieces.now.bytes.now
            → IfErr result (λ fault. (fault ≡ ReadFault.Memory)
            ⊎ ((fault ≡ ReadFault.Device)
            × IsMissing spans (record { start = offset; len = len }))) }
    {
        if len == 0 {
            return Ok(());
        }
        let wanted = Span {
            start: offset,
            len: len as u64,
        };
        let Some(part) = self.pieces.find(wanted) else {
            self.note(wanted)?;
            return Err(ReadFault::Device);
        };
        into.extend_from_slice(part)?;
        Ok(())
    }

    /// What is missing takes a round trip.
    fn is_remote(&self) -> bool
        ensures { result ≡ true }
    {
        true
    }

    /// What is missing of these places is noted, as far as there is memory for it: what isn't noted is so when it is read.
    fn expect(&mut self, places: &[Place])
        ensures stays { (bytes : List ℕ) → ArePiecesOf self.old.pieces.now bytes
            → ArePiecesOf self.new.pieces.now bytes }
    {
        for place in places {
            let span = Span {
                start: place.at,
                len: u64::from(place.len),
            };
            if self.note(span).is_err() {
                return;
            }
        }
    }
}
