//! A reader's bytes, piece by piece.

ghost use Rattle.std.specs.Prelude.{◌≡◌, ◌≤◌, ◌<◌, ◌+◌, [], length, IfOk, IfErr, OnOk, OnErr, MatchBool};
ghost use Rattle.std.specs.Io.KnownBytes.{Consumes, IsAtEnd, Keeps};
ghost use Rattle.byte_io.specs.declared.piece_reader.TheConstants.{PIECE_LIMIT, READ_LIMIT};

use std::io::Read;
use std::marker::Model;

/// The greatest number of bytes that one read asks for.
pub const PIECE_LIMIT: usize = 65_536;

/// The greatest number of reads of one reader.
pub const READ_LIMIT: u64 = 4_294_967_296;

/// Why there is no next piece.
#[derive(Clone, Copy, Debug, PartialEq, Eq)]
pub enum PieceFault {
    /// The reader failed.
    Failed,
    /// 2^32 reads were made without an end.
    Endless,
}

/// Reads the bytes of one reader in pieces of at most 65,536 bytes, and keeps the last piece. Contracts
/// see how many reads were made, and the bytes of the last one.
#[derive(Drop)]
pub struct PieceReader {
    buffer: [u8; PIECE_LIMIT],
    /// How many bytes of the buffer are the last piece.
    len: usize,
    reads: u64,
}

impl Model for PieceReader {
    ghost use Rattle.std.specs.Prelude.{◌≤◌, take};
    ghost use Rattle.byte_io.specs.PieceReads.{PieceRead};
    ghost use Rattle.byte_io.specs.declared.piece_reader.TheConstants.{PIECE_LIMIT, READ_LIMIT};

    ghost Value = { PieceRead };

    ghost view = { λ p. record { reads = p.reads; last = take p.len p.buffer } };

    ghost invariant = { λ p. (p.len ≤ PIECE_LIMIT) × (p.reads ≤ READ_LIMIT) };
}

impl PieceReader {
    /// Nothing was read yet. It takes no memory.
    pub fn new() -> PieceReader
        ensures { result ≡ record { reads = 0; last = [] } }
    {
        PieceReader {
            buffer: [0; PIECE_LIMIT],
            len: 0,
            reads: 0,
        }
    }

    /// Reads the next piece, with one read of at most 65,536 bytes, and says whether there was one: the
    /// reader ends where it gives no bytes. Give the same reader to each call.
    ///
    /// Refused with `Failed` where the read fails. After 2^32 reads it makes no further one, and is
    /// refused with `Endless`.
    pub fn read_next<R: Read>(&mut self, reader: &mut R) -> Result<bool, PieceFault>
        // The piece is what the reader has next.
        ensures read { OnOk result
            (Consumes (R.remaining reader.old) (R.remaining reader.new) self.new.last) }
        // There is one, or the reader is at its end.
        ensures more { IfOk result (λ more. MatchBool more (0 < length self.new.last)
            ((self.new.last ≡ []) × IsAtEnd (R.remaining reader.new))) }
        ensures counted { OnOk result (self.new.reads ≡ self.old.reads + 1) }
        ensures few { self.new.reads ≤ READ_LIMIT }
        // A refusal takes no byte of the reader, and leaves no piece.
        ensures kept { OnErr result (Keeps (R.remaining reader.old) (R.remaining reader.new)) }
        ensures none { OnErr result (self.new.last ≡ []) }
        ensures short { length self.new.last ≤ PIECE_LIMIT }
        // It is refused as endless only after 2^32 reads.
        ensures endless { IfErr result
            (λ fault. fault ≡ PieceFault.Endless → self.old.reads ≡ READ_LIMIT) }
    {
        self.len = 0;
        if self.reads >= READ_LIMIT {
            return Err(PieceFault::Endless);
        }
        let Ok(len) = reader.read(&mut self.buffer) else {
            return Err(PieceFault::Failed);
        };
        self.len = len;
        self.reads += 1;
        Ok(len != 0)
    }

    /// The last piece; no bytes before the first.
    pub fn last(&self) -> &[u8]
        ensures { result.now ≡ self.now.last }
    {
        &self.buffer[..self.len]
    }
}
