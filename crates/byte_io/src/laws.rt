//! Laws: what the limits are.

ghost use Rattle.std.specs.Prelude.{◌≡◌, ◌^◌};
ghost use Rattle.byte_io.specs.declared.piece_reader.TheConstants.{PIECE_LIMIT, READ_LIMIT};

/// A law: the limits of reading, as numbers: the bytes of a piece, and the reads of one reader.
pub fn limits_law()
    ensures piece { PIECE_LIMIT ≡ 65536 }
    ensures reads { READ_LIMIT ≡ 2 ^ 32 }
{}
