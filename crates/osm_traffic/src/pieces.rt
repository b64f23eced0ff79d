//! How what is read is cut into pieces.

ghost use Rattle.std.specs.Prelude.{◌≡◌, ◌<◌, ◌≤◌, length, take};
ghost use Rattle.osm_gate.specs.Pieces.{IsCut, cut_length};

use http_messages::head_end;

/// Puts the front of the bytes into the piece, up to the first empty line and with it, as far as there is room, and tells
/// how long it is. It takes no memory.
pub fn give_piece(bytes: &[u8], piece: &mut [u8]) -> usize
    ensures same { take result piece.new ≡ take result bytes.now }
    ensures some { 0 < length bytes.now → 0 < length piece.old → 0 < result }
    ensures given { result ≤ length bytes.now }
    ensures room { result ≤ length piece.old }
    // Nothing in it comes after an empty line.
    ensures cut { IsCut (take result piece.new) }
{
    let room = bytes.len().min(piece.len());
    let count = cut(&bytes[..room]);
    piece[..count].copy_from_slice(&bytes[..count]);
    count
}

/// The length of what comes up to the first empty line, and with it.
fn cut(bytes: &[u8]) -> usize
    ensures { result ≡ cut_length bytes.now }
{
    head_end(bytes, 0).unwrap_or(bytes.len())
}
