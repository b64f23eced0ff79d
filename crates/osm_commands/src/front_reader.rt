//! Reading the front of a file.

ghost use Rattle.std.specs.Prelude.{◌≡◌, ◌<◌, ◌≤◌, ◌+◌, IfOk, length, min};
ghost use Rattle.std.specs.Io.KnownBytes.{ReadConsumes};
ghost use Rattle.osm_commands.specs.internal.Fronts.{IsFrontRead};

use crate::command_fault::CommandFault;
use std::alloc::Global;
use std::io;
use std::io::Read;

/// The greatest number of bytes that one read asks for.
const PIECE_LIMIT: usize = 65_536;

/// The greatest number of reads of one file.
const READ_LIMIT: u64 = 4_294_967_296;

/// The bytes that the reader has left, up to the first one beyond the limit: all of them where they are no more than the
/// limit, else one more than that. They are read in pieces of at most 65,536 bytes, and no byte beyond is asked for.
///
/// Refused with `Device` where a read fails, `Endless` where 2^32 reads gave bytes and no further one is made, and
/// `Memory` where memory runs out.
pub(crate) fn read_front<R: Read>(
    alloc: Global,
    reader: &mut R,
    limit: u64,
) -> Result<Vec<u8>, CommandFault>
    ensures { IsFrontRead limit (R.remaining reader.old) (R.remaining reader.new) result }
{
    let mut bytes = Vec::new(alloc);
    let mut piece = [0; PIECE_LIMIT];
    let mut room = limit;
    let mut reads = 0;
    while reads < READ_LIMIT {
        let Ok(n) = read_piece(reader, &mut piece, room) else {
            return Err(CommandFault::Device);
        };
        if n == 0 {
            return Ok(bytes);
        }
        bytes.extend_from_slice(&piece[..n])?;
        let count = n as u64;
        if count > room {
            return Ok(bytes);
        }
        room -= count;
        reads += 1;
    }
    Err(CommandFault::Endless)
}

/// Reads into the front of the piece, no more than fits there, and no more than `room` bytes and one.
fn read_piece<R: Read>(reader: &mut R, piece: &mut [u8], room: u64) -> io::Result<usize>
    requires { 0 < length piece.old }
    ensures bound { IfOk result (λ n. (n ≤ length piece.new) × (n ≤ room + 1)) }
    ensures bytes { ReadConsumes (R.remaining reader.old) (R.remaining reader.new) result piece.new }
{
    let most = asked_len(piece.len(), room);
    let n = reader.read(&mut piece[..most])?;
    Ok(n)
}

/// How many bytes are asked for: as many as fit into the piece, and no more than `room` and one.
fn asked_len(piece_len: usize, room: u64) -> usize
    ensures { result ≡ min piece_len (room + 1) }
{
    if room < piece_len as u64 {
        room as usize + 1
    } else {
        piece_len
    }
}
