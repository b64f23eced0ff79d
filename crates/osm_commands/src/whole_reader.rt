//! Reading a whole file.

ghost use Rattle.std.specs.Prelude.{◌≡◌, ◌≤◌, ◌^◌, IfErr, IfOk, IfSome, OnOk, length};
ghost use Rattle.std.specs.Io.KnownBytes.{IsAtEnd};
ghost use Rattle.osm_commands.specs.Files.{FitsWithin, IsUnread, IsUnreadOrTooLarge};
ghost use Rattle.osm_commands.specs.WholeFiles.{IsReadSo, IsReadWithin, IsTooLarge, TakesWithin};
ghost use Rattle.osm_commands.specs.internal.Fronts.{IsLimited};

use crate::command_fault::CommandFault;
use crate::front_reader::read_front;
use std::alloc::Global;
use std::io::Read;

/// All bytes that the reader has left, read in pieces of at most 65,536 bytes.
///
/// Refused with `Device` where a read fails, `Endless` where 2^32 reads gave bytes and no further one is made, and
/// `Memory` where memory runs out.
pub fn read_whole<R: Read>(alloc: Global, reader: &mut R) -> Result<Vec<u8>, CommandFault>
    // What was read, piece by piece, and how that ended.
    ensures ended { IsReadSo (R.remaining reader.old) (R.remaining reader.new) result }
    // So it was read to its end, and the bytes are all that the reader had left,
    ensures end { OnOk result (IsAtEnd (R.remaining reader.new)) }
    ensures read { IfOk result (λ bytes. IfSome (R.remaining reader.old)
        (λ left. bytes.items ≡ left)) }
    ensures refused { IfErr result IsUnread }
    // and a file that is refused as endless has 2^32 bytes at least.
    ensures endless { IfSome (R.remaining reader.old) (λ left. IfErr result
        (λ fault. fault ≡ CommandFault.Endless → 2 ^ 32 ≤ length left)) }
{
    read_front(alloc, reader, u64::MAX)
}

/// All bytes that the reader has left, as [`read_whole`] gives them, where they are no more than the limit, if there is
/// one. No more bytes than the limit and one are asked for.
///
/// Refused as [`read_whole`] is, and with `TooLarge` where the reader has more bytes than the limit.
pub fn read_within<R: Read>(
    alloc: Global,
    reader: &mut R,
    limit: Option<u64>,
) -> Result<Vec<u8>, CommandFault>
    // What was read, piece by piece, and how that ended.
    ensures ended { IsReadWithin limit (R.remaining reader.old) (R.remaining reader.new) result }
    // So it was read to its end, and the bytes are all that the reader had left,
    ensures end { OnOk result (IsAtEnd (R.remaining reader.new)) }
    ensures read { IfOk result (λ bytes. IfSome (R.remaining reader.old)
        (λ left. bytes.items ≡ left)) }
    // which aren't too many.
    ensures fits { IfOk result (λ bytes. ¬ (IsTooLarge limit bytes.items)) }
    ensures fitted { OnOk result (FitsWithin limit (R.remaining reader.old)) }
    ensures refused { IfErr result IsUnreadOrTooLarge }
    // What is refused as too large is so,
    ensures too_large { IfSome (R.remaining reader.old) (λ left. IfErr result
        (λ fault. fault ≡ CommandFault.TooLarge → IsTooLarge limit left)) }
    // and what is refused as endless has 2^32 bytes at least.
    ensures endless { IfSome (R.remaining reader.old) (λ left. IfErr result
        (λ fault. fault ≡ CommandFault.Endless → 2 ^ 32 ≤ length left)) }
    // Whatever happens, no more than the limit and one byte is taken.
    ensures takes { TakesWithin limit (R.remaining reader.old) (R.remaining reader.new) }
{
    let limit = limit.unwrap_or(u64::MAX);
    limited(read_front(alloc, reader, limit), limit)
}

/// A front of more bytes than the limit is too large.
fn limited(front: Result<Vec<u8>, CommandFault>, limit: u64) -> Result<Vec<u8>, CommandFault>
    ensures { IsLimited limit front result }
{
    let bytes = front?;
    if bytes.len() as u64 > limit {
        return Err(CommandFault::TooLarge);
    }
    Ok(bytes)
}
