//! Reading the file of a query.

ghost use Rattle.std.specs.Prelude.{IfErr, IfOk, IfSome, OnOk, ◌+◌, ◌≡◌, ◌⊎◌};
ghost use Rattle.osm_commands.specs.WholeFiles.{IsQueryRead, ReadsAs, TakesAtMost, longest_query};

use crate::command_fault::CommandFault;
use crate::front_reader::read_front;
use std::alloc::Global;
use std::io::Read;

/// The greatest number of bytes that a query has.
const QUERY_LIMIT: u64 = 65_536;

/// The bytes of a query, up to the 65,537th: a longer file is refused as a query whatever follows, so no more of it is asked
/// for.
///
/// Refused with `Device` where a read fails, and `Memory` where memory runs out.
pub fn read_query<R: Read>(alloc: Global, reader: &mut R) -> Result<Vec<u8>, CommandFault>
    // The bytes are all that the reader had left, or as many of them as show that they are too many.
    ensures read { IfOk result (λ bytes. IfSome (R.remaining reader.old) (ReadsAs bytes.items)) }
    ensures end { OnOk result (IsQueryRead (R.remaining reader.old) (R.remaining reader.new)) }
    ensures refused { IfErr result (λ fault. (fault ≡ CommandFault.Memory)
        ⊎ (fault ≡ CommandFault.Device)) }
    // Whatever happens, no more than a byte beyond the longest query is taken.
    ensures takes { TakesAtMost (longest_query + 1) (R.remaining reader.old) (R.remaining reader.new) }
{
    read_front(alloc, reader, QUERY_LIMIT)
}
