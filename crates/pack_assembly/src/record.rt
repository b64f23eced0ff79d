//! How long records are.

ghost use Rattle.std.specs.Prelude.{◌≡◌, ◌≤◌, ◌<◌, ◌+◌, ◌*◌, ◌^◌, MatchOption};

use node_pack::Place;
use tree_stream::NodeLen;

/// How many nodes a level may have, and one more.
pub(crate) const LEVEL_CALLS: usize = 536_870_913;

/// The number of bytes of the record of a node of this length, which is below 2^32; none where it isn't.
pub(crate) fn record_len(len: NodeLen) -> Option<u32>
    ensures { MatchOption result (2 ^ 32 ≤ 4 + (len.bytes + 12 * len.children))
        (λ bytes. (bytes ≡ 4 + (len.bytes + 12 * len.children)) × (bytes < 2 ^ 32)) }
{
    let table = 12 * u32::from(len.children);
    len.bytes.checked_add(table + 4)
}
