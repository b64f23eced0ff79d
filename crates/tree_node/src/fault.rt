//! Why bytes are no node.

use thiserror::Error;

/// Why bytes are no node (this project's form of nodes, docs/FORMATS.md).
///
/// Shown as the code alone, as in `N3`. Of several faults the first that is met is told: the tree
/// number and the level, then the number of items, then item by item in their order what is cut
/// short, a number of entries, the order of the keys, and last what follows the items.
#[derive(Clone, Copy, Debug, PartialEq, Eq, Error)]
pub enum NodeFault {
    /// N1: the bytes end before the node does, in its first four bytes or within an item.
    #[error("N1")]
    CutShort,
    /// N2: bytes follow the last item.
    #[error("N2")]
    BytesAfter,
    /// N3: more than 64 items, no item in an inner node, or a child's number of entries that isn't
    /// from 1 to 2^40.
    #[error("N3")]
    BadCount,
    /// N4: a key that isn't above the one before it.
    #[error("N4")]
    NotRising,
    /// N5: a tree number that isn't from 1 to 4, or a level above 63.
    #[error("N5")]
    BadTreeOrLevel,
}
