//! The nodes that hints lead to.

use tree_node::Digest;

/// A node that a hint leads to, and the keys of the hint.
#[derive(Clone, Copy)]
pub(crate) struct Step<'h> {
    /// The node's digest.
    pub(crate) key: Digest,
    /// The least key that was announced.
    pub(crate) lo: &'h [u8],
    /// The greatest key that was announced.
    pub(crate) hi: &'h [u8],
    /// Whether the node is known to be a leaf, so that nothing stands below it.
    pub(crate) is_leaf: bool,
}
