//! What is said of a node that was written.

use tree_node::Digest;

/// What an inner node says of a node that was written, beside its greatest key.
#[derive(Clone, Copy)]
pub(crate) struct NodeSum {
    /// The number of entries below the node.
    pub(crate) number: u64,
    /// The digest of the node's bytes.
    pub(crate) digest: Digest,
}
