//! A tree that was written.

use tree_node::Digest;

/// What is known of a tree whose nodes were all written.
#[derive(Drop)]
pub struct FinishedTree<W> {
    /// The digest of the top, which stands for the whole list.
    pub top: Digest,
    /// The number of levels, from 1 to 30, that of the leaves being the first.
    pub levels: u8,
    /// What took the nodes.
    pub writer: W,
}
