//! What a conversation goes by.

use tree_node::Digest;

/// What a conversation goes by: the root that is in force when its client comes, and the budget that the check of each proof
/// has, if there is one.
#[derive(Clone, Copy)]
pub struct Terms {
    pub root: Digest,
    pub most: Option<u64>,
}
