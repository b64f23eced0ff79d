//! An answer without a proof.

use tree_node::Digest;

/// An answer without a proof.
#[derive(Debug, Drop)]
pub struct Answered {
    /// The root of the set that was asked.
    pub root: Digest,
    /// The answer: OPL text, the query's meaning over the set.
    pub answer: Vec<u8>,
}
