//! An answer with its proof.

use tree_node::Digest;

/// An answer with its proof, as a mirror gives them.
#[derive(Debug, Drop)]
pub struct Proved {
    /// The root under which the proof stands.
    pub root: Digest,
    /// The answer: OPL text, the query's meaning over the set.
    pub answer: Vec<u8>,
    /// The proof: the bytes that list the nodes from which the answer follows.
    pub proof: Vec<u8>,
}
