//! How the nodes of two publications differ.

use tree_node::Digest;

/// How the nodes of a new publication, its manifest among them, differ from those of the old one: what a
/// copy of the old nodes has to take over, and what it may drop.
#[derive(Debug, Drop)]
pub struct Delta {
    /// The digests of the nodes that the old publication doesn't have, each once.
    pub added: Vec<Digest>,
    /// The digests of the nodes that only the old publication has, each once.
    pub gone: Vec<Digest>,
}
