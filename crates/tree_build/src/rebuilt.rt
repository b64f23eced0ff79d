//! What a rebuild gives.

use tree_node::{Digest, NewNode};

/// What a rebuild gives: the new tree's top, and how its nodes differ from those of the old tree.
#[derive(Drop)]
pub struct Rebuilt {
    /// The digest of the new tree's top.
    pub top: Digest,
    /// The nodes of the new tree that the old one doesn't have, each once.
    pub added: Vec<NewNode>,
    /// The digests of the old tree's nodes that the new one doesn't have, each once.
    pub gone: Vec<Digest>,
}
