//! An owned node beside its digest.

ghost use Rattle.std.specs.Prelude.{◌≡◌};
ghost use Rattle.tree_node.specs.Digests.{digest as digest_word};

use crate::digest::{Digest, digest_of};

/// A new node's bytes with their digest: the type keeps that the digest is that of the bytes, so it is
/// computed once.
#[derive(Drop)]
pub struct NewNode {
    /// The digest of the bytes.
    pub digest: Digest,
    /// The node's bytes.
    pub bytes: Vec<u8>,
    ghost own: { digest.0 ≡ digest_word bytes.items },
}

impl NewNode {
    /// These bytes with their digest, which it computes. It takes no memory.
    pub fn new(bytes: Vec<u8>) -> NewNode
        ensures { result.bytes ≡ bytes }
    {
        let digest = digest_of(bytes.as_slice());
        NewNode { digest, bytes }
    }
}
