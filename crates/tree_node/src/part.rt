//! A node beside its digest.

ghost use Rattle.std.specs.Prelude.{◌≡◌};
ghost use Rattle.tree_node.specs.Digests.{digest as digest_word};

use crate::digest::{Digest, digest_of};

/// A node's bytes with their digest: the type keeps that the digest is that of the bytes, so it is
/// computed once. The bytes are borrowed.
#[derive(Clone, Copy, Debug)]
pub struct Part<'a> {
    digest: Digest,
    bytes: &'a [u8],
    ghost own: { digest.0 ≡ digest_word bytes.now },
}

impl<'a> Part<'a> {
    ghost use Rattle.tree_node.specs.Parts.{node_of};
    ghost use Rattle.tree_node.specs.internal.Pairs.{pair_of};

    /// These bytes with their digest, which it computes. It takes no memory.
    pub fn new(bytes: &'a [u8]) -> Part<'a>
        ensures { node_of result ≡ bytes.now }
    {
        Part {
            digest: digest_of(bytes),
            bytes,
        }
    }

    /// These bytes with this digest, where it is theirs.
    pub(crate) fn with_digest(digest: Digest, bytes: &'a [u8]) -> Part<'a>
        requires { digest.0 ≡ digest_word bytes.now }
        ensures { pair_of result ≡ (digest, bytes.entry) }
    {
        Part { digest, bytes }
    }

    /// The digest of the bytes; it isn't computed again.
    pub fn digest(&self) -> Digest
        ensures { result.0 ≡ digest_word (node_of self.now) }
    {
        self.digest
    }

    /// The bytes.
    pub fn bytes(&self) -> &'a [u8]
        ensures { result.now ≡ node_of self.now }
    {
        self.bytes
    }
}
