//! SHA-256 digests.

ghost use Rattle.std.specs.Prelude.{◌≡◌, ◌↔◌, IfSome, IsSome, length};
ghost use Rattle.tree_node.specs.Digests.{digest};

use sha2::{Digest as DigestHasher, Sha256};
use std::hash::{Hash, Hasher};

/// A SHA-256 digest (FIPS 180-4), by which a node is named. Digests are ordered by their bytes.
#[derive(Clone, Copy, Debug, PartialEq, Eq, PartialOrd, Ord)]
pub struct Digest(pub [u8; 32]);

impl Hash for Digest {
    ghost use Rattle.std.specs.Prelude.{[], ◌∷◌};
    ghost use Rattle.std.specs.Cmp.Rules.{hashing};
    ghost use Rattle.std.proofs.Common.{rules};

    ghost hash_input = { λ digest. digest.0 ∷ [] };

    ghost respects_eq = { Prim.search (hashing, rules) };

    /// All bytes at once: an array gives them one by one, and look-ups took more than three times as long.
    fn hash<H: Hasher>(&self, state: &mut H) {
        state.write(&self.0);
    }
}

/// The SHA-256 digest of these bytes. It takes no memory.
#[tactic(auto, using(crate::proofs::DigestWord::digest_is))]
pub fn digest_of(bytes: &[u8]) -> Digest
    ensures { result.0 ≡ digest bytes.now }
{
    Digest(Sha256::digest(bytes))
}

impl Digest {
    /// The digest that these bytes are; none where they aren't 32.
    pub fn from_slice(bytes: &[u8]) -> Option<Digest>
        ensures same { IfSome result (λ key. key.0 ≡ bytes.now) }
        ensures some { IsSome result ↔ (length bytes.now ≡ 32) }
    {
        if bytes.len() != 32 {
            return None;
        }
        let mut digest = [0; 32];
        digest.copy_from_slice(bytes);
        Some(Digest(digest))
    }
}
