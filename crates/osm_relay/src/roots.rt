//! The root by which answers are checked.

ghost use Rattle.std.specs.Prelude.{◌≡◌, Bool, List, true, ℕ};
ghost use Rattle.std.specs.Str.{bytes_eq};

use tree_node::Digest;

/// Says which root is in force. A conversation keeps the one that was in force when it began.
pub trait Roots {
    /// Whether it may tell this root, now or later.
    ghost may_tell: { Self → List ℕ → Bool };

    /// The root that is in force now.
    fn root(&mut self) -> Digest
        ensures told { may_tell self.old result.0 ≡ true }
        ensures later { (root : List ℕ) → may_tell self.new root ≡ true
            → may_tell self.old root ≡ true };
}

/// One root, for good.
impl Roots for Digest {
    ghost may_tell = { λ digest root. bytes_eq digest.0 root };

    fn root(&mut self) -> Digest {
        *self
    }
}
