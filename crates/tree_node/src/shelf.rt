//! Where a walk gets the nodes of a tree.

ghost use Rattle.std.specs.Prelude.{◌≡◌, ℕ, List, Bool, true, IfOk, OnErr};
ghost use Rattle.tree_node.specs.Digests.{digest};
ghost use Rattle.tree_node.specs.Fetches.{GivesNode};
ghost use Rattle.tree_node.specs.Shelves.{GrownBy, HasNone, IsClashFree, SameNodes, Stays};

use crate::digest::Digest;
use crate::fetched::Fetched;
use thiserror::Error;

/// Why a shelf gave no node.
#[derive(Clone, Copy, Debug, PartialEq, Eq, Error)]
pub enum ShelfFault {
    /// N7: the shelf holds no node with this digest.
    #[error("N7")]
    Missing,
    /// Memory to remember the node was refused.
    #[error("no memory")]
    Memory,
}

/// A store that gives nodes by their digests and remembers which ones it gave. A walk reads a tree only through this
/// trait, so what is proved over it holds for a publisher's nodes and for a stranger's alike.
///
/// A node here is a byte string, of any form. A node that was lent outlives later fetches.
pub trait Shelf<'a> {
    /// The nodes that the shelf holds.
    ghost holds: { Self → List ℕ → Type 0 };

    /// Whether the held nodes never change. A shelf over a file or a socket counts as holding only what it has given so
    /// far, since nothing is known of the rest; so its held nodes grow.
    ghost is_fixed: { Bool };

    /// The nodes that were used: those that it gave.
    ghost used: { Self → List ℕ → Type 0 };

    /// Whether the shelf takes memory to remember the nodes that it gave, which may be refused.
    ghost takes_memory: { Bool };

    /// The node with this digest. Refused with `Missing` (N7) only if the shelf holds no node with it, and on a fixed
    /// shelf always then; out of memory only on a shelf that takes memory. A refusal changes nothing.
    fn fetch(&mut self, key: &Digest) -> Result<&'a [u8], ShelfFault>
        // What it gives is held, and has the digest asked.
        ensures given { IfOk result (λ node.
            holds self.new node.now × (digest node.now ≡ key.now.0)) }
        // The used nodes grow by just that one.
        ensures grown { IfOk result (λ node. GrownBy (used self.old) (used self.new) node.now) }
        // Whatever the result, what was used stays used.
        ensures grows { (x : List ℕ) → used self.old x → used self.new x }
        ensures unchanged { OnErr result (SameNodes (used self.old) (used self.new)) }
        // What is held stays held, and on a fixed shelf nothing else comes to be held.
        ensures stays { Stays is_fixed (holds self.old) (holds self.new) }
        ensures missing { result ≡ Err ShelfFault.Missing → HasNone (holds self.new) key.now.0 }
        ensures none { is_fixed ≡ true → HasNone (holds self.new) key.now.0
            → result ≡ Err ShelfFault.Missing }
        ensures memory { result ≡ Err ShelfFault.Memory → takes_memory ≡ true };

    /// As `fetch`, and also gives what reading the node as one of a tree gives. The bytes count as used whether or not
    /// they are a node of a tree. A shelf may remember what it read, and then doesn't read the same node again.
    fn fetch_node(&mut self, key: &Digest) -> Result<Fetched<'a>, ShelfFault>
        // What it gives is held, and has the digest asked. The used nodes grow by just that one.
        ensures given { IfOk result (GivesNode
            (record { held = holds self.new; before = used self.old; after = used self.new }) key.now.0) }
        // Whatever the result, what was used stays used.
        ensures grows { (x : List ℕ) → used self.old x → used self.new x }
        ensures unchanged { OnErr result (SameNodes (used self.old) (used self.new)) }
        // What is held stays held, and on a fixed shelf nothing else comes to be held.
        ensures stays { Stays is_fixed (holds self.old) (holds self.new) }
        ensures missing { result ≡ Err ShelfFault.Missing → HasNone (holds self.new) key.now.0 }
        ensures none { is_fixed ≡ true → HasNone (holds self.new) key.now.0
            → result ≡ Err ShelfFault.Missing }
        ensures memory { result ≡ Err ShelfFault.Memory → takes_memory ≡ true };

    /// A hint: the entries of the tree with this top whose keys are from `lo` to `hi` will be asked for. Nothing changes
    /// that contracts speak of; a shelf over something slow may bring what they need, for all that was announced at once.
    fn announce(&mut self, top: &Digest, lo: &[u8], hi: &[u8])
        ensures stays { Stays is_fixed (holds self.old) (holds self.new) }
        ensures used { SameNodes (used self.old) (used self.new) };

    /// A shelf holds no two nodes with one digest.
    ghost clash_free: { (s : Self) → IsClashFree (holds s) };

    /// Each used node is held.
    ghost used_held: { (s : Self) (x : List ℕ) → used s x → holds s x };
}

/// A shelf whose held nodes never change.
pub trait FixedShelf<'a>: Shelf<'a> {
    /// Its nodes are fixed.
    ghost fixed: { Self.is_fixed ≡ true };
}
