//! What takes the entries of trees.

ghost use Rattle.std.specs.Prelude.{◌≡◌, ◌≢◌, ◌≤◌, ◌++◌, ◌∷◌, Bool, Err, List, OnOk, [], false, length};
ghost use Rattle.tree_node.specs.Nodes.{Binding};
ghost use Rattle.tree_node.specs.declared.limits.TheConstants.{ENTRY_LIMIT};
ghost use Rattle.tree_node.specs.declared.tree.Tree.{Tree as TreeWord};
ghost use Rattle.entry_sort.specs.declared.entry_sink.SinkFault.TheVariants as faults;

use std::alloc::{AllocError, AllocFailed};
use thiserror::Error;
use tree_node::Tree;

/// Takes the entries of the trees of a set: those of a tree by rising key, each once; a tree's after those of the
/// trees before it, in the order of `Tree`.
pub trait EntrySink {
    /// The entries of each tree that were taken, in order.
    ghost taken: { Self → TreeWord → List Binding };

    /// Whether a call may be refused with `Device`. Of a device it may.
    ghost may_refuse: { Bool };

    /// What of a sink is the same from one moment to a later one.
    ghost is_same: { Self → Self → Type 0 };

    /// The entries of this tree come next, of a set of so many objects. Nothing that is taken depends on the number.
    fn begin(&mut self, tree: Tree, objects: u64)
        ensures untaken { (each : TreeWord) → taken self.new each ≡ taken self.old each }
        ensures begun { is_same self.old self.new };

    /// Takes the next entry of a tree. Refused with `TooMany` where the tree has 2^29 entries already. After a refusal
    /// nothing is known of what was taken.
    fn take(&mut self, tree: Tree, key: &[u8], value: &[u8]) -> Result<(), SinkFault>
        ensures taken { OnOk result
            (taken self.new tree ≡ taken self.old tree ++ record { key = key.now; value = value.now } ∷ []) }
        ensures others { OnOk result
            ((other : TreeWord) → other ≢ tree → taken self.new other ≡ taken self.old other) }
        ensures many { result ≡ Err SinkFault.TooMany → ENTRY_LIMIT ≤ length (taken self.old tree) }
        ensures same { OnOk result (is_same self.old self.new) }
        ensures given { may_refuse ≡ false → result ≢ Err SinkFault.Device };

    ghost itself: { (s : Self) → is_same s s };

    ghost chained: { (s t u : Self) → is_same s t → is_same t u → is_same s u };
}

/// Why entries weren't taken.
#[derive(Clone, Copy, Debug, PartialEq, Eq, Error)]
pub enum SinkFault {
    /// A tree has more than 2^29 entries.
    #[error("too many entries")]
    TooMany,
    /// Memory was refused.
    #[error("no memory")]
    Memory,
    /// A device failed.
    #[error("the device failed")]
    Device,
}

impl From<AllocError> for SinkFault {
    ghost from_gives = { λ _ fault. fault ≡ faults.Memory };

    fn from(_error: AllocError) -> SinkFault {
        SinkFault::Memory
    }
}

impl<T: Drop> From<AllocFailed<T>> for SinkFault {
    ghost from_gives = { λ _ fault. fault ≡ faults.Memory };

    fn from(_error: AllocFailed<T>) -> SinkFault {
        SinkFault::Memory
    }
}
