//! Where the nodes of trees are read again.

use std::alloc::AllocError;
use thiserror::Error;
use tree_node::Tree;

/// Why a node isn't read again.
#[derive(Clone, Copy, Debug, PartialEq, Eq, Error)]
pub enum ReadBackFault {
    /// Memory was refused.
    #[error("no memory")]
    Memory,
    /// The device failed, or gave back what no node is.
    #[error("the device failed")]
    Device,
}

impl From<AllocError> for ReadBackFault {
    ghost use Rattle.tree_stream.specs.declared.levels_read.ReadBackFault.TheVariants.{Memory};
    ghost use Rattle.std.specs.Prelude.{◌≡◌};

    ghost from_gives = { λ _ fault. fault ≡ Memory };

    fn from(_error: AllocError) -> ReadBackFault {
        ReadBackFault::Memory
    }
}

/// How long a node is.
#[derive(Clone, Copy, Debug, PartialEq, Eq)]
pub struct NodeLen {
    /// The number of its bytes.
    pub bytes: u32,
    /// The number of its children: none of a leaf, and at most 64 of an inner node.
    pub children: u8,
}

/// The nodes of four trees, level by level, as they were written ([`NodeWriter`](crate::NodeWriter)), to be read again in their order.
/// Each level has two places from which it goes on: one for its nodes, and one for their lengths alone, which are read
/// without the nodes.
///
/// That a device gives back what it was given can be shown of memory alone (`is_true`). After a refusal nothing is known
/// of the two places.
pub trait NodeLevels {
    ghost use Rattle.std.specs.Prelude.{◌≡◌, ◌≢◌, Bool, ℕ, List, Err, IfOk, OnOk, false, true};
    ghost use Rattle.tree_node.specs.declared.tree.Tree.{Tree};
    ghost use Rattle.tree_stream.specs.ReadBack.{HasLen, IsFirst, IsSameBut};

    /// The bytes of the nodes of each level of each tree, in order.
    ghost nodes: { Self → Tree → ℕ → List (List ℕ) };

    /// Those of them that are yet to be read,
    ghost unread: { Self → Tree → ℕ → List (List ℕ) };

    /// and those whose lengths are yet to be read.
    ghost unmeasured: { Self → Tree → ℕ → List (List ℕ) };

    /// Whether a call may be refused with `Device`. Of a device it may.
    ghost may_refuse: { Bool };

    /// Whether what is read is what was written.
    ghost is_true: { Bool };

    /// Goes back to the first node of a level, and to the first length.
    fn rewind(&mut self, tree: Tree, level: u8)
        ensures nodes { nodes self.new ≡ nodes self.old }
        ensures unread { IsSameBut (unread self.old) (unread self.new) tree level (nodes self.old tree level) }
        ensures unmeasured { IsSameBut (unmeasured self.old) (unmeasured self.new) tree level (nodes self.old tree level) };

    /// Reads the next node of a level, in place of what was read, and says whether there was one.
    fn next_node(
        &mut self,
        tree: Tree,
        level: u8,
        into: &mut Vec<u8>,
    ) -> Result<bool, ReadBackFault>
        ensures read { is_true ≡ true → IfOk result (λ more.
            IsFirst (unread self.old) (unread self.new) tree level more into.new.items) }
        ensures nodes { OnOk result (nodes self.new ≡ nodes self.old) }
        ensures unmeasured { OnOk result (unmeasured self.new ≡ unmeasured self.old) }
        ensures given { is_true ≡ true → may_refuse ≡ false → result ≢ Err ReadBackFault.Device };

    /// The length of the next node of a level whose length wasn't read; none after the last.
    fn next_len(&mut self, tree: Tree, level: u8) -> Result<Option<NodeLen>, ReadBackFault>
        ensures measured { is_true ≡ true → IfOk result (λ len.
            HasLen (unmeasured self.old) (unmeasured self.new) tree level len) }
        ensures nodes { OnOk result (nodes self.new ≡ nodes self.old) }
        ensures unread { OnOk result (unread self.new ≡ unread self.old) }
        ensures given { is_true ≡ true → may_refuse ≡ false → result ≢ Err ReadBackFault.Device };
}
