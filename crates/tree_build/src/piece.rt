//! New nodes, as they are made.

ghost use Rattle.std.specs.Prelude.{◌≡◌};

use tree_node::{Child, NewNode};

/// A node that was made of a piece of a level's items, and what its parent says of it.
#[derive(Drop)]
pub(crate) struct NewPiece<'c> {
    pub(crate) node: NewNode,
    /// The greatest key below the node.
    pub(crate) greatest: &'c [u8],
    /// The number of entries below the node.
    pub(crate) number: u64,
}

impl<'c> NewPiece<'c> {
    ghost use Rattle.tree_build.specs.internal.Edits.{IsNewNode};
    ghost use Rattle.tree_node.specs.NodeRefs.{link_of};
    ghost use Rattle.tree_node.specs.Nodes.{Node};
    ghost use Rattle.tree_node.specs.Trees.{link_to};

    /// What an inner node says of it.
    pub(crate) fn child(&self) -> Child<'c>
        ensures { (node : Node) → IsNewNode self.now node → link_of result ≡ link_to node }
    {
        Child {
            greatest: self.greatest,
            number: self.number,
            digest: self.node.digest,
        }
    }
}
