//! The four trees.

ghost use Rattle.tree_node.specs.NodeRefs.{number_of};
ghost use Rattle.tree_node.specs.internal.Reading.{Gives, tree_at};

use crate::fault::NodeFault;

/// Which of the four trees of a set of objects a node belongs to; the number is the first byte of
/// each of its nodes.
#[derive(Clone, Copy, Debug, PartialEq, Eq, PartialOrd, Ord, Hash)]
pub enum Tree {
    /// Objects by reference.
    Objects = 1,
    /// References of objects by tag.
    Tags = 2,
    /// Nodes of the map by the cell that they lie in.
    Cells = 3,
    /// References of the objects that name an object.
    Backs = 4,
}

impl Tree {
    /// The tree with this number; no other number than 1 to 4 is one (N5).
    pub(crate) fn from_number(number: u8) -> Result<Tree, NodeFault>
        ensures { Gives number_of result (tree_at number) }
    {
        match number {
            1 => Ok(Tree::Objects),
            2 => Ok(Tree::Tags),
            3 => Ok(Tree::Cells),
            4 => Ok(Tree::Backs),
            _ => Err(NodeFault::BadTreeOrLevel),
        }
    }
}
