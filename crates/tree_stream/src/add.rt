//! Adding nodes to a tree.

ghost use Rattle.std.specs.Prelude.{◌≡◌, ◌++◌, ◌∷◌, ◌≤◌, ◌<◌, [], ℕ, List, OnOk, length};
ghost use Rattle.tree_build.specs.Shapes.{shape_of};
ghost use Rattle.tree_node.specs.NodeRefs.{link_of, number_of};
ghost use Rattle.tree_node.specs.Nodes.{Link, Node};
ghost use Rattle.tree_node.specs.Trees.{link_to};
ghost use Rattle.tree_stream.specs.internal.Holding.{HoldsAt};
ghost use Rattle.tree_stream.specs.internal.Opening.{AreOpen, CanAdd};

use crate::ends::inner_ends;
use crate::fault::WriterFault;
use crate::level::OpenLevel;
use crate::levels::{push_at, write_at};
use crate::writer::NodeWriter;
use std::alloc::Global;
use tree_build::Shape;
use tree_node::{Child, Tree};

/// Adds a node of level `at`, which was written, to the levels over it, and writes the nodes that it completes there. It
/// calls itself once for each of these, at most 30 times.
pub(crate) fn add<W: NodeWriter>(
    alloc: Global,
    tree: Tree,
    shape: Shape,
    levels: &mut Vec<OpenLevel>,
    at: usize,
    child: &Child<'_>,
    writer: &mut W,
) -> Result<(), WriterFault>
    requires { (nodes : List Node) × (node : Node) × CanAdd (shape_of shape) (number_of tree) at nodes node
        (link_of child.now) levels.old.items (W.given writer.old) }
    ensures added { (nodes : List Node) (node : Node) → CanAdd (shape_of shape) (number_of tree) at nodes node
        (link_of child.now) levels.old.items (W.given writer.old)
        → OnOk result (AreOpen (shape_of shape) (number_of tree) at (nodes ++ node ∷ [])
        levels.new.items (W.given writer.new)) }
    ensures below { OnOk result ((place : ℕ) (links : List Link) → place < at
        → HoldsAt levels.old.items place links → HoldsAt levels.new.items place links) }
    ensures given { OnOk result ((level : ℕ) → level ≤ at
        → W.given writer.new level ≡ W.given writer.old level) }
    ensures reach { OnOk result (at < length levels.new.items) }
{
    let number = push_at(alloc, levels, at, child)?;
    if !inner_ends(shape, number, &child.digest) {
        return Ok(());
    }
    let sum = write_at(alloc, tree, levels, at, writer)?;
    let parent = Child {
        greatest: child.greatest,
        number: sum.number,
        digest: sum.digest,
    };
    add(alloc, tree, shape, levels, at + 1, &parent, writer)
}
