//! Building the tree of a list.

ghost use Rattle.std.specs.Prelude.{◌≡◌, ◌⊎◌, ℕ, List, Err, IfOk, IsErr, OnOk};
ghost use Rattle.tree_build.specs.Shapes.{shape_of};
ghost use Rattle.tree_node.specs.Digests.{digest as digest_word};
ghost use Rattle.tree_node.specs.NodeRefs.{bindings_of, number_of};
ghost use Rattle.tree_node.specs.Stocks.{HasNode};
ghost use Rattle.tree_node.specs.Outcomes.{Clash, GrownByAll};
ghost use Rattle.tree_node.specs.Trees.{HasTree, IsNodeOf, levels, top_of};

use crate::Entry;
use crate::fault::BuildFault;
use crate::inner::put_level;
use crate::leaf::put_leaves;
use crate::shape::Shape;
use std::alloc::Global;
use tree_node::{Digest, Stock, Tree};

/// Puts the nodes of the tree of these entries into the stock, and gives the digest of its top (this
/// project's trees, docs/FORMATS.md). The digest stands for the list: no other list has a tree of this
/// number and shape with that top, unless two different nodes have one digest.
///
/// It is linear in the bytes of the entries, and looks a digest up for each node. It takes the memory of
/// the nodes, each made with just the room that its bytes need, and of one item for each node of the two
/// levels in hand. In the second shape it digests each key at most once.
///
/// Refused with `Clash` (N6) only if a node of the tree has the same digest as a different node of the tree or of the
/// stock, and else only with `Memory`. A tree with such a clash is never built. After a refusal the stock holds what it
/// held, and perhaps some nodes of the tree, each under its own digest; a later call with these entries builds the rest.
pub fn build(
    alloc: Global,
    entries: &[Entry<'_>],
    tree: Tree,
    shape: Shape,
    stock: &mut Stock,
) -> Result<Digest, BuildFault>
    requires { HasTree (bindings_of entries.now) }
    // It gives the digest of the top of the tree of these entries.
    ensures top { let built = levels (shape_of shape) (number_of tree)
        (bindings_of entries.now) in
        IfOk result (λ key. key.0 ≡ digest_word (top_of built)) }
    // The stock has gained the nodes of the tree and no other.
    ensures gained { let built = levels (shape_of shape) (number_of tree)
        (bindings_of entries.now) in
        OnOk result (GrownByAll (HasNode stock.old) (HasNode stock.new) (IsNodeOf built)) }
    // Whatever the result, each node that was held is held,
    ensures kept { (bytes : List ℕ) → HasNode stock.old bytes → HasNode stock.new bytes }
    // and each node that is held was held or is a node of the tree.
    ensures only_its_nodes { let built = levels (shape_of shape) (number_of tree)
        (bindings_of entries.now) in
        (bytes : List ℕ) → HasNode stock.new bytes
        → HasNode stock.old bytes ⊎ IsNodeOf built bytes }
    // Where it tells of a clash, two different nodes have one digest: a node of the tree, and a node of
    // the stock as it was or of the tree.
    ensures clash { let built = levels (shape_of shape) (number_of tree)
        (bindings_of entries.now) in
        result ≡ Err BuildFault.Clash
        → Clash (λ bytes. HasNode stock.old bytes ⊎ IsNodeOf built bytes) (IsNodeOf built) }
    // Where there is such a clash, the tree isn't built.
    ensures decided { let built = levels (shape_of shape) (number_of tree)
        (bindings_of entries.now) in
        Clash (λ bytes. HasNode stock.old bytes ⊎ IsNodeOf built bytes) (IsNodeOf built)
        → IsErr result }
{
    let mut children = put_leaves(alloc, entries, tree, shape, stock)?;
    let mut level = 1;
    while children.len() > 1 {
        children = put_level(alloc, children.as_slice(), tree, level, shape, stock)?;
        level += 1;
    }
    Ok(children[0].digest)
}
