//! The inner nodes of a tree.

ghost use Rattle.std.specs.Prelude.{◌≡◌, ◌+◌, ◌≤◌, ◌<◌, ◌^◌, [], ◌∷◌, IfOk, length, map, sum_by};
ghost use Rattle.tree_build.specs.internal.Building.{AreWithin, PutAll};
ghost use Rattle.tree_build.specs.Shapes.{shape_of};
ghost use Rattle.tree_node.specs.declared.limits.TheConstants.{ITEM_LIMIT};
ghost use Rattle.tree_node.specs.NodeRefs.{inner_of, link_of, links_of, number_of};
ghost use Rattle.tree_node.specs.Nodes.{Inner, Link, greatests_of, spelling};
ghost use Rattle.tree_node.specs.Stocks.{HasNode};
ghost use Rattle.tree_node.specs.Trees.{ends_by, is_marked_link, last_key as key_at_end, link_to, one_at_least, pieces};

use crate::cut::first_piece;
use crate::fault::BuildFault;
use crate::shape::Shape;
use std::alloc::{AllocError, Global};
use tree_node::{Child, Stock, Tree, write_inner};

/// Puts the inner nodes of this level over the children into the stock, and gives what an inner node
/// says of each.
pub(crate) fn put_level<'a>(
    alloc: Global,
    children: &[Child<'a>],
    tree: Tree,
    level: u8,
    shape: Shape,
    stock: &mut Stock,
) -> Result<Vec<Child<'a>>, BuildFault>
    requires { AreWithin (links_of children.now) }
    ensures links { let nodes = map (Inner (number_of tree) level)
        (one_at_least (pieces (ends_by (shape_of shape) is_marked_link) (links_of children.now))) in
        IfOk result (λ parents. links_of parents.items ≡ map link_to nodes) }
    ensures put { let nodes = map (Inner (number_of tree) level)
        (one_at_least (pieces (ends_by (shape_of shape) is_marked_link) (links_of children.now))) in
        PutAll result (HasNode stock.old) (HasNode stock.new) nodes }
{
    let mut parents = Vec::new(alloc);
    let mut start = 0;
    loop {
        let piece = first_piece(&children[start..], shape);
        parents.push(put_inner(alloc, tree, level, piece, stock)?)?;
        start += piece.len();
        if start == children.len() {
            return Ok(parents);
        }
    }
}

/// Puts the inner node with these children into the stock.
fn put_inner<'a>(
    alloc: Global,
    tree: Tree,
    level: u8,
    children: &[Child<'a>],
    stock: &mut Stock,
) -> Result<Child<'a>, BuildFault>
    requires few { length children.now ≤ ITEM_LIMIT }
    requires within { AreWithin (links_of children.now) }
    ensures link { IfOk result
        (λ child. link_of child ≡ link_to (inner_of tree level children.now)) }
    ensures put { PutAll result (HasNode stock.old) (HasNode stock.new)
        (inner_of tree level children.now ∷ []) }
{
    let digest = stock.put(inner_bytes(alloc, tree, level, children)?)?;
    Ok(Child {
        greatest: last_greatest(children),
        number: entries_below(children),
        digest,
    })
}

/// The bytes of the inner node with these children, in just the room that they need.
pub(crate) fn inner_bytes(
    alloc: Global,
    tree: Tree,
    level: u8,
    children: &[Child<'_>],
) -> Result<Vec<u8>, AllocError>
    requires few { length children.now ≤ ITEM_LIMIT }
    requires within { AreWithin (links_of children.now) }
    ensures { IfOk result (λ bytes. bytes.items ≡ spelling (inner_of tree level children.now)) }
{
    let mut bytes = Vec::with_capacity(alloc, inner_len(children))?;
    write_inner(tree, level, children, &mut bytes)?;
    Ok(bytes)
}

/// The last of the greatest keys of these children; of none the empty key.
pub(crate) fn last_greatest<'a>(children: &[Child<'a>]) -> &'a [u8]
    ensures { result.now ≡ key_at_end (greatests_of (links_of children.now)) }
{
    match children.last() {
        Some(child) => child.greatest,
        None => b"",
    }
}

/// The number of entries below these children.
pub(crate) fn entries_below(children: &[Child<'_>]) -> u64
    requires { AreWithin (links_of children.now) }
    ensures { result ≡ sum_by (λ (link : Link). link.number) (links_of children.now) }
{
    let mut number = 0;
    for child in children {
        number += child.number;
    }
    number
}

/// The number of bytes of the inner node with these children.
fn inner_len(children: &[Child<'_>]) -> usize
    requires few { length children.now ≤ ITEM_LIMIT }
    requires within { AreWithin (links_of children.now) }
    ensures { result
        ≡ 4 + sum_by (λ (link : Link). 42 + length link.greatest) (links_of children.now) }
{
    let mut len = 4;
    for child in children {
        len += 2 + child.greatest.len() + 8 + 32;
    }
    len
}
