//! The leaves of a tree.

ghost use Rattle.std.specs.List.{AllByRecursion};
ghost use Rattle.std.specs.Prelude.{◌≡◌, ◌≤◌, ℕ, [], ◌∷◌, IfOk, length, map};
ghost use Rattle.tree_build.specs.internal.Building.{PutAll};
ghost use Rattle.tree_build.specs.Shapes.{shape_of};
ghost use Rattle.tree_node.specs.declared.limits.TheConstants.{ITEM_LIMIT};
ghost use Rattle.tree_node.specs.NodeRefs.{bindings_of, leaf_of, link_of, links_of, number_of};
ghost use Rattle.tree_node.specs.Nodes.{Leaf, keys_of, spelling};
ghost use Rattle.tree_node.specs.Stocks.{HasNode};
ghost use Rattle.tree_node.specs.Trees.{FitsTree, last_key as key_at_end, leaves, link_to};

use crate::Entry;
use crate::cut::first_piece;
use crate::fault::BuildFault;
use crate::shape::Shape;
use std::alloc::{AllocError, Global};
use tree_node::{Child, Stock, Tree, write_leaf};

/// Puts the leaves over the entries into the stock, and gives what an inner node says of each.
pub(crate) fn put_leaves<'a>(
    alloc: Global,
    entries: &[Entry<'a>],
    tree: Tree,
    shape: Shape,
    stock: &mut Stock,
) -> Result<Vec<Child<'a>>, BuildFault>
    requires { AllByRecursion FitsTree (bindings_of entries.now) }
    ensures links { let nodes = leaves (shape_of shape) (number_of tree)
        (bindings_of entries.now) in
        IfOk result (λ children. links_of children.items ≡ map link_to nodes) }
    ensures put { let nodes = leaves (shape_of shape) (number_of tree) (bindings_of entries.now) in
        PutAll result (HasNode stock.old) (HasNode stock.new) nodes }
{
    let mut children = Vec::new(alloc);
    let mut start = 0;
    loop {
        let piece = first_piece(&entries[start..], shape);
        children.push(put_leaf(alloc, tree, piece, stock)?)?;
        start += piece.len();
        if start == entries.len() {
            return Ok(children);
        }
    }
}

/// Puts the leaf with these entries into the stock. What is said of a leaf without entries has the
/// number 0 and no key, and is in no node: such a leaf is the top.
fn put_leaf<'a>(
    alloc: Global,
    tree: Tree,
    entries: &[Entry<'a>],
    stock: &mut Stock,
) -> Result<Child<'a>, BuildFault>
    requires few { length entries.now ≤ ITEM_LIMIT }
    requires fit { AllByRecursion FitsTree (bindings_of entries.now) }
    ensures link { IfOk result (λ child. link_of child ≡ link_to (leaf_of tree entries.now)) }
    ensures put { PutAll result (HasNode stock.old) (HasNode stock.new)
        (leaf_of tree entries.now ∷ []) }
{
    let digest = stock.put(leaf_bytes(alloc, tree, entries)?)?;
    Ok(Child {
        greatest: last_key(entries),
        number: entries.len() as u64,
        digest,
    })
}

/// The bytes of the leaf with these entries, in just the room that they need.
pub(crate) fn leaf_bytes(
    alloc: Global,
    tree: Tree,
    entries: &[Entry<'_>],
) -> Result<Vec<u8>, AllocError>
    requires few { length entries.now ≤ ITEM_LIMIT }
    requires fit { AllByRecursion FitsTree (bindings_of entries.now) }
    ensures { IfOk result (λ bytes. bytes.items ≡ spelling (leaf_of tree entries.now)) }
{
    let mut bytes = Vec::with_capacity(alloc, leaf_len(entries))?;
    write_leaf(tree, entries, &mut bytes)?;
    Ok(bytes)
}

/// The last key of these entries; of none the empty one.
fn last_key<'a>(entries: &[Entry<'a>]) -> &'a [u8]
    ensures { result.now ≡ key_at_end (keys_of (bindings_of entries.now)) }
{
    match entries.last() {
        Some(entry) => entry.key,
        None => b"",
    }
}

/// The number of bytes of the leaf with these entries.
fn leaf_len(entries: &[Entry<'_>]) -> usize
    requires few { length entries.now ≤ ITEM_LIMIT }
    requires fit { AllByRecursion FitsTree (bindings_of entries.now) }
    ensures { (tree : ℕ) → result ≡ length (spelling (Leaf tree (bindings_of entries.now))) }
{
    let mut len = 4;
    for entry in entries {
        len += 2 + entry.key.len() + 4 + entry.value.len();
    }
    len
}
