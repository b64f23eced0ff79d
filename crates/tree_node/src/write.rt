//! Writing nodes as bytes.

ghost use Rattle.std.specs.Int.{to_be_bytes, w16};
ghost use Rattle.std.specs.List.{All};
ghost use Rattle.std.specs.Prelude.{◌≡◌, ◌∷◌, ◌++◌, ◌^◌, ◌<◌, ◌≤◌, OnErr, OnOk, length};
ghost use Rattle.tree_node.specs.declared.limits.TheConstants.{ITEM_LIMIT};
ghost use Rattle.tree_node.specs.NodeRefs.{binding_of, inner_of, leaf_of, number_of};
ghost use Rattle.tree_node.specs.Nodes.{FitsEntry, spelling};
ghost use Rattle.tree_node.specs.internal.Writing.{Extends};

use crate::child::Child;
use crate::item::Item;
use crate::tree::Tree;
use std::alloc::AllocError;

/// Appends the bytes of the leaf with these items (this project's form of nodes, docs/FORMATS.md). They are a node only
/// if the keys strictly rise, which this function doesn't check. If memory runs out, the vector is unchanged.
pub fn write_leaf(tree: Tree, items: &[Item<'_>], out: &mut Vec<u8>) -> Result<(), AllocError>
    requires few { length items.now ≤ ITEM_LIMIT }
    requires fit { All (λ item. FitsEntry (binding_of item)) items.now }
    ensures written { OnOk result (out.new.items ≡ out.old.items ++ spelling (leaf_of tree items.now)) }
    ensures refused { OnErr result (out.new.items ≡ out.old.items) }
{
    let before = out.len();
    let written = append_leaf(tree, items, out);
    if written.is_err() {
        out.truncate(before);
    }
    written
}

/// Appends the bytes of the inner node with these children (this project's form of nodes,
/// docs/FORMATS.md). They are a node only if there is a child, the greatest keys strictly rise, and the level and the
/// numbers of entries are in range, which this function doesn't check. If memory runs out, the vector is unchanged.
pub fn write_inner(
    tree: Tree,
    level: u8,
    children: &[Child<'_>],
    out: &mut Vec<u8>,
) -> Result<(), AllocError>
    requires few { length children.now ≤ ITEM_LIMIT }
    requires fit { All (λ child. length child.greatest.now < 2 ^ 16) children.now }
    ensures written { OnOk result
        (out.new.items ≡ out.old.items ++ spelling (inner_of tree level children.now)) }
    ensures refused { OnErr result (out.new.items ≡ out.old.items) }
{
    let before = out.len();
    let written = append_inner(tree, level, children, out);
    if written.is_err() {
        out.truncate(before);
    }
    written
}

/// Appends a leaf; out of memory it leaves what it wrote.
fn append_leaf(tree: Tree, items: &[Item<'_>], out: &mut Vec<u8>) -> Result<(), AllocError>
    requires few { length items.now ≤ ITEM_LIMIT }
    requires fit { All (λ item. FitsEntry (binding_of item)) items.now }
    ensures written { OnOk result (out.new.items ≡ out.old.items ++ spelling (leaf_of tree items.now)) }
    ensures extended { Extends out.old.items out.new.items }
{
    append_head(tree, 0, items.len() as u16, out)?;
    for item in items {
        item.append(out)?;
    }
    Ok(())
}

/// Appends an inner node; out of memory it leaves what it wrote.
fn append_inner(
    tree: Tree,
    level: u8,
    children: &[Child<'_>],
    out: &mut Vec<u8>,
) -> Result<(), AllocError>
    requires few { length children.now ≤ ITEM_LIMIT }
    requires fit { All (λ child. length child.greatest.now < 2 ^ 16) children.now }
    ensures written { OnOk result
        (out.new.items ≡ out.old.items ++ spelling (inner_of tree level children.now)) }
    ensures extended { Extends out.old.items out.new.items }
{
    append_head(tree, level, children.len() as u16, out)?;
    for child in children {
        child.append(out)?;
    }
    Ok(())
}

/// Appends the four bytes before a node's items, or nothing.
fn append_head(tree: Tree, level: u8, count: u16, out: &mut Vec<u8>) -> Result<(), AllocError>
    ensures written { OnOk result
        (out.new.items ≡ out.old.items ++ (number_of tree ∷ level ∷ to_be_bytes w16 count)) }
    ensures refused { OnErr result (out.new.items ≡ out.old.items) }
{
    let [high, low] = count.to_be_bytes();
    out.extend_from_slice(&[tree as u8, level, high, low])
}
