//! Items of a level of a tree, and changes of them.

ghost use Rattle.std.specs.List.{AllByRecursion};
ghost use Rattle.std.specs.Prelude.{◌≡◌, ◌≤◌, ◌++◌, ◌↔◌, ℕ, List, Bool, IfOk, IsTrue, length, map, refl};
ghost use Rattle.tree_build.specs.internal.ItemChanges.{change_meant, changes_meant};
ghost use Rattle.tree_build.specs.internal.RisingChanges.{AreOwnAndRising, IsOwn};
ghost use Rattle.tree_build.specs.internal.Unmarked.{IsUnmarkedInside};
ghost use Rattle.tree_node.specs.declared.limits.TheConstants.{ITEM_LIMIT};
ghost use Rattle.tree_node.specs.NodeRefs.{node_read, number_of};
ghost use Rattle.tree_node.specs.Nodes.{Node, spelling};
ghost use Rattle.tree_node.specs.Trees.{entry_count, greatest_of};

use crate::cut::Cut;
use crate::fits::{all_fit, are_within};
use crate::inner::{entries_below, inner_bytes, last_greatest};
use crate::leaf::leaf_bytes;
use crate::leaf_item::{LeafItem, entries_of, old_items};
use std::alloc::{AllocError, Global};
use tree_node::{Child, NodeRef, Tree, is_above};

/// What nodes are written of: the entries of a leaf, or what an inner node says of its children.
pub(crate) trait NodeItem: Cut + Copy {
    /// What an item is, without where it lies in memory.
    ghost Meaning: { Type 0 };

    ghost meaning: { Self → Meaning };

    /// The key that the items of a level are ordered by.
    ghost key_of: { Self → List ℕ };

    ghost key_in: { Meaning → List ℕ };

    ghost marked_in: { Meaning → Bool };

    /// What the item knows of its mark is so.
    ghost knows_mark: { Self → Type 0 };

    /// The items of a node.
    ghost items_in: { Node → List Meaning };

    /// The node of this tree and level with these items.
    ghost node_over: { ℕ → ℕ → List Meaning → Node };

    /// A node of these items can be written.
    ghost Fit: { List Meaning → Type 0 };

    /// The bytes of the node with these items.
    fn bytes_of(alloc: Global, tree: Tree, level: u8, items: &[Self]) -> Result<Vec<u8>, AllocError>
        requires few { length items.now ≤ ITEM_LIMIT }
        requires fit { Fit (map meaning items.now) }
        ensures { IfOk result (λ bytes. bytes.items
            ≡ spelling (node_over (number_of tree) level (map meaning items.now))) };

    /// The number of entries that they are or that are below them.
    fn number(items: &[Self]) -> u64
        requires { Fit (map meaning items.now) }
        ensures { (tree level : ℕ)
            → result ≡ entry_count (node_over tree level (map meaning items.now)) };

    /// Whether a node of all these items could be written, however many they are.
    fn fit(before: &[Self], items: &[Self]) -> bool
        ensures { IsTrue result ↔ Fit (map meaning before.now ++ map meaning items.now) };

    /// The key is that of what the item is,
    ghost keys: { (item : Self) → key_of item ≡ key_in (meaning item) };

    /// and so is the mark that it tells, if what it knows of it is so.
    ghost marks: { (item : Self) → knows_mark item → Self.marked item ≡ marked_in (meaning item) };

    /// A node of a part of items that fit can be written.
    ghost parts: { (items others : List Meaning) → Fit (items ++ others) → Fit items × Fit others };

    /// The items of the node that is made of some are these.
    ghost same_items: { (tree level : ℕ) (items : List Meaning)
        → items_in (node_over tree level items) ≡ items };
}

/// The items of the nodes of a level, which lie in the bytes of nodes or in changes.
pub(crate) trait LevelItem<'x>: NodeItem {
    /// The item's key.
    fn key(&self) -> &'x [u8]
        ensures { result.now ≡ Self.key_of self.now };

    /// The last of their keys; of none the empty one.
    fn greatest(items: &[Self]) -> &'x [u8]
        ensures { (tree level : ℕ)
            → result.now ≡ greatest_of (Self.node_over tree level (map Self.meaning items.now)) };

    /// The items of a node of the level.
    fn items_of(alloc: Global, node: NodeRef<'x>) -> Result<Vec<Self>, AllocError>
        ensures items { IfOk result (λ items.
            map Self.meaning items.items ≡ Self.items_in (node_read node.entry)) }
        ensures known { IsUnmarkedInside (node_read node.entry)
            → IfOk result (λ items. AllByRecursion Self.knows_mark items.items) };
}

impl<'x> NodeItem for LeafItem<'x> {
    ghost use Rattle.tree_build.specs.internal.FitLaws.{entries_parts, mark_law};
    ghost use Rattle.tree_build.specs.internal.LeafItems.{KnowsItsMark, entry_of};
    ghost use Rattle.tree_node.specs.Nodes.{Binding, Leaf};
    ghost use Rattle.tree_node.specs.Trees.{FitsTree, entries_in, is_marked_entry};

    ghost Meaning = { Binding };

    ghost meaning = { entry_of };

    ghost key_of = { λ item. item.entry.key.now };

    ghost key_in = { λ (entry : Binding). entry.key };

    ghost marked_in = { is_marked_entry };

    ghost knows_mark = { KnowsItsMark };

    ghost items_in = { entries_in };

    ghost node_over = { λ tree level entries. Leaf tree entries };

    ghost Fit = { AllByRecursion FitsTree };

    ghost keys = { λ item. refl };

    ghost marks = { mark_law };

    ghost parts = { entries_parts };

    ghost same_items = { λ tree level items. refl };

    fn bytes_of(
        alloc: Global,
        tree: Tree,
        _level: u8,
        items: &[Self],
    ) -> Result<Vec<u8>, AllocError> {
        let entries = entries_of(alloc, items)?;
        leaf_bytes(alloc, tree, entries.as_slice())
    }

    fn number(items: &[Self]) -> u64 {
        items.len() as u64
    }

    fn fit(before: &[Self], items: &[Self]) -> bool {
        all_fit(before) && all_fit(items)
    }
}

impl<'x> LevelItem<'x> for LeafItem<'x> {
    fn key(&self) -> &'x [u8] {
        self.entry.key
    }

    fn greatest(items: &[Self]) -> &'x [u8] {
        match items.last() {
            Some(item) => item.entry.key,
            None => b"",
        }
    }

    fn items_of(alloc: Global, node: NodeRef<'x>) -> Result<Vec<Self>, AllocError> {
        match node {
            NodeRef::Leaf { entries, .. } => old_items(alloc, entries),
            NodeRef::Inner { .. } => Ok(Vec::new(alloc)),
        }
    }
}

impl<'x> NodeItem for Child<'x> {
    ghost use Rattle.std.specs.Prelude.{⊤};
    ghost use Rattle.tree_build.specs.internal.Building.{AreWithin};
    ghost use Rattle.tree_build.specs.internal.FitLaws.{links_parts};
    ghost use Rattle.tree_node.specs.NodeRefs.{link_of};
    ghost use Rattle.tree_node.specs.Nodes.{Inner, Link};
    ghost use Rattle.tree_node.specs.Trees.{is_marked_link, links_in};

    ghost Meaning = { Link };

    ghost meaning = { link_of };

    ghost key_of = { λ child. child.greatest.now };

    ghost key_in = { λ (link : Link). link.greatest };

    ghost marked_in = { is_marked_link };

    ghost knows_mark = { λ child. ⊤ };

    ghost items_in = { links_in };

    ghost node_over = { Inner };

    ghost Fit = { AreWithin };

    ghost keys = { λ child. refl };

    ghost marks = { λ child known. refl };

    ghost parts = { links_parts };

    ghost same_items = { λ tree level items. refl };

    fn bytes_of(
        alloc: Global,
        tree: Tree,
        level: u8,
        items: &[Self],
    ) -> Result<Vec<u8>, AllocError> {
        inner_bytes(alloc, tree, level, items)
    }

    fn number(items: &[Self]) -> u64 {
        entries_below(items)
    }

    fn fit(before: &[Self], items: &[Self]) -> bool {
        are_within(before, items)
    }
}

impl<'x> LevelItem<'x> for Child<'x> {
    fn key(&self) -> &'x [u8] {
        self.greatest
    }

    fn greatest(items: &[Self]) -> &'x [u8] {
        last_greatest(items)
    }

    fn items_of(alloc: Global, node: NodeRef<'x>) -> Result<Vec<Self>, AllocError> {
        let mut items = Vec::new(alloc);
        if let NodeRef::Inner { children, .. } = node {
            for child in children {
                items.push(child)?;
            }
        }
        Ok(items)
    }
}

/// A change of a level's items by key.
#[derive(Clone, Copy)]
pub(crate) struct ItemChange<'x, T> {
    /// The key.
    pub(crate) key: &'x [u8],
    /// The item that is put in its place; with none it is taken away.
    pub(crate) put: Option<T>,
}

/// Whether each change is below those after it, and puts an item of its own key.
pub(crate) fn are_own_and_rising<'x, T: LevelItem<'x>>(changes: &[ItemChange<'x, T>]) -> bool
    ensures { IsTrue result
        ↔ AreOwnAndRising T.key_in (changes_meant T.meaning changes.now) }
{
    let mut before: Option<&[u8]> = None;
    for change in changes {
        if !is_above(before, change.key) || !is_own(change) {
            return false;
        }
        before = Some(change.key);
    }
    true
}

/// Whether what a change puts has its key.
fn is_own<'x, T: LevelItem<'x>>(change: &ItemChange<'x, T>) -> bool
    ensures { IsTrue result ↔ IsOwn T.key_in (change_meant T.meaning change.now) }
{
    match &change.put {
        Some(item) => item.key() == change.key,
        None => true,
    }
}
