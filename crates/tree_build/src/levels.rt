//! Changing a tree from level to level.

ghost use Rattle.std.specs.List.{AllByRecursion};
ghost use Rattle.std.specs.Prelude.{◌≡◌, ◌⊎◌, ◌≤◌, ◌<◌, ◌+◌, ◌↔◌, ℕ, List, IfErr, IfOk, IsTrue, length};
ghost use Rattle.tree_build.specs.Rebuilding.{change_of, changed_entries, changes_of, keys_of_changes};
ghost use Rattle.tree_build.specs.StrangeShelves.{HasNoTwin, IsRefusedFor};
ghost use Rattle.tree_build.specs.internal.ItemChanges.{PutsKnown, change_meant, changes_meant};
ghost use Rattle.tree_build.specs.internal.LeafItems.{KnowsItsMark, entry_of};
ghost use Rattle.tree_build.specs.internal.Towers.{tower};
ghost use Rattle.tree_build.specs.internal.TreeEdits.{HasTopLevel, HaveAllReasons, IsRead, IsTreeEdit};
ghost use Rattle.tree_node.specs.NodeRefs.{number_of};
ghost use Rattle.tree_node.specs.Nodes.{Binding};
ghost use Rattle.tree_node.specs.Shelves.{Stays};
ghost use Rattle.tree_node.specs.Trees.{Two, levels};

use crate::Entry;
use crate::change::EntryChange;
use crate::leaf_item::LeafItem;
use crate::level_item::ItemChange;
use crate::parent_changes::parent_changes;
use crate::rebuild_fault::RebuildFault;
use crate::step::{LevelEdit, OldLevel, change_level};
use std::alloc::{AllocError, Global};
use tree_node::{Child, Digest, Shelf, Tree};

/// How the levels of a tree change.
#[derive(Drop)]
pub(crate) struct TreeEdit<'c> {
    /// The levels from the leaves up; all above them are as they were.
    pub(crate) edits: Vec<LevelEdit<'c>>,
    /// Whether the last of them is as it was.
    pub(crate) stays: bool,
}

/// Changes the levels of a tree, from the leaves up to the top's level, or to the first one that is as
/// it was. `NoTree` where what the shelf gives is no tree.
pub(crate) fn change_levels<'a, S: Shelf<'a>>(
    alloc: Global,
    shelf: &mut S,
    tree: Tree,
    top: &Digest,
    top_level: u8,
    changes: &'a [EntryChange],
) -> Result<TreeEdit<'a>, RebuildFault>
    requires { 1 ≤ length changes.now }
    ensures stays { Stays S.is_fixed (S.holds shelf.old) (S.holds shelf.new) }
    ensures grows { (bytes : List ℕ) → S.used shelf.old bytes → S.used shelf.new bytes }
    ensures edited { (entries : List Binding)
        → HasTopLevel (HasNoTwin (S.used shelf.new)) top.now.0 (changes_of changes.now) (number_of tree)
        entries top_level
        → IfOk result (IsTreeEdit (levels Two (number_of tree) entries)
        (tower Two (number_of tree) (changed_entries entries (changes_of changes.now)))) }
    // It reads just what is on the ways to the nodes that were opened.
    ensures used { (entries : List Binding)
        → HasTopLevel (HasNoTwin (S.used shelf.new)) top.now.0 (changes_of changes.now) (number_of tree)
        entries top_level
        → IfOk result (λ edited. (bytes : List ℕ) → S.used shelf.new bytes
        → S.used shelf.old bytes
        ⊎ IsRead (levels Two (number_of tree) entries) 0 edited.edits.items bytes) }
    // Each level opened its nodes for a reason: for a change, of the caller's or of the level below, or as they are
    // gone.
    ensures reasons { (entries : List Binding)
        → HasTopLevel (HasNoTwin (S.used shelf.new)) top.now.0 (changes_of changes.now) (number_of tree)
        entries top_level
        → IfOk result (λ edited. HaveAllReasons (levels Two (number_of tree) entries)
        (tower Two (number_of tree) (changed_entries entries (changes_of changes.now)))
        (keys_of_changes (changes_of changes.now)) edited.edits.items) }
    ensures some { IfOk result (λ edited. 1 ≤ length edited.edits.items) }
    ensures few { IfOk result (λ edited. length edited.edits.items ≤ top_level + 1) }
    // It is refused for memory, or the shelf doesn't hold a node of the old tree.
    ensures told { (entries : List Binding)
        → HasTopLevel (HasNoTwin (S.used shelf.new)) top.now.0 (changes_of changes.now) (number_of tree)
        entries top_level
        → IfErr result (IsRefusedFor (levels Two (number_of tree) entries) (S.holds shelf.new)) }
{
    let mut edits: Vec<LevelEdit<'a>> = Vec::new(alloc);
    let items: Vec<ItemChange<'a, LeafItem<'a>>> = item_changes(alloc, changes)?;
    let place = OldLevel {
        tree,
        top: *top,
        level: 0,
    };
    let leaves: LevelEdit<'a> = change_level(alloc, shelf, place, items.as_slice())?;
    let mut next = parent_changes(alloc, &leaves)?;
    edits.push(leaves)?;
    let mut level = 0;
    'levels: while goes_on(level, top_level, next.as_slice()) {
        level += 1;
        let place = OldLevel {
            tree,
            top: *top,
            level,
        };
        let edit: LevelEdit<'a> = change_level(alloc, shelf, place, next.as_slice())?;
        next = parent_changes(alloc, &edit)?;
        edits.push(edit)?;
    }
    let stays = next.is_empty();
    Ok(TreeEdit { edits, stays })
}

/// Whether the next level changes.
fn goes_on<'c>(level: u8, top_level: u8, next: &[ItemChange<'c, Child<'c>>]) -> bool
    ensures { IsTrue result ↔ ((level < top_level) × (1 ≤ length next.now)) }
{
    level < top_level && !next.is_empty()
}

/// The changes of the leaves' items.
fn item_changes<'c>(
    alloc: Global,
    changes: &'c [EntryChange],
) -> Result<Vec<ItemChange<'c, LeafItem<'c>>>, AllocError>
    ensures items { IfOk result
        (λ items. changes_meant entry_of items.items ≡ changes_of changes.now) }
    ensures known { IfOk result (λ items. AllByRecursion (PutsKnown KnowsItsMark) items.items) }
{
    let mut items = Vec::with_capacity(alloc, changes.len())?;
    for change in changes {
        items.push(item_change(change))?;
    }
    Ok(items)
}

/// The change of a leaf's items.
fn item_change<'c>(change: &'c EntryChange) -> ItemChange<'c, LeafItem<'c>>
    ensures change { change_meant entry_of result ≡ change_of change.now }
    ensures known { PutsKnown KnowsItsMark result }
{
    let key = change.key.as_slice();
    match &change.value {
        Some(value) => ItemChange {
            key,
            put: Some(LeafItem::new(Entry {
                key,
                value: value.as_slice(),
            })),
        },
        None => ItemChange { key, put: None },
    }
}
