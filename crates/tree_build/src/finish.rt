//! The new tree, from how the levels of the old one change.

ghost use Rattle.std.specs.List.{AllByRecursion};
ghost use Rattle.std.specs.Prelude.{◌≡◌, ◌⊎◌, ◌<◌, ◌≤◌, ℕ, List, [], IfErr, IfOk, OnOk, length};
ghost use Rattle.tree_build.specs.Changing.{Change};
ghost use Rattle.tree_build.specs.Rebuilding.{IsRebuilt, changed_entries, digests_of, nodes_of};
ghost use Rattle.tree_build.specs.StrangeShelves.{HasNoTwin, IsRefusedFor};
ghost use Rattle.tree_build.specs.internal.Edits.{IsNewNode, StandForNodes};
ghost use Rattle.tree_build.specs.declared.piece.NewPiece.{NewPiece as New};
ghost use Rattle.tree_build.specs.internal.FoundTops.{CanFindTop, HaveGained, IsFound, IsTopRead, TopStays};
ghost use Rattle.tree_build.specs.internal.Telling.{node_digest};
ghost use Rattle.tree_build.specs.internal.TreeEdits.{AreEdits, HasTreeEdit};
ghost use Rattle.tree_build.specs.internal.TreeTelling.{HaveTold, IsTold};
ghost use Rattle.tree_node.specs.NodeRefs.{number_of};
ghost use Rattle.tree_node.specs.Nodes.{Binding, IsNode, Leaf, Node};
ghost use Rattle.tree_node.specs.Shelves.{IsClashFree, Stays};
ghost use Rattle.tree_node.specs.Trees.{IsNodeOf, Two, level_at, levels};

use crate::grow_top::grow_top;
use crate::leaf_item::LeafItem;
use crate::level_diff::{push_gone_digests, push_level_diff};
use crate::levels::TreeEdit;
use crate::open_piece::make_node;
use crate::piece::NewPiece;
use crate::rebuild_fault::RebuildFault;
use crate::rebuilt::Rebuilt;
use crate::shrink_top::{Top, shrink_top};
use crate::step::LevelEdit;
use std::alloc::{AllocError, Global};
use tree_node::{Digest, NewNode, Shelf, Tree};

/// The new tree's top, and what it has gained and lost.
pub(crate) fn finish<'a, 'c, S: Shelf<'a>>(
    alloc: Global,
    shelf: &mut S,
    tree: Tree,
    old_top: &Digest,
    edited: TreeEdit<'c>,
) -> Result<Rebuilt, RebuildFault>
    requires some { 1 ≤ length edited.edits.items }
    requires few { length edited.edits.items ≤ 256 }
    ensures stays { Stays S.is_fixed (S.holds shelf.old) (S.holds shelf.new) }
    ensures grows { (bytes : List ℕ) → S.used shelf.old bytes → S.used shelf.new bytes }
    ensures rebuilt { (changes : List (Change Binding)) (entries : List Binding)
        → HasTreeEdit (HasNoTwin (S.used shelf.new)) old_top.now.0 changes (number_of tree) entries
        edited.entry
        → IsClashFree (IsNodeOf (levels Two (number_of tree) entries))
        → IfOk result (IsRebuilt (levels Two (number_of tree) entries)
        (levels Two (number_of tree) (changed_entries entries changes))) }
    // It reads just nodes that are gone, and, where the tree loses levels, the new top.
    ensures used { (changes : List (Change Binding)) (entries : List Binding)
        → HasTreeEdit (HasNoTwin (S.used shelf.new)) old_top.now.0 changes (number_of tree) entries
        edited.entry
        → IfOk result (λ rebuilt. (bytes : List ℕ) → S.used shelf.new bytes
        → S.used shelf.old bytes ⊎ IsTopRead (levels Two (number_of tree) entries)
        (levels Two (number_of tree) (changed_entries entries changes)) bytes) }
    // It is refused for memory, or the shelf doesn't hold a node of the old tree.
    ensures told { (changes : List (Change Binding)) (entries : List Binding)
        → HasTreeEdit (HasNoTwin (S.used shelf.new)) old_top.now.0 changes (number_of tree) entries
        edited.entry
        → IfErr result (IsRefusedFor (levels Two (number_of tree) entries) (S.holds shelf.new)) }
{
    let TreeEdit { mut edits, stays } = edited;
    let mut added = Vec::new(alloc);
    let mut gone = Vec::new(alloc);
    let old = stays.then_some(*old_top);
    let top = find_top(alloc, shelf, tree, old, &mut edits, &mut added, &mut gone)?;
    push_tree_diff(edits, top.level, &mut added, &mut gone)?;
    Ok(Rebuilt {
        top: top.digest,
        added,
        gone,
    })
}

/// The top of the new tree over these levels. It is the old one, where the last of them is as it was. Else
/// the last has all nodes of its level as new ones: the levels above it are made, or the tree loses levels.
/// Without entries it gets the leaf without entries.
fn find_top<'a, 'c, S: Shelf<'a>>(
    alloc: Global,
    shelf: &mut S,
    tree: Tree,
    old: Option<Digest>,
    edits: &mut Vec<LevelEdit<'c>>,
    added: &mut Vec<NewNode>,
    gone: &mut Vec<Digest>,
) -> Result<Top, RebuildFault>
    requires some { 1 ≤ length edits.old.items }
    requires few { length edits.old.items ≤ 256 }
    ensures stays { Stays S.is_fixed (S.holds shelf.old) (S.holds shelf.new) }
    ensures grows { (bytes : List ℕ) → S.used shelf.old bytes → S.used shelf.new bytes }
    ensures found { (top : List ℕ) (changes : List (Change Binding)) (entries : List Binding)
        → CanFindTop (HasNoTwin (S.used shelf.new)) top changes (number_of tree) entries old edits.old.items
        → TopStays top changes (number_of tree) entries old edits.old.items
        → IfOk result (λ found. IsFound (levels Two (number_of tree) entries)
        (levels Two (number_of tree) (changed_entries entries changes)) edits.new.items
        (nodes_of added.old.items) (nodes_of added.new.items)
        (digests_of gone.old.items) (digests_of gone.new.items) found.digest.0 found.level) }
    // It reads just nodes that are gone, and, where the tree loses levels, the new top.
    ensures used { (top : List ℕ) (changes : List (Change Binding)) (entries : List Binding)
        → CanFindTop (HasNoTwin (S.used shelf.new)) top changes (number_of tree) entries old edits.old.items
        → IfOk result (λ found. (bytes : List ℕ) → S.used shelf.new bytes
        → S.used shelf.old bytes ⊎ IsTopRead (levels Two (number_of tree) entries)
        (levels Two (number_of tree) (changed_entries entries changes)) bytes) }
    // It is refused for memory, or the shelf doesn't hold a node of the old tree.
    ensures told { (top : List ℕ) (changes : List (Change Binding)) (entries : List Binding)
        → CanFindTop (HasNoTwin (S.used shelf.new)) top changes (number_of tree) entries old edits.old.items
        → IfErr result (IsRefusedFor (levels Two (number_of tree) entries) (S.holds shelf.new)) }
{
    let last = edits.len() - 1;
    if let Some(digest) = old {
        return Ok(Top {
            digest,
            level: last,
        });
    }
    match edits[last].news.as_slice() {
        [] => {
            let digest = put_empty_leaf(alloc, tree, edits)?;
            Ok(Top { digest, level: 0 })
        }
        [one] => {
            let digest = one.node.digest;
            shrink_top(shelf, edits.as_slice(), &digest, gone)
        }
        news => {
            let digest = grow_top(alloc, tree, last as u8, news, added)?;
            Ok(Top {
                digest,
                level: last,
            })
        }
    }
}

/// Makes the leaf without entries the only new one, and gives its digest.
fn put_empty_leaf<'c>(
    alloc: Global,
    tree: Tree,
    edits: &mut Vec<LevelEdit<'c>>,
) -> Result<Digest, AllocError>
    requires { 1 ≤ length edits.old.items }
    ensures { IfOk result (λ digest. (digest.0 ≡ node_digest (Leaf (number_of tree) []))
        × ((leaf : New) × IsNewNode leaf (Leaf (number_of tree) [])
        × HaveGained leaf edits.old.items edits.new.items)) }
{
    let leaf = empty_leaf(alloc, tree)?;
    let digest = leaf.node.digest;
    edits[0].news.push(leaf)?;
    Ok(digest)
}

/// The leaf without entries.
fn empty_leaf<'c>(alloc: Global, tree: Tree) -> Result<NewPiece<'c>, AllocError>
    ensures { IfOk result (λ new. IsNewNode new (Leaf (number_of tree) [])) }
{
    let none: [LeafItem<'c>; 0] = [];
    make_node(alloc, tree, 0, &none)
}

/// Tells of the levels up to the top's what each has gained and lost; the opened nodes of the levels above
/// are gone.
fn push_tree_diff(
    edits: Vec<LevelEdit<'_>>,
    top_level: usize,
    added: &mut Vec<NewNode>,
    gone: &mut Vec<Digest>,
) -> Result<(), AllocError>
    ensures { (old : List (List Node)) (new : ℕ → List Node)
        (are : AreEdits old new 0 edits.entry.items)
        → ((level : ℕ) → level < length edits.entry.items
        → AllByRecursion IsNode (level_at old level) × AllByRecursion IsNode (new level))
        → OnOk result (HaveTold old new top_level 0 edits.entry.items are
        (nodes_of added.old.items) (nodes_of added.new.items)
        (digests_of gone.old.items) (digests_of gone.new.items)) }
{
    let mut level = 0;
    for edit in edits {
        push_edit_diff(edit, level, top_level, added, gone)?;
        level += 1;
    }
    Ok(())
}

/// The same of one level.
fn push_edit_diff(
    edit: LevelEdit<'_>,
    level: usize,
    top_level: usize,
    added: &mut Vec<NewNode>,
    gone: &mut Vec<Digest>,
) -> Result<(), AllocError>
    ensures { (opened came : List Node)
        → StandForNodes edit.entry.olds.items edit.entry.news.items opened came
        → OnOk result (IsTold top_level level opened came
        (nodes_of added.old.items) (nodes_of added.new.items)
        (digests_of gone.old.items) (digests_of gone.new.items)) }
{
    let LevelEdit { olds, news } = edit;
    if level <= top_level {
        push_level_diff(olds.as_slice(), news, added, gone)?;
        return Ok(());
    }
    push_gone_digests(olds.as_slice(), gone)
}
