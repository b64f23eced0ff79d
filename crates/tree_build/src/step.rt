//! Changing one level of a tree.

ghost use Rattle.std.specs.List.{AllByRecursion};
ghost use Rattle.std.specs.Prelude.{◌≡◌, ◌<◌, ◌≤◌, ◌⊎◌, ◌++◌, ◌∷◌, [], ℕ, List, IfErr, IfOk, OnOk, IsTrue, false, drop, if◌then◌else◌, length, map, take};
ghost use Rattle.tree_build.specs.Changing.{changed};
ghost use Rattle.tree_build.specs.StrangeShelves.{HasNoTwin, IsRefusedFor};
ghost use Rattle.tree_build.specs.declared.rebuild_fault.RebuildFault.TheVariants.{Memory};
ghost use Rattle.tree_build.specs.internal.Edits.{HaveCome};
ghost use Rattle.tree_build.specs.internal.Holding.{IsHeldLevel, IsOnWayTo};
ghost use Rattle.tree_build.specs.internal.ItemChanges.{PutsKnown, changes_meant};
ghost use Rattle.tree_build.specs.internal.RisingChanges.{AreOwnAndRising, IsUpTo};
ghost use Rattle.tree_build.specs.internal.Steps.{CanChange, FirstIsAbove, HaveGoneOn, HaveReasons, IsEdit, IsWanted, changed_nodes, keys_changed, nodes_at};
ghost use Rattle.tree_build.specs.internal.Unmarked.{IsUnmarkedInside};
ghost use Rattle.tree_node.specs.declared.limits.TheConstants.{ITEM_LIMIT};
ghost use Rattle.tree_node.specs.NodeRefs.{node_read, number_of};
ghost use Rattle.tree_node.specs.Nodes.{Binding};
ghost use Rattle.tree_node.specs.Shelves.{Stays};
ghost use Rattle.tree_node.specs.Trees.{Two, ends_by, levels, pieces_from};

use crate::level_item::{ItemChange, LevelItem, are_own_and_rising};
use crate::merge::merge;
use crate::old_node::{OldNode, OpenNode};
use crate::open_piece::{close, cut};
use crate::piece::NewPiece;
use crate::rebuild_fault::RebuildFault;
use crate::seek::seek;
use std::alloc::{AllocError, Global};
use tree_node::{Digest, ENTRY_LIMIT, Shelf, Tree, is_below};

/// How one level changes.
#[derive(Drop)]
pub(crate) struct LevelEdit<'c> {
    /// The old nodes that were opened, in order.
    pub(crate) olds: Vec<OldNode<'c>>,
    /// The nodes that stand in their place, in order; one may be as an old one is.
    pub(crate) news: Vec<NewPiece<'c>>,
}

/// A level of the old tree.
#[derive(Clone, Copy)]
pub(crate) struct OldLevel {
    pub(crate) tree: Tree,
    /// The digest of the tree's top.
    pub(crate) top: Digest,
    pub(crate) level: u8,
}

/// How far the change of a level has come.
#[derive(Drop)]
struct LevelWork<'c, T> {
    /// The old nodes that were opened.
    olds: Vec<OldNode<'c>>,
    /// The nodes that were made.
    news: Vec<NewPiece<'c>>,
    /// The items of a piece that hasn't ended yet.
    pending: Vec<T>,
}

/// Changes a level of a tree: opens the nodes that the changes fall in, and cuts their items anew, each
/// time from the start of a node until an old cut is met. `NoTree` where what the shelf gives is no tree.
pub(crate) fn change_level<'a, S: Shelf<'a>, T: LevelItem<'a>>(
    alloc: Global,
    shelf: &mut S,
    place: OldLevel,
    changes: &[ItemChange<'a, T>],
) -> Result<LevelEdit<'a>, RebuildFault>
    requires known { AllByRecursion (PutsKnown T.knows_mark) changes.now }
    ensures stays { Stays S.is_fixed (S.holds shelf.old) (S.holds shelf.new) }
    ensures grows { (bytes : List ℕ) → S.used shelf.old bytes → S.used shelf.new bytes }
    // It has the old nodes and the new ones by which the level and the changed level differ,
    ensures edited { (entries : List Binding)
        → CanChange (HasNoTwin (S.used shelf.new)) place T.key_in T.marked_in T.items_in T.node_over T.Fit
        entries (changes_meant T.meaning changes.now)
        → IfOk result (IsEdit (nodes_at place entries) (changed_nodes place T.key_in T.marked_in
        T.items_in T.node_over entries (changes_meant T.meaning changes.now))) }
    // and one old node or more.
    ensures some { 1 ≤ length changes.now
        → IfOk result (λ edit. 1 ≤ length edit.olds.items) }
    // It reads just what is on the ways to these old nodes.
    ensures used { (entries : List Binding)
        → IsHeldLevel (HasNoTwin (S.used shelf.new)) place.top.0 (number_of place.tree) place.level entries
        → IfOk result (λ edit. (bytes : List ℕ) → S.used shelf.new bytes
        → S.used shelf.old bytes ⊎ IsOnWayTo (levels Two (number_of place.tree) entries)
        place.level edit.olds.items bytes) }
    // They are sought for a change or are gone, and those that are sought for a change are among them.
    ensures reasons { (entries : List Binding)
        → CanChange (HasNoTwin (S.used shelf.new)) place T.key_in T.marked_in T.items_in T.node_over T.Fit
        entries (changes_meant T.meaning changes.now)
        → IfOk result (λ edit. HaveReasons (nodes_at place entries)
        (changed_nodes place T.key_in T.marked_in T.items_in T.node_over entries
        (changes_meant T.meaning changes.now))
        (keys_changed (changes_meant T.meaning changes.now))
        (keys_changed (changes_meant T.meaning changes.now)) edit.olds.items) }
    // It is refused for memory, or the shelf doesn't hold a node of the tree.
    ensures told { (entries : List Binding)
        → CanChange (HasNoTwin (S.used shelf.new)) place T.key_in T.marked_in T.items_in T.node_over T.Fit
        entries (changes_meant T.meaning changes.now)
        → IfErr result (IsRefusedFor (levels Two (number_of place.tree) entries) (S.holds shelf.new)) }
{
    let mut work = start(alloc);
    let mut done = 0;
    while let Some((wanted, above)) = next_wanted(&work, &changes[done..]) {
        let (found, is_last) = seek(shelf, &place.top, place.level, wanted, above)?;
        if work.olds.len() >= ENTRY_LIMIT {
            return Err(RebuildFault::NoTree);
        }
        let end = done + count_up_to(&changes[done..], found.old.greatest, is_last);
        take(alloc, place, found, is_last, &changes[done..end], &mut work)?;
        done = end;
    }
    Ok(finish(work))
}

/// Nothing was opened yet.
fn start<'c, T>(alloc: Global) -> LevelWork<'c, T>
    ensures olds { result.olds.items ≡ [] }
    ensures news { result.news.items ≡ [] }
    ensures pending { result.pending.items ≡ [] }
{
    LevelWork {
        olds: Vec::new(alloc),
        news: Vec::new(alloc),
        pending: Vec::new(alloc),
    }
}

/// The key that is sought next, and whether a node above it is wanted: while items are pending, the
/// node after the last one; else that of the next change.
fn next_wanted<'c, T>(
    work: &LevelWork<'c, T>,
    rest: &[ItemChange<'c, T>],
) -> Option<(&'c [u8], bool)>
    ensures { IsWanted work.now.olds.items work.now.pending.items rest.now result }
{
    if work.pending.is_empty() {
        match rest.first() {
            Some(change) => Some((change.key, false)),
            None => None,
        }
    } else {
        match work.olds.last() {
            Some(old) => Some((old.greatest, true)),
            None => None,
        }
    }
}

/// Takes an old node and the changes that fall in it, cuts on, and closes the last piece of the level. `NoTree` where the
/// changes don't rise, or more comes of them than a tree may have.
fn take<'c, T: LevelItem<'c>>(
    alloc: Global,
    place: OldLevel,
    found: OpenNode<'c>,
    is_last: bool,
    here: &[ItemChange<'c, T>],
    work: &mut LevelWork<'c, T>,
) -> Result<(), RebuildFault>
    requires few { length work.old.pending.items < ITEM_LIMIT }
    requires known { AllByRecursion (PutsKnown T.knows_mark) here.now }
    ensures served { AreOwnAndRising T.key_in (changes_meant T.meaning here.now)
        → T.Fit (map T.meaning work.old.pending.items ++ changed T.key_in
        (T.items_in (node_read found.entry.node)) (changes_meant T.meaning here.now))
        → IfErr result (λ fault. fault ≡ Memory) }
    ensures few { OnOk result (length work.new.pending.items < ITEM_LIMIT) }
    ensures olds { OnOk result (work.new.olds.items ≡ work.old.olds.items ++ found.entry.old ∷ []) }
    // The pieces end where those of a list end, if the old node is of a tree.
    ensures went_on { IsUnmarkedInside (node_read found.entry.node)
        → OnOk result (HaveGoneOn (ends_by Two T.marked_in)
        (T.node_over (number_of place.tree) place.level) is_last
        (map T.meaning work.old.pending.items) work.old.news.items
        (changed T.key_in (T.items_in (node_read found.entry.node))
        (changes_meant T.meaning here.now))
        (map T.meaning work.new.pending.items) work.new.news.items) }
{
    if !are_own_and_rising(here) {
        return Err(RebuildFault::NoTree);
    }
    let items = T::items_of(alloc, found.node)?;
    let merged = merge(alloc, items.as_slice(), here)?;
    if !T::fit(work.pending.as_slice(), merged.as_slice()) {
        return Err(RebuildFault::NoTree);
    }
    cut(
        alloc,
        place.tree,
        place.level,
        merged.as_slice(),
        &mut work.pending,
        &mut work.news,
    )?;
    end_level(alloc, place, is_last, &mut work.pending, &mut work.news)?;
    work.olds.push(found.old)?;
    Ok(())
}

/// Makes the node of the pending items, where the level ends there.
fn end_level<'c, T: LevelItem<'c>>(
    alloc: Global,
    place: OldLevel,
    is_last: bool,
    pending: &mut Vec<T>,
    news: &mut Vec<NewPiece<'c>>,
) -> Result<(), AllocError>
    requires few { length pending.old.items < ITEM_LIMIT }
    requires fit { T.Fit (map T.meaning pending.old.items) }
    ensures news { OnOk result (HaveCome news.old.items news.new.items
        (map (T.node_over (number_of place.tree) place.level) (if is_last
        then pieces_from (ends_by Two T.marked_in) (map T.meaning pending.old.items) []
        else []))) }
    ensures pending { OnOk result (map T.meaning pending.new.items
        ≡ (if is_last then [] else map T.meaning pending.old.items)) }
    ensures few { OnOk result (length pending.new.items < ITEM_LIMIT) }
{
    if is_last {
        return close(alloc, place.tree, place.level, pending, news);
    }
    Ok(())
}

/// What was opened and what was made.
fn finish<'c, T: Drop>(work: LevelWork<'c, T>) -> LevelEdit<'c>
    ensures olds { result.olds ≡ work.entry.olds }
    ensures news { result.news ≡ work.entry.news }
{
    let LevelWork {
        olds,
        news,
        pending: _,
    } = work;
    LevelEdit { olds, news }
}

/// How many of the changes are up to this key; all of them, where it is that of the last node.
fn count_up_to<'c, T>(changes: &[ItemChange<'c, T>], key: &[u8], is_last: bool) -> usize
    ensures within { result ≤ length changes.now }
    ensures last { IsTrue is_last → result ≡ length changes.now }
    ensures up_to { is_last ≡ false
        → AllByRecursion (λ change. IsUpTo change.key.now key.now) (take result changes.now) }
    ensures above { is_last ≡ false → FirstIsAbove key.now (drop result changes.now) }
{
    if is_last {
        return changes.len();
    }
    let mut count = 0;
    for change in changes {
        if is_below(key, change.key) {
            return count;
        }
        count += 1;
    }
    count
}
