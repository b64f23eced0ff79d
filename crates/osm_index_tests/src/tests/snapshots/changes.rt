//! Snapshots that are changed, beside those that are built of the changed set.

mod many;
mod memory;
mod objects;
mod random;
mod refused;
mod rows;
mod thousands;

use super::set_of;
use crate::tests::snapshot_of;
use opl_codec::{Change, read_changes};
use osm_index::{ApplyFault, Delta, Edition, Snapshot};
use std::alloc::Global;
use std::test::Fail;
use tree_node::{Digest, Shelf, Tree};
use tree_walk::{KeyRange, Tally, range};

/// The changes of this text.
fn changes_of(alloc: Global, text: &str) -> Result<Vec<Change>, Fail> {
    Ok(read_changes(alloc, &mut text.as_bytes())?)
}

/// The snapshot of the set of this text, in the second edition at this sequence.
fn second(alloc: Global, set: &str, sequence: u64) -> Result<Snapshot, Fail> {
    snapshot_of(alloc, set, Edition::Two { sequence })
}

/// Applies changes to a snapshot of the second edition.
fn apply(
    alloc: Global,
    snapshot: &mut Snapshot,
    changes: &[Change],
) -> Result<Result<Delta, ApplyFault>, Fail> {
    match snapshot.edition() {
        Edition::One => Err(Fail::new("the snapshot is of the second edition")),
        Edition::Two { sequence: _ } => Ok(snapshot.apply(alloc, changes)),
    }
}

/// The digests of all nodes that a snapshot needs, by rising digest: those of its trees, and its manifest.
fn nodes_of(alloc: Global, snapshot: &Snapshot) -> Result<Vec<Digest>, Fail> {
    let all = KeyRange {
        lo: &[],
        hi: &[],
        under: true,
    };
    let trees = [Tree::Objects, Tree::Tags, Tree::Cells, Tree::Backs];
    let mut shelf = snapshot.stock().shelf(alloc);
    for (tree, top) in trees.iter().zip(snapshot.manifest().tops.iter()) {
        range(alloc, &mut shelf, top, *tree, &all, &mut Tally::default())?;
    }
    shelf.fetch(snapshot.root())?;
    let mut digests = Vec::new(alloc);
    for part in shelf.parts()?.iter() {
        digests.push(part.digest())?;
    }
    Ok(digests)
}

/// Those of the first digests that aren't among the others, which rise.
fn without(alloc: Global, digests: &[Digest], others: &[Digest]) -> Result<Vec<Digest>, Fail> {
    let mut found = Vec::new(alloc);
    for digest in digests {
        if others.binary_search(digest).is_err() {
            found.push(*digest)?;
        }
    }
    Ok(found)
}

/// Whether the snapshot is as one that is built of the set of this text at this sequence.
fn is_built(alloc: Global, snapshot: &Snapshot, set: &str, sequence: u64) -> Result<bool, Fail> {
    let built = second(alloc, set, sequence)?;
    Ok(
        snapshot.root() == built.root()
            && snapshot.edition() == built.edition()
            && snapshot.manifest() == built.manifest()
            && snapshot.object_count(alloc)? == built.object_count(alloc)?
            && nodes_of(alloc, snapshot)?.as_slice() == nodes_of(alloc, &built)?.as_slice(),
    )
}

/// Whether the delta is what differs between the nodes before and after, and the snapshot no longer has those that
/// are gone.
fn is_delta(
    alloc: Global,
    delta: Delta,
    before: &[Digest],
    snapshot: &Snapshot,
) -> Result<bool, Fail> {
    let after = nodes_of(alloc, snapshot)?;
    let Delta {
        mut added,
        mut gone,
    } = delta;
    added.sort_unstable();
    gone.sort_unstable();
    let mut shelf = snapshot.stock().shelf(alloc);
    for digest in gone.iter() {
        if shelf.fetch(digest).is_ok() {
            return Ok(false);
        }
    }
    Ok(
        added.as_slice() == without(alloc, &after, before)?.as_slice()
            && gone.as_slice() == without(alloc, before, &after)?.as_slice(),
    )
}

/// Whether these changes make of a set, at sequence 0, what is built of the changed set, and tell what differs.
fn changes_as_built(alloc: Global, set: &str, changes: &str, changed: &str) -> Result<bool, Fail> {
    let mut snapshot = second(alloc, set, 0)?;
    let before = nodes_of(alloc, &snapshot)?;
    let changes = changes_of(alloc, changes)?;
    let delta = apply(alloc, &mut snapshot, &changes)??;
    Ok(is_built(alloc, &snapshot, changed, 1)? && is_delta(alloc, delta, &before, &snapshot)?)
}
