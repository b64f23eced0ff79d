//! The nodes of four trees, to be read again.

ghost use Rattle.std.specs.Prelude.{◌≡◌, ◌≢◌, ℕ, Err, IfOk, OnOk, false, true};
ghost use Rattle.level_files.specs.Levels.{IsNext, level_in, unread_level};
ghost use Rattle.level_files.specs.internal.Given.{IsNextLen};

use crate::stored_level::StoredLevel;
use external_sort::RunStore;
use tree_node::Tree;
use tree_stream::{NodeLen, NodeLevels, ReadBackFault};

/// The nodes of four trees, level by level on a device. Each level is read through buffers that are used again: one of 20
/// KiB for the lengths of its nodes, and another one for lengths that are read without the nodes. A node is read at once.
///
/// Where a level can't be read, it is refused from then on with the same fault. A level that a tree hasn't has no nodes.
#[derive(Drop)]
pub struct StoredLevels<S: RunStore> {
    objects: Vec<StoredLevel<S>>,
    tags: Vec<StoredLevel<S>>,
    cells: Vec<StoredLevel<S>>,
    backs: Vec<StoredLevel<S>>,
}

impl<S: RunStore> StoredLevels<S> {
    /// The trees with these levels.
    pub(crate) fn new(
        objects: Vec<StoredLevel<S>>,
        tags: Vec<StoredLevel<S>>,
        cells: Vec<StoredLevel<S>>,
        backs: Vec<StoredLevel<S>>,
    ) -> StoredLevels<S>
        ensures { result ≡ record { objects = objects; tags = tags; cells = cells; backs = backs } }
    {
        StoredLevels {
            objects,
            tags,
            cells,
            backs,
        }
    }
}

impl<S: RunStore> NodeLevels for StoredLevels<S> {
    ghost use Rattle.level_files.specs.Stored.{level_of_tree};

    ghost nodes = { λ levels tree level. (level_of_tree levels tree level).nodes };

    ghost unread = { λ levels tree level. (level_of_tree levels tree level).unread };

    ghost unmeasured = { λ levels tree level. (level_of_tree levels tree level).unmeasured };

    ghost may_refuse = { S.may_refuse };

    ghost is_true = { S.is_true };

    fn rewind(&mut self, tree: Tree, level: u8) {
        match tree {
            Tree::Objects => rewind(&mut self.objects, level),
            Tree::Tags => rewind(&mut self.tags, level),
            Tree::Cells => rewind(&mut self.cells, level),
            Tree::Backs => rewind(&mut self.backs, level),
        }
    }

    fn next_node(
        &mut self,
        tree: Tree,
        level: u8,
        into: &mut Vec<u8>,
    ) -> Result<bool, ReadBackFault> {
        match tree {
            Tree::Objects => next_node(&mut self.objects, level, into),
            Tree::Tags => next_node(&mut self.tags, level, into),
            Tree::Cells => next_node(&mut self.cells, level, into),
            Tree::Backs => next_node(&mut self.backs, level, into),
        }
    }

    fn next_len(&mut self, tree: Tree, level: u8) -> Result<Option<NodeLen>, ReadBackFault> {
        match tree {
            Tree::Objects => next_len(&mut self.objects, level),
            Tree::Tags => next_len(&mut self.tags, level),
            Tree::Cells => next_len(&mut self.cells, level),
            Tree::Backs => next_len(&mut self.backs, level),
        }
    }
}

/// Goes back to the first node of a level, and to the first length, if the level is there.
fn rewind<S: RunStore>(levels: &mut Vec<StoredLevel<S>>, level: u8)
    ensures here { level_in levels.new.items level ≡ unread_level (level_in levels.old.items level).nodes }
    ensures others { (other : ℕ) → other ≢ level
        → level_in levels.new.items other ≡ level_in levels.old.items other }
{
    let at = usize::from(level);
    if at < levels.len() {
        let stored = &mut levels[at];
        stored.rewind();
    }
}

/// Reads the next node of a level; none where the level isn't there.
fn next_node<S: RunStore>(
    levels: &mut Vec<StoredLevel<S>>,
    level: u8,
    into: &mut Vec<u8>,
) -> Result<bool, ReadBackFault>
    ensures read { S.is_true ≡ true → IfOk result (λ more. IsNext
        (level_in levels.old.items level).unread (level_in levels.new.items level).unread more into.new.items) }
    ensures nodes { OnOk result ((level_in levels.new.items level).nodes
        ≡ (level_in levels.old.items level).nodes) }
    ensures unmeasured { OnOk result ((level_in levels.new.items level).unmeasured
        ≡ (level_in levels.old.items level).unmeasured) }
    ensures others { (other : ℕ) → other ≢ level
        → level_in levels.new.items other ≡ level_in levels.old.items other }
    ensures given { S.is_true ≡ true → S.may_refuse ≡ false → result ≢ Err ReadBackFault.Device }
{
    let at = usize::from(level);
    if at >= levels.len() {
        return Ok(false);
    }
    let stored = &mut levels[at];
    stored.next_node(into)
}

/// The length of the next node of a level whose length wasn't read; none where the level isn't there.
fn next_len<S: RunStore>(
    levels: &mut Vec<StoredLevel<S>>,
    level: u8,
) -> Result<Option<NodeLen>, ReadBackFault>
    ensures measured { S.is_true ≡ true → IfOk result (IsNextLen
        (level_in levels.old.items level).unmeasured (level_in levels.new.items level).unmeasured) }
    ensures nodes { OnOk result ((level_in levels.new.items level).nodes
        ≡ (level_in levels.old.items level).nodes) }
    ensures unread { OnOk result ((level_in levels.new.items level).unread
        ≡ (level_in levels.old.items level).unread) }
    ensures others { (other : ℕ) → other ≢ level
        → level_in levels.new.items other ≡ level_in levels.old.items other }
    ensures given { S.is_true ≡ true → S.may_refuse ≡ false → result ≢ Err ReadBackFault.Device }
{
    let at = usize::from(level);
    if at >= levels.len() {
        return Ok(None);
    }
    let stored = &mut levels[at];
    stored.next_len()
}
