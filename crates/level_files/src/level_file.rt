//! The nodes of one level, while they come.

ghost use Rattle.std.specs.Prelude.{◌≡◌, ◌++◌, ◌∷◌, [], IfOk, OnOk};
ghost use Rattle.level_files.specs.Levels.{unread_level};

use crate::row::row;
use crate::stored_level::StoredLevel;
use external_sort::{RunStore, StoreFault};
use std::alloc::Global;
use std::marker::Model;

/// The nodes of one level, in a store, and what is said of their lengths, in another one. Contracts see the nodes. After a
/// refusal each further call is refused.
#[derive(Drop)]
pub(crate) struct LevelFile<S: RunStore> {
    /// The nodes, one after the other.
    nodes: S,
    /// A row for each.
    rows: S,
    /// How many nodes there are.
    count: u32,
    /// How many bytes they have.
    size: u64,
    /// Whether a store refused.
    failed: bool,
}

impl<S: RunStore> Model for LevelFile<S> {
    ghost use Rattle.std.specs.Prelude.{◌≡◌, List, ℕ, false};
    ghost use Rattle.level_files.specs.internal.Keeping.{IsKept};
    ghost use Rattle.level_files.specs.internal.Rows.{nodes_of};

    ghost Value = { List (List ℕ) };

    ghost view = { λ f. nodes_of f.count (S.in_hand f.rows) (S.in_hand f.nodes) };

    ghost invariant = { λ f. f.failed ≡ false
        → IsKept f.count f.size (S.in_hand f.rows) (S.in_hand f.nodes) (S.runs f.rows) (S.runs f.nodes) };
}

impl<S: RunStore> LevelFile<S> {
    /// No nodes, in two stores that hold nothing.
    pub(crate) fn new(nodes: S, rows: S) -> LevelFile<S>
        requires no_nodes { (S.runs nodes ≡ []) × (S.in_hand nodes ≡ []) }
        requires no_rows { (S.runs rows ≡ []) × (S.in_hand rows ≡ []) }
        ensures { result ≡ [] }
    {
        LevelFile {
            nodes,
            rows,
            count: 0,
            size: 0,
            failed: false,
        }
    }

    /// Adds a node. Refused where a store refuses, and where the node has 2^32 bytes or more, the level 2^32 nodes or 2^64
    /// bytes.
    pub(crate) fn push(&mut self, node: &[u8]) -> Result<(), StoreFault>
        ensures { OnOk result (self.new ≡ self.old ++ node.now ∷ []) }
    {
        if self.failed {
            return Err(StoreFault);
        }
        let Some(row) = row(node) else {
            return Err(StoreFault);
        };
        let Some(count) = self.count.checked_add(1) else {
            return Err(StoreFault);
        };
        let Some(size) = self.size.checked_add(node.len() as u64) else {
            return Err(StoreFault);
        };
        self.failed = true;
        self.nodes.append(node)?;
        self.rows.append(&row)?;
        self.count = count;
        self.size = size;
        self.failed = false;
        Ok(())
    }

    /// Ends the level, whose nodes can then be read.
    pub(crate) fn finish(self, alloc: Global) -> Result<StoredLevel<S>, StoreFault>
        ensures { IfOk result (λ level. level ≡ unread_level self) }
    {
        if self.failed {
            return Err(StoreFault);
        }
        let LevelFile {
            mut nodes,
            mut rows,
            count,
            size,
            ..
        } = self;
        nodes.end_run()?;
        rows.end_run()?;
        Ok(StoredLevel::new(alloc, nodes, rows, count, size))
    }
}
