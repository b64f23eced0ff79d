//! The worked pack of docs/FORMATS.md, from levels in memory that may refuse each call in turn.

use super::small_pack::PACK;
use external_sort::{RunStore, Sorter, StoreFault};
use osm_keys::Edition;
use pack_assembly::{AssemblyFault, BuiltTrees, write_pack_of_levels};
use pack_devices::KeptRuns;
use std::alloc::{AllocError, Global};
use std::test::Fail;
use tree_node::{Digest, Tree};
use tree_stream::{NodeLen, NodeLevels, ReadBackFault};

/// Refuses each call: digests that fit in memory need no store.
#[derive(Drop)]
struct NoStore;

impl RunStore for NoStore {
    ghost use Rattle.std.specs.Prelude.{[], false, true};

    ghost runs = { λ _. [] };

    ghost in_hand = { λ _. [] };

    ghost may_refuse = { true };

    ghost is_true = { false };

    fn append(&mut self, _bytes: &[u8]) -> Result<(), StoreFault> {
        Err(StoreFault)
    }

    fn end_run(&mut self) -> Result<(), StoreFault> {
        Err(StoreFault)
    }

    fn read(&mut self, _run: usize, _offset: u64, _into: &mut [u8]) -> Result<(), StoreFault> {
        Err(StoreFault)
    }
}

/// A node at its level, and whether it and its length were read.
#[derive(Drop)]
struct ListedNode {
    tree: Tree,
    level: u8,
    bytes: Vec<u8>,
    children: u8,
    is_read: bool,
    is_measured: bool,
}

/// Nodes in memory, which refuse each call after so many.
#[derive(Drop)]
struct Listed {
    nodes: Vec<ListedNode>,
    calls: u64,
}

impl NodeLevels for Listed {
    ghost use Rattle.std.specs.Prelude.{[], false, true};

    ghost nodes = { λ _ _ _. [] };

    ghost unread = { λ _ _ _. [] };

    ghost unmeasured = { λ _ _ _. [] };

    ghost may_refuse = { true };

    ghost is_true = { false };

    fn rewind(&mut self, tree: Tree, level: u8) {
        for node in self.nodes.iter_mut() {
            if node.tree == tree && node.level == level {
                node.is_read = false;
                node.is_measured = false;
            }
        }
    }

    fn next_node(
        &mut self,
        tree: Tree,
        level: u8,
        into: &mut Vec<u8>,
    ) -> Result<bool, ReadBackFault> {
        let Some(calls) = self.calls.checked_sub(1) else {
            return Err(ReadBackFault::Device);
        };
        self.calls = calls;
        into.clear();
        for node in self.nodes.iter_mut() {
            if node.tree == tree && node.level == level && !node.is_read {
                node.is_read = true;
                into.extend_from_slice(node.bytes.as_slice())?;
                return Ok(true);
            }
        }
        Ok(false)
    }

    fn next_len(&mut self, tree: Tree, level: u8) -> Result<Option<NodeLen>, ReadBackFault> {
        let Some(calls) = self.calls.checked_sub(1) else {
            return Err(ReadBackFault::Device);
        };
        self.calls = calls;
        for node in self.nodes.iter_mut() {
            if node.tree == tree && node.level == level && !node.is_measured {
                node.is_measured = true;
                let bytes = node.bytes.len().min(1_000) as u32;
                return Ok(Some(NodeLen {
                    bytes,
                    children: node.children,
                }));
            }
        }
        Ok(None)
    }
}

/// Adds the node that stands at this place of the pack.
fn list(
    alloc: Global,
    tree: Tree,
    level: u8,
    node: &[u8],
    children: u8,
    nodes: &mut Vec<ListedNode>,
) -> Result<(), AllocError> {
    nodes.push(ListedNode {
        tree,
        level,
        bytes: node.to_vec(alloc)?,
        children,
        is_read: false,
        is_measured: false,
    })?;
    Ok(())
}

/// The levels of the worked pack, which refuse each call after so many.
fn levels_of(alloc: Global, calls: u64) -> Result<Listed, AllocError> {
    let mut nodes = Vec::new(alloc);
    list(alloc, Tree::Tags, 1, &PACK[249..339], 2, &mut nodes)?;
    list(alloc, Tree::Objects, 0, &PACK[367..371], 0, &mut nodes)?;
    list(alloc, Tree::Tags, 0, &PACK[375..386], 0, &mut nodes)?;
    list(alloc, Tree::Tags, 0, &PACK[390..401], 0, &mut nodes)?;
    list(alloc, Tree::Cells, 0, &PACK[405..409], 0, &mut nodes)?;
    list(alloc, Tree::Backs, 0, &PACK[413..417], 0, &mut nodes)?;
    Ok(Listed { nodes, calls })
}

/// The digest that these 32 bytes are.
fn digest_at(bytes: &[u8]) -> Digest {
    match Digest::from_slice(bytes) {
        Some(digest) => digest,
        None => Digest([0; 32]),
    }
}

/// Writes the worked pack from levels that refuse each call after so many, with this sorter for its digests.
fn written_with<S: RunStore>(
    alloc: Global,
    calls: u64,
    digests: Sorter<S>,
    out: &mut Vec<u8>,
) -> Result<Digest, AssemblyFault> {
    let trees = BuiltTrees {
        edition: Edition::One,
        tops: [
            digest_at(&PACK[69..101]),
            digest_at(&PACK[101..133]),
            digest_at(&PACK[133..165]),
            digest_at(&PACK[165..197]),
        ],
        heights: [1, 2, 1, 1],
    };
    let mut levels = levels_of(alloc, calls)?;
    write_pack_of_levels(alloc, &trees, &mut levels, digests, out)
}

/// The same, where the digests fit in memory.
fn written(alloc: Global, calls: u64, out: &mut Vec<u8>) -> Result<Digest, AssemblyFault> {
    let digests = Sorter::new(alloc, NoStore, 100_000);
    written_with(alloc, calls, digests, out)
}

#[test]
fn writes_the_worked_pack_after_refused_memory(rt: HostRuntime) -> Result<(), Fail> {
    let alloc = rt.alloc();
    let mut out = Vec::new(alloc);
    let root = match written(alloc, 30, &mut out) {
        // Memory that was refused is given at the second try, to the vector that is written too.
        Err(AssemblyFault::Memory | AssemblyFault::NotWritten) => {
            out.clear();
            written(alloc, 30, &mut out)?
        }
        root => root?,
    };
    assert!(rt; root == digest_at(&PACK[8..40]));
    assert!(rt; out.as_slice() == PACK);
    Ok(())
}

#[test]
fn tells_each_refused_call(rt: HostRuntime) -> Result<(), Fail> {
    let alloc = rt.alloc();
    for calls in 0..30 {
        let mut out = Vec::new(alloc);
        let refused = written(alloc, calls, &mut out);
        assert!(rt; matches!(refused, Err(AssemblyFault::Device)), "{calls}");
        assert!(rt; PACK.starts_with(out.as_slice()), "{calls}");
        assert!(rt; out.is_empty() == (calls < 13), "{calls}");
    }
    Ok(())
}

/// Whichever call the sorter's store refuses, with memory for one digest, the fault comes, and nothing is written.
#[test]
fn tells_each_refused_call_of_the_sorter(rt: HostRuntime) -> Result<(), Fail> {
    let alloc = rt.alloc();
    let mut done = false;
    for calls in 0..60 {
        let mut out = Vec::new(alloc);
        let digests = Sorter::new(alloc, KeptRuns::new(alloc, calls), 1);
        match written_with(alloc, 30, digests, &mut out) {
            Ok(_) => {
                assert!(rt; out.as_slice() == PACK);
                done = true;
            }
            Err(fault) => assert!(rt; !done && fault == AssemblyFault::Device && out.is_empty()),
        }
    }
    assert!(rt; done);
    Ok(())
}
