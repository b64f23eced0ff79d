//! Trees of streams beside those that are built of whole lists, and writers and memory that fail.

ghost use Rattle.std.specs.Prelude.{◌≡◌, [], ℕ};

use super::whole_trees::{built, entries_of, numbers};
use std::alloc::Global;
use std::process::Abort;
use std::test::Fail;
use tree_build::{Entry, Shape};
use tree_node::{Shelf, Stock, Tree, digest_of};
use tree_stream::{FinishedTree, NodeWriter, StreamFault, TreeStream, WriterFault};

/// Keeps the nodes in memory, and fails at one call.
#[derive(Drop)]
struct Listed {
    alloc: Global,
    nodes: Vec<ListedNode>,
    calls: u32,
    fails_at: u32,
}

/// A node with its level.
#[derive(Drop)]
struct ListedNode {
    level: u8,
    bytes: Vec<u8>,
}

impl NodeWriter for Listed {
    ghost use Rattle.std.specs.Prelude.{◌∷◌, [], ◌==◌, if◌then◌else◌};
    ghost use Rattle.std.specs.List.{flat_map};

    ghost given = { λ listed level. flat_map
        (λ n. if n.level == level then n.bytes.items ∷ [] else []) listed.nodes.items };

    fn put(&mut self, level: u8, node: &[u8]) -> Result<(), WriterFault> {
        self.calls = self.calls.saturating_add(1);
        if self.calls == self.fails_at {
            return Err(WriterFault::Device);
        }
        let bytes = node.to_vec(self.alloc)?;
        self.nodes.push(ListedNode { level, bytes })?;
        Ok(())
    }
}

/// The tree of these entries, by a stream.
fn streamed<W: NodeWriter + Drop>(
    alloc: Global,
    entries: &[Entry<'_>],
    shape: Shape,
    writer: W,
) -> Result<FinishedTree<W>, StreamFault>
    requires { (level : ℕ) → W.given writer level ≡ [] }
{
    let mut stream = TreeStream::new(alloc, Tree::Tags, shape, writer);
    for entry in entries {
        stream.push(entry.key, entry.value)?;
    }
    Ok(stream.finish()?)
}

/// The tree of these entries, by a stream whose writer fails at this call.
fn list_nodes(
    alloc: Global,
    entries: &[Entry<'_>],
    shape: Shape,
    fails_at: u32,
) -> Result<FinishedTree<Listed>, StreamFault> {
    let writer = Listed {
        alloc,
        nodes: Vec::new(alloc),
        calls: 0,
        fails_at,
    };
    streamed(alloc, entries, shape, writer)
}

/// The tree that a stream makes of these entries, which is the one that is built of the whole list: the top is the same,
/// and its nodes are in the stock.
fn agreed(
    rt: &impl Abort,
    alloc: Global,
    entries: &[Entry<'_>],
    shape: Shape,
) -> Result<FinishedTree<Listed>, Fail> {
    let mut stock = Stock::new(alloc);
    let top = built(alloc, entries, Tree::Tags, shape, &mut stock)?;
    let done = list_nodes(alloc, entries, shape, 0)?;
    assert!(rt; done.top == top);
    let mut shelf = stock.shelf(alloc);
    for node in &done.writer.nodes {
        let bytes = shelf.fetch(&digest_of(node.bytes.as_slice()))?;
        assert!(rt; bytes == node.bytes.as_slice());
    }
    Ok(done)
}

#[test]
fn makes_the_trees_that_are_built(rt: HostRuntime) -> Result<(), Fail> {
    let alloc = rt.alloc();
    for (count, nodes, levels) in [(0, 1, 1), (1, 1, 1), (64, 1, 1), (65, 3, 2), (5_000, 82, 3)] {
        let keys = numbers(alloc, count)?;
        let entries = entries_of(alloc, keys.as_slice())?;
        let done = agreed(&rt, alloc, entries.as_slice(), Shape::One)?;
        assert_eq!(rt; done.writer.nodes.len(), nodes, "{count}");
        assert_eq!(rt; done.levels, levels, "{count}");
        agreed(&rt, alloc, entries.as_slice(), Shape::Two)?;
    }
    Ok(())
}

/// Where a call of the writer fails it is told so.
#[test]
fn tells_a_failed_writer(rt: HostRuntime) -> Result<(), Fail> {
    let alloc = rt.alloc();
    let keys = numbers(alloc, 130)?;
    let entries = entries_of(alloc, keys.as_slice())?;
    for fails_at in 1..5 {
        let failed = list_nodes(alloc, entries.as_slice(), Shape::One, fails_at);
        assert!(rt; matches!(failed, Err(StreamFault::Device)), "{fails_at}");
    }
    assert!(rt; list_nodes(alloc, entries.as_slice(), Shape::One, 5).is_ok());
    Ok(())
}

/// Run with each allocation refused in turn: the next time all is written.
#[test]
fn writes_a_tree_after_refused_memory(rt: HostRuntime) -> Result<(), Fail> {
    let alloc = rt.alloc();
    let entry = Entry {
        key: b"key",
        value: b"value",
    };
    let entries = [entry];
    let done = match list_nodes(alloc, &entries, Shape::One, 0) {
        Err(StreamFault::Memory) => list_nodes(alloc, &entries, Shape::One, 0)?,
        done => done?,
    };
    assert_eq!(rt; done.levels, 1);
    assert_eq!(rt; done.writer.nodes.len(), 1);
    Ok(())
}
