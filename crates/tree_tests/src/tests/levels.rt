//! Trees by a device in memory, which may refuse each call in turn, beside those that are built of whole lists.

ghost use Rattle.std.specs.Prelude.{false, map, true};

use super::whole_trees::{built, entries_of, numbers};
use external_sort::{RunStore, StoreFault, StoreMaker};
use level_files::{FinishedTrees, TreesBuilder};
use std::alloc::{AllocError, Global};
use std::cell::Cell;
use std::process::Abort;
use std::rc::Rc;
use std::test::Fail;
use tree_build::{Entry, Shape};
use tree_node::{Digest, Shelf, Stock, Tree, digest_of};
use tree_stream::{NodeLevels, ReadBackFault, StreamFault, WriterFault};

/// Keeps runs in memory, and refuses each call after so many, which are counted for all stores.
#[derive(Drop)]
struct Kept {
    alloc: Global,
    calls: Rc<Cell<u64>>,
    /// Whether it gives back nothing but bytes of 255.
    is_spoiled: bool,
    runs: Vec<Vec<u8>>,
    hand: Vec<u8>,
}

/// Makes stores in memory.
#[derive(Drop)]
struct Disk {
    alloc: Global,
    calls: Rc<Cell<u64>>,
    is_spoiled: bool,
}

/// Counts a call, if one more may be made.
fn count(calls: &Cell<u64>) -> Result<(), StoreFault> {
    let Some(left) = calls.get().checked_sub(1) else {
        return Err(StoreFault);
    };
    calls.set(left);
    Ok(())
}

impl RunStore for Kept {
    ghost runs = { λ kept. map (λ run. run.items) kept.runs.items };

    ghost in_hand = { λ kept. kept.hand.items };

    ghost may_refuse = { true };

    ghost is_true = { false };

    fn append(&mut self, bytes: &[u8]) -> Result<(), StoreFault> {
        count(&self.calls)?;
        match self.hand.extend_from_slice(bytes) {
            Ok(()) => Ok(()),
            Err(_) => Err(StoreFault),
        }
    }

    fn end_run(&mut self) -> Result<(), StoreFault> {
        count(&self.calls)?;
        let run = std::mem::replace(&mut self.hand, Vec::new(self.alloc));
        match self.runs.push(run) {
            Ok(()) => Ok(()),
            Err(_) => Err(StoreFault),
        }
    }

    fn read(&mut self, run: usize, offset: u64, into: &mut [u8]) -> Result<(), StoreFault> {
        count(&self.calls)?;
        if run >= self.runs.len() {
            return Err(StoreFault);
        }
        let bytes = self.runs[run].as_slice();
        let start = offset as usize;
        if start > bytes.len() || into.len() > bytes.len() - start {
            return Err(StoreFault);
        }
        into.copy_from_slice(&bytes[start..start + into.len()]);
        if self.is_spoiled {
            into.fill(255);
        }
        Ok(())
    }
}

impl StoreMaker<Kept> for Disk {
    fn make_store(&mut self) -> Result<Kept, StoreFault> {
        count(&self.calls)?;
        let Ok(calls) = Rc::clone(&self.calls) else {
            return Err(StoreFault);
        };
        Ok(Kept {
            alloc: self.alloc,
            calls,
            is_spoiled: self.is_spoiled,
            runs: Vec::new(self.alloc),
            hand: Vec::new(self.alloc),
        })
    }
}

/// A device that refuses each call after so many.
fn make_disk(alloc: Global, calls: &Rc<Cell<u64>>, is_spoiled: bool) -> Result<Disk, AllocError> {
    Ok(Disk {
        alloc,
        calls: Rc::clone(calls)?,
        is_spoiled,
    })
}

/// Four trees without entries yet.
fn builder(
    alloc: Global,
    shape: Shape,
    calls: &Rc<Cell<u64>>,
    is_spoiled: bool,
) -> Result<TreesBuilder<Kept, Disk>, AllocError> {
    let objects = make_disk(alloc, calls, is_spoiled)?;
    let tags = make_disk(alloc, calls, is_spoiled)?;
    let cells = make_disk(alloc, calls, is_spoiled)?;
    let backs = make_disk(alloc, calls, is_spoiled)?;
    Ok(TreesBuilder::new(alloc, shape, [objects, tags, cells, backs]))
}

/// The trees with these entries in the second tree and the first of them in the fourth.
fn stored(
    alloc: Global,
    entries: &[Entry<'_>],
    shape: Shape,
    calls: &Rc<Cell<u64>>,
    is_spoiled: bool,
) -> Result<FinishedTrees<Kept>, StreamFault> {
    let mut trees = builder(alloc, shape, calls, is_spoiled)?;
    push_all(&mut trees, Tree::Tags, entries)?;
    push_all(&mut trees, Tree::Backs, first_of(entries))?;
    Ok(trees.finish()?)
}

/// Gives these entries to a tree.
fn push_all(
    trees: &mut TreesBuilder<Kept, Disk>,
    tree: Tree,
    entries: &[Entry<'_>],
) -> Result<(), StreamFault> {
    for entry in entries {
        trees.push(tree, entry.key, entry.value)?;
    }
    Ok(())
}

/// The first of some entries, or none.
fn first_of<'s, 'e>(entries: &'s [Entry<'e>]) -> &'s [Entry<'e>] {
    &entries[..entries.len().min(1)]
}

/// Reads the nodes of a level, which are in the stock, and their lengths. Gives how many there are, and how many children
/// they have.
fn read_level(
    rt: &impl Abort,
    alloc: Global,
    trees: &mut FinishedTrees<Kept>,
    level: u8,
    stock: &Stock,
) -> Result<(u64, u64), Fail> {
    let mut shelf = stock.shelf(alloc);
    let mut node = Vec::new(alloc);
    let mut nodes: u64 = 0;
    let mut children: u64 = 0;
    for _ in 0..u64::MAX {
        if !trees.levels.next_node(Tree::Tags, level, &mut node)? {
            break;
        }
        let bytes = shelf.fetch(&digest_of(node.as_slice()))?;
        assert!(rt; bytes == node.as_slice());
        let Some(len) = trees.levels.next_len(Tree::Tags, level)? else {
            return Err(Fail::from("a node without a length"));
        };
        assert_eq!(rt; len.bytes as usize, node.len());
        nodes = nodes.saturating_add(1);
        children = children.saturating_add(u64::from(len.children));
    }
    assert!(rt; trees.levels.next_len(Tree::Tags, level)?.is_none());
    Ok((nodes, children))
}

/// Reads all levels of the tree of these entries. Gives how many nodes it has, and how many levels.
fn read_all(
    rt: &impl Abort,
    alloc: Global,
    entries: &[Entry<'_>],
    shape: Shape,
) -> Result<(u64, u8), Fail> {
    let calls = Rc::new(alloc, Cell::new(u64::MAX))?;
    let mut trees = stored(alloc, entries, shape, &calls, false)?;
    let mut stock = Stock::new(alloc);
    let top = built(alloc, entries, Tree::Tags, shape, &mut stock)?;
    assert!(rt; trees.tops[1] == top);
    let mut all: u64 = 0;
    let mut below: u64 = 0;
    for level in 0..trees.heights[1] {
        let (nodes, children) = read_level(rt, alloc, &mut trees, level, &stock)?;
        assert_eq!(rt; children, below);
        trees.levels.rewind(Tree::Tags, level);
        assert!(rt; read_level(rt, alloc, &mut trees, level, &stock)? == (nodes, children));
        all = all.saturating_add(nodes);
        below = nodes;
    }
    assert_eq!(rt; below, 1);
    Ok((all, trees.heights[1]))
}

/// Each node is one of the tree that is built of the whole list, and of each level there are as many as the level above
/// states.
#[test]
fn reads_the_trees_that_are_built(rt: HostRuntime) -> Result<(), Fail> {
    let alloc = rt.alloc();
    for (count, nodes, levels) in [(0, 1, 1), (1, 1, 1), (64, 1, 1), (65, 3, 2), (5_000, 82, 3)] {
        let keys = numbers(alloc, count)?;
        let entries = entries_of(alloc, keys.as_slice())?;
        let read = read_all(&rt, alloc, entries.as_slice(), Shape::One)?;
        assert!(rt; read == (nodes, levels), "{count}");
        read_all(&rt, alloc, entries.as_slice(), Shape::Two)?;
    }
    Ok(())
}

/// A tree gets its own entries alone.
#[test]
fn keeps_trees_apart(rt: HostRuntime) -> Result<(), Fail> {
    let alloc = rt.alloc();
    let keys = numbers(alloc, 65)?;
    let entries = entries_of(alloc, keys.as_slice())?;
    let calls = Rc::new(alloc, Cell::new(u64::MAX))?;
    let mut trees = stored(alloc, entries.as_slice(), Shape::One, &calls, false)?;
    assert!(rt; trees.heights == [1, 2, 1, 1]);
    assert!(rt; has_tops(alloc, trees.tops, entries.as_slice())?);
    assert!(rt; has_empty_leaf(alloc, &mut trees)?);
    Ok(())
}

/// Whether these are the tops of the other trees, of which the fourth has the first of the entries.
fn has_tops(alloc: Global, tops: [Digest; 4], entries: &[Entry<'_>]) -> Result<bool, Fail> {
    let [objects, _, cells, backs] = tops;
    Ok(
        objects == top_of(alloc, Tree::Objects, &[])?
            && cells == top_of(alloc, Tree::Cells, &[])?
            && backs == top_of(alloc, Tree::Backs, first_of(entries))?,
    )
}

/// The digest of the top of the tree of these entries.
fn top_of(alloc: Global, tree: Tree, entries: &[Entry<'_>]) -> Result<Digest, Fail> {
    let mut stock = Stock::new(alloc);
    built(alloc, entries, tree, Shape::One, &mut stock)
}

/// Whether the only node of the third tree is a leaf without entries.
fn has_empty_leaf(alloc: Global, trees: &mut FinishedTrees<Kept>) -> Result<bool, ReadBackFault> {
    let mut node = Vec::new(alloc);
    let above = trees.levels.next_node(Tree::Cells, 1, &mut node)?;
    let leaf = trees.levels.next_node(Tree::Cells, 0, &mut node)?;
    Ok(!above && leaf && node.as_slice() == [3, 0, 0, 0].as_slice())
}

/// The fault with which trees of these entries are refused by a device that refuses each call after so many.
fn fault_after(
    alloc: Global,
    entries: &[Entry<'_>],
    calls: u64,
) -> Result<Option<StreamFault>, AllocError> {
    let calls = Rc::new(alloc, Cell::new(calls))?;
    Ok(stored(alloc, entries, Shape::One, &calls, false).err())
}

/// Whichever call the device refuses, the fault comes.
#[test]
fn tells_refused_calls(rt: HostRuntime) -> Result<(), Fail> {
    let alloc = rt.alloc();
    let keys = numbers(alloc, 65)?;
    let entries = entries_of(alloc, keys.as_slice())?;
    let mut done = false;
    for calls in 0..60 {
        match fault_after(alloc, entries.as_slice(), calls)? {
            None => done = true,
            fault => assert!(rt; !done && fault == Some(StreamFault::Device)),
        }
    }
    assert!(rt; done);
    Ok(())
}

/// After a fault each call is refused.
#[test]
fn is_of_no_use_after_a_fault(rt: HostRuntime) -> Result<(), Fail> {
    let alloc = rt.alloc();
    let keys = numbers(alloc, 64)?;
    let calls = Rc::new(alloc, Cell::new(0))?;
    let mut trees = builder(alloc, Shape::One, &calls, false)?;
    let mut taken: u64 = 0;
    for key in keys.chunks(8) {
        if trees.push(Tree::Cells, key, b"").is_ok() {
            taken = taken.saturating_add(1);
        }
    }
    assert_eq!(rt; taken, 63);
    calls.set(u64::MAX);
    assert!(rt; trees.push(Tree::Tags, b"", b"") == Err(StreamFault::Device));
    assert!(rt; matches!(trees.finish(), Err(WriterFault::Device)));
    Ok(())
}

/// What a device gives back that isn't what it was given is refused where it can't be a length, and so is what comes after
/// a refusal.
#[test]
fn refuses_what_no_node_is(rt: HostRuntime) -> Result<(), Fail> {
    let alloc = rt.alloc();
    let calls = Rc::new(alloc, Cell::new(u64::MAX))?;
    let mut trees = stored(alloc, &[], Shape::One, &calls, true)?;
    let mut node = Vec::new(alloc);
    let refused = Err(ReadBackFault::Device);
    assert!(rt; trees.levels.next_node(Tree::Tags, 0, &mut node) == refused);
    trees.levels.rewind(Tree::Tags, 0);
    assert!(rt; trees.levels.next_node(Tree::Tags, 0, &mut node) == refused);
    Ok(())
}

/// Run with each allocation refused in turn: the next time all is written and read.
#[test]
fn builds_trees_after_refused_memory(rt: HostRuntime) -> Result<(), Fail> {
    let alloc = rt.alloc();
    let entry = Entry {
        key: b"key",
        value: b"value",
    };
    let entries = [entry];
    let calls = match Rc::new(alloc, Cell::new(u64::MAX)) {
        Ok(calls) => calls,
        Err(_) => Rc::new(alloc, Cell::new(u64::MAX))?,
    };
    let mut trees = match stored(alloc, &entries, Shape::One, &calls, false) {
        Err(_) => stored(alloc, &entries, Shape::One, &calls, false)?,
        done => done?,
    };
    let mut node = Vec::new(alloc);
    match trees.levels.next_node(Tree::Tags, 0, &mut node) {
        Ok(more) => assert!(rt; more && node.len() == 18),
        Err(fault) => assert!(rt; fault == ReadBackFault::Memory),
    }
    Ok(())
}
