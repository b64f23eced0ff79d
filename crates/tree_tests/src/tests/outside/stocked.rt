//! Shelves over a stock with some nodes of the tree, and over sources for the others.

use super::{LAST, LAST_KEY, LEAF, LEAF_KEY, Listed, TOP, TOP_KEY, TREE, Turned};
use bumpalo::Bump;
use outside_shelf::{NodeSource, NodeStock, ProofShelf, Refused, SourceFault, StockedShelf};
use std::alloc::{AllocError, Global};
use std::process::Abort;
use std::test::Fail;
use tree_node::{Digest, NewNode, Shelf, ShelfFault};

/// The nodes of the tree, each after its digest, as a proof lists them: by rising digest.
const RISING: [(Digest, &[u8]); 3] = [(TOP_KEY, TOP), (LAST_KEY, LAST), (LEAF_KEY, LEAF)];

/// Has no node.
#[derive(Drop)]
struct Bare;

impl NodeSource for Bare {
    fn read_node(
        &mut self,
        _key: &Digest,
        _at_most: usize,
        _into: &mut Vec<u8>,
    ) -> Result<(), SourceFault> {
        Err(SourceFault::Absent)
    }

    fn announce(&mut self, _top: &Digest, _lo: &[u8], _hi: &[u8]) {}
}

/// A stock with the first leaf alone.
fn stock_of_leaf(alloc: Global) -> Result<NodeStock, Fail> {
    let mut stock = NodeStock::new(alloc);
    stock.put(NewNode::new(LEAF.to_vec(alloc)?))?;
    Ok(stock)
}

/// Whether these are the nodes that were used, each after its digest, as a proof lists them.
fn has_used<'a>(
    alloc: Global,
    shelf: &impl ProofShelf<'a>,
    wanted: &[(Digest, &[u8])],
) -> Result<bool, AllocError> {
    let parts = shelf.used_parts(alloc)?;
    for (part, (key, node)) in parts.iter().zip(wanted) {
        if part.digest() != *key || part.bytes() != *node {
            return Ok(false);
        }
    }
    Ok(parts.len() == wanted.len())
}

/// A node of the stock is given without a source that has it, and counts as used only then. The reason of a refusal is told
/// until the next node is asked for.
#[test]
fn gives_nodes_of_the_stock(rt: HostRuntime) -> Result<(), Fail> {
    let arena = Bump::new(rt.alloc());
    let stock = stock_of_leaf(rt.alloc())?;
    let mut shelf = StockedShelf::new(rt.alloc(), &stock, &arena, Bare, Some(5));
    gives_the_leaf(&rt, rt.alloc(), &mut shelf)?;
    assert!(rt; shelf.left() == Some(5) && shelf.brought_len() == 0);
    assert!(rt; shelf.brought(rt.alloc())?.is_empty());
    Ok(())
}

/// Fetches what the stock hasn't, and then what it has.
fn gives_the_leaf(
    rt: &impl Abort,
    alloc: Global,
    shelf: &mut StockedShelf<'_, Bare>,
) -> Result<(), Fail> {
    assert!(rt; has_used(alloc, shelf, &[])?);
    assert!(rt; shelf.fetch(&LAST_KEY) == Err(ShelfFault::Missing));
    assert_eq!(rt; shelf.reason(), Some(Refused::Absent));
    assert!(rt; shelf.fetch(&LEAF_KEY)? == LEAF);
    assert_eq!(rt; shelf.reason(), None);
    let leaf = shelf.fetch_node(&LEAF_KEY)?;
    assert!(rt; leaf.bytes == LEAF && leaf.read.is_ok());
    assert!(rt; has_used(alloc, shelf, &[(LEAF_KEY, LEAF)])?);
    Ok(())
}

/// What the stock hasn't is brought and counted. Nodes of both kinds are listed by rising digest, each once.
#[test]
fn brings_what_the_stock_has_not(rt: HostRuntime) -> Result<(), Fail> {
    let arena = Bump::new(rt.alloc());
    let stock = stock_of_leaf(rt.alloc())?;
    let mut shelf = StockedShelf::new(rt.alloc(), &stock, &arena, Listed, Some(1000));
    gives_the_tree(&rt, &mut shelf)?;
    gives_the_tree(&rt, &mut shelf)?;
    // The top has 90 bytes, and the last leaf 11.
    assert_eq!(rt; shelf.left(), Some(899));
    assert_eq!(rt; shelf.brought_len(), 101);
    assert!(rt; has_used(rt.alloc(), &shelf, &RISING)?);
    Ok(())
}

/// Fetches each node of the tree.
fn gives_the_tree<'a, N: NodeSource + Drop>(
    rt: &impl Abort,
    shelf: &mut StockedShelf<'a, N>,
) -> Result<(), ShelfFault> {
    for (key, node) in &TREE {
        assert!(rt; shelf.fetch(key)? == *node);
        assert!(rt; shelf.fetch_node(key)?.bytes == *node);
    }
    Ok(())
}

/// Copies of what is brought for the whole tree.
fn copies_of_tree(rt: &impl Abort, alloc: Global, stock: &NodeStock) -> Result<Vec<NewNode>, Fail> {
    let arena = Bump::new(alloc);
    let mut shelf = StockedShelf::new(alloc, stock, &arena, Listed, None);
    gives_the_tree(rt, &mut shelf)?;
    Ok(shelf.brought(alloc)?)
}

/// What was brought can be put into the stock, and then no source is needed for it. Run with each allocation refused in turn.
#[test]
fn keeps_what_was_brought_within_memory(rt: HostRuntime) -> Result<(), Fail> {
    let mut stock = stock_of_leaf(rt.alloc())?;
    let copies = copies_of_tree(&rt, rt.alloc(), &stock)?;
    assert!(rt; copies.len() == 2 && copies[0].digest == TOP_KEY && copies[1].digest == LAST_KEY);
    for copy in copies {
        stock.put(copy)?;
    }
    let arena = Bump::new(rt.alloc());
    let mut shelf = StockedShelf::new(rt.alloc(), &stock, &arena, Bare, Some(0));
    gives_the_tree(&rt, &mut shelf)?;
    assert_eq!(rt; shelf.left(), Some(0));
    assert!(rt; has_used(rt.alloc(), &shelf, &RISING)?);
    Ok(())
}

/// Bytes with another digest are refused, and neither listed nor copied.
#[test]
fn refuses_what_is_not_the_node(rt: HostRuntime) -> Result<(), Fail> {
    let arena = Bump::new(rt.alloc());
    let stock = NodeStock::new(rt.alloc());
    let first = Some(Ok(LAST));
    let mut shelf = StockedShelf::new(rt.alloc(), &stock, &arena, Turned { first }, Some(1000));
    assert!(rt; shelf.fetch(&LEAF_KEY) == Err(ShelfFault::Missing));
    assert_eq!(rt; shelf.reason(), Some(Refused::Other));
    assert_eq!(rt; shelf.left(), Some(989));
    assert!(rt; has_used(rt.alloc(), &shelf, &[])?);
    assert!(rt; shelf.brought(rt.alloc())?.is_empty());
    assert!(rt; shelf.fetch(&LEAF_KEY) == Ok(LEAF));
    assert_eq!(rt; shelf.brought_len(), 11);
    Ok(())
}

/// A source hears what is announced.
#[test]
fn hands_hints_on(rt: HostRuntime) {
    let arena = Bump::new(rt.alloc());
    let stock = NodeStock::new(rt.alloc());
    let first = Some(Err(SourceFault::Device));
    let mut shelf = StockedShelf::new(rt.alloc(), &stock, &arena, Turned { first }, None);
    shelf.announce(&TOP_KEY, b"a", b"b");
    assert!(rt; shelf.fetch(&LEAF_KEY) == Ok(LEAF));
}

/// Fetches the node. Where memory is refused it is told so, and the node is fetched again.
fn fetch_at_last(rt: &impl Abort, shelf: &mut StockedShelf<'_, Listed>, key: &Digest, node: &[u8]) {
    if shelf.fetch(key) == Err(ShelfFault::Memory) {
        assert_eq!(rt; shelf.refused(), Some(Refused::Memory));
    }
    assert!(rt; shelf.fetch(key) == Ok(node));
    assert_eq!(rt; shelf.refused(), None);
}

/// Run with each allocation refused in turn.
#[test]
fn fetches_nodes_of_both_after_refused_memory(rt: HostRuntime) -> Result<(), Fail> {
    let arena = Bump::new(rt.alloc());
    let stock = stock_of_leaf(rt.alloc())?;
    let mut shelf = StockedShelf::new(rt.alloc(), &stock, &arena, Listed, None);
    for (key, node) in &TREE {
        fetch_at_last(&rt, &mut shelf, key, node);
    }
    Ok(())
}
