//! Worked values from outside: the bytes of docs/FORMATS.md.

use std::alloc::{AllocError, Global};
use std::process::Abort;
use std::test::Fail;
use tree_node::{
    Bag, Child, Children, Digest, Entries, Item, NewNode, NodeFault, NodeRef, PutFault, Recorder,
    Shelf, ShelfFault, Stock, Tree, digest_of, is_below, write_inner, write_leaf,
};

/// The leaf of the one object `n1 x0 y0`.
const LEAF: &[u8] =
    b"\x01\x00\x00\x01\x00\x09\x01\x80\x00\x00\x00\x00\x00\x00\x01\x00\x00\x00\x1an1 v0 dV c0 t i0 u T x0 y0";

/// The key of that object.
const KEY: &[u8] = b"\x01\x80\x00\x00\x00\x00\x00\x00\x01";

/// The canonical line of that object.
const LINE: &[u8] = b"n1 v0 dV c0 t i0 u T x0 y0";

/// The entry of that object.
const ITEM: Item<'static> = Item {
    key: KEY,
    value: LINE,
};

/// The inner node of the tree of tags with one child, whose greatest key is 3f, below which there are 2^40
/// entries, and which is named by the digest of `abc`.
const INNER: &[u8] =
    b"\x02\x01\x00\x01\x00\x01\x3f\x00\x00\x01\x00\x00\x00\x00\x00\xba\x78\x16\xbf\x8f\x01\xcf\xea\x41\x41\x40\xde\x5d\xae\x22\x23\xb0\x03\x61\xa3\x96\x17\x7a\x9c\xb4\x10\xff\x61\xf2\x00\x15\xad";

/// Bytes that are no node, and why.
const NO_NODES: [(&[u8], NodeFault); 14] = [
    (b"", NodeFault::CutShort),
    (b"\x05\x00\x00", NodeFault::CutShort),
    (b"\x05\x00\x00\x00", NodeFault::BadTreeOrLevel),
    (b"\x00\x00\x00\x00", NodeFault::BadTreeOrLevel),
    (b"\x01\x40\x00\x00", NodeFault::BadTreeOrLevel),
    (b"\x01\x00\x00\x41", NodeFault::BadCount),
    (b"\x01\x01\x00\x00", NodeFault::BadCount),
    (b"\x01\x00\x00\x01\x00", NodeFault::CutShort),
    (b"\x01\x00\x00\x00\x00", NodeFault::BytesAfter),
    // A second key that isn't above the first, before what is cut short after it.
    (
        b"\x01\x00\x00\x03\x00\x01a\x00\x00\x00\x00\x00\x01a\x00\x00\x00\x00",
        NodeFault::NotRising,
    ),
    // The greatest byte of a key decides, and then its length.
    (
        b"\x01\x00\x00\x02\x00\x02ab\x00\x00\x00\x00\x00\x01a\x00\x00\x00\x00",
        NodeFault::NotRising,
    ),
    (
        b"\x01\x00\x00\x02\x00\x01b\x00\x00\x00\x00\x00\x02ac\x00\x00\x00\x00",
        NodeFault::NotRising,
    ),
    // A child of no entries, and one of more than 2^40.
    (
        b"\x01\x01\x00\x01\x00\x01a\x00\x00\x00\x00\x00\x00\x00\x0000000000000000000000000000000000",
        NodeFault::BadCount,
    ),
    (
        b"\x01\x01\x00\x01\x00\x01a\x00\x00\x01\x00\x00\x00\x00\x0100000000000000000000000000000000",
        NodeFault::BadCount,
    ),
];

/// Why these bytes are no node; nothing of a node.
fn fault_of(bytes: &[u8]) -> Option<NodeFault> {
    NodeRef::read(bytes).err()
}

#[test]
fn refuses_bytes_that_are_no_node(rt: HostRuntime) {
    for (bytes, fault) in &NO_NODES {
        assert!(rt; fault_of(bytes) == Some(*fault), "{bytes:?}");
    }
}

#[test]
fn reads_the_leaf_of_one_object(rt: HostRuntime) -> Result<(), Fail> {
    let node = NodeRef::read(LEAF)?;
    assert!(rt; node.tree() == Tree::Objects);
    let Some(mut entries) = entries_of(node) else {
        return Err(Fail::from("a leaf was expected"));
    };
    assert!(rt; entries.number() == 1 && entries.greatest() == KEY);
    assert!(rt; entries.again().skip_below(KEY).number() == 1 && is_below(b"\x01\x80", KEY));
    let Some(item) = entries.next() else {
        return Err(Fail::from("an entry was expected"));
    };
    assert!(rt; item.key == KEY && item.value == LINE);
    Ok(())
}

#[test]
fn writes_a_leaf_without_entries(rt: HostRuntime) -> Result<(), AllocError> {
    let mut out = Vec::new(rt.alloc());
    write_leaf(Tree::Objects, &[], &mut out)?;
    assert!(rt; out.as_slice() == b"\x01\x00\x00\x00".as_slice());
    Ok(())
}

/// The entries of a leaf; none of an inner node.
fn entries_of(node: NodeRef<'_>) -> Option<Entries<'_>> {
    match node {
        NodeRef::Leaf { tree: _, entries } => Some(entries),
        NodeRef::Inner {
            tree: _,
            level: _,
            children: _,
        } => None,
    }
}

/// The children of an inner node; none of a leaf.
fn children_of(node: NodeRef<'_>) -> Option<Children<'_>> {
    match node {
        NodeRef::Inner {
            tree: _,
            level: _,
            children,
        } => Some(children),
        NodeRef::Leaf {
            tree: _,
            entries: _,
        } => None,
    }
}

/// The bytes are the inner node of that child alone.
fn reads_as(rt: &impl Abort, bytes: &[u8], wanted: &Child<'_>) -> Result<(), Fail> {
    let Some(children) = children_of(NodeRef::read(bytes)?) else {
        return Err(Fail::from("an inner node was expected"));
    };
    assert!(rt; children.number() == wanted.number && children.greatest() == wanted.greatest);
    let (before, mut children) = children.skip_below(wanted.greatest);
    assert!(rt; before.is_none());
    let Some(child) = children.next() else {
        return Err(Fail::from("a child was expected"));
    };
    assert!(rt; child.number == wanted.number && child.digest == wanted.digest);
    Ok(())
}

#[test]
fn reads_and_writes_an_inner_node(rt: HostRuntime) -> Result<(), Fail> {
    let child = Child {
        greatest: b"\x3f",
        number: 1 << 40,
        digest: digest_of(b"abc"),
    };
    reads_as(&rt, INNER, &child)?;
    let mut out = Vec::new(rt.alloc());
    write_inner(Tree::Tags, 1, &[child], &mut out)?;
    assert!(rt; out.as_slice() == INNER);
    Ok(())
}

/// Puts these bytes into the stock.
fn put(alloc: Global, stock: &mut Stock, node: &[u8]) -> Result<Digest, Fail> {
    Ok(stock.put(node.to_vec(alloc)?)?)
}

/// A shelf hasn't this node.
fn lacks<'a, S: Shelf<'a>>(rt: &impl Abort, shelf: &mut S, node: &[u8]) {
    assert!(rt; shelf.fetch(&digest_of(node)) == Err(ShelfFault::Missing));
}

/// A shelf gives the leaf and the empty bytes; the first outlives the second fetch.
fn gives_both<'a, S: Shelf<'a>>(rt: &impl Abort, shelf: &mut S) {
    let first = shelf.fetch(&digest_of(LEAF));
    let second = shelf.fetch(&digest_of(b""));
    assert!(rt; first == Ok(LEAF) && second == Ok(b"".as_slice()));
}

/// The greatest key below the node with this digest, over any shelf, or why its bytes are no node.
fn fetch_greatest<'a, S: Shelf<'a>>(
    shelf: &mut S,
    key: &Digest,
) -> Result<Result<&'a [u8], NodeFault>, ShelfFault> {
    match shelf.fetch_node(key)?.read {
        Ok(NodeRef::Leaf { entries, .. }) => Ok(Ok(entries.greatest())),
        Ok(NodeRef::Inner { children, .. }) => Ok(Ok(children.greatest())),
        Err(fault) => Ok(Err(fault)),
    }
}

/// A shelf gives, as nodes, the leaf and bytes that are no node.
fn gives_read<'a, S: Shelf<'a>>(rt: &impl Abort, shelf: &mut S) {
    let leaf = fetch_greatest(shelf, &digest_of(LEAF));
    let other = fetch_greatest(shelf, &digest_of(b""));
    assert!(rt; leaf == Ok(Ok(KEY)) && other == Ok(Err(NodeFault::CutShort)));
}

/// A shelf gives nodes as bytes before and after it gives them as read, and not the node that was taken away.
fn gives_nodes<'a, S: Shelf<'a>>(rt: &impl Abort, shelf: &mut S) {
    gives_both(rt, shelf);
    gives_read(rt, shelf);
    gives_read(rt, shelf);
    gives_both(rt, shelf);
    lacks(rt, shelf, b"a");
}

/// Puts the leaf, which was digested before, and puts it again, and other bytes, of which it takes one away.
fn put_nodes(alloc: Global, stock: &mut Stock) -> Result<(), Fail> {
    stock.put_new(NewNode::new(LEAF.to_vec(alloc)?))?;
    for node in [LEAF, b"", b"a"] {
        put(alloc, stock, node)?;
    }
    stock.remove(&digest_of(b"a"));
    Ok(())
}

/// A bag of the two nodes that the shelf has given.
fn bag_of<'a>(rt: &impl Abort, alloc: Global, shelf: &Recorder<'a>) -> Result<Bag<'a>, AllocError> {
    let parts = shelf.parts()?;
    assert!(rt; parts.len() == 2);
    Bag::new(alloc, parts)
}

/// A bag of the leaf and the empty bytes, which the shelf has given, gives them.
fn lends(rt: &impl Abort, alloc: Global, shelf: &Recorder<'_>) -> Result<(), AllocError> {
    let mut bag = bag_of(rt, alloc, shelf)?;
    gives_nodes(rt, &mut bag);
    assert!(rt; bag.all_used());
    Ok(())
}

#[test]
fn records_and_lends_what_was_used(rt: HostRuntime) -> Result<(), Fail> {
    let alloc = rt.alloc();
    let mut stock = Stock::new(alloc);
    put_nodes(alloc, &mut stock)?;
    let mut shelf = stock.shelf(alloc);
    gives_nodes(&rt, &mut shelf);
    Ok(lends(&rt, alloc, &shelf)?)
}

/// Puts the node. Where memory is refused the stock is as before, and it is put again.
fn put_at_last(rt: &impl Abort, alloc: Global, stock: &mut Stock, node: &[u8]) -> Result<(), Fail> {
    if stock.put(node.to_vec(alloc)?) == Err(PutFault::Memory) {
        lacks(rt, &mut stock.shelf(alloc), node);
        let key = put(alloc, stock, node)?;
        assert!(rt; key == digest_of(node));
    }
    Ok(())
}

/// Fetches the leaf as a node. Where memory is refused no node was used, and it is fetched again.
fn read_at_last(rt: &impl Abort, shelf: &mut Recorder<'_>) -> Result<(), AllocError> {
    let key = digest_of(LEAF);
    let mut fetched = fetch_greatest(shelf, &key);
    if fetched == Err(ShelfFault::Memory) {
        assert!(rt; shelf.parts()?.is_empty());
        fetched = fetch_greatest(shelf, &key);
    }
    assert!(rt; fetched == Ok(Ok(KEY)));
    Ok(())
}

/// Where memory to remember a node is refused, no node was used, and the next fetch gives it. Run with each
/// allocation refused in turn.
#[test]
fn fetches_a_node_after_refused_memory(rt: HostRuntime) -> Result<(), Fail> {
    let alloc = rt.alloc();
    let mut stock = Stock::new(alloc);
    put_at_last(&rt, alloc, &mut stock, LEAF)?;
    Ok(read_at_last(&rt, &mut stock.shelf(alloc))?)
}

/// Fetches the node. Where memory is refused as many nodes are used as before, and it is fetched again.
fn fetch_at_last(
    rt: &impl Abort,
    shelf: &mut Recorder<'_>,
    node: &[u8],
    used: usize,
) -> Result<(), AllocError> {
    let key = digest_of(node);
    let mut fetched = shelf.fetch(&key);
    if fetched == Err(ShelfFault::Memory) {
        assert!(rt; shelf.parts()?.len() == used);
        fetched = shelf.fetch(&key);
    }
    assert!(rt; fetched == Ok(node));
    Ok(())
}

/// Makes a bag, none of whose nodes is used. Where memory is refused it is made again.
fn lend_at_last(rt: &impl Abort, alloc: Global, shelf: &Recorder<'_>) -> Result<(), AllocError> {
    let mut bag = bag_of(rt, alloc, shelf);
    if bag.is_err() {
        bag = bag_of(rt, alloc, shelf);
    }
    assert!(rt; !bag?.all_used());
    Ok(())
}

/// Fetches two nodes and makes a bag of them.
fn use_at_last(rt: &impl Abort, alloc: Global, mut shelf: Recorder<'_>) -> Result<(), AllocError> {
    fetch_at_last(rt, &mut shelf, b"a", 0)?;
    fetch_at_last(rt, &mut shelf, b"b", 1)?;
    lend_at_last(rt, alloc, &shelf)
}

/// Where memory is refused, a stock, a recorder and what a bag is made of are as before, and the next
/// call, with ample memory, gives the full result. Run with each allocation refused in turn.
#[test]
fn stands_after_refused_memory(rt: HostRuntime) -> Result<(), Fail> {
    let alloc = rt.alloc();
    let mut stock = Stock::new(alloc);
    for node in [b"a", b"b", b"c"] {
        put_at_last(&rt, alloc, &mut stock, node)?;
    }
    Ok(use_at_last(&rt, alloc, stock.shelf(alloc))?)
}

/// Where memory is refused, a lent vector is as before, and the next call, with ample memory, writes the
/// leaf. Run with each allocation refused in turn.
#[test]
fn writes_a_leaf_after_refused_memory(rt: HostRuntime) -> Result<(), AllocError> {
    let mut out = Vec::new(rt.alloc());
    if write_leaf(Tree::Objects, &[ITEM], &mut out).is_err() {
        assert!(rt; out.is_empty());
        write_leaf(Tree::Objects, &[ITEM], &mut out)?;
    }
    assert!(rt; out.as_slice() == LEAF);
    Ok(())
}

/// The same of an inner node.
#[test]
fn writes_an_inner_node_after_refused_memory(rt: HostRuntime) -> Result<(), AllocError> {
    let child = Child {
        greatest: b"a",
        number: 1,
        digest: digest_of(LEAF),
    };
    let mut out = Vec::new(rt.alloc());
    if write_inner(Tree::Objects, 1, &[child], &mut out).is_err() {
        assert!(rt; out.is_empty());
        write_inner(Tree::Objects, 1, &[child], &mut out)?;
    }
    assert!(rt; out.len() == 47);
    Ok(())
}
