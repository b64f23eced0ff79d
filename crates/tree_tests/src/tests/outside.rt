//! A small tree behind sources that give it, and behind sources that don't.

mod stocked;

use bumpalo::Bump;
use outside_shelf::{NodeSource, OutsideShelf, Refused, SourceFault};
use std::process::Abort;
use std::test::Fail;
use tree_node::{Digest, Shelf, ShelfFault};

/// The leaf of the tree of tags with the one key `a`.
const LEAF: &[u8] = b"\x02\x00\x00\x01\x00\x01\x61\x00\x00\x00\x00";

const LEAF_KEY: Digest = Digest(
    *b"\xba\x43\x7a\x7a\xbc\xcc\x0d\x72\x3d\x3a\x2e\xad\x95\x07\x22\xbf\x1c\x12\x59\x4a\x18\xdc\xc2\x41\xc7\xa4\xaf\xe1\xa5\x35\x7d\xfe",
);

/// The leaf with the one key `b`.
const LAST: &[u8] = b"\x02\x00\x00\x01\x00\x01\x62\x00\x00\x00\x00";

const LAST_KEY: Digest = Digest(
    *b"\x92\x53\xd5\xfb\x6e\x17\x2d\x68\x0c\x9c\x90\x4d\x3d\xa7\x5f\x65\x67\x5b\x6e\xe3\xb0\x82\x49\x08\x09\x3d\xd6\x82\xf2\x7d\x0d\xaf",
);

/// The top over both leaves, which has their digests.
const TOP: &[u8] =
    b"\x02\x01\x00\x02\x00\x01\x61\x00\x00\x00\x00\x00\x00\x00\x01\xba\x43\x7a\x7a\xbc\xcc\x0d\x72\x3d\x3a\x2e\xad\x95\x07\x22\xbf\x1c\x12\x59\x4a\x18\xdc\xc2\x41\xc7\xa4\xaf\xe1\xa5\x35\x7d\xfe\x00\x01\x62\x00\x00\x00\x00\x00\x00\x00\x01\x92\x53\xd5\xfb\x6e\x17\x2d\x68\x0c\x9c\x90\x4d\x3d\xa7\x5f\x65\x67\x5b\x6e\xe3\xb0\x82\x49\x08\x09\x3d\xd6\x82\xf2\x7d\x0d\xaf";

const TOP_KEY: Digest = Digest(
    *b"\x17\x27\xe7\xf2\xf1\x68\x1d\x46\x2e\xbc\x7d\xf0\x02\x4c\x97\xec\x1e\xf2\x44\x9f\x64\x54\xa1\x17\x74\x36\xee\x3a\x26\x4a\x67\x83",
);

/// The nodes of the tree, each after its digest, from the top down. They have 112 bytes.
const TREE: [(Digest, &[u8]); 3] = [(TOP_KEY, TOP), (LEAF_KEY, LEAF), (LAST_KEY, LAST)];

/// Gives the nodes of the tree, each cut off as soon as it is too long.
#[derive(Drop)]
struct Listed;

impl NodeSource for Listed {
    fn read_node(
        &mut self,
        key: &Digest,
        at_most: usize,
        into: &mut Vec<u8>,
    ) -> Result<(), SourceFault> {
        for (digest, node) in &TREE {
            if digest == key {
                let len = node.len().min(at_most.saturating_add(1));
                into.extend_from_slice(&node[..len])?;
                return Ok(());
            }
        }
        Err(SourceFault::Absent)
    }

    fn announce(&mut self, _top: &Digest, _lo: &[u8], _hi: &[u8]) {}
}

/// Every node is given, and again without reading it.
#[test]
fn gives_a_tree(rt: HostRuntime) -> Result<(), Fail> {
    let arena = Bump::new(rt.alloc());
    let mut shelf = OutsideShelf::new(rt.alloc(), &arena, Listed, Some(1000));
    for (key, node) in &TREE {
        assert!(rt; shelf.fetch(key) == Ok(*node));
    }
    assert_eq!(rt; shelf.left(), Some(888));
    for (key, node) in &TREE {
        assert!(rt; shelf.fetch(key) == Ok(*node));
        assert_eq!(rt; shelf.refused(), None);
    }
    assert_eq!(rt; shelf.left(), Some(888));
    let top = shelf.fetch_node(&TOP_KEY)?;
    assert!(rt; top.bytes == TOP && top.read.is_ok());
    Ok(())
}

/// Gives one thing first, and then the leaf, whatever the digest is.
#[derive(Drop)]
struct Turned {
    first: Option<Result<&'static [u8], SourceFault>>,
}

impl NodeSource for Turned {
    fn read_node(
        &mut self,
        _key: &Digest,
        _at_most: usize,
        into: &mut Vec<u8>,
    ) -> Result<(), SourceFault> {
        let node = match self.first.take() {
            Some(first) => first?,
            None => LEAF,
        };
        into.extend_from_slice(node)?;
        Ok(())
    }

    /// Turns to the leaf.
    fn announce(&mut self, _top: &Digest, _lo: &[u8], _hi: &[u8]) {
        self.first = None;
    }
}

/// What is given first for the leaf, why it is refused, what is told, and how many bytes of 1000 are left.
type Row = (Result<&'static [u8], SourceFault>, Refused, ShelfFault, u64);

const ROWS: [Row; 7] = [
    // Another node, one bit turned, a byte too few, no bytes.
    (Ok(LAST), Refused::Other, ShelfFault::Missing, 989),
    (
        Ok(b"\x02\x00\x00\x01\x00\x01\x61\x00\x00\x00\x01"),
        Refused::Other,
        ShelfFault::Missing,
        989,
    ),
    (
        Ok(b"\x02\x00\x00\x01\x00\x01\x61\x00\x00\x00"),
        Refused::Other,
        ShelfFault::Missing,
        990,
    ),
    (Ok(b""), Refused::Other, ShelfFault::Missing, 1000),
    (
        Err(SourceFault::Absent),
        Refused::Absent,
        ShelfFault::Missing,
        1000,
    ),
    (
        Err(SourceFault::Device),
        Refused::Device,
        ShelfFault::Missing,
        1000,
    ),
    (
        Err(SourceFault::Memory),
        Refused::Memory,
        ShelfFault::Memory,
        1000,
    ),
];

/// What is refused isn't remembered, and the reason is told until the next node is asked for.
#[test]
fn refuses_what_is_not_the_node(rt: HostRuntime) -> Result<(), Fail> {
    let arena = Bump::new(rt.alloc());
    for (first, reason, fault, left) in &ROWS {
        let source = Turned {
            first: Some(*first),
        };
        let mut shelf = OutsideShelf::new(rt.alloc(), &arena, source, Some(1000));
        assert_eq!(rt; shelf.refused(), None);
        assert!(rt; shelf.fetch(&LEAF_KEY) == Err(*fault), "{reason}");
        assert_eq!(rt; shelf.refused(), Some(*reason));
        assert_eq!(rt; shelf.left(), Some(*left), "{reason}");
        assert!(rt; shelf.fetch(&LEAF_KEY) == Ok(LEAF), "{reason}");
        assert_eq!(rt; shelf.refused(), None);
    }
    Ok(())
}

/// A source hears what is announced.
#[test]
fn hands_hints_on(rt: HostRuntime) {
    let arena = Bump::new(rt.alloc());
    let first = Some(Err(SourceFault::Device));
    let mut shelf = OutsideShelf::new(rt.alloc(), &arena, Turned { first }, None);
    shelf.announce(&TOP_KEY, b"a", b"b");
    assert!(rt; shelf.fetch(&LEAF_KEY) == Ok(LEAF));
}

/// The three nodes are given within their 112 bytes, and the last one isn't within 111.
#[test]
fn gives_no_more_than_the_bound(rt: HostRuntime) -> Result<(), Fail> {
    let arena = Bump::new(rt.alloc());
    for (most, last, reason) in [
        (None, Ok(LAST), None),
        (Some(112), Ok(LAST), None),
        (Some(111), Err(ShelfFault::Missing), Some(Refused::TooMany)),
    ] {
        let mut shelf = OutsideShelf::new(rt.alloc(), &arena, Listed, most);
        assert!(rt; shelf.fetch(&TOP_KEY) == Ok(TOP));
        assert!(rt; shelf.fetch(&LEAF_KEY) == Ok(LEAF));
        assert!(rt; shelf.fetch(&LAST_KEY) == last, "{most:?}");
        assert_eq!(rt; shelf.refused(), reason);
        assert_eq!(rt; shelf.left(), most.map(|_| 0), "{most:?}");
    }
    Ok(())
}

/// Has no node, and says that it fails where the limit isn't this one.
#[derive(Drop)]
struct Limited(usize);

impl NodeSource for Limited {
    fn read_node(
        &mut self,
        _key: &Digest,
        at_most: usize,
        _into: &mut Vec<u8>,
    ) -> Result<(), SourceFault> {
        if at_most == self.0 {
            return Err(SourceFault::Absent);
        }
        Err(SourceFault::Device)
    }

    fn announce(&mut self, _top: &Digest, _lo: &[u8], _hi: &[u8]) {}
}

/// A source hears how many bytes are left.
#[test]
fn tells_the_source_what_is_left(rt: HostRuntime) {
    let arena = Bump::new(rt.alloc());
    for (most, left) in [(None, usize::MAX), (Some(7), 7), (Some(0), 0)] {
        let mut shelf = OutsideShelf::new(rt.alloc(), &arena, Limited(left), most);
        assert!(rt; shelf.fetch(&LEAF_KEY) == Err(ShelfFault::Missing));
        assert_eq!(rt; shelf.refused(), Some(Refused::Absent), "{most:?}");
    }
}

/// Fetches the node. Where memory is refused it is told so, and the node is fetched again.
fn fetch_at_last(rt: &impl Abort, shelf: &mut OutsideShelf<'_, Listed>, key: &Digest, node: &[u8]) {
    if shelf.fetch(key) == Err(ShelfFault::Memory) {
        assert_eq!(rt; shelf.refused(), Some(Refused::Memory));
    }
    assert!(rt; shelf.fetch(key) == Ok(node));
}

/// Run with each allocation refused in turn.
#[test]
fn fetches_nodes_after_refused_memory(rt: HostRuntime) {
    let arena = Bump::new(rt.alloc());
    let mut shelf = OutsideShelf::new(rt.alloc(), &arena, Listed, None);
    for (key, node) in &TREE {
        fetch_at_last(&rt, &mut shelf, key, node);
    }
}

/// The nodes that were brought come once each, by rising digest. Run with each allocation refused in turn.
#[test]
fn lists_what_it_brought_within_memory(rt: HostRuntime) -> Result<(), Fail> {
    let arena = Bump::new(rt.alloc());
    let mut shelf = OutsideShelf::new(rt.alloc(), &arena, Listed, None);
    assert!(rt; shelf.parts(rt.alloc())?.is_empty());
    for key in [LEAF_KEY, LAST_KEY, TOP_KEY, LEAF_KEY] {
        shelf.fetch(&key)?;
    }
    let parts = shelf.parts(rt.alloc())?;
    let expected = [(TOP_KEY, TOP), (LAST_KEY, LAST), (LEAF_KEY, LEAF)];
    assert_eq!(rt; parts.len(), 3);
    for (part, (key, node)) in parts.iter().zip(expected) {
        assert!(rt; part.digest() == key && part.bytes() == node);
    }
    Ok(())
}
