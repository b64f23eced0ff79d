//! Nodes that no builder made.

use super::super::by_hand::{all, child, keys, put_inner, put_leaf, walked};
use std::alloc::Global;
use std::process::Abort;
use std::test::Fail;
use tree_node::{Digest, Fetched, NodeFault, Shelf, ShelfFault, Stock, Tree, digest_of};
use tree_walk::{Tally, WalkFault};

/// A walk over all of the stock is refused so, after this many fetches.
fn is_refused(
    rt: &impl Abort,
    alloc: Global,
    stock: &Stock,
    top: &Digest,
    fault: WalkFault,
    fetches: u64,
) -> Result<(), Fail> {
    let mut shelf = stock.shelf(alloc);
    let answer = walked(alloc, &mut shelf, top, &all())?;
    assert!(rt;
        answer == (Err(fault), Tally { calls: 1, fetches }),
        "{fault:?}"
    );
    Ok(())
}

/// A walk from a top that isn't held, from one whose bytes are no node, and from a leaf of another tree.
#[test]
fn refuses_a_top(rt: HostRuntime) -> Result<(), Fail> {
    let alloc = rt.alloc();
    let mut stock = Stock::new(alloc);
    let junk = stock.put(b"\x05\x00\x00\x00".to_vec(alloc)?)?;
    let other = put_named(alloc, &mut stock, OTHER)?;
    let malformed = WalkFault::Malformed(NodeFault::BadTreeOrLevel);
    let tops = [
        (digest_of(b"nothing"), WalkFault::Missing, 0),
        (junk, malformed, 1),
        (other, WalkFault::WrongTreeOrLevel, 1),
    ];
    for (top, fault, fetches) in &tops {
        is_refused(&rt, alloc, &stock, top, *fault, *fetches)?;
    }
    Ok(())
}

/// A child as its parent states it: the greatest key below it, the number of entries, and which node it is.
type Stated<Node> = (&'static [u8], u64, Node);

/// A node that the rows name.
#[derive(Clone, Copy)]
enum Named {
    /// A leaf: its tree, and its keys of one byte each.
    Leaf(Tree, &'static [u8]),
    /// An inner node of level 1, and the keys of the leaves below it.
    Inner(&'static [Stated<&'static [u8]>]),
    /// A digest that nothing has.
    Missing,
}

const ONE: Named = Named::Leaf(Tree::Tags, b"a");

const FIRST: Named = Named::Leaf(Tree::Tags, b"bc");

/// A leaf that begins with the last key of the first one.
const LAST: Named = Named::Leaf(Tree::Tags, b"cd");

const OTHER: Named = Named::Leaf(Tree::Backs, b"a");

const OVER_ONE: Named = Named::Inner(&[(b"a", 1, b"a")]);

const OVER_FIRST: Named = Named::Inner(&[(b"c", 2, b"bc")]);

/// A node over leaves of which the second begins with the last key of the first.
const OVER_BOTH: Named = Named::Inner(&[(b"c", 2, b"bc"), (b"d", 2, b"cd")]);

/// A top: its level and its children, how a walk is refused, and the fetches.
type Top = (u8, &'static [Stated<Named>], WalkFault, u64);

const TOPS: [Top; 13] = [
    (
        1,
        &[(b"a", 1, ONE), (b"b", 1, Named::Missing)],
        WalkFault::Missing,
        2,
    ),
    (1, &[(b"b", 2, Named::Missing)], WalkFault::Missing, 1),
    // A leaf where an inner node has to be, and a leaf of another tree.
    (2, &[(b"a", 1, ONE)], WalkFault::WrongTreeOrLevel, 2),
    (1, &[(b"a", 1, OTHER)], WalkFault::WrongTreeOrLevel, 2),
    // Above the leaf's last key, and below it; one entry too many, and one too few.
    (1, &[(b"d", 2, FIRST)], WalkFault::Disagrees, 2),
    (1, &[(b"b", 2, FIRST)], WalkFault::Disagrees, 2),
    (1, &[(b"c", 3, FIRST)], WalkFault::Disagrees, 2),
    (1, &[(b"c", 1, FIRST)], WalkFault::Disagrees, 2),
    // A leaf without entries, which no number fits.
    (
        1,
        &[(b"", 1, Named::Leaf(Tree::Tags, b""))],
        WalkFault::Disagrees,
        2,
    ),
    // A leaf whose first key is its left bound.
    (
        1,
        &[(b"c", 2, FIRST), (b"d", 2, LAST)],
        WalkFault::Disagrees,
        3,
    ),
    // A child of the parent's own level, and one two levels below.
    (1, &[(b"a", 1, OVER_ONE)], WalkFault::WrongTreeOrLevel, 2),
    (3, &[(b"a", 1, OVER_ONE)], WalkFault::WrongTreeOrLevel, 2),
    // An inner node whose first key is its left bound.
    (
        2,
        &[(b"c", 2, OVER_FIRST), (b"d", 4, OVER_BOTH)],
        WalkFault::Disagrees,
        3,
    ),
];

/// Puts a node of level 1 over leaves of these keys, and the leaves.
fn put_over_leaves(
    alloc: Global,
    stock: &mut Stock,
    stated: &[Stated<&[u8]>],
) -> Result<Digest, Fail> {
    let mut children = Vec::new(alloc);
    for (greatest, number, keys) in stated {
        let leaf = put_leaf(alloc, stock, Tree::Tags, keys, 1)?;
        children.push(child(greatest, *number, leaf))?;
    }
    put_inner(alloc, stock, Tree::Tags, 1, children.as_slice())
}

/// Puts the node, and what is below it.
fn put_named(alloc: Global, stock: &mut Stock, node: Named) -> Result<Digest, Fail> {
    match node {
        Named::Leaf(tree, keys) => put_leaf(alloc, stock, tree, keys, 1),
        Named::Inner(stated) => put_over_leaves(alloc, stock, stated),
        Named::Missing => Ok(digest_of(b"nothing")),
    }
}

/// Puts a node over these nodes, and all below it.
fn put_top(
    alloc: Global,
    stock: &mut Stock,
    level: u8,
    stated: &[Stated<Named>],
) -> Result<Digest, Fail> {
    let mut children = Vec::new(alloc);
    for (greatest, number, node) in stated {
        let node = put_named(alloc, stock, *node)?;
        children.push(child(greatest, *number, node))?;
    }
    put_inner(alloc, stock, Tree::Tags, level, children.as_slice())
}

/// A walk from the top of the row is refused as the row says.
fn is_told(rt: &impl Abort, alloc: Global, row: &Top) -> Result<(), Fail> {
    let (level, stated, fault, fetches) = row;
    let mut stock = Stock::new(alloc);
    let top = put_top(alloc, &mut stock, *level, stated)?;
    is_refused(rt, alloc, &stock, &top, *fault, *fetches)
}

#[test]
fn refuses_nodes_that_arent_as_stated(rt: HostRuntime) -> Result<(), Fail> {
    for row in &TOPS {
        is_told(&rt, rt.alloc(), row)?;
    }
    Ok(())
}

/// 64 keys of one byte, 61 to a0, each stated of the same child.
fn put_same_child(
    alloc: Global,
    stock: &mut Stock,
    level: u8,
    number: u64,
    same: Digest,
) -> Result<Digest, Fail> {
    let keys = keys(alloc, b"", 0x61, 0xa0)?;
    let mut children = Vec::new(alloc);
    for greatest in keys.as_slice().chunks(1) {
        children.push(child(greatest, number, same))?;
    }
    put_inner(alloc, stock, Tree::Tags, level, children.as_slice())
}

/// A leaf of one key, and levels of nodes over it that state the same child 64 times: each with the number
/// that is stated of its child.
const LEVELS: [(u8, u64); 6] = [
    (1, 1),
    (2, 64),
    (3, 4_096),
    (4, 262_144),
    (5, 16_777_216),
    (6, 1_073_741_824),
];

/// Puts these levels.
fn put_levels(alloc: Global, stock: &mut Stock) -> Result<Digest, Fail> {
    let mut top = put_leaf(alloc, stock, Tree::Tags, b"\x61", 1)?;
    for (level, number) in &LEVELS {
        top = put_same_child(alloc, stock, *level, *number, top)?;
    }
    Ok(top)
}

#[test]
fn refuses_one_child_named_64_times(rt: HostRuntime) -> Result<(), Fail> {
    let alloc = rt.alloc();
    let mut stock = Stock::new(alloc);
    let top = put_levels(alloc, &mut stock)?;
    // The first node of a level has the greatest key a0, and is stated to have 61.
    let mut shelf = Counting {
        shelf: stock.shelf(alloc),
        fetches: 0,
    };
    let (number, tally) = walked(alloc, &mut shelf, &top, &all())?;
    assert!(rt; number == Err(WalkFault::Disagrees));
    assert!(rt; tally.fetches == 2 && shelf.fetches == 2);
    Ok(())
}

/// A shelf that counts by itself what it is asked for.
#[derive(Drop)]
struct Counting<S> {
    shelf: S,
    fetches: u64,
}

impl<'a, S: Shelf<'a>> Shelf<'a> for Counting<S> {
    ghost holds = { λ counting. S.holds counting.shelf };

    ghost is_fixed = { S.is_fixed };

    ghost used = { λ counting. S.used counting.shelf };

    ghost takes_memory = { S.takes_memory };

    ghost clash_free = { λ counting. S.clash_free counting.shelf };

    ghost used_held = { λ counting. S.used_held counting.shelf };

    fn fetch(&mut self, key: &Digest) -> Result<&'a [u8], ShelfFault> {
        self.fetches = self.fetches.saturating_add(1);
        self.shelf.fetch(key)
    }

    fn fetch_node(&mut self, key: &Digest) -> Result<Fetched<'a>, ShelfFault> {
        self.fetches = self.fetches.saturating_add(1);
        self.shelf.fetch_node(key)
    }

    fn announce(&mut self, top: &Digest, lo: &[u8], hi: &[u8]) {
        self.shelf.announce(top, lo, hi);
    }
}
