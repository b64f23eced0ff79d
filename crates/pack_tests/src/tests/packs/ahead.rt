//! What is expected of a pack far away, and in how many rounds.

use super::super::small_pack::{LEN, NODES, PACK, ROOT};
use super::changed;
use super::writing::{put_manifest, small_stock};
use bumpalo::Bump;
use node_pack::{PackSource, ReadAt};
use outside_shelf::{NodeSource, OutsideShelf, Refused, SourceFault};
use pack_devices::{Remote, Seen, pack_of};
use std::alloc::Global;
use std::process::Abort;
use std::test::Fail;
use tree_node::{Digest, Shelf, Stock};

/// Of the small pack each hint brings the top, and then the leaves that it leads to. The keys are `a` and `b`.
#[test]
fn expects_what_is_led_to(rt: HostRuntime) -> Result<(), Fail> {
    for (lo, hi, rounds, places) in [
        ("a", "a", 2, 2),
        ("b", "b", 2, 2),
        ("a", "b", 2, 3),
        ("", "a", 2, 2),
        ("aa", "ab", 2, 2),
        ("c", "d", 1, 1),
        ("", "", 2, 3),
        ("b", "c", 2, 2),
    ] {
        let seen = Seen::new();
        let mut source = PackSource::open(rt.alloc(), Remote::new(rt.alloc(), PACK, &seen))?;
        assert!(rt; gives(rt.alloc(), &mut source, &ROOT, NODES[0].2)?);
        // The header and the manifest.
        assert_eq!(rt; seen.sudden.get(), 2);
        for _ in 0..2 {
            source.announce(&NODES[1].0, lo.as_bytes(), hi.as_bytes());
            assert!(rt; gives(rt.alloc(), &mut source, &NODES[1].0, NODES[1].2)?);
            assert_eq!(rt; seen.rounds.get(), rounds, "{lo} {hi}");
            assert_eq!(rt; seen.places.get(), places, "{lo} {hi}");
        }
        assert_eq!(rt; seen.again.get(), 0);
        assert_eq!(rt; seen.sudden.get(), 2);
    }
    Ok(())
}

/// Whether a source gives this node for a digest.
fn gives(
    alloc: Global,
    source: &mut PackSource<Remote<'_>>,
    key: &Digest,
    node: &[u8],
) -> Result<bool, SourceFault> {
    let mut into = Vec::new(alloc);
    source.read_node(key, 1000, &mut into)?;
    Ok(into.as_slice() == node)
}

/// Puts a node of the tree of tags above these four children, each beside its greatest key, and gives its digest.
fn put_above(
    alloc: Global,
    stock: &mut Stock,
    level: u8,
    children: &[(u8, Digest)],
) -> Result<Digest, Fail> {
    let mut bytes = vec![in alloc; 2, level, 0, 4]?;
    for child in children {
        bytes.extend_from_slice(&[0, 1, child.0, 0, 0, 0, 0, 0, 0, 0, 1])?;
        bytes.extend_from_slice(&child.1.0)?;
    }
    Ok(stock.put(bytes)?)
}

/// Puts the leaves of the keys from 0 to 63, one byte each.
fn put_leaves(alloc: Global, stock: &mut Stock) -> Result<Vec<(u8, Digest)>, Fail> {
    let mut leaves = Vec::new(alloc);
    for key in 0..64 {
        let leaf = vec![in alloc; 2, 0, 0, 1, 0, 1, key, 0, 0, 0, 0]?;
        leaves.push((key, stock.put(leaf)?))?;
    }
    Ok(leaves)
}

/// Puts the nodes above these, four children each.
fn put_level(
    alloc: Global,
    stock: &mut Stock,
    level: u8,
    nodes: &[(u8, Digest)],
) -> Result<Vec<(u8, Digest)>, Fail> {
    let mut above = Vec::new(alloc);
    for children in nodes.chunks(4) {
        if let Some(last) = children.last() {
            above.push((last.0, put_above(alloc, stock, level, children)?))?;
        }
    }
    Ok(above)
}

/// A pack, its root, the top of its tree of tags, and the leaves of that tree.
#[derive(Drop)]
struct Deep {
    pack: Vec<u8>,
    root: Digest,
    top: Digest,
    leaves: Vec<(u8, Digest)>,
}

/// The pack of a tree of 64 leaves, 16 nodes above them, 4 above those, and the top.
fn deep_pack(alloc: Global) -> Result<Deep, Fail> {
    let mut stock = small_stock(alloc).ok_or("no memory")?;
    let leaves = put_leaves(alloc, &mut stock)?;
    let first = put_level(alloc, &mut stock, 1, leaves.as_slice())?;
    let second = put_level(alloc, &mut stock, 2, first.as_slice())?;
    let top = put_above(alloc, &mut stock, 3, second.as_slice())?;
    let tops = [NODES[2].0, top, NODES[5].0, NODES[6].0];
    let root = put_manifest(alloc, &mut stock, tops)?;
    let pack = pack_of(alloc, &stock, &root)?;
    Ok(Deep {
        pack,
        root,
        top,
        leaves,
    })
}

/// Reads the leaves of a range that was announced.
fn read_leaves<F: ReadAt + Drop>(
    source: &mut PackSource<F>,
    leaves: &[(u8, Digest)],
    hint: (u8, u8),
    into: &mut Vec<u8>,
) -> Result<(), Fail> {
    for leaf in leaves {
        if hint.0 <= leaf.0 && leaf.0 <= hint.1 {
            source.read_node(&leaf.1, 1000, into)?;
        }
    }
    Ok(())
}

/// Announces two ranges, and reads the top and then the leaves in them.
fn read_ranges(alloc: Global, deep: &Deep, hints: [(u8, u8); 2], seen: &Seen) -> Result<(), Fail> {
    let mut into = Vec::new(alloc);
    let remote = Remote::new(alloc, deep.pack.as_slice(), seen);
    let mut source = PackSource::open(alloc, remote)?;
    source.read_node(&deep.root, 1000, &mut into)?;
    let [one, other] = hints;
    source.announce(&deep.top, &[one.0], &[one.1]);
    source.announce(&deep.top, &[other.0], &[other.1]);
    source.read_node(&deep.top, 1000, &mut into)?;
    read_leaves(&mut source, deep.leaves.as_slice(), one, &mut into)?;
    read_leaves(&mut source, deep.leaves.as_slice(), other, &mut into)
}

/// Hints bring just the nodes that their keys lead to, a level a round.
#[test]
fn goes_by_levels(rt: HostRuntime) -> Result<(), Fail> {
    let deep = deep_pack(rt.alloc())?;
    for (hints, rounds, places) in [
        ([(0, 63), (0, 63)], 4, 85),
        ([(5, 5), (5, 5)], 4, 4),
        ([(4, 7), (4, 5)], 4, 7),
        ([(3, 4), (3, 3)], 4, 6),
        ([(15, 16), (16, 16)], 4, 7),
        ([(5, 5), (6, 6)], 4, 5),
        ([(5, 5), (37, 37)], 4, 7),
        ([(64, 255), (64, 64)], 1, 1),
    ] {
        let seen = Seen::new();
        read_ranges(rt.alloc(), &deep, hints, &seen)?;
        assert_eq!(rt; seen.rounds.get(), rounds, "{places}");
        assert_eq!(rt; seen.places.get(), places);
        assert_eq!(rt; seen.again.get(), 0);
        assert_eq!(rt; seen.sudden.get(), 2, "{places}");
    }
    Ok(())
}

/// How many nodes a shelf gives over a pack far away, where all keys are announced. Each that it gives has its digest.
fn count_given(rt: &(impl Abort + AllocGlobal), pack: &[u8], before: Option<u32>) -> u32 {
    let seen = Seen::new();
    let arena = Bump::new(rt.alloc());
    let mut remote = Remote::new(rt.alloc(), pack, &seen);
    remote.before = before;
    let Ok(source) = PackSource::open(rt.alloc(), remote) else {
        return 0;
    };
    let mut shelf = OutsideShelf::new(rt.alloc(), &arena, source, Some(10_000));
    let mut given = 0_u32;
    for place in &NODES {
        shelf.announce(&place.0, b"", b"b");
        if let Ok(node) = shelf.fetch(&place.0) {
            assert!(rt; tree_node::digest_of(node) == place.0);
            given = given.saturating_add(1);
        }
    }
    assert_eq!(rt; seen.again.get(), 0);
    given
}

/// With any byte turned the same nodes are given as without hints.
#[test]
fn gives_the_same_of_a_turned_pack(rt: HostRuntime) -> Result<(), Fail> {
    for at in 0..LEN {
        let pack = changed(rt.alloc(), at, !PACK[at])?;
        let given = count_given(&rt, pack.as_slice(), None);
        assert_eq!(rt; given, super::count_given(&rt, pack.as_slice()), "{at}");
    }
    Ok(())
}

/// Where a read fails once, one node isn't given, or none where it was a read ahead: that of the manifest, which is asked for as if
/// it were a top, and that of the top of the tree of tags.
#[test]
fn gives_nodes_after_a_failed_read(rt: HostRuntime) {
    for before in 1..20 {
        let given = count_given(&rt, PACK, Some(before));
        let is_ahead = before == 1 || before == 3;
        assert!(rt; given == 7 || (given == 6 && !is_ahead), "{before}");
    }
}

/// Run with each allocation refused in turn.
#[test]
fn reads_ahead_within_memory(rt: HostRuntime) -> Result<(), Fail> {
    let seen = Seen::new();
    let arena = Bump::new(rt.alloc());
    let remote = Remote::new(rt.alloc(), PACK, &seen);
    let Ok(source) = PackSource::open(rt.alloc(), remote) else {
        return Ok(());
    };
    let mut shelf = OutsideShelf::new(rt.alloc(), &arena, source, None);
    for place in &NODES {
        shelf.announce(&place.0, b"", b"b");
        if shelf.fetch(&place.0).is_err() {
            assert_eq!(rt; shelf.refused(), Some(Refused::Memory));
        }
        assert!(rt; shelf.fetch(&place.0) == Ok(place.2));
    }
    Ok(())
}
