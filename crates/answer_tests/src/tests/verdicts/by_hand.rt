//! Trees that no publisher builds, each whole under a root of its own.

use super::{nodes_of, proof_of, told};
use osm_index::{Edition, Manifest, write_manifest};
use std::alloc::Global;
use std::process::Abort;
use std::test::Fail;
use tree_node::{Digest, Shelf, Stock, digest_of};

/// A leaf of the object tree with node 1.
const NODE_1: &[u8] =
    b"\x01\x00\x00\x01\x00\x09\x01\x80\x00\x00\x00\x00\x00\x00\x01\x00\x00\x00\x1an1 v0 dV c0 t i0 u T x0 y0";

/// A leaf of the object tree: under the key of node 1 the line of node 2.
const OTHER_LINE: &[u8] =
    b"\x01\x00\x00\x01\x00\x09\x01\x80\x00\x00\x00\x00\x00\x00\x01\x00\x00\x00\x1an2 v0 dV c0 t i0 u T x0 y0";

/// A leaf of the tag tree: node 1 has the tag `a=1`.
const TAGGED: &[u8] =
    b"\x02\x00\x00\x01\x00\x0da\x001\x00\x01\x80\x00\x00\x00\x00\x00\x00\x01\x00\x00\x00\x00";

/// Leaves without entries.
const NO_OBJECT: &[u8] = b"\x01\0\0\0";

const NO_TAG: &[u8] = b"\x02\0\0\0";

const NO_CELL: &[u8] = b"\x03\0\0\0";

const NO_BACK: &[u8] = b"\x04\0\0\0";

/// The keys of the nodes 1 and 2.

const KEY_1: &[u8] = b"\x01\x80\x00\x00\x00\x00\x00\x00\x01";

const KEY_2: &[u8] = b"\x01\x80\x00\x00\x00\x00\x00\x00\x02";

/// An inner node of the object tree over one child, which states this key and number.
fn over(alloc: Global, level: u8, key: &[u8], number: u64, child: &[u8]) -> Result<Vec<u8>, Fail> {
    let mut node = [1, level, 0, 1].to_vec(alloc)?;
    append_child(key, number, child, &mut node)?;
    Ok(node)
}

fn append_child(key: &[u8], number: u64, child: &[u8], node: &mut Vec<u8>) -> Result<(), Fail> {
    node.extend_from_slice(&[0, 9])?;
    node.extend_from_slice(key)?;
    node.extend_from_slice(&number.to_be_bytes())?;
    node.extend_from_slice(&digest_of(child).0)?;
    Ok(())
}

/// The nodes in a stock, and their digests, the last of which is that of the manifest: the first node is the top of the
/// objects, and the tags have their own.
fn stocked(alloc: Global, nodes: &[&[u8]], tags: &[u8]) -> Result<(Stock, Vec<Digest>), Fail> {
    let mut stock = Stock::new(alloc);
    let mut named = Vec::new(alloc);
    for node in nodes {
        named.push(stock.put(Vec::from_slice(alloc, node)?)?)?;
    }
    let top = *named.first().ok_or("no node")?;
    let tops = [top, digest_of(tags), digest_of(NO_CELL), digest_of(NO_BACK)];
    let mut manifest = Vec::new(alloc);
    let edition = Edition::One;
    write_manifest(&Manifest { edition, tops }, &mut manifest)?;
    named.push(stock.put(manifest)?)?;
    Ok((stock, named))
}

/// A proof that lists the nodes of a stock with these digests.
fn proof_over(alloc: Global, stock: &Stock, named: &[Digest]) -> Result<Vec<u8>, Fail> {
    let mut shelf = stock.shelf(alloc);
    for digest in named {
        shelf.fetch(digest)?;
    }
    proof_of(alloc, &nodes_of(alloc, &shelf.parts()?)?)
}

/// What is told of an answer to a query over these nodes and the leaves of the other trees, all of which the proof
/// lists that are named.
fn verdict_on(
    alloc: Global,
    query: &[u8],
    answer: &[u8],
    nodes: &[&[u8]],
    tags: &[u8],
) -> Result<String, Fail> {
    let (stock, named) = stocked(alloc, nodes, tags)?;
    let root = *named.last().ok_or("no manifest")?;
    let proof = proof_over(alloc, &stock, &named)?;
    told(alloc, query, &root, answer, &proof)
}

const ALL_NODES: &[u8] = b"node;out ids;";

/// What the walk over a tree of the objects meets first is told.
/// Whether this is the verdict on a query for all nodes, over a tree of these nodes, without tags.
fn check_tree(
    rt: &(impl Abort + AllocGlobal),
    answer: &[u8],
    nodes: &[&[u8]],
    wanted: &str,
) -> Result<(), Fail> {
    let verdict = verdict_on(rt.alloc(), ALL_NODES, answer, nodes, NO_TAG)?;
    assert_eq!(rt; verdict.as_str(), wanted);
    Ok(())
}

#[test]
fn trees_that_contradict_themselves(rt: HostRuntime) -> Result<(), Fail> {
    let alloc = rt.alloc();
    let one = over(alloc, 1, KEY_1, 1, NODE_1)?;
    check_tree(&rt, b"n1\n", &[&one, NODE_1], "yes")?;
    // The child has the level of its parent.
    let beside = over(alloc, 1, KEY_1, 1, &one)?;
    check_tree(&rt, b"n1\n", &[&beside, &one], "no C6")?;
    // A leaf of another tree.
    check_tree(&rt, b"", &[NO_TAG], "no C6")
}

/// A child states a key or a number that isn't its own.
#[test]
fn trees_that_misstate_a_child(rt: HostRuntime) -> Result<(), Fail> {
    let too_great = over(rt.alloc(), 1, KEY_2, 1, NODE_1)?;
    check_tree(&rt, b"n1\n", &[&too_great, NODE_1], "no C6")?;
    let too_many = over(rt.alloc(), 1, KEY_1, 2, NODE_1)?;
    check_tree(&rt, b"n1\n", &[&too_many, NODE_1], "no C6")
}

/// The second child's key isn't above the first's.
#[test]
fn trees_whose_children_dont_rise(rt: HostRuntime) -> Result<(), Fail> {
    let mut again = [1, 1, 0, 2].to_vec(rt.alloc())?;
    append_child(KEY_1, 1, NODE_1, &mut again)?;
    append_child(KEY_2, 1, NODE_1, &mut again)?;
    check_tree(&rt, b"n1\n", &[&again, NODE_1], "no C6")
}

/// An inner node of the object tree that names one child 64 times, with rising keys.
fn over_64_times(alloc: Global, level: u8, number: u64, child: &[u8]) -> Result<Vec<u8>, Fail> {
    let mut node = [1, level, 0, 64].to_vec(alloc)?;
    for last in 1..65_u8 {
        let key = [1, 128, 0, 0, 0, 0, 0, 0, last];
        append_child(&key, number, child, &mut node)?;
    }
    Ok(node)
}

/// Six levels, each of which names one child 64 times: no walk follows them all.
#[test]
fn a_child_named_many_times(rt: HostRuntime) -> Result<(), Fail> {
    let alloc = rt.alloc();
    let mut nodes: Vec<Vec<u8>> = Vec::new(alloc);
    let mut below = NODE_1.to_vec(alloc)?;
    let mut number = 1_u64;
    for level in 1..7_u8 {
        let node = over_64_times(alloc, level, number, &below)?;
        number = number.saturating_mul(64);
        nodes.push(below)?;
        below = node;
    }
    let mut named = nodes_from(alloc, &nodes)?;
    named.insert(0, below.as_slice())?;
    check_tree(&rt, b"", &named, "no C6")
}

fn nodes_from<'a>(alloc: Global, owned: &'a [Vec<u8>]) -> Result<Vec<&'a [u8]>, Fail> {
    let mut nodes = Vec::new(alloc);
    for node in owned {
        nodes.push(node.as_slice())?;
    }
    Ok(nodes)
}

/// 63 levels of one child over one leaf contradict nothing.
#[test]
fn levels_of_one_child(rt: HostRuntime) -> Result<(), Fail> {
    let alloc = rt.alloc();
    let mut nodes: Vec<Vec<u8>> = Vec::new(alloc);
    let mut below = NODE_1.to_vec(alloc)?;
    for level in 1..64_u8 {
        let node = over(alloc, level, KEY_1, 1, &below)?;
        nodes.push(below)?;
        below = node;
    }
    let mut named = nodes_from(alloc, &nodes)?;
    named.insert(0, &below)?;
    check_tree(&rt, b"n1\n", &named, "yes")
}

/// Trees whose entries contradict each other.
#[test]
fn entries_that_contradict_each_other(rt: HostRuntime) -> Result<(), Fail> {
    let alloc = rt.alloc();
    let verdict = verdict_on(alloc, b"node(1);out;", b"", &[OTHER_LINE], NO_TAG)?;
    assert_eq!(rt; verdict.as_str(), "no C7");
    let verdict = verdict_on(
        alloc,
        b"node[\"a\"];out;",
        b"",
        &[NO_OBJECT, TAGGED],
        TAGGED,
    )?;
    assert_eq!(rt; verdict.as_str(), "no C7");
    Ok(())
}

/// What has the root's digest isn't a manifest: another number of an edition, or another length.
#[test]
fn manifests_that_are_none(rt: HostRuntime) -> Result<(), Fail> {
    let alloc = rt.alloc();
    for (number, len) in [(3, 133), (2, 140), (2, 133), (1, 141)] {
        let mut bytes = b"OSMM".to_vec(alloc)?;
        bytes.push(number)?;
        bytes.resize(len, 0)?;
        let proof = proof_of(alloc, &[&bytes])?;
        let verdict = told(alloc, b"", &digest_of(&bytes), b"", &proof)?;
        assert_eq!(rt; verdict.as_str(), "no C5");
    }
    Ok(())
}
