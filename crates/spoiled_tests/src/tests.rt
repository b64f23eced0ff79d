//! Trees of one leaf each, whose entries no publisher makes: where an evaluation refuses them, and what is told of them.

mod absent_objects;
mod spoiled_leaves;
mod unread_entries;
mod unread_lines;
mod wanted_objects;

use osm_check::check;
use osm_keys::{Edition, Manifest, write_manifest};
use ql_eval::evaluate;
use ql_syntax::parse;
use std::alloc::Global;
use std::process::Abort;
use std::test::Fail;
use tree_node::{Digest, Part, Shelf, Stock};

/// The key and the value of an entry.
type Entry = (&'static [u8], &'static [u8]);

/// The entries of the object, tag, cell and back trees.
type Trees = [&'static [Entry]; 4];

/// The keys of objects, which are their references.
const NODE_1: &[u8] = b"\x01\x80\0\0\0\0\0\0\x01";

const WAY_10: &[u8] = b"\x02\x80\0\0\0\0\0\0\x0a";

const RELATION_100: &[u8] = b"\x03\x80\0\0\0\0\0\0\x64";

/// Objects as they should be: a node, a way that lists it, and a relation that lists the way.
const NODE: Entry = (NODE_1, b"n1 v0 dV c0 t i0 u T x0 y0");

const WAY: Entry = (WAY_10, b"w10 v0 dV c0 t i0 u T Nn1");

const RELATION: Entry = (RELATION_100, b"r100 v0 dV c0 t i0 u T Mw10@");

/// A leaf of a tree, by the tree's number.
fn leaf(alloc: Global, tree: u8, entries: &[Entry]) -> Result<Vec<u8>, Fail> {
    let mut bytes = [tree, 0, 0, u8::try_from(entries.len())?].to_vec(alloc)?;
    for (key, value) in entries {
        bytes.extend_from_slice(&u16::try_from(key.len())?.to_be_bytes())?;
        bytes.extend_from_slice(key)?;
        bytes.extend_from_slice(&u32::try_from(value.len())?.to_be_bytes())?;
        bytes.extend_from_slice(value)?;
    }
    Ok(bytes)
}

/// The leaves of the four trees.
fn leaves(alloc: Global, trees: Trees) -> Result<[Vec<u8>; 4], Fail> {
    let [objects, tags, cells, backs] = trees;
    Ok([
        leaf(alloc, 1, objects)?,
        leaf(alloc, 2, tags)?,
        leaf(alloc, 3, cells)?,
        leaf(alloc, 4, backs)?,
    ])
}

/// The tops of four trees with their manifest, and its digest.
fn stocked(alloc: Global, tops: [Vec<u8>; 4]) -> Result<(Stock, Digest), Fail> {
    let mut stock = Stock::new(alloc);
    let [objects, tags, cells, backs] = tops;
    let tops = [
        stock.put(objects)?,
        stock.put(tags)?,
        stock.put(cells)?,
        stock.put(backs)?,
    ];
    let mut bytes = Vec::new(alloc);
    let edition = Edition::One;
    write_manifest(&Manifest { edition, tops }, &mut bytes)?;
    let root = stock.put(bytes)?;
    Ok((stock, root))
}

/// What is told of a query over these tops: by the evaluation, and by the checker of an empty answer and a proof of the
/// nodes that the evaluation used.
fn told(alloc: Global, text: &str, tops: [Vec<u8>; 4]) -> Result<(String, String), Fail> {
    let (stock, root) = stocked(alloc, tops)?;
    told_over(alloc, text, &stock, &root)
}

/// The same over the nodes of a stock, under a root.
fn told_over(
    alloc: Global,
    text: &str,
    stock: &Stock,
    root: &Digest,
) -> Result<(String, String), Fail> {
    let query = parse(alloc, text.as_bytes())?;
    let mut shelf = stock.shelf(alloc);
    let mut answer: Vec<u8> = Vec::new(alloc);
    let fault = match evaluate(alloc, &query, root, &mut shelf, &mut answer) {
        Ok(_) => format!(in alloc; "answered")?,
        Err(fault) => format!(in alloc; "{fault}")?,
    };
    let proof = proof_of(alloc, &shelf.parts()?)?;
    let verdict = check(alloc, text.as_bytes(), root, &answer, &proof)?;
    Ok((fault, format!(in alloc; "{verdict}")?))
}

/// The proof that lists these nodes.
fn proof_of(alloc: Global, parts: &[Part<'_>]) -> Result<Vec<u8>, Fail> {
    let mut proof = b"OSMP\x01".to_vec(alloc)?;
    proof.extend_from_slice(&u32::try_from(parts.len())?.to_be_bytes())?;
    for part in parts {
        proof.extend_from_slice(&u32::try_from(part.bytes().len())?.to_be_bytes())?;
        proof.extend_from_slice(part.bytes())?;
    }
    Ok(proof)
}

/// Whether these are the fault and the verdict on a query over trees of these entries.
fn check_told(
    rt: &(impl Abort + AllocGlobal),
    text: &str,
    trees: Trees,
    wanted: (&str, &str),
) -> Result<(), Fail> {
    let (fault, verdict) = told(rt.alloc(), text, leaves(rt.alloc(), trees)?)?;
    assert_eq!(rt; fault.as_str(), wanted.0, "{text}");
    assert_eq!(rt; verdict.as_str(), wanted.1, "{text}");
    Ok(())
}
