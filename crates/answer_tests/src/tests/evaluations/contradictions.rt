//! Trees that no publisher builds: what they say of objects contradicts itself.

use osm_index::{Edition, Manifest, write_manifest};
use ql_eval::{EvalFault, evaluate};
use ql_syntax::parse;
use std::alloc::Global;
use std::test::Fail;
use tree_node::{Digest, Stock};

/// A leaf of the object tree: under the key of node 1 the line of node 2.
const OTHER_LINE: &[u8] =
    b"\x01\x00\x00\x01\x00\x09\x01\x80\x00\x00\x00\x00\x00\x00\x01\x00\x00\x00\x1an2 v0 dV c0 t i0 u T x0 y0";

/// A leaf of the tag tree: node 1 has the tag `a=1`.
const TAGGED: &[u8] =
    b"\x02\x00\x00\x01\x00\x0da\x001\x00\x01\x80\x00\x00\x00\x00\x00\x00\x01\x00\x00\x00\x00";

/// A leaf of the back tree whose entry has a value, which no entry of that tree has: node 1 is listed by way 1.
const VALUED: &[u8] =
    b"\x04\x00\x00\x01\x00\x12\x01\x80\x00\x00\x00\x00\x00\x00\x01\x02\x80\x00\x00\x00\x00\x00\x00\x01\x00\x00\x00\x01x";

/// Queries over object, tag, cell and back leaves, with how they are refused.
const ROWS: [(&[u8], [&[u8]; 4], EvalFault); 3] = [
    (
        b"node(1);out;",
        [OTHER_LINE, b"\x02\0\0\0", b"\x03\0\0\0", b"\x04\0\0\0"],
        EvalFault::Form,
    ),
    (
        b"node[\"a\"];out;",
        [b"\x01\0\0\0", TAGGED, b"\x03\0\0\0", b"\x04\0\0\0"],
        EvalFault::Absent,
    ),
    (
        b"node(1);way(bn);out ids;",
        [
            b"\x01\x00\x00\x01\x00\x09\x01\x80\x00\x00\x00\x00\x00\x00\x01\x00\x00\x00\x1an1 v0 dV c0 t i0 u T x0 y0",
            b"\x02\0\0\0",
            b"\x03\0\0\0",
            VALUED,
        ],
        EvalFault::Form,
    ),
];

/// The four trees of one leaf each, with their manifest, and its digest.
fn trees(alloc: Global, leaves: [&[u8]; 4]) -> Result<(Stock, Digest), Fail> {
    let mut stock = Stock::new(alloc);
    let [objects, tags, cells, backs] = leaves;
    let tops = [
        stock.put(Vec::from_slice(alloc, objects)?)?,
        stock.put(Vec::from_slice(alloc, tags)?)?,
        stock.put(Vec::from_slice(alloc, cells)?)?,
        stock.put(Vec::from_slice(alloc, backs)?)?,
    ];
    let mut bytes = Vec::new(alloc);
    let edition = Edition::One;
    write_manifest(&Manifest { edition, tops }, &mut bytes)?;
    let root = stock.put(bytes)?;
    Ok((stock, root))
}

#[test]
fn contradictions_are_told(rt: HostRuntime) -> Result<(), Fail> {
    for (text, leaves, fault) in ROWS {
        let query = parse(rt.alloc(), text)?;
        let (stock, root) = trees(rt.alloc(), leaves)?;
        let mut shelf = stock.shelf(rt.alloc());
        let mut answer: Vec<u8> = Vec::new(rt.alloc());
        let result = evaluate(rt.alloc(), &query, &root, &mut shelf, &mut answer);
        assert!(rt; matches!(result, Err(told) if told == fault), "{result:?}");
        assert!(rt; answer.is_empty());
    }
    Ok(())
}
