//! How often a query walks, and how many nodes it fetches.

use crate::tests::evaluations::counting::Counting;
use crate::tests::{snapshot_of, texts_of_sets};
use osm_index::{Edition, Snapshot};
use ql_eval::{Report, evaluate};
use ql_syntax::{Query, parse};
use std::process::Abort;
use std::test::Fail;

/// A query, how many walks it makes, and how many nodes they fetch.
type Row = (&'static str, u64, u64);

/// Over 130 nodes, which lie in three leaves under one node: a walk to an object fetches that node and a leaf, and a walk
/// to an id above all others that node alone.
const OVER_MANY: [Row; 6] = [
    ("node(1);out;", 1, 2),
    ("node(1);out;node(1);out;", 1, 2),
    ("(node(1);node(1););out;", 1, 2),
    ("node(131);out;node(131);out;", 1, 1),
    ("node(1);out;node(130);out;node(1);out;", 2, 4),
    ("node(id:1,130);out ids;node(id:1,130);out;", 2, 4),
];

/// Over 36 objects, which lie in one leaf: each walk fetches one node. The way 10 lists five nodes; there is no way 77.
const OVER_TOWN: [Row; 4] = [
    ("way(10);out;", 1, 1),
    ("way(10);out;way(10);out;", 1, 1),
    ("way(10);>;out;way(10);>;out;", 6, 6),
    ("way(77);out;way(77);out;", 1, 1),
];

#[test]
fn objects_are_looked_up_once(rt: HostRuntime) -> Result<(), Fail> {
    check_rows(&rt, texts_of_sets::MANY, &OVER_MANY)?;
    check_rows(&rt, texts_of_sets::TOWN, &OVER_TOWN)
}

/// Whether the walks and fetches of each query are those of its row, by the report and by the shelf's own count.
fn check_rows(rt: &(impl Abort + AllocGlobal), set: &str, rows: &[Row]) -> Result<(), Fail> {
    let alloc = rt.alloc();
    let snapshot = snapshot_of(alloc, set, Edition::One)?;
    for (text, ranges, fetched) in rows {
        let query = parse(alloc, text.as_bytes())?;
        check_counts(rt, text, &query, &snapshot, *ranges, *fetched)?;
    }
    Ok(())
}

/// Whether a query walks so often, and fetches so many nodes besides the manifest.
fn check_counts(
    rt: &(impl Abort + AllocGlobal),
    text: &str,
    query: &Query<'_>,
    snapshot: &Snapshot,
    ranges: u64,
    fetched: u64,
) -> Result<(), Fail> {
    let mut shelf = Counting {
        shelf: snapshot.stock().shelf(rt.alloc()),
        fetches: 0,
    };
    let mut answer = Vec::new(rt.alloc());
    let report = evaluate(rt.alloc(), query, snapshot.root(), &mut shelf, &mut answer)?;
    let wanted = Report {
        ranges,
        fetched,
        work: report.work,
    };
    assert_eq!(rt; report, wanted, "{text}");
    // The shelf gives the manifest too.
    assert_eq!(rt; Some(shelf.fetches), fetched.checked_add(1), "{text}");
    Ok(())
}
