//! Every kind of statement, over the trees of sets that are read from OPL.

use crate::tests::query_rows::Row;
use crate::tests::{query_rows, snapshot_of, texts_of_sets};
use osm_index::{Edition, Snapshot};
use ql_eval::{EvalFault, ManifestFault, evaluate};
use ql_syntax::{Query, parse};
use std::alloc::Global;
use std::process::Abort;
use std::test::Fail;
use tree_node::{Part, Recorder, Stock};
use tree_walk::WalkFault;

/// The editions, in the order of the numbers of a row.
const EDITIONS: [Edition; 2] = [Edition::One, Edition::Two { sequence: 7 }];

/// Whether the answer to each query, and the number of nodes that it uses, are those of its row.
fn check_rows(rt: &(impl Abort + AllocGlobal), set: &str, rows: &[Row]) -> Result<(), Fail> {
    for (place, edition) in EDITIONS.into_iter().enumerate() {
        let snapshot = snapshot_of(rt.alloc(), set, edition)?;
        for (text, wanted, nodes) in rows {
            let query = parse(rt.alloc(), text.as_bytes())?;
            let used = check_answer(rt, text, &query, &snapshot, wanted)?;
            assert_eq!(rt; Some(&used), nodes.get(place), "{text}");
        }
    }
    Ok(())
}

/// Whether this is the answer to a query. Gives how many nodes it uses.
fn check_answer(
    rt: &(impl Abort + AllocGlobal),
    text: &str,
    query: &Query<'_>,
    snapshot: &Snapshot,
    wanted: &str,
) -> Result<usize, Fail> {
    let mut shelf = Recorder::new(rt.alloc(), snapshot.stock());
    let mut answer = Vec::new(rt.alloc());
    evaluate(rt.alloc(), query, snapshot.root(), &mut shelf, &mut answer)?;
    assert_eq!(rt; answer.as_slice(), wanted.as_bytes(), "{text}");
    Ok(shelf.parts()?.len())
}

#[test]
fn queries_are_answered_from_the_nodes_they_need(rt: HostRuntime) -> Result<(), Fail> {
    check_rows(&rt, "", &query_rows::OVER_EMPTY)?;
    check_rows(&rt, texts_of_sets::ALL_KINDS, &query_rows::OVER_ALL_KINDS)?;
    check_rows(&rt, texts_of_sets::DATELINE, &query_rows::OVER_DATELINE)?;
    check_rows(&rt, texts_of_sets::ONE, &query_rows::OVER_ONE)?;
    check_rows(&rt, texts_of_sets::TOWN, &query_rows::OVER_TOWN)?;
    check_rows(&rt, texts_of_sets::MANY, &query_rows::OVER_MANY)
}

/// A stock of all parts but one.
fn all_but(alloc: Global, parts: &[Part<'_>], left_out: usize) -> Result<Stock, Fail> {
    let mut stock = Stock::new(alloc);
    for (place, part) in parts.iter().enumerate() {
        if place != left_out {
            stock.put(Vec::from_slice(alloc, part.bytes())?)?;
        }
    }
    Ok(stock)
}

/// Whether a query is refused over each shelf that lacks one node that it needs, and writes nothing: the missing manifest is
/// told where that is the node, and a missing node of a tree else.
fn check_refused(
    rt: &(impl Abort + AllocGlobal),
    query: &Query<'_>,
    snapshot: &Snapshot,
) -> Result<(), Fail> {
    let mut shelf = Recorder::new(rt.alloc(), snapshot.stock());
    let mut answer = Vec::new(rt.alloc());
    evaluate(rt.alloc(), query, snapshot.root(), &mut shelf, &mut answer)?;
    let parts = shelf.parts()?;
    for (place, part) in parts.iter().enumerate() {
        let wanted = if part.digest() == *snapshot.root() {
            EvalFault::Manifest(ManifestFault::Missing)
        } else {
            EvalFault::Walk(WalkFault::Missing)
        };
        let stock = all_but(rt.alloc(), &parts, place)?;
        let mut answer = b"before".to_vec(rt.alloc())?;
        let result = evaluate(
            rt.alloc(),
            query,
            snapshot.root(),
            &mut stock.shelf(rt.alloc()),
            &mut answer,
        );
        assert_eq!(rt; result.err(), Some(wanted));
        assert_eq!(rt; answer.as_slice(), b"before".as_slice());
    }
    Ok(())
}

#[test]
fn each_needed_node_is_missed(rt: HostRuntime) -> Result<(), Fail> {
    let sets: [(&str, &[Row]); 2] = [
        (texts_of_sets::ALL_KINDS, &query_rows::OVER_ALL_KINDS),
        (texts_of_sets::MANY, &query_rows::OVER_MANY),
    ];
    for (set, rows) in sets {
        for edition in EDITIONS {
            let snapshot = snapshot_of(rt.alloc(), set, edition)?;
            for (text, _, _) in rows {
                let query = parse(rt.alloc(), text.as_bytes())?;
                check_refused(&rt, &query, &snapshot)?;
            }
        }
    }
    Ok(())
}

/// Run with each allocation refused in turn: the answer, or out of memory with the sink as it was and then the answer.
#[test]
fn refused_memory_leaves_the_sink(rt: HostRuntime) -> Result<(), Fail> {
    let alloc = rt.alloc();
    let snapshot = snapshot_of(alloc, texts_of_sets::ALL_KINDS, Edition::One)?;
    let text = b"rel(100)->.a;(way(r.a)[name][highway];node(w););>>;(._;-node(1););out;";
    let query = parse(alloc, text)?;
    let mut shelf = Recorder::new(alloc, snapshot.stock());
    let mut answer = b"before".to_vec(alloc)?;
    if let Err(fault) = evaluate(alloc, &query, snapshot.root(), &mut shelf, &mut answer) {
        assert_eq!(rt; fault, EvalFault::Memory);
        assert_eq!(rt; answer.as_slice(), b"before".as_slice());
        evaluate(alloc, &query, snapshot.root(), &mut shelf, &mut answer)?;
    }
    assert_eq!(rt;
        answer.as_slice(),
        b"beforen2 T x13.4000001 y52.5\n".as_slice()
    );
    Ok(())
}
