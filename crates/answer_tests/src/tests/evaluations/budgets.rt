//! Budgets: the work of a query, and what is refused with a budget that is one less.

use crate::tests::evaluations::counting::Counting;
use crate::tests::work_rows::WORK_ROWS;
use crate::tests::{snapshot_of, texts_of_sets};
use osm_forms::Form;
use osm_index::{Edition, Snapshot};
use ql_eval::{EvalFault, Report, evaluate_within};
use ql_syntax::{Query, parse};
use std::alloc::Global;
use std::process::Abort;
use std::test::Fail;
use tree_node::Recorder;

#[test]
fn work_is_counted(rt: HostRuntime) -> Result<(), Fail> {
    let alloc = rt.alloc();
    let snapshot = snapshot_of(alloc, texts_of_sets::ALL_KINDS, Edition::One)?;
    for (text, work) in &WORK_ROWS {
        let query = parse(alloc, text.as_bytes())?;
        let report = evaluated(alloc, &snapshot, &query, None)?;
        assert_eq!(rt; report.map(|report| report.work), Ok(*work), "{text}");
        let kept = evaluated(alloc, &snapshot, &query, Some(*work))?;
        assert_eq!(rt; kept.map(|report| report.work), Ok(*work), "{text}");
        let passed = evaluated(alloc, &snapshot, &query, work.checked_sub(1))?;
        assert_eq!(rt; passed, Err(EvalFault::Work), "{text}");
    }
    Ok(())
}

/// A box that goes round the earth to the column that it begins in, over three nodes: the ranges of a row have that column in
/// common, in which one of them lies. It counts once: 1 step for the filter, 3 for the cells, 3 for the candidates, 4 for the
/// statement and what it writes, and 4 for the out, which writes 9 bytes.
#[test]
fn a_node_in_two_ranges_counts_once(rt: HostRuntime) -> Result<(), Fail> {
    let alloc = rt.alloc();
    let snapshot = snapshot_of(alloc, texts_of_sets::DATELINE, Edition::One)?;
    let query = parse(alloc, b"node(-1,0.05,1,0.04);out ids;")?;
    let report = evaluated(alloc, &snapshot, &query, Some(1509))?;
    assert_eq!(rt; report.map(|report| report.work), Ok(1509));
    let passed = evaluated(alloc, &snapshot, &query, Some(1508))?;
    assert_eq!(rt; passed, Err(EvalFault::Work));
    Ok(())
}

/// A query over 65 nodes, what it has done before it reads them, how often it reads a node with a budget for 64 of them, and its
/// work. Each tree of theirs has two leaves under one node.
type Scan = (&'static str, u64, u64, u64);

/// A step for each filter, then one for each candidate, and one for the statement and each node that it writes; in the second
/// and the last one each node is read as a step too. The manifest, the top and both leaves are read before the last node is
/// found to be one too many, and then the top and the first leaf to count them all. Of a box twice as many may be read.
const SCANS: [Scan; 4] = [
    ("node;", 0, 6, 13100),
    ("nwr[\"a\"];", 100, 6, 19700),
    ("node[\"a\"=\"1\"];", 100, 6, 13200),
    ("node(0,0,0.01,0.01);", 100, 4, 19700),
];

#[test]
fn scans_end_where_the_budget_does(rt: HostRuntime) -> Result<(), Fail> {
    let alloc = rt.alloc();
    let set = texts_of_sets::tagged_nodes(alloc, 65)?;
    let snapshot = snapshot_of(alloc, set.as_str(), Edition::One)?;
    for (text, before, reads, work) in &SCANS {
        // The second leaf isn't read where there is no room for the first one's entries.
        let none = refused(&rt, &snapshot, text, Some(*before))?;
        assert_eq!(rt; none, 5, "{text}");
        let entries = before.saturating_add(6500);
        let few = refused(&rt, &snapshot, text, entries.checked_sub(1))?;
        assert_eq!(rt; few, *reads, "{text}");
        // With a step for each entry the manifest, the top and both leaves are read, and nothing has to be counted.
        let read = refused(&rt, &snapshot, text, Some(entries))?;
        assert_eq!(rt; read, 4, "{text}");
        let almost = refused(&rt, &snapshot, text, work.checked_sub(1))?;
        assert_eq!(rt; almost, 4, "{text}");
        let query = parse(alloc, text.as_bytes())?;
        let wanted = Report {
            ranges: 1,
            fetched: 3,
            work: *work,
        };
        let kept = evaluated(alloc, &snapshot, &query, Some(*work))?;
        assert_eq!(rt; kept, Ok(wanted), "{text}");
        let free = evaluated(alloc, &snapshot, &query, None)?;
        assert_eq!(rt; free, Ok(wanted), "{text}");
    }
    Ok(())
}

/// Over 193 nodes a tree has four leaves. No more children wait than there is room for entries, and two: so the manifest and the
/// top alone are read, and then the top and the first leaf to count all. With room for two entries the first leaf is read too.
#[test]
fn no_more_children_wait_than_entries_fit(rt: HostRuntime) -> Result<(), Fail> {
    let alloc = rt.alloc();
    let set = texts_of_sets::tagged_nodes(alloc, 193)?;
    let snapshot = snapshot_of(alloc, set.as_str(), Edition::One)?;
    for (most, reads) in [(0, 4), (199, 4), (200, 5)] {
        let seen = refused(&rt, &snapshot, "node;", Some(most))?;
        assert_eq!(rt; seen, reads, "{most}");
    }
    Ok(())
}

/// Relations, each of which lists the next one.
const CHAIN: &str = "\
r1 T Mr2@\n\
r2 T Mr3@\n\
r3 T Mr4@\n\
r4 T Mr5@\n\
r5 T Mr6@\n\
r6 T Mr7@\n\
r7 T Mr8@\n\
r8 T M\n\
";

/// The first statement takes 5 steps: for the filter, the id, the candidate, itself and what it writes. The recursion takes one
/// for its start, and then finds a relation a round, for which the tree's only node is read.
#[test]
fn recursions_end_where_the_budget_does(rt: HostRuntime) -> Result<(), Fail> {
    let alloc = rt.alloc();
    let snapshot = snapshot_of(alloc, CHAIN, Edition::One)?;
    let text = "rel(1);>>;";
    // The manifest and the node are read for the first statement.
    assert_eq!(rt; refused(&rt, &snapshot, text, Some(599))?, 2);
    for (found, most) in [
        (1, 699),
        (2, 799),
        (3, 899),
        (4, 999),
        (5, 1099),
        (6, 1199),
        (7, 1299),
    ] {
        let reads = refused(&rt, &snapshot, text, Some(most))?;
        assert_eq!(rt; reads, 2 + found, "{most}");
    }
    // All 7 are found then, and the statement itself is a step too.
    assert_eq!(rt; refused(&rt, &snapshot, text, Some(1399))?, 9);
    let query = parse(alloc, text.as_bytes())?;
    let kept = evaluated(alloc, &snapshot, &query, Some(1400))?;
    assert_eq!(rt; kept.map(|report| report.work), Ok(1400));
    Ok(())
}

#[test]
fn a_box_is_counted_within_memory(rt: HostRuntime) -> Result<(), Fail> {
    let alloc = rt.alloc();
    let snapshot = snapshot_of(alloc, texts_of_sets::ALL_KINDS, Edition::One)?;
    let query = parse(
        alloc,
        b"node(52.49999999999,13.40000004,52.6,13.5);out ids;",
    )?;
    let report = match evaluated(alloc, &snapshot, &query, Some(803))? {
        Ok(report) => report,
        Err(fault) => {
            assert_eq!(rt; fault, EvalFault::Memory);
            evaluated(alloc, &snapshot, &query, Some(803))??
        }
    };
    assert_eq!(rt; report.work, 803);
    Ok(())
}

/// How often a shelf is asked for a node until a query is refused for its budget.
fn refused(
    rt: &(impl Abort + AllocGlobal),
    snapshot: &Snapshot,
    text: &str,
    most: Option<u64>,
) -> Result<u64, Fail> {
    let alloc = rt.alloc();
    let query = parse(alloc, text.as_bytes())?;
    let mut shelf = Counting {
        shelf: snapshot.stock().shelf(alloc),
        fetches: 0,
    };
    let mut answer = Vec::new(alloc);
    let root = snapshot.root();
    let report = evaluate_within(
        alloc,
        Form::Opl,
        &query,
        root,
        &mut shelf,
        &mut answer,
        most,
    );
    assert_eq!(rt; report, Err(EvalFault::Work), "{text}");
    Ok(shelf.fetches)
}

/// The report of a query within a budget. A refusal writes nothing.
fn evaluated(
    alloc: Global,
    snapshot: &Snapshot,
    query: &Query<'_>,
    most: Option<u64>,
) -> Result<Result<Report, EvalFault>, Fail> {
    let mut shelf = Recorder::new(alloc, snapshot.stock());
    let mut answer = Vec::new(alloc);
    let root = snapshot.root();
    let report = evaluate_within(alloc, Form::Opl, query, root, &mut shelf, &mut answer, most);
    if report.is_err() && !answer.is_empty() {
        return Err(Fail::from("a refusal wrote"));
    }
    Ok(report)
}
