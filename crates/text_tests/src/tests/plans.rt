//! Rows of statements and their plans.

use ql_plan::{Plan, plan};
use ql_syntax::{Filter, Query, Stmt, parse};
use std::process::Abort;
use std::test::Fail;

/// Statements, with the number of filters before their base (in a scan all), of bases, of filters after
/// the base, and of rivals.
const PLANS: [(&str, [usize; 4]); 7] = [
    ("node.a[\"k\"](5);", [2, 1, 0, 0]),
    ("nwr[\"a\"][\"b\"=\"c\"];", [1, 1, 0, 2]),
    ("node[\"a\"](w);", [1, 1, 0, 0]),
    ("node[\"a\"];", [0, 1, 0, 0]),
    ("node[!\"a\"];", [1, 0, 0, 0]),
    ("node(1,2,3,4)[\"a\"][\"b\"];", [1, 1, 1, 2]),
    ("node[!\"a\"][\"b\"];", [1, 1, 0, 0]),
];

/// Counts of the rivals of `nwr["a"]["b"="c"]`, with the number of filters before the base that is chosen.
const CHOICES: [([u64; 2], usize); 3] = [([3, 5], 0), ([5, 5], 0), ([5, 3], 1)];

/// The filters of the first statement.
fn filters<'a, 'q>(rt: &impl Abort, query: &'a Query<'q>) -> &'a [Filter<'q>] {
    match query.stmts().first() {
        Some(Stmt::Select { filters, .. }) => filters,
        _ => panic!(rt; "a query statement"),
    }
}

/// The number of filters before the base, of bases, and of filters after the base.
fn parts(plan: &Plan<'_, '_>) -> [usize; 3] {
    let base = if plan.base().is_some() { 1 } else { 0 };
    [plan.before().len(), base, plan.after().len()]
}

#[test]
fn plans_have_their_base(rt: HostRuntime) -> Result<(), Fail> {
    for (text, [before, base, after, rivals]) in PLANS {
        let query = parse(rt.alloc(), text.as_bytes())?;
        let plan = plan(filters(&rt, &query));
        assert_eq!(rt; parts(&plan), [before, base, after], "{text}");
        assert_eq!(rt; plan.rivals(rt.alloc())?.len(), rivals, "{text}");
        assert_eq!(rt; plan.has_rivals(), rivals > 0, "{text}");
    }
    Ok(())
}

#[test]
fn the_fewest_entries_are_chosen(rt: HostRuntime) -> Result<(), Fail> {
    let query = parse(rt.alloc(), b"nwr[\"a\"][\"b\"=\"c\"];")?;
    for (counts, before) in CHOICES {
        let plan = plan(filters(&rt, &query));
        let rivals = plan.rivals(rt.alloc())?;
        assert!(rt; rivals.len() == counts.len());
        let chosen = plan.choose(&counts);
        assert_eq!(rt; parts(&chosen), [before, 1, 1 - before]);
    }
    Ok(())
}

/// Under refused allocations: all rivals or out of memory, and with memory all rivals.
#[test]
fn memory_refused_hides_no_rival(rt: HostRuntime) -> Result<(), Fail> {
    let query = parse(rt.alloc(), b"nwr[\"a\"][\"b\"=\"c\"];")?;
    let plan = plan(filters(&rt, &query));
    let rivals = match plan.rivals(rt.alloc()) {
        Ok(rivals) => rivals,
        Err(_) => plan.rivals(rt.alloc())?,
    };
    assert_eq!(rt; rivals.len(), 2);
    Ok(())
}
