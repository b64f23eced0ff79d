//! Verdicts on small sets, in both editions.

use super::check_told;
use crate::tests::snapshot_of;
use crate::tests::texts_of_sets::ALL_KINDS;
use osm_check::{Report, Verdict, check};
use osm_index::{Edition, Snapshot};
use osm_prove::{Proved, prove};
use std::process::Abort;
use std::test::Fail;

/// Queries over all kinds of objects, their answers, and the nodes that each needs in both editions.
const ANSWERS: [(&str, &str, u64); 7] = [
    ("", "", 1),
    ("node(1);out;", "n1 Thighway=crossing x13.4 y52.5\n", 2),
    (
        "rel(100)->.a;(way(r.a);node(w););out ids;",
        "n1\nn2\nw10\n",
        2,
    ),
    ("(node(1);node(2););out ids 1;", "n1\n", 2),
    (
        "nwr[\"name\"];out tags;",
        "w10 Thighway=primary,name=A%20%B\n",
        3,
    ),
    ("rel(100);rel(br);out ids;", "r100\n", 3),
    (".b out;", "", 1),
];

/// Whether the report is one of so many nodes: each but the manifest was fetched, and none more than once a walk.
fn counts(report: Report, nodes: u64) -> bool {
    nodes.saturating_sub(1) <= report.fetched
        && report.fetched <= report.ranges.saturating_mul(nodes.saturating_sub(1))
}

/// Whether each answer is the one of its row, and is accepted.
fn check_rows(rt: &(impl Abort + AllocGlobal), snapshot: &Snapshot) -> Result<(), Fail> {
    let alloc = rt.alloc();
    for (query, want, nodes) in ANSWERS {
        let query = query.as_bytes();
        let proved = prove(alloc, snapshot, query)?;
        assert_eq!(rt; proved.answer.as_slice(), want.as_bytes());
        let verdict = check(alloc, query, &proved.root, &proved.answer, &proved.proof)?;
        let is_yes = matches!(verdict, Verdict::Yes(report) if counts(report, nodes));
        assert!(rt; is_yes, "{verdict:?}");
    }
    Ok(())
}

#[test]
fn honest_answers_are_accepted(rt: HostRuntime) -> Result<(), Fail> {
    check_rows(&rt, &snapshot_of(rt.alloc(), ALL_KINDS, Edition::One)?)?;
    check_rows(
        &rt,
        &snapshot_of(rt.alloc(), ALL_KINDS, Edition::Two { sequence: 7 })?,
    )
}

/// Over no objects: the manifest and the leaf without entries.
#[test]
fn nothing_is_checked_too(rt: HostRuntime) -> Result<(), Fail> {
    let alloc = rt.alloc();
    for (edition, len) in [(Edition::One, 154), (Edition::Two { sequence: 0 }, 162)] {
        let snapshot = snapshot_of(alloc, "", edition)?;
        let query = b"node(1);out;";
        let Proved { root, proof, .. } = prove(alloc, &snapshot, query)?;
        assert_eq!(rt; proof.len(), len);
        check_told(&rt, query, &root, b"", &proof, "yes")?;
        check_told(&rt, query, &root, b"x", &proof, "no C9 0")?;
        check_told(&rt, b"node(1)", &root, b"", b"", "no C1 Q11 7")?;
    }
    Ok(())
}

/// A root stands for its edition and its sequence too.
#[test]
fn a_proof_of_another_edition_lacks_the_manifest(rt: HostRuntime) -> Result<(), Fail> {
    let alloc = rt.alloc();
    let query = b"node(1);out;";
    let one = prove(alloc, &snapshot_of(alloc, ALL_KINDS, Edition::One)?, query)?;
    for sequence in [0, 7] {
        let edition = Edition::Two { sequence };
        let two = prove(alloc, &snapshot_of(alloc, ALL_KINDS, edition)?, query)?;
        check_told(&rt, query, &two.root, &one.answer, &one.proof, "no C4")?;
    }
    Ok(())
}
