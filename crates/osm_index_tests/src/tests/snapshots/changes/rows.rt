//! Rows of changes of a small set.

use super::{apply, changes_as_built, changes_of, is_built, nodes_of, second};
use crate::tests::texts_of_sets::ALL_KINDS;
use osm_index::Delta;
use osm_prove::answer;
use std::test::Fail;

/// `ALL_KINDS` without n1.
const WITHOUT_N1: &str =
    "n2 x13.4000001 y52.5\nw10 Thighway=primary,name=A%20%B Nn1,n2,n1\nr100 Ttype=route Mw10@outer,n99@stop,r100@\n";

/// Queries that are asked once n1 is deleted, and their answers: what listed it still does.
const AFTER_N1: [(&str, &str); 3] = [
    ("node(1);out;", ""),
    ("node;out ids;", "n2\n"),
    ("way(10);out skel;", "w10 Nn1,n2,n1\n"),
];

#[test]
fn a_manifest_alone_changes(rt: HostRuntime) -> Result<(), Fail> {
    let alloc = rt.alloc();
    for text in ["", "n2 x13.4000001 y52.5\n"] {
        let mut snapshot = second(alloc, ALL_KINDS, 0)?;
        let old = *snapshot.root();
        let changes = changes_of(alloc, text)?;
        let Delta { added, gone } = apply(alloc, &mut snapshot, &changes)??;
        assert_eq!(rt; added.as_slice(), [*snapshot.root()].as_slice());
        assert_eq!(rt; gone.as_slice(), [old].as_slice());
        assert!(rt; is_built(alloc, &snapshot, ALL_KINDS, 1)?);
    }
    Ok(())
}

#[test]
fn a_deleted_node_leaves_its_references(rt: HostRuntime) -> Result<(), Fail> {
    let alloc = rt.alloc();
    let mut snapshot = second(alloc, ALL_KINDS, 0)?;
    let backs = snapshot.manifest().tops[3];
    let changes = changes_of(alloc, "n1 dD\n")?;
    let Delta { added: _, gone: _ } = apply(alloc, &mut snapshot, &changes)??;
    assert_eq!(rt; snapshot.manifest().tops[3], backs);
    assert!(rt; is_built(alloc, &snapshot, WITHOUT_N1, 1)?);
    for (query, wanted) in AFTER_N1 {
        let answered = answer(alloc, &snapshot, query.as_bytes())?;
        assert_eq!(rt; answered.answer.as_slice(), wanted.as_bytes(), "{query}");
    }
    Ok(())
}

#[test]
fn deltas_are_what_differs(rt: HostRuntime) -> Result<(), Fail> {
    let alloc = rt.alloc();
    let rows = [
        (ALL_KINDS, "n1 dD\n", WITHOUT_N1),
        ("", "n1 x0 y0\n", "n1 x0 y0\n"),
        ("n1 x0 y0\n", "n1 dD\n", ""),
        ("", "", ""),
        (
            "n1 x0 y0\n",
            "n1 Ta=b x0.0000001 y-1\n",
            "n1 Ta=b x0.0000001 y-1\n",
        ),
        (
            "n1 x0 y0\nw1 Nn1\nr1 Mn1@\n",
            "w1 dD\nn1 dD\nr1 dD\nr2 Mr2@a,r2@b\n",
            "r2 Mr2@a,r2@b\n",
        ),
        (
            "w1 Ta=1,b=2 Nn1,n2\n",
            "w1 Ta=1,b=3 Nn2,n3\nn-5 x0 y0\n",
            "n-5 x0 y0\nw1 Ta=1,b=3 Nn2,n3\n",
        ),
    ];
    for (set, changes, changed) in rows {
        assert!(rt; changes_as_built(alloc, set, changes, changed)?);
    }
    Ok(())
}

#[test]
fn changes_follow_each_other(rt: HostRuntime) -> Result<(), Fail> {
    let alloc = rt.alloc();
    let mut snapshot = second(alloc, ALL_KINDS, 7)?;
    let first = changes_of(alloc, "n1 dD\n")?;
    let Delta { added: _, gone: _ } = apply(alloc, &mut snapshot, &first)??;
    let second_list = changes_of(alloc, ALL_KINDS)?;
    let Delta { added: _, gone: _ } = apply(alloc, &mut snapshot, &second_list)??;
    assert!(rt; is_built(alloc, &snapshot, ALL_KINDS, 9)?);
    assert_eq!(rt; nodes_of(alloc, &snapshot)?.len(), 5);
    Ok(())
}
