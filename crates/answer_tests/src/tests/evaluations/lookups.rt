//! Each kind of question that a query asks of the trees.

use crate::tests::snapshot_of;
use osm_index::Edition;
use ql_eval::{EvalFault, evaluate};
use ql_syntax::parse;
use std::test::Fail;

/// Two nodes and a way; the first node and the way have the tag `k=v`, the way lists both nodes.
const SET: &str = "n1 Tk=v x1 y1\nn2 x2 y2\nw1 Tk=v Nn1,n2\n";

/// Queries with their answers: one object, all of a kind, those with a tag, those with a key, those that list a node.
const ROWS: [(&str, &str); 9] = [
    ("way(1);out ids;", "w1\n"),
    ("rel(1);out ids;", ""),
    ("node;out ids;", "n1\nn2\n"),
    ("rel;out ids;", ""),
    ("nwr[k=v];out ids;", "n1\nw1\n"),
    ("way[k=v];out ids;", "w1\n"),
    ("nwr[k];out ids;", "n1\nw1\n"),
    ("node(2);<;out ids;", "w1\n"),
    ("node(2);rel(bn);out ids;", ""),
];

/// Run with each allocation refused in turn: the answer, or out of memory with nothing written and then the answer.
#[test]
fn questions_are_answered_within_memory(rt: HostRuntime) -> Result<(), Fail> {
    let alloc = rt.alloc();
    let snapshot = snapshot_of(alloc, SET, Edition::One)?;
    let mut shelf = snapshot.stock().shelf(alloc);
    for (text, wanted) in ROWS {
        let query = parse(alloc, text.as_bytes())?;
        let mut answer = Vec::new(alloc);
        if let Err(fault) = evaluate(alloc, &query, snapshot.root(), &mut shelf, &mut answer) {
            assert_eq!(rt; fault, EvalFault::Memory, "{text}");
            assert_eq!(rt; answer.len(), 0, "{text}");
            evaluate(alloc, &query, snapshot.root(), &mut shelf, &mut answer)?;
        }
        assert_eq!(rt; answer.as_slice(), wanted.as_bytes(), "{text}");
    }
    Ok(())
}
