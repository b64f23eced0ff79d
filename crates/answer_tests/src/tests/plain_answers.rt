//! The plain meaning of every kind of statement.

use super::query_rows::Row;
use super::{query_rows, texts_of_sets};
use opl_codec::read_set;
use osm_model::ObjectSet;
use ql_plain::answer_plain;
use ql_syntax::parse;
use std::process::Abort;
use std::test::Fail;

/// Over the town, queries of dense sets: what they list is told by marks.
const OF_DENSE_SETS: [(&str, &str); 2] = [
    (
        "way->.a;node(w.a);out ids;",
        "n1\nn2\nn3\nn4\nn5\nn7\nn8\nn11\nn13\nn14\nn17\nn19\nn21\nn22\nn23\n",
    ),
    (
        "rel->.a;(node(r.a);way(r.a);rel(r.a););out ids;",
        "n5\nn7\nn24\nw10\nw11\nw12\nr1\nr2\nr3\nr4\n",
    ),
];

/// Whether this is the answer to the query over the set.
fn check_answer(
    rt: &(impl Abort + AllocGlobal),
    set: &ObjectSet,
    text: &str,
    wanted: &str,
) -> Result<(), Fail> {
    let query = parse(rt.alloc(), text.as_bytes())?;
    let answer = answer_plain(rt.alloc(), &query, set)?;
    assert_eq!(rt; answer.as_slice(), wanted.as_bytes(), "{text}");
    Ok(())
}

/// Whether the answer to each query over the set is the one of its row.
fn check_rows(rt: &(impl Abort + AllocGlobal), set: &str, rows: &[Row]) -> Result<(), Fail> {
    let set = read_set(rt.alloc(), &mut set.as_bytes())?;
    for (text, wanted, _) in rows {
        check_answer(rt, &set, text, wanted)?;
    }
    Ok(())
}

#[test]
fn queries_mean_what_they_say(rt: HostRuntime) -> Result<(), Fail> {
    check_rows(&rt, "", &query_rows::OVER_EMPTY)?;
    check_rows(&rt, texts_of_sets::ALL_KINDS, &query_rows::OVER_ALL_KINDS)?;
    check_rows(&rt, texts_of_sets::DATELINE, &query_rows::OVER_DATELINE)?;
    check_rows(&rt, texts_of_sets::ONE, &query_rows::OVER_ONE)?;
    check_rows(&rt, texts_of_sets::TOWN, &query_rows::OVER_TOWN)?;
    check_rows(&rt, texts_of_sets::MANY, &query_rows::OVER_MANY)?;
    let town = read_set(rt.alloc(), &mut texts_of_sets::TOWN.as_bytes())?;
    for (text, wanted) in OF_DENSE_SETS {
        check_answer(&rt, &town, text, wanted)?;
    }
    Ok(())
}

/// Out of memory, or the whole answer: also where an allocation is refused (tests/system).
#[test]
fn memory_refused_changes_no_meaning(rt: HostRuntime) -> Result<(), Fail> {
    let set = read_set(rt.alloc(), &mut texts_of_sets::ALL_KINDS.as_bytes())?;
    for (text, wanted, _) in query_rows::OVER_ALL_KINDS {
        let query = parse(rt.alloc(), text.as_bytes())?;
        let answer = match answer_plain(rt.alloc(), &query, &set) {
            Ok(answer) => answer,
            Err(_) => answer_plain(rt.alloc(), &query, &set)?,
        };
        assert_eq!(rt; answer.as_slice(), wanted.as_bytes(), "{text}");
    }
    Ok(())
}
