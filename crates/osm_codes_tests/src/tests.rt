//! Places under their lines, and hints. What is said of each code is shown by the program, in
//! tests/system/explain_test.py.

use osm_codes::{caret_lines, explain, file_hint, query_hint};
use std::process::Abort;
use std::test::Fail;

/// A text, a place in it, and how it is shown.
const CARETS: [(&[u8], usize, &str); 5] = [
    (b"node(1)", 7, "node(1)\n       ^\n"),
    (b"node(1);\nout x;", 13, "out x;\n    ^\n"),
    (b"a\x1b[2J\xff", 1, "a?[2J?\n ^\n"),
    (b"", 0, "\n^\n"),
    (b"out;", 99, "out;\n    ^\n"),
];

#[test]
fn carets_stand_below_their_places(rt: HostRuntime) -> Result<(), Fail> {
    for (text, byte, shown) in CARETS {
        let lines = caret_lines(rt.alloc(), text, byte)?;
        assert_eq!(rt; lines.as_str(), shown);
    }
    Ok(())
}

#[test]
fn a_caret_within_memory(rt: HostRuntime) -> Result<(), Fail> {
    if let Ok(lines) = caret_lines(rt.alloc(), b"node(1)", 7) {
        assert_eq!(rt; lines.as_str(), "node(1)\n       ^\n");
    }
    let lines = caret_lines(rt.alloc(), b"node(1)", 7)?;
    assert_eq!(rt; lines.as_str(), "node(1)\n       ^\n");
    Ok(())
}

#[test]
fn another_root_is_explained(rt: HostRuntime) -> Result<(), Fail> {
    let row = explain("i6").ok_or("no such code")?;
    assert_eq!(rt; row.code, "I6");
    assert!(rt; row.meaning.starts_with("a change file gives another root"));
    assert!(rt; explain("I7").is_none());
    Ok(())
}

#[test]
fn files_are_known_by_their_first_bytes(rt: HostRuntime) -> Result<(), Fail> {
    assert!(rt;
        file_hint(b"\0\0\0\x0d\x0a\x09OSMHeader").is_some_and(|hint| hint.starts_with("a PBF file"))
    );
    assert!(rt; file_hint(b"<?xml").is_some_and(|hint| hint.starts_with("XML")));
    assert!(rt; file_hint(b"n1 x1 y1").is_none());
    assert!(rt; file_hint(b"").is_none());
    Ok(())
}

#[test]
fn queries_are_known_by_what_stands_at_the_fault(rt: HostRuntime) -> Result<(), Fail> {
    assert!(rt; query_hint("Q2", b"{{bbox}}").is_some_and(|hint| hint.starts_with("a template")));
    assert!(rt;
        query_hint("Q7", b"1,2,3,4)").is_some_and(|hint| hint.starts_with("boxes on ways"))
    );
    assert!(rt; query_hint("Q6", b"1,2,3,4)").is_none());
    assert!(rt; query_hint("Q11", b"").is_none());
    Ok(())
}
