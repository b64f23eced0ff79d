//! Entries that aren't of the form of their trees: refused (E2) at each place that asks for them.

use super::wanted_objects::{BACKS, CELLS, QUERIES, TAGS, Wanted};
use super::{Entry, NODE, NODE_1, RELATION, RELATION_100, Trees, WAY, WAY_10, check_told};
use std::test::Fail;

/// Objects that are as they should be but for one.
const BAD_NODE: &[Entry] = &[(NODE_1, b"rubbish"), WAY, RELATION];

const BAD_WAY: &[Entry] = &[NODE, (WAY_10, b"rubbish"), RELATION];

const BAD_RELATION: &[Entry] = &[NODE, WAY, (RELATION_100, b"rubbish")];

/// Queries over objects of which one has no line.
const OBJECTS: [(&str, &[Entry]); 16] = [
    ("node(1);out;", BAD_NODE),
    ("node;out;", BAD_NODE),
    ("nwr;out ids;", BAD_RELATION),
    ("node[a!=b];out ids;", BAD_NODE),
    ("node(1)[a!=b];out ids;", BAD_NODE),
    ("nwr(id:1,10,100);out ids;", BAD_WAY),
    ("way(10);node(w);out;", BAD_NODE),
    ("rel(100);way(r);out;", BAD_WAY),
    ("way(10);>;out ids;", BAD_NODE),
    ("rel(100);>;out ids;", BAD_WAY),
    ("rel(100);>;out ids;", BAD_NODE),
    ("rel(100);>>;out ids;", BAD_WAY),
    ("rel(100);>>;out ids;", BAD_NODE),
    ("node(1);rel(bn);out ids;", BAD_NODE),
    ("(node(1);rel(100););out ids;", BAD_RELATION),
    ("way(10)->.x;node(1)(w.x);out ids;", BAD_WAY),
];

#[test]
fn objects_without_a_line(rt: HostRuntime) -> Result<(), Fail> {
    for (query, objects) in OBJECTS {
        check_told(&rt, query, [objects, &[], &[], &[]], ("E2", "no C7"))?;
    }
    Ok(())
}

/// The objects of which this one has no line.
fn without_line(wanted: Wanted) -> &'static [Entry] {
    match wanted {
        Wanted::Node => BAD_NODE,
        Wanted::Way => BAD_WAY,
        Wanted::Relation => BAD_RELATION,
    }
}

/// The same where an index names the object.
#[test]
fn named_objects_without_a_line(rt: HostRuntime) -> Result<(), Fail> {
    for (query, wanted) in QUERIES {
        let trees = [without_line(wanted), TAGS, CELLS, BACKS];
        check_told(&rt, query, trees, ("E2", "no C7"))?;
    }
    Ok(())
}

/// Entries under keys that are none of their trees, or with values that aren't, and queries that ask for them.
const OTHERS: [(&str, Trees); 18] = [
    // A key that is a byte short, and one that is a byte long.
    (
        "node;out ids;",
        [&[(b"\x01\x80\0\0\0\0\0\x01", b"n1 x0 y0")], &[], &[], &[]],
    ),
    (
        "node;out ids;",
        [
            &[(b"\x01\x80\0\0\0\0\0\0\x01\0", b"n1 x0 y0")],
            &[],
            &[],
            &[],
        ],
    ),
    // A tag without its second text, in no UTF-8, of a fourth kind, with a value.
    ("node[a];out ids;", [&[], &[(b"a\x001", b"")], &[], &[]]),
    (
        "node[a];out ids;",
        [
            &[],
            &[(b"a\0\xff\0\x01\x80\0\0\0\0\0\0\x01", b"")],
            &[],
            &[],
        ],
    ),
    (
        "node[a];out ids;",
        [&[], &[(b"a\x001\0\x04\x80\0\0\0\0\0\0\x01", b"")], &[], &[]],
    ),
    (
        "nwr[a=1];out ids;",
        [&[], &[(b"a\x001\0\x04\x80\0\0\0\0\0\0\x01", b"")], &[], &[]],
    ),
    (
        "node[a=1];out ids;",
        [
            &[],
            &[(b"a\x001\0\x01\x80\0\0\0\0\0\0\x01", b"x")],
            &[],
            &[],
        ],
    ),
    // A cell of a longer key, with a value that is too short, and of a place that is no place: also outside of the box.
    (
        "node(-1,-1,1,1);out ids;",
        [
            &[],
            &[],
            &[(
                b"\x03\x84\x07\x08\x80\0\0\0\0\0\0\x01\0",
                b"\0\0\0\0\0\0\0\0",
            )],
            &[],
        ],
    ),
    (
        "node(-1,-1,1,1);out ids;",
        [
            &[],
            &[],
            &[(b"\x03\x84\x07\x08\x80\0\0\0\0\0\0\x01", b"\0\0\0\0\0\0\0")],
            &[],
        ],
    ),
    (
        "node(-1,-1,1,1);out ids;",
        [
            &[],
            &[],
            &[(
                b"\x03\x84\x07\x08\x80\0\0\0\0\0\0\x01",
                b"\x7f\0\0\0\0\0\0\0",
            )],
            &[],
        ],
    ),
    (
        "node(0.00001,0,0.00001,0);out ids;",
        [
            &[],
            &[],
            &[(b"\x03\x84\x07\x08\x80\0\0\0\0\0\0\x01", b"")],
            &[],
        ],
    ),
    // What lists an object: of a fourth kind, in a key that is too short, with a value.
    (
        "node(1);<;out ids;",
        [
            &[NODE],
            &[],
            &[],
            &[(b"\x01\x80\0\0\0\0\0\0\x01\x04\x80\0\0\0\0\0\0\x0a", b"")],
        ],
    ),
    (
        "node(1);<<;out ids;",
        [
            &[NODE],
            &[],
            &[],
            &[(b"\x01\x80\0\0\0\0\0\0\x01\x02\x80\0\0\0\0\0\x0a", b"")],
        ],
    ),
    (
        "node(1);way(bn);out ids;",
        [
            &[NODE],
            &[],
            &[],
            &[(b"\x01\x80\0\0\0\0\0\0\x01\x02\x80\0\0\0\0\0\0\x0a", b"x")],
        ],
    ),
    (
        "way(10);rel(bw);out ids;",
        [
            &[WAY],
            &[],
            &[],
            &[(b"\x02\x80\0\0\0\0\0\0\x0a\x03\x80\0\0\0\0\0\0\x64", b"x")],
        ],
    ),
    (
        "rel(100);rel(br);out ids;",
        [
            &[RELATION],
            &[],
            &[],
            &[(b"\x03\x80\0\0\0\0\0\0\x64\x03\x80\0\0\0\0\0\0\x65", b"x")],
        ],
    ),
    (
        "node(1);<;out ids;",
        [
            &[NODE],
            &[],
            &[],
            &[(b"\x01\x80\0\0\0\0\0\0\x01\x02\x80\0\0\0\0\0\0\x0a", b"x")],
        ],
    ),
    (
        "node(1);way(bn)[a!=b];out ids;",
        [
            &[NODE],
            &[],
            &[],
            &[(b"\x01\x80\0\0\0\0\0\0\x01\x02\x80\0\0\0\0\0\0\x0a", b"x")],
        ],
    ),
];

#[test]
fn entries_of_another_form(rt: HostRuntime) -> Result<(), Fail> {
    for (query, trees) in OTHERS {
        check_told(&rt, query, trees, ("E2", "no C7"))?;
    }
    Ok(())
}
