//! Queries that want an object which an index names, or another object, and the trees over which they are asked.

use super::Entry;

/// The tag `a=1` of node 1, way 10 and relation 100.
pub(super) const TAGS: &[Entry] = &[
    (b"a\x001\0\x01\x80\0\0\0\0\0\0\x01", b""),
    (b"a\x001\0\x02\x80\0\0\0\0\0\0\x0a", b""),
    (b"a\x001\0\x03\x80\0\0\0\0\0\0\x64", b""),
];

/// Node 1 lies at 0, 0.
pub(super) const CELLS: &[Entry] = &[(
    b"\x03\x84\x07\x08\x80\0\0\0\0\0\0\x01",
    b"\0\0\0\0\0\0\0\0",
)];

/// Way 10 lists node 1, and relation 100 way 10.
pub(super) const BACKS: &[Entry] = &[
    (b"\x01\x80\0\0\0\0\0\0\x01\x02\x80\0\0\0\0\0\0\x0a", b""),
    (b"\x02\x80\0\0\0\0\0\0\x0a\x03\x80\0\0\0\0\0\0\x64", b""),
];

/// One of the three objects.
#[derive(Clone, Copy)]
pub(super) enum Wanted {
    Node,
    Way,
    Relation,
}

/// Queries, and an object that they want.
pub(super) const QUERIES: [(&str, Wanted); 34] = [
    // Candidates by tag, by box and by back reference, printed.
    ("node[a];out;", Wanted::Node),
    ("nwr[a];out;", Wanted::Node),
    ("nwr[a];out;", Wanted::Relation),
    ("node[a=1];out meta;", Wanted::Node),
    ("way[a=1];out skel;", Wanted::Way),
    ("node(-1,-1,1,1);out tags;", Wanted::Node),
    ("node(1);way(bn);out;", Wanted::Way),
    ("way(10);rel(bw);out;", Wanted::Relation),
    ("node(1);<;out;", Wanted::Way),
    ("node(1);<;out;", Wanted::Relation),
    ("node(1);<<;out;", Wanted::Way),
    ("node(1);<<;out;", Wanted::Relation),
    // The same with filters that are left over.
    ("node[a][b!=c];out ids;", Wanted::Node),
    ("nwr[a][b!=c];out ids;", Wanted::Way),
    ("node[a=1][a];out ids;", Wanted::Node),
    ("node(-1,-1,1,1)[b!=c];out ids;", Wanted::Node),
    ("node(1);way(bn)[b!=c];out ids;", Wanted::Way),
    ("way(10);rel(bw)[b!=c];out ids;", Wanted::Relation),
    // Members and nodes that are followed down.
    ("way[a];node(w);out ids;", Wanted::Way),
    ("rel[a];way(r);out ids;", Wanted::Relation),
    ("way[a];>;out ids;", Wanted::Way),
    ("rel[a];>;out ids;", Wanted::Relation),
    ("node(1);way(bn);>;out ids;", Wanted::Way),
    ("node(1);<;>;out ids;", Wanted::Relation),
    // Chains.
    ("way[a];>>;out ids;", Wanted::Way),
    ("rel[a];>>;out ids;", Wanted::Relation),
    // Paths down that are left over.
    ("way[a]->.x;node(1)(w.x);out ids;", Wanted::Way),
    ("rel[a]->.x;way(10)(r.x);out ids;", Wanted::Relation),
    // Candidates of a named set.
    ("node[a]->.x;node.x[b!=c];out ids;", Wanted::Node),
    ("way[a]->.x;way.x[b!=c];out ids;", Wanted::Way),
    ("way[a]->.x;(way.x;);out;", Wanted::Way),
    ("nwr[a]->.x;rel.x[b!=c];out ids;", Wanted::Relation),
    // Parts of a union and of a difference.
    ("(node(1);way[a];>;);out ids;", Wanted::Way),
    ("(node[a];-way[a][b!=c];);out ids;", Wanted::Way),
];
