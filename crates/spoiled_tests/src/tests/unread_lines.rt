//! Lines of the object tree that aren't those of their objects, also where only a reference is wanted.

use super::{Entry, NODE_1, WAY, check_told};
use std::test::Fail;

/// Queries each of which meets the entry of node 1, and wants its reference alone.
const QUERIES: [&str; 6] = [
    "node(1);out ids;",
    "node;out ids;",
    "way(10);node(w);out ids;",
    "way(10);>;out ids;",
    "way(10);>>;out ids;",
    "node(1);way(bn);out ids;",
];

/// What stands in place of the line of node 1: no line, the line of another object, one that says that it is deleted, one
/// that says nothing.
const VALUES: [&[Entry]; 5] = [
    &[(NODE_1, b"rubbish"), WAY],
    &[(NODE_1, b"n2 v0 dV c0 t i0 u T x0 y0"), WAY],
    &[(NODE_1, b"n1 dD"), WAY],
    &[(NODE_1, b"# x"), WAY],
    &[(NODE_1, b""), WAY],
];

/// Node 1 in a spelling that isn't the canonical one.
const SPELLED: &[Entry] = &[(NODE_1, b"n1 y0.0 x0"), WAY];

#[test]
fn each_line_that_a_walk_gives_is_read(rt: HostRuntime) -> Result<(), Fail> {
    for query in QUERIES {
        for objects in VALUES {
            check_told(&rt, query, [objects, &[], &[], &[]], ("E2", "no C7"))?;
        }
    }
    Ok(())
}

/// Any spelling of the object does.
#[test]
fn a_line_may_be_spelled_otherwise(rt: HostRuntime) -> Result<(), Fail> {
    for query in QUERIES {
        check_told(&rt, query, [SPELLED, &[], &[], &[]], ("answered", "yes"))?;
    }
    Ok(())
}
