//! Objects that an index names and that aren't there: refused (E3) at each place that wants one.

use super::wanted_objects::{BACKS, CELLS, QUERIES, TAGS, Wanted};
use super::{NODE, RELATION, Trees, WAY, check_told};
use std::test::Fail;

const ALL: Trees = [&[NODE, WAY, RELATION], TAGS, CELLS, BACKS];

const NO_NODE: Trees = [&[WAY, RELATION], TAGS, CELLS, BACKS];

const NO_WAY: Trees = [&[NODE, RELATION], TAGS, CELLS, BACKS];

const NO_RELATION: Trees = [&[NODE, WAY], TAGS, CELLS, BACKS];

/// The trees without an object.
fn without(wanted: Wanted) -> Trees {
    match wanted {
        Wanted::Node => NO_NODE,
        Wanted::Way => NO_WAY,
        Wanted::Relation => NO_RELATION,
    }
}

#[test]
fn each_place_refuses_an_absent_object(rt: HostRuntime) -> Result<(), Fail> {
    for (query, wanted) in QUERIES {
        check_told(&rt, query, without(wanted), ("E3", "no C7"))?;
        check_told(&rt, query, ALL, ("answered", "yes"))?;
    }
    Ok(())
}

/// Queries that first look an object up in vain, and then find it named by an index.
const NAMED_LATER: [(&str, Trees); 4] = [
    ("(node(1);node[a];);out;", NO_NODE),
    ("(way(10);node(1);way(bn););out;", NO_WAY),
    ("rel(100);rel[a][b!=c];out ids;", NO_RELATION),
    ("way(10);way[a];>;out ids;", NO_WAY),
];

#[test]
fn an_absent_object_is_named_later(rt: HostRuntime) -> Result<(), Fail> {
    for (query, trees) in NAMED_LATER {
        check_told(&rt, query, trees, ("E3", "no C7"))?;
        check_told(&rt, query, ALL, ("answered", "yes"))?;
    }
    Ok(())
}

/// Objects that others list needn't be there.
#[test]
fn what_is_listed_may_be_absent(rt: HostRuntime) -> Result<(), Fail> {
    for query in [
        "way(10);node(w);out;",
        "way(10);>;out;",
        "rel(100);>>;out ids;",
    ] {
        check_told(&rt, query, NO_NODE, ("answered", "yes"))?;
    }
    Ok(())
}
