//! Trees whose tops are no nodes, or nodes of another tree, or aren't there: refused (E1) at each tree that is asked.

use super::{NODE, leaf, leaves, stocked, told, told_over};
use std::test::Fail;
use tree_node::digest_of;

/// Queries, and the number of the tree whose top they walk, from 0.
const QUERIES: [(&str, usize); 9] = [
    ("node(1);out ids;", 0),
    ("node;out ids;", 0),
    ("node[a];out ids;", 1),
    ("node[a=1];out ids;", 1),
    ("node[a][b];out ids;", 1),
    ("node(-1,-1,1,1);out ids;", 2),
    ("node(1);way(bn);out ids;", 3),
    ("node(1);<;out ids;", 3),
    ("node(1);<<;out ids;", 3),
];

#[test]
fn tops_are_no_nodes(rt: HostRuntime) -> Result<(), Fail> {
    let alloc = rt.alloc();
    for (query, tree) in QUERIES {
        let mut tops = leaves(alloc, [&[NODE], &[], &[], &[]])?;
        tops[tree].push(0)?;
        let (fault, verdict) = told(alloc, query, tops)?;
        assert_eq!(rt; fault.as_str(), "E1", "{query}");
        assert_eq!(rt; verdict.as_str(), "no C5", "{query}");
    }
    Ok(())
}

#[test]
fn tops_are_of_another_tree(rt: HostRuntime) -> Result<(), Fail> {
    let alloc = rt.alloc();
    for (query, tree) in QUERIES {
        let mut tops = leaves(alloc, [&[NODE], &[], &[], &[]])?;
        tops[tree] = leaf(alloc, u8::try_from((tree % 4 + 1) % 4 + 1)?, &[])?;
        let (fault, verdict) = told(alloc, query, tops)?;
        assert_eq!(rt; fault.as_str(), "E1", "{query}");
        assert_eq!(rt; verdict.as_str(), "no C6", "{query}");
    }
    Ok(())
}

/// A top that isn't there is told in another way than a manifest that isn't.
#[test]
fn tops_and_manifests_are_missed(rt: HostRuntime) -> Result<(), Fail> {
    let alloc = rt.alloc();
    for (query, tree) in QUERIES {
        let tops = leaves(alloc, [&[NODE], &[], &[], &[]])?;
        let top = digest_of(&tops[tree]);
        let (mut stock, root) = stocked(alloc, tops)?;
        for (key, wanted) in [(top, "E1"), (root, "E4")] {
            stock.remove(&key);
            let (fault, verdict) = told_over(alloc, query, &stock, &root)?;
            assert_eq!(rt; fault.as_str(), wanted, "{query}");
            assert_eq!(rt; verdict.as_str(), "no C4", "{query}");
        }
    }
    Ok(())
}

/// The tops of trees that no query asks are never looked at.
#[test]
fn other_tops_may_be_anything(rt: HostRuntime) -> Result<(), Fail> {
    let alloc = rt.alloc();
    for tree in 1..4_usize {
        let mut tops = leaves(alloc, [&[NODE], &[], &[], &[]])?;
        tops[tree].push(0)?;
        let (fault, verdict) = told(alloc, "node(1);out ids;", tops)?;
        assert_eq!(rt; fault.as_str(), "answered");
        assert_eq!(rt; verdict.as_str(), "yes");
    }
    Ok(())
}
