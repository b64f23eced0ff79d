//! Sets of references, and named ones. What was refused memory is asked once more.

use osm_model::{Kind, Ref};
use ref_sets::{NamedSets, RefSet};
use std::alloc::{AllocError, Global};
use std::test::Fail;

/// References of nodes with these ids.
fn nodes(alloc: Global, ids: &[i64]) -> Result<Vec<Ref>, AllocError> {
    let mut refs = Vec::new(alloc);
    for id in ids {
        refs.push(Ref {
            kind: Kind::Node,
            id: *id,
        })?;
    }
    Ok(refs)
}

/// Whether the set has just the nodes with these ids, in this order.
fn has_nodes(set: &RefSet, ids: &[i64]) -> bool {
    let refs = set.as_slice();
    let are_nodes = refs.iter().all(|name| name.kind == Kind::Node);
    are_nodes && refs.iter().map(|name| name.id).eq(ids.iter().copied())
}

/// What two sets have together, and what the first has of the second and has alone.
fn compares_sets(alloc: Global) -> Result<bool, AllocError> {
    let odd = RefSet::from_refs(nodes(alloc, &[5, 1, 3, 1])?);
    let small = RefSet::from_refs(nodes(alloc, &[3, 2, 1])?);
    let are_joined = has_nodes(&odd.union(alloc, &small)?, &[1, 2, 3, 5]);
    let are_shared = has_nodes(&odd.intersection(alloc, &small)?, &[1, 3]);
    let are_left = has_nodes(&odd.difference(alloc, &small)?, &[5]);
    Ok(are_joined && are_shared && are_left)
}

#[test]
fn sets_are_compared_or_memory_is_refused(rt: HostRuntime) -> Result<(), Fail> {
    let is_right = match compares_sets(rt.alloc()) {
        Ok(is_right) => is_right,
        Err(_) => compares_sets(rt.alloc())?,
    };
    assert!(rt; is_right);
    Ok(())
}

/// The nodes of a set, the set once more, and whether it has a reference.
fn makes_sets(alloc: Global) -> Result<bool, AllocError> {
    let mut refs = nodes(alloc, &[1, 3, 1, 2])?;
    refs.push(Ref {
        kind: Kind::Way,
        id: 1,
    })?;
    let set = RefSet::from_runs(refs)?;
    let sorted = RefSet::from_refs(nodes(alloc, &[3, 1, 2])?);
    let rising = Vec::from_slice(alloc, sorted.as_slice())?;
    let again = RefSet::from_rising(rising).copy(alloc)?;
    let way = Ref {
        kind: Kind::Way,
        id: 1,
    };
    let has_way = set.contains(way) && !again.contains(way);
    Ok(
        has_way
            && has_nodes(&set.of_kind(alloc, Kind::Node)?, &[1, 2, 3])
            && has_nodes(&again, &[1, 2, 3]),
    )
}

#[test]
fn sets_are_made_or_memory_is_refused(rt: HostRuntime) -> Result<(), Fail> {
    let is_right = match makes_sets(rt.alloc()) {
        Ok(is_right) => is_right,
        Err(_) => makes_sets(rt.alloc())?,
    };
    assert!(rt; is_right);
    Ok(())
}

/// A name that is written twice, and one that is never written.
fn names_sets(alloc: Global) -> Result<bool, AllocError> {
    let mut sets = NamedSets::new(alloc);
    sets.write(b"a", RefSet::from_refs(nodes(alloc, &[1])?))?;
    sets.write(b"b", RefSet::new(alloc))?;
    sets.write(b"a", RefSet::from_refs(nodes(alloc, &[2])?))?;
    let has_first = has_nodes(sets.get(b"a"), &[2]);
    Ok(has_first && has_nodes(sets.get(b"c"), &[]) && has_nodes(sets.nothing(), &[]))
}

#[test]
fn sets_are_named_or_memory_is_refused(rt: HostRuntime) -> Result<(), Fail> {
    let is_right = match names_sets(rt.alloc()) {
        Ok(is_right) => is_right,
        Err(_) => names_sets(rt.alloc())?,
    };
    assert!(rt; is_right);
    Ok(())
}
