//! One change of 4,000 nodes. How many allocations it takes is counted by tests/system/changes_cost_test.py.

use super::{apply, changes_of, second};
use osm_index::{Delta, Snapshot};
use std::alloc::Global;
use std::test::Fail;

/// The snapshot of the nodes from 1 to 4,000, each of which takes memory of its own for its tag.
fn four_thousand(alloc: Global) -> Result<Snapshot, Fail> {
    let mut text = String::new(alloc);
    for id in 1..4001_u16 {
        let line = format!(in alloc; "n{id} Ta=b x0 y0\n")?;
        text.push_str(line.as_str())?;
    }
    second(alloc, text.as_str(), 0)
}

#[test]
fn thousands_are_published(rt: HostRuntime) -> Result<(), Fail> {
    let snapshot = four_thousand(rt.alloc())?;
    assert_eq!(rt; snapshot.object_count(rt.alloc())?, 4000);
    Ok(())
}

#[test]
fn one_of_thousands_is_deleted(rt: HostRuntime) -> Result<(), Fail> {
    let alloc = rt.alloc();
    let mut snapshot = four_thousand(alloc)?;
    let changes = changes_of(alloc, "n2000 dD\n")?;
    let Delta { added: _, gone: _ } = apply(alloc, &mut snapshot, &changes)??;
    assert_eq!(rt; snapshot.object_count(alloc)?, 3999);
    Ok(())
}
