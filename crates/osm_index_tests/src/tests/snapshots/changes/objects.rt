//! The set of a snapshot, read back.

use super::{apply, changes_of, second};
use crate::tests::snapshots::set_of;
use crate::tests::texts_of_sets::{ALL_KINDS, DATELINE};
use osm_index::{Delta, Snapshot};
use std::alloc::Global;
use std::test::Fail;

/// `ALL_KINDS` with other tags of w10 and without n2.
const CHANGED: &str = "n1 x1 y1\nw10 Ta=b Nn1,n2,n1\nr100 Ttype=route Mw10@outer,n99@stop,r100@\n";

/// Whether the objects of the snapshot are those of this text.
fn has_objects(alloc: Global, snapshot: &Snapshot, set: &str) -> Result<bool, Fail> {
    let objects = snapshot.objects(alloc)?;
    Ok(objects.as_slice() == set_of(alloc, set)?.as_slice())
}

#[test]
fn objects_are_read_back(rt: HostRuntime) -> Result<(), Fail> {
    let alloc = rt.alloc();
    for set in ["", ALL_KINDS, DATELINE] {
        let snapshot = second(alloc, set, 0)?;
        assert!(rt; has_objects(alloc, &snapshot, set)?);
    }
    Ok(())
}

/// Run with each allocation refused in turn, the objects are all there or their call is out of memory, and all are
/// there when memory is there again.
#[test]
fn changed_objects_survive_refused_memory(rt: HostRuntime) -> Result<(), Fail> {
    let alloc = rt.alloc();
    let mut snapshot = second(alloc, ALL_KINDS, 0)?;
    let changes = changes_of(alloc, "w10 Ta=b Nn1,n2,n1\nn1 x1 y1\nn2 dD\n")?;
    let Delta { added: _, gone: _ } = apply(alloc, &mut snapshot, &changes)??;
    if let Ok(objects) = snapshot.objects(alloc) {
        assert_eq!(rt; objects.as_slice().len(), 3);
    }
    assert!(rt; has_objects(alloc, &snapshot, CHANGED)?);
    Ok(())
}
