//! Sets of objects, and tags in order.

use super::made::{nodes, tag_list};
use osm_model::{Kind, ModelFault, ObjectSet, Ref, TagList, keys_rise, sort_tags};
use std::process::Abort;
use std::test::Fail;

/// Whether the set has an object of this kind with this id.
fn has(set: &ObjectSet, kind: Kind, id: i64) -> bool {
    set.get(Ref { kind, id }).is_some()
}

/// The set has the nodes -1, 2 and 3.
fn has_three_nodes(rt: &impl Abort, set: &ObjectSet) {
    let [first, _, _] = set.as_slice() else {
        panic!(rt; "three objects were expected");
    };
    assert!(rt; first.id() == -1);
    assert!(rt; has(set, Kind::Node, 2));
    assert!(rt; !has(set, Kind::Node, 4) && !has(set, Kind::Way, 2));
}

#[test]
fn sets_are_sorted_and_searched(rt: HostRuntime) -> Result<(), Fail> {
    let objects = nodes(rt.alloc(), &[3, -1, 2])?;
    has_three_nodes(&rt, &ObjectSet::from_objects(objects)?);
    Ok(())
}

#[test]
fn sets_hold_an_object_once(rt: HostRuntime) -> Result<(), Fail> {
    let twice = nodes(rt.alloc(), &[3, 1, 3])?;
    let fault = ObjectSet::from_objects(twice).err();
    assert!(rt; fault == Some(ModelFault::ObjectTwice));
    Ok(())
}

#[test]
fn tags_are_sorted_by_key(rt: HostRuntime) -> Result<(), Fail> {
    let mut tags = tag_list(rt.alloc(), &[("b", "1"), ("a", "2")])?;
    assert!(rt; !keys_rise(&tags));
    sort_tags(&mut tags);
    assert!(rt; keys_rise(&tags));
    let list = TagList::new(tags);
    assert!(rt; list.as_slice().len() == 2 && list == list);
    Ok(())
}
