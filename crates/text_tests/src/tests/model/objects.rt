//! Objects: their copies, their parts, when they are equal and when there is none.

use super::made::{Parts, RELATION, meta, object, tag_list};
use osm_model::{Body, Coord, Kind, ModelFault, Object};
use std::alloc::{AllocError, Global};
use std::process::Abort;
use std::test::Fail;

/// Whether the object is equal to its copy.
fn equals_copy(alloc: Global, object: &Object) -> Result<bool, AllocError> {
    Ok(object.copy(alloc)? == *object)
}

/// Whether an object is equal to its copy, unless memory runs out, and to a second one.
fn is_copied(alloc: Global, kind: Kind) -> Result<bool, Fail> {
    let object = object(alloc, Parts { kind, ..RELATION })?;
    let first = equals_copy(alloc, &object);
    let second = equals_copy(alloc, &object)?;
    Ok(first.unwrap_or(true) && second)
}

/// Under refused allocations: an equal object, or out of memory.
#[test]
fn objects_are_copied_within_memory(rt: HostRuntime) -> Result<(), Fail> {
    for kind in [Kind::Node, Kind::Way, Kind::Rel] {
        assert!(rt; is_copied(rt.alloc(), kind)?);
    }
    Ok(())
}

/// How many nodes or members an object lists; of a node whether its longitude is that of `body`.
fn listed(object: &Object) -> usize {
    match object.body() {
        Body::Node(place) => usize::from(place.lon() == 134_000_000),
        Body::Way(nodes) => nodes.as_slice().len(),
        Body::Rel(members) => members.as_slice().len(),
    }
}

/// The object has the parts of `RELATION`, but for its kind.
fn has_parts(rt: &impl Abort, object: &Object, kind: Kind) {
    assert!(rt; object.reference().kind == kind && object.reference().id == object.id());
    assert!(rt; object.meta().version == 3);
    let [first, ..] = object.tags() else {
        panic!(rt; "tags were expected");
    };
    assert_eq!(rt; first.key.as_str(), "a");
    let wanted = if kind == Kind::Way { 3 } else { 1 };
    assert!(rt; listed(object) == wanted);
}

#[test]
fn an_object_gives_its_parts(rt: HostRuntime) -> Result<(), Fail> {
    for kind in [Kind::Node, Kind::Way, Kind::Rel] {
        let object = object(rt.alloc(), Parts { kind, ..RELATION })?;
        has_parts(&rt, &object, kind);
    }
    Ok(())
}

/// Whether the object is equal to that of these parts.
fn is_of(alloc: Global, first: &Object, second: Parts) -> Result<bool, Fail> {
    Ok(object(alloc, second)? == *first)
}

fn are_equal(alloc: Global, first: Parts, second: Parts) -> Result<bool, Fail> {
    let first = object(alloc, first)?;
    is_of(alloc, &first, second)
}

const WAY: Parts = Parts {
    kind: Kind::Way,
    ..RELATION
};

/// Objects that differ from the relation in one part each.
const UNEQUAL: [Parts; 6] = [
    Parts { id: 2, ..RELATION },
    Parts {
        version: 4,
        ..RELATION
    },
    Parts {
        value: "3",
        ..RELATION
    },
    Parts {
        node: 8,
        ..RELATION
    },
    Parts {
        role: "gate",
        ..RELATION
    },
    WAY,
];

#[test]
fn objects_are_equal_part_by_part(rt: HostRuntime) -> Result<(), Fail> {
    let alloc = rt.alloc();
    assert!(rt; are_equal(alloc, RELATION, RELATION)?);
    for parts in &UNEQUAL {
        assert!(rt; !are_equal(alloc, RELATION, *parts)?);
    }
    assert!(rt; are_equal(alloc, WAY, WAY)?);
    assert!(rt; !are_equal(alloc, WAY, Parts { node: 8, ..WAY })?);
    Ok(())
}

/// Tags that no object has, and why.
const REFUSED: [(&[(&str, &str)], ModelFault); 2] = [
    (&[("a", "1"), ("b", "2"), ("a", "3")], ModelFault::KeyTwice),
    (&[("a", "\0")], ModelFault::NulInText),
];

/// Why a node with these tags is refused.
fn fault_of(alloc: Global, tags: &[(&str, &str)]) -> Result<Option<ModelFault>, Fail> {
    let body = Body::Node(Coord::new(0, 0));
    Ok(Object::new(1, meta(alloc, 0), tag_list(alloc, tags)?, body).err())
}

#[test]
fn objects_are_refused(rt: HostRuntime) -> Result<(), Fail> {
    for (tags, fault) in &REFUSED {
        assert!(rt; fault_of(rt.alloc(), tags)? == Some(*fault), "{tags:?}");
    }
    Ok(())
}
