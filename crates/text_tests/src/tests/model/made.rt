//! What the tests make: texts, tags, members, bodies and objects.

use osm_model::{Body, Coord, Kind, Member, MemberList, Meta, NodeList, Object, Ref, Tag, Text};
use std::alloc::Global;
use std::test::Fail;

pub(super) fn text(alloc: Global, content: &str) -> Result<Text, Fail> {
    Ok(Text::from_str(alloc, content)?)
}

pub(super) fn meta(alloc: Global, version: u32) -> Meta {
    Meta {
        version,
        changeset: 0,
        stamp: None,
        uid: 0,
        user: Text::new(String::new(alloc)),
    }
}

pub(super) fn tag(alloc: Global, key: &str, value: &str) -> Result<Tag, Fail> {
    Ok(Tag {
        key: text(alloc, key)?,
        value: text(alloc, value)?,
    })
}

/// Tags with these keys and values, in this order.
pub(super) fn tag_list(alloc: Global, pairs: &[(&str, &str)]) -> Result<Vec<Tag>, Fail> {
    let mut tags = Vec::new(alloc);
    for (key, value) in pairs {
        tags.push(tag(alloc, key, value)?)?;
    }
    Ok(tags)
}

pub(super) fn member(alloc: Global, node: i64, role: &str) -> Result<Member, Fail> {
    let target = Ref {
        kind: Kind::Node,
        id: node,
    };
    Ok(Member {
        target,
        role: text(alloc, role)?,
    })
}

/// A location, a way that comes to the node twice, or a relation with one member.
pub(super) fn body(alloc: Global, kind: Kind, node: i64, role: &str) -> Result<Body, Fail> {
    Ok(match kind {
        Kind::Node => Body::Node(Coord::new(134_000_000, 525_000_000)),
        Kind::Way => Body::Way(NodeList::new(vec![in alloc; node, -1, node]?)),
        Kind::Rel => Body::Rel(MemberList::new(vec![in alloc; member(alloc, node, role)?]?)),
    })
}

/// What differs between the objects of these tests.
#[derive(Clone, Copy)]
pub(super) struct Parts {
    pub(super) kind: Kind,
    pub(super) id: i64,
    pub(super) version: u32,
    pub(super) value: &'static str,
    pub(super) node: i64,
    pub(super) role: &'static str,
}

pub(super) const RELATION: Parts = Parts {
    kind: Kind::Rel,
    id: 1,
    version: 3,
    value: "2",
    node: 7,
    role: "stop",
};

pub(super) fn object(alloc: Global, parts: Parts) -> Result<Object, Fail> {
    let tags = tag_list(alloc, &[("b", "1"), ("a", parts.value)])?;
    let body = body(alloc, parts.kind, parts.node, parts.role)?;
    Ok(Object::new(parts.id, meta(alloc, parts.version), tags, body)?)
}

pub(super) fn node(alloc: Global, id: i64) -> Result<Object, Fail> {
    object(
        alloc,
        Parts {
            kind: Kind::Node,
            id,
            ..RELATION
        },
    )
}

/// Nodes with these ids, in this order.
pub(super) fn nodes(alloc: Global, ids: &[i64]) -> Result<Vec<Object>, Fail> {
    let mut nodes = Vec::new(alloc);
    for id in ids {
        nodes.push(node(alloc, *id)?)?;
    }
    Ok(nodes)
}
