//! How much memory an object takes.

use osm_model::{Body, Member, Object, Tag};

/// About how many bytes an object takes in memory.
pub(crate) fn object_len(object: &Object) -> usize {
    size_of::<Object>()
        .saturating_add(tags_len(object.tags()))
        .saturating_add(body_len(object.body()))
}

fn tags_len(tags: &[Tag]) -> usize {
    let mut len: usize = 0;
    for tag in tags {
        len = len
            .saturating_add(size_of::<Tag>())
            .saturating_add(tag.key.as_bytes().len())
            .saturating_add(tag.value.as_bytes().len());
    }
    len
}

fn body_len(body: &Body) -> usize {
    match body {
        Body::Node(_) => 0,
        Body::Way(nodes) => nodes.as_slice().len().saturating_mul(8),
        Body::Rel(members) => members_len(members.as_slice()),
    }
}

fn members_len(members: &[Member]) -> usize {
    let mut len: usize = 0;
    for member in members {
        len = len
            .saturating_add(size_of::<Member>())
            .saturating_add(member.role.as_bytes().len());
    }
    len
}
