//! What objects list.

ghost use Rattle.std.specs.Prelude.{OnOk};
ghost use Rattle.osm_model.specs.Membership.{BodyLists};
ghost use Rattle.ref_sets.specs.Adding.{Adds, From};
ghost use Rattle.ql_eval.specs.internal.Listed.{IsNode, IsTarget};

use osm_model::{Body, Kind, Member, Object, Ref};
use std::alloc::AllocError;

/// Adds the references that an object lists.
pub(crate) fn add_items(object: &Object, refs: &mut Vec<Ref>) -> Result<(), AllocError>
    ensures { OnOk result (Adds refs.old.items refs.new.items (BodyLists object.now.body)) }
{
    match object.body() {
        Body::Node(_) => Ok(()),
        Body::Way(nodes) => add_nodes(nodes.as_slice(), refs),
        Body::Rel(members) => add_members(members.as_slice(), refs),
    }
}

/// Adds the nodes of a way.
fn add_nodes(nodes: &[i64], refs: &mut Vec<Ref>) -> Result<(), AllocError>
    ensures { OnOk result (Adds refs.old.items refs.new.items (From nodes.now IsNode)) }
{
    for id in nodes {
        refs.push(Ref {
            kind: Kind::Node,
            id: *id,
        })?;
    }
    Ok(())
}

/// Adds the members of a relation.
fn add_members(members: &[Member], refs: &mut Vec<Ref>) -> Result<(), AllocError>
    ensures { OnOk result (Adds refs.old.items refs.new.items (From members.now IsTarget)) }
{
    for member in members {
        refs.push(member.target)?;
    }
    Ok(())
}
