//! Whether an object lists one of a set.

ghost use Rattle.std.specs.Prelude.{◌≡◌, ◌↔◌, IsTrue};
ghost use Rattle.std.specs.List.{Contains};
ghost use Rattle.ql_eval.specs.internal.Narrowing.{HasMemberIn, HasNodeIn, ListsIn};

use osm_model::{Body, Kind, Member, Object, Ref};
use ref_sets::RefSet;

/// Whether an object lists one of a set that is of a kind. A binary search for each that it lists.
pub(crate) fn lists_in(object: &Object, kind: Kind, refs: &RefSet) -> bool
    ensures { IsTrue result ↔ ListsIn refs.now kind object.now.body }
{
    match object.body() {
        Body::Node(_) => false,
        Body::Way(nodes) => kind == Kind::Node && has_node_in(nodes.as_slice(), refs),
        Body::Rel(members) => has_member_in(members.as_slice(), kind, refs),
    }
}

/// Whether one of some nodes is in a set.
fn has_node_in(nodes: &[i64], refs: &RefSet) -> bool
    ensures { IsTrue result ↔ HasNodeIn refs.now nodes.now }
{
    for id in nodes {
        let name = Ref {
            kind: Kind::Node,
            id: *id,
        };
        if refs.contains(name) {
            return true;
        }
    }
    false
}

/// Whether one of some members is of a kind and in a set.
fn has_member_in(members: &[Member], kind: Kind, refs: &RefSet) -> bool
    ensures { IsTrue result ↔ HasMemberIn refs.now kind members.now }
{
    for member in members {
        if is_of_kind_in(refs, kind, member.target) {
            return true;
        }
    }
    false
}

/// Whether a reference is of a kind and in a set.
fn is_of_kind_in(refs: &RefSet, kind: Kind, name: Ref) -> bool
    ensures { IsTrue result ↔ ((name.kind ≡ kind) × Contains refs.now name) }
{
    name.kind == kind && refs.contains(name)
}
