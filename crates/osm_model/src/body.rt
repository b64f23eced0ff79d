//! What an object is made of, beside its tags.

ghost use Rattle.std.specs.Prelude.{◌≡◌, IfOk};
ghost use Rattle.osm_model.specs.Elements.{nodes_of, members_of};
ghost use Rattle.osm_model.specs.Limits.{BodyInRange};

use crate::coord::Coord;
use crate::member::{Member, note_targets};
use crate::member_list::MemberList;
use crate::node_list::{NodeList, note_ids};
use std::alloc::{AllocError, Global};

/// What is particular to an object's kind (OpenStreetMap API 0.6).
#[derive(Debug, Drop, PartialEq, Eq)]
pub enum Body {
    /// Where a node lies.
    Node(Coord),
    /// The nodes of a way, in its order.
    Way(NodeList),
    /// The members of a relation, in its order.
    Rel(MemberList),
}

impl Body {
    /// A copy.
    pub(crate) fn copy(&self, alloc: Global) -> Result<Body, AllocError>
        ensures { IfOk result (λ body. body ≡ self.now) }
    {
        match self {
            Body::Node(place) => Ok(Body::Node(*place)),
            Body::Way(nodes) => Ok(Body::Way(nodes.copy(alloc)?)),
            Body::Rel(members) => Ok(Body::Rel(members.copy(alloc)?)),
        }
    }
}

/// The nodes that a body lists: none but a way's.
pub(crate) fn nodes_of(body: &Body) -> &[i64]
    ensures { result.now ≡ nodes_of body.now }
{
    match body {
        Body::Way(nodes) => nodes.as_slice(),
        _ => &[],
    }
}

/// The members that a body lists: none but a relation's.
pub(crate) fn members_of(body: &Body) -> &[Member]
    ensures { result.now ≡ members_of body.now }
{
    match body {
        Body::Rel(members) => members.as_slice(),
        _ => &[],
    }
}

/// Does nothing at run time: its contract tells the prover that the numbers of a body are in their ranges.
pub(crate) fn note_body(body: &Body)
    ensures { BodyInRange body.now }
{
    match body {
        Body::Node(place) => {
            let _ = place.lon();
        }
        Body::Way(nodes) => note_ids(nodes.as_slice()),
        Body::Rel(members) => note_targets(members.as_slice()),
    }
}
