//! Members of relations.

ghost use Rattle.std.specs.Prelude.{◌≡◌, All, FitsSigned, IfOk};
ghost use Rattle.std.specs.Int.{w64};
ghost use Rattle.std.specs.Str.{IsUtf8};

use crate::reference::Ref;
use crate::text::{Text, note_utf8};
use std::alloc::{AllocError, Global};

/// A member of a relation: an object that the relation lists, and what it is there (OpenStreetMap API
/// 0.6). A set need not hold the object.
#[derive(Debug, Drop, PartialEq, Eq)]
pub struct Member {
    /// The object.
    pub target: Ref,
    /// What it is in the relation; this may be empty.
    pub role: Text,
}

impl Member {
    /// A copy.
    pub(crate) fn copy(&self, alloc: Global) -> Result<Member, AllocError>
        ensures { IfOk result (λ member. member ≡ self.now) }
    {
        Ok(Member {
            target: self.target,
            role: self.role.copy(alloc)?,
        })
    }
}

/// Brings to a proof that the ids of members are in the range of their type. It does nothing else.
pub(crate) fn note_targets(members: &[Member])
    ensures { All (λ member. FitsSigned w64 member.target.id) members.now }
{
    for member in members {
        let _id = member.target.id;
    }
}

/// Brings to a proof that the roles of members are UTF-8. It does nothing else.
pub(crate) fn note_roles(members: &[Member])
    ensures { All (λ member. IsUtf8 member.role) members.now }
{
    for member in members {
        note_utf8(&member.role);
    }
}
