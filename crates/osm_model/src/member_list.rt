//! Lists of members.

ghost use Rattle.std.specs.Prelude.{◌≡◌, IfOk};
ghost use Rattle.std.specs.Cmp.{partial_equiv_from_equiv};
ghost use Rattle.std.specs.Cmp.Lexicographic.{pointwise, lists_equiv};
ghost use Rattle.osm_model.specs.Elements.{member_eq};
ghost use Rattle.osm_model.specs.internal.Comparisons.{members_equiv};

use crate::member::Member;
use std::alloc::{AllocError, Global};
use std::marker::Model;

/// The members of a relation, in its order; one may come twice. Contracts see the list of them.
#[derive(Debug, Drop)]
pub struct MemberList {
    members: Vec<Member>,
}

impl Model for MemberList {
    ghost use Rattle.std.specs.Prelude.{List};
    ghost use Rattle.osm_model.specs.declared.member.Member.{Member};

    ghost Value = { List Member };

    ghost view = { λ a. a.members.items };
}

impl MemberList {
    /// The list of these members.
    pub fn new(members: Vec<Member>) -> MemberList
        ensures { result ≡ members.items }
    {
        MemberList { members }
    }

    /// A copy.
    pub fn copy(&self, alloc: Global) -> Result<MemberList, AllocError>
        ensures { IfOk result (λ list. list ≡ self.now) }
    {
        let mut members = Vec::with_capacity(alloc, self.members.len())?;
        for member in &self.members {
            members.push(member.copy(alloc)?)?;
        }
        Ok(MemberList { members })
    }

    /// The members.
    pub fn as_slice(&self) -> &[Member]
        ensures { result.now ≡ self.now }
    {
        &self.members
    }
}

impl PartialEq for MemberList {
    ghost eq = { λ a b. pointwise member_eq a b };

    ghost laws = { partial_equiv_from_equiv (lists_equiv members_equiv) };

    fn eq(&self, other: &MemberList) -> bool {
        self.members == other.members
    }
}

impl Eq for MemberList {
    ghost laws = { lists_equiv members_equiv };
}
