//! Members of relations, as fields spell them.

ghost use Rattle.std.specs.Prelude.{◌≡◌, ◌++◌, ◌∷◌, ℕ, List, All, IfOk, IfErr, IsTrue, ◌↔◌, MatchOption};
ghost use Rattle.osm_model.specs.Bytes.{at_sign};
ghost use Rattle.osm_model.specs.Limits.{IsShort};
ghost use Rattle.osm_model.specs.declared.reference.Ref.{Ref};
ghost use Rattle.opl_codec.specs.Texts.{IsText};
ghost use Rattle.opl_codec.specs.Members.{HasTarget, SpellsReference, SpellsMembers, MembersFit, MemberFault, MembersFault};

use crate::kind_letter::kind_of;
use crate::list_item::{ListItem, read_list, shifted_by};
use crate::make_text::make_text;
use crate::number::read_number;
use crate::text_len::check_text;
use crate::value_fault::ValueFault;
use byte_io::split_once;
use osm_model::{Member, Ref, TEXT_LIMIT};
use std::alloc::Global;

/// The members of a text, in their order.
///
/// Refused with `Limit` where they are more than [`osm_model::LIST_LIMIT`] or a role has more than
/// [`TEXT_LIMIT`] bytes.
pub(crate) fn read_members(alloc: Global, text: &str) -> Result<Vec<Member>, ValueFault>
    ensures read { IfOk result (λ members. SpellsMembers text.now members.items
        × MembersFit members.items) }
    ensures refused { IfErr result (λ fault. MembersFault text.now fault) }
{
    let members: Vec<Member> = read_list(alloc, text)?;
    if !are_short(&members) {
        return Err(ValueFault::Limit);
    }
    Ok(members)
}

/// Whether no role is over its limit.
fn are_short(members: &[Member]) -> bool
    ensures { IsTrue result ↔ All (λ member. IsShort member.role) members.now }
{
    members.iter().all(|member| member.role.len() <= TEXT_LIMIT)
}

impl ListItem for Member {
    ghost use Rattle.opl_codec.specs.Members.{SpellsMember, MemberFault};
    ghost use Rattle.opl_codec.specs.internal.MemberPlaces.{member_within};

    ghost spells = { SpellsMember };

    ghost bad = { MemberFault };

    ghost unlimited = { λ _ limit. limit };

    ghost within = { member_within };

    fn read(alloc: Global, spelled: &str) -> Result<Member, ValueFault> {
        let (target, role) = cut_member(spelled)?;
        let role = make_text(alloc, role)?;
        Ok(Member { target, role })
    }
}

/// What a member refers to, and its role as it is spelled.
fn cut_member(spelled: &str) -> Result<(Ref, &str), ValueFault>
    ensures parts { IfOk result (λ parts. (target : List ℕ)
        × (spelled.now ≡ target ++ at_sign ∷ parts.1.now) × SpellsReference target parts.0) }
    ensures role { IfOk result (λ parts. IsText parts.1.now) }
    ensures refused { IfErr result (λ fault. MemberFault spelled.now fault) }
{
    let Some((target, role)) = cut_target(spelled) else {
        return Err(ValueFault::Form);
    };
    match check_text(role.as_bytes()) {
        Ok(()) => Ok((target, role)),
        Err(fault) => Err(shifted_by(fault, spelled.len() - role.len())),
    }
}

/// What a member refers to, and the text after its `@`.
fn cut_target(spelled: &str) -> Option<(Ref, &str)>
    ensures { MatchOption result ((role : List ℕ) (place : ℕ) → HasTarget spelled.now role place
        → ⊥)
        (λ parts. (target : List ℕ) × (spelled.now ≡ target ++ at_sign ∷ parts.1.now)
        × SpellsReference target parts.0) }
{
    let Some((text, _)) = split_once(spelled.as_bytes(), b'@') else {
        return None;
    };
    let Some(target) = read_reference(text) else {
        return None;
    };
    Some((target, &spelled[text.len() + 1..]))
}

/// The reference that is spelled so: the letter of a kind and an id.
fn read_reference(text: &[u8]) -> Option<Ref>
    ensures { MatchOption result ((target : Ref) → SpellsReference text.now target → ⊥)
        (λ target. SpellsReference text.now target) }
{
    let [letter, digits @ ..] = text else {
        return None;
    };
    let kind = kind_of(*letter)?;
    let id = read_number(digits)?;
    Some(Ref { kind, id })
}
