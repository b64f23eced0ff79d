//! Objects.

ghost use Rattle.std.specs.Prelude.{◌≡◌, ◌≤◌, ◌↔◌, IsTrue, All, IfOk, IfErr};
ghost use Rattle.osm_model.specs.Elements.{reference};
ghost use Rattle.osm_model.specs.Limits.{HasNoNul, Fits, IsClean, AreUtf8, IsMadeOf, IsElement, Refuses};

use crate::body::{Body, members_of, nodes_of, note_body};
use crate::fault::ModelFault;
use crate::kind::Kind;
use crate::limits::{LIST_LIMIT, TEXT_LIMIT};
use crate::line_length::has_short_line;
use crate::member::{Member, note_roles};
use crate::meta::{Meta, note_numbers};
use crate::reference::Ref;
use crate::tag::{Tag, note_tags};
use crate::tag_list::TagList;
use crate::tag_order::{keys_rise, sort_tags};
use crate::text::note_utf8;
use std::alloc::{AllocError, Global};
use std::marker::Model;

/// An object: its id, metadata, tags by rising key, and what is particular to its kind.
///
/// Every object keeps the limits: a text has at most 4,096 bytes and no NUL, a list at most 65,535
/// items, the canonical line at most 2^24 bytes without its end; its keys differ. Contracts see the
/// record of its parts.
#[derive(Debug, Drop, PartialEq, Eq)]
pub struct Object {
    id: i64,
    meta: Meta,
    tags: TagList,
    body: Body,
}

impl Model for Object {
    ghost use Rattle.osm_model.specs.Elements.{Element};

    ghost Value = { Element };

    ghost use Rattle.osm_model.specs.Limits.{IsElement};

    ghost view = { λ a. record { id = a.id; meta = a.meta; tags = a.tags; body = a.body } };

    ghost invariant = { λ a. IsElement (record { id = a.id; meta = a.meta; tags = a.tags; body = a.body }) };

    ghost inverse = { λ o. record { id = o.id; meta = o.meta; tags = o.tags; body = o.body } };
}

impl Object {
    /// The object of these parts, its tags sorted by the bytes of their keys.
    ///
    /// Refused by the first of these that holds: `LimitPassed` for a text or a list over its limit,
    /// `NulInText`, `KeyTwice`, `LimitPassed` for a canonical line over its limit. The sort is in
    /// place, and nothing takes memory.
    pub fn new(id: i64, meta: Meta, tags: Vec<Tag>, body: Body) -> Result<Object, ModelFault>
        // What is made is made of just these parts.
        ensures made { IfOk result (λ o. IsMadeOf o id meta tags.items body × IsElement o) }
        // Which fault it is.
        ensures refused { IfErr result (λ fault. Refuses id meta tags.items body fault) }
        // Where there is a fault, nothing is made.
        ensures only { IfOk result (λ _. (fault : ModelFault) → Refuses id meta tags.items body fault → ⊥) }
    {
        if !parts_fit(&meta, &tags, &body) {
            return Err(ModelFault::LimitPassed);
        }
        if !parts_are_clean(&meta, &tags, &body) {
            return Err(ModelFault::NulInText);
        }
        let mut tags = tags;
        sort_tags(&mut tags);
        if !keys_rise(&tags) {
            return Err(ModelFault::KeyTwice);
        }
        if !has_short_line(id, &meta, &tags, &body) {
            return Err(ModelFault::LimitPassed);
        }
        // For the proof alone: the numbers of the metadata are in range, and the stamp is a moment.
        note_numbers(&meta);
        // For the proof alone: the numbers of the body are in range.
        note_body(&body);
        // For the proof alone: the texts are UTF-8.
        note_texts(&meta, &tags, &body);
        Ok(Object {
            id,
            meta,
            tags: TagList::new(tags),
            body,
        })
    }

    /// An equal object. Refused only out of memory.
    pub fn copy(&self, alloc: Global) -> Result<Object, AllocError>
        ensures { IfOk result (λ object. object ≡ self.now) }
    {
        Ok(Object {
            id: self.id,
            meta: self.meta.copy(alloc)?,
            tags: self.tags.copy(alloc)?,
            body: self.body.copy(alloc)?,
        })
    }

    /// What names it.
    pub fn reference(&self) -> Ref
        ensures value { result ≡ reference self.now }
        ensures element { IsElement self.now }
    {
        let kind = match &self.body {
            Body::Node(_) => Kind::Node,
            Body::Way(_) => Kind::Way,
            Body::Rel(_) => Kind::Rel,
        };
        Ref { kind, id: self.id }
    }

    /// Its id.
    pub fn id(&self) -> i64
        ensures value { result ≡ self.now.id }
        ensures element { IsElement self.now }
    {
        self.id
    }

    /// What is known of its last change.
    pub fn meta(&self) -> &Meta
        ensures value { result.now ≡ self.now.meta }
        ensures element { IsElement self.now }
    {
        &self.meta
    }

    /// Its tags, by rising key.
    pub fn tags(&self) -> &[Tag]
        ensures value { result.now ≡ self.now.tags }
        ensures element { IsElement self.now }
    {
        self.tags.as_slice()
    }

    /// What is particular to its kind.
    pub fn body(&self) -> &Body
        ensures value { result.now ≡ self.now.body }
        ensures element { IsElement self.now }
    {
        &self.body
    }
}

/// Whether each text and each list keeps its limit.
fn parts_fit(meta: &Meta, tags: &[Tag], body: &Body) -> bool
    ensures { IsTrue result ↔ Fits meta.now tags.now body.now }
{
    meta.user.len() <= TEXT_LIMIT
        && tags.len() <= LIST_LIMIT
        && nodes_of(body).len() <= LIST_LIMIT
        && members_of(body).len() <= LIST_LIMIT
        && tags.iter().all(|tag| tag.key.len() <= TEXT_LIMIT && tag.value.len() <= TEXT_LIMIT)
        && members_of(body)
            .iter()
            .all(|member| member.role.len() <= TEXT_LIMIT)
}

/// Whether no text has a NUL.
fn parts_are_clean(meta: &Meta, tags: &[Tag], body: &Body) -> bool
    ensures { IsTrue result ↔ IsClean meta.now tags.now body.now }
{
    has_no_nul(meta.user.as_bytes()) && tags_are_clean(tags) && roles_are_clean(members_of(body))
}

fn tags_are_clean(tags: &[Tag]) -> bool
    ensures { IsTrue result ↔ All (λ tag. HasNoNul tag.key × HasNoNul tag.value) tags.now }
{
    tags.iter().all(|tag| has_no_nul(tag.key.as_bytes()) && has_no_nul(tag.value.as_bytes()))
}

fn roles_are_clean(members: &[Member]) -> bool
    ensures { IsTrue result ↔ All (λ member. HasNoNul member.role) members.now }
{
    members
        .iter()
        .all(|member| has_no_nul(member.role.as_bytes()))
}

#[tactic(auto, unfolding(crate::specs::Limits::HasNoNul))]
fn has_no_nul(text: &[u8]) -> bool
    ensures { IsTrue result ↔ HasNoNul text.now }
{
    text.iter().all(|byte| *byte != 0)
}

/// Brings to a proof that each text is UTF-8. It does nothing else.
fn note_texts(meta: &Meta, tags: &[Tag], body: &Body)
    ensures { AreUtf8 meta.now tags.now body.now }
{
    note_utf8(&meta.user);
    note_tags(tags);
    note_roles(members_of(body));
}
