//! What objects of a set list, and what lists them.

ghost use Rattle.std.specs.Prelude.{◌≡◌, ◌↔◌, IfOk, IsTrue};
ghost use Rattle.std.specs.List.{Contains};
ghost use Rattle.ref_sets.specs.Sets.{IsSetOf};
ghost use Rattle.ql_meaning.specs.Values.{IsAbove, IsBelow, IsRefOf};

use crate::links::links;
use osm_model::{Kind, ObjectSet, Ref};
use ref_sets::RefSet;
use std::alloc::{AllocError, Global};

/// What objects of a kind in a set list, as far as it is there.
pub(crate) fn below(
    alloc: Global,
    set: &ObjectSet,
    from: &RefSet,
    kind: Kind,
) -> Result<RefSet, AllocError>
    ensures { IfOk result (λ refs. IsSetOf refs (IsRefOf set.now (IsBelow set.now from.now kind))) }
{
    let links = links(alloc, set)?;
    let mut refs = Vec::new(alloc);
    for link in &links {
        if is_of_kind_in(from, kind, link.parent) {
            refs.push(link.child)?;
        }
    }
    Ok(RefSet::from_refs(refs))
}

/// What lists objects of a kind in a set.
pub(crate) fn above(
    alloc: Global,
    set: &ObjectSet,
    from: &RefSet,
    kind: Kind,
) -> Result<RefSet, AllocError>
    ensures { IfOk result (λ refs. IsSetOf refs (IsRefOf set.now (IsAbove set.now from.now kind))) }
{
    let links = links(alloc, set)?;
    let mut refs = Vec::new(alloc);
    for link in &links {
        if is_of_kind_in(from, kind, link.child) {
            refs.push(link.parent)?;
        }
    }
    Ok(RefSet::from_refs(refs))
}

/// Whether a reference is of a kind and in a set.
fn is_of_kind_in(refs: &RefSet, kind: Kind, name: Ref) -> bool
    ensures { IsTrue result ↔ ((name.kind ≡ kind) × Contains refs.now name) }
{
    name.kind == kind && refs.contains(name)
}
