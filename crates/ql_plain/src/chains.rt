//! The recursions `>>` and `<<`.

ghost use Rattle.std.specs.Prelude.{IfOk};
ghost use Rattle.std.specs.List.{Contains};
ghost use Rattle.std.specs.List.Sorted.{IsSortedByKey};
ghost use Rattle.osm_model.specs.Elements.{ref_cmp};
ghost use Rattle.osm_model.specs.declared.reference.Ref.{Ref};
ghost use Rattle.ql_syntax.specs.declared.recursion.Recursion.TheVariants as recursions;
ghost use Rattle.ref_sets.specs.Sets.{IsSetOf};
ghost use Rattle.ql_meaning.specs.Values.{IsReached, IsRefOf};
ghost use Rattle.ql_plain.specs.internal.Paths.{IsPath};

use crate::found::Found;
use crate::links::links;
use crate::step::{Step, steps};
use osm_model::ObjectSet;
use ref_sets::RefSet;
use std::alloc::{AllocError, Global};

/// `>>`: what chains lead down to from a set.
pub(crate) fn down_all(alloc: Global, set: &ObjectSet, from: &RefSet) -> Result<RefSet, AllocError>
    ensures { IfOk result
        (λ refs. IsSetOf refs (IsRefOf set.now (IsReached set.now recursions.DownAll from.now))) }
{
    // For the proof alone: a reference names one object.
    let _ = set.as_slice();
    let links = links(alloc, set)?;
    let steps = steps(alloc, &links, false)?;
    reached(alloc, &steps, from)
}

/// `<<`: from what chains lead down to a set.
pub(crate) fn up_all(alloc: Global, set: &ObjectSet, from: &RefSet) -> Result<RefSet, AllocError>
    ensures { IfOk result
        (λ refs. IsSetOf refs (IsRefOf set.now (IsReached set.now recursions.UpAll from.now))) }
{
    // For the proof alone: a reference names one object.
    let _ = set.as_slice();
    let links = links(alloc, set)?;
    let steps = steps(alloc, &links, true)?;
    reached(alloc, &steps, from)
}

/// What one or more steps lead to from a set, along chains of any length and cycles: one step after the other until
/// nothing new is found.
fn reached(alloc: Global, steps: &[Step], from: &RefSet) -> Result<RefSet, AllocError>
    requires { IsSortedByKey (λ step. step.from) ref_cmp steps.now }
    ensures { IfOk result (λ refs. IsSetOf refs (λ r. (s : Ref) × Contains from.now s
        × IsPath steps.now s r)) }
{
    let names = from.as_slice();
    let mut found = Found::new(alloc);
    for name in names {
        found.follow(steps, *name)?;
    }
    found.follow_found(steps)?;
    let Found { seen: _, refs } = found;
    Ok(RefSet::from_refs(refs))
}
