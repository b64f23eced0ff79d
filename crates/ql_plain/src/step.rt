//! Steps of the recursions `>>` and `<<`.

ghost use Rattle.std.specs.Prelude.{◌≡◌, ◌↔◌, IfOk, IsTrue};
ghost use Rattle.std.specs.List.{Contains};
ghost use Rattle.std.specs.List.Sorted.{IsSortedByKey};
ghost use Rattle.std.specs.declared.cmp.Ordering.TheVariants.{Greater, Less};
ghost use Rattle.osm_model.specs.Elements.{ref_cmp};
ghost use Rattle.ql_plain.specs.internal.Steps.{AreSteps, oriented};

use crate::links::Link;
use osm_model::Ref;
use std::alloc::{AllocError, Global};
use std::cmp::Ordering;

/// A link, as a recursion goes along it.
#[derive(Clone, Copy)]
pub(crate) struct Step {
    /// Where it starts.
    pub(crate) from: Ref,
    /// Where it leads.
    pub(crate) to: Ref,
}

/// The links as steps down or up, by rising start.
pub(crate) fn steps(alloc: Global, links: &[Link], is_up: bool) -> Result<Vec<Step>, AllocError>
    ensures steps { IfOk result (λ steps. AreSteps is_up links.now steps.items) }
    ensures sorted { IfOk result (λ steps. IsSortedByKey (λ step. step.from) ref_cmp steps.items) }
{
    let mut steps = Vec::new(alloc);
    for link in links {
        steps.push(oriented(*link, is_up))?;
    }
    steps.sort_unstable_by(|first, second| compare(first.from, second.from));
    Ok(steps)
}

fn oriented(link: Link, is_up: bool) -> Step
    ensures { result ≡ oriented is_up link }
{
    if is_up {
        Step {
            from: link.child,
            to: link.parent,
        }
    } else {
        Step {
            from: link.parent,
            to: link.child,
        }
    }
}

fn compare(first: Ref, second: Ref) -> Ordering
    ensures { result ≡ ref_cmp first second }
{
    first.cmp(&second)
}

/// The steps that start at a reference. Two binary searches.
pub(crate) fn steps_from(steps: &[Step], name: Ref) -> &[Step]
    requires { IsSortedByKey (λ step. step.from) ref_cmp steps.now }
    ensures { (step : _) → Contains result.now step ↔ (Contains steps.now step
        × (step.from ≡ name)) }
{
    let first = steps.partition_point(|step| compare(step.from, name).is_lt());
    let rest = &steps[first..];
    let count = rest.partition_point(|step| compare(step.from, name).is_le());
    &rest[..count]
}
