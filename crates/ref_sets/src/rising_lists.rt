//! Rising lists of references, two at a time.

ghost use Rattle.std.specs.Prelude.{IfOk};
ghost use Rattle.std.specs.List.{Contains};
ghost use Rattle.std.specs.List.Sorted.{IsStrictlySortedBy};
ghost use Rattle.osm_model.specs.Elements.{ref_cmp};
ghost use Rattle.ref_sets.specs.Sets.{IsSetOf};
ghost use Rattle.ref_sets.specs.internal.Wanted.{IsWanted};

use crate::search::step_to;
use osm_model::Ref;
use std::alloc::{AllocError, Global};

/// The references of a list that are in another one, or those that aren't where `wanted` is `false`. One pass over the
/// first list, with a search in the other one that goes along.
pub(crate) fn filter_by(
    alloc: Global,
    refs: &[Ref],
    others: &[Ref],
    wanted: bool,
) -> Result<Vec<Ref>, AllocError>
    requires rising { IsStrictlySortedBy ref_cmp refs.now }
    requires others_rising { IsStrictlySortedBy ref_cmp others.now }
    ensures { IfOk result (λ kept. IsSetOf kept.items (λ r. Contains refs.now r × IsWanted wanted (Contains others.now r))) }
{
    // Not more than the first list has, so this one never moves as it grows.
    let mut kept = Vec::with_capacity(alloc, refs.len())?;
    let mut at = 0;
    for name in refs {
        let (next, is_there) = step_to(others, at, *name);
        if is_there == wanted {
            kept.push(*name)?;
        }
        at = next;
    }
    Ok(kept)
}
