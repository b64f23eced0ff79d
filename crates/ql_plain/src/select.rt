//! Query statements.

ghost use Rattle.std.specs.Prelude.{◌≡◌, ◌↔◌, IfOk, IsTrue};
ghost use Rattle.osm_model.specs.Sets.{IsObjectSet};
ghost use Rattle.ql_syntax.specs.StatementViews.{filters_of};
ghost use Rattle.ref_sets.specs.NamedSets.{lists_of};
ghost use Rattle.ref_sets.specs.Sets.{IsSetOf};
ghost use Rattle.ql_meaning.specs.Values.{IsPicked, IsRefOf, IsSelected};

use crate::filter::kept_by;
use crate::object_test::is_picked;
use osm_model::ObjectSet;
use ql_syntax::{Filter, Pick};
use ref_sets::{NamedSets, RefSet};
use std::alloc::{AllocError, Global};

/// The objects of a kind that all filters keep: those of the kind, of which each filter leaves those that it keeps.
pub(crate) fn select(
    alloc: Global,
    kind: Pick,
    filters: &[Filter<'_>],
    sets: &NamedSets<'_>,
    set: &ObjectSet,
) -> Result<RefSet, AllocError>
    ensures { IfOk result
        (λ refs. IsSetOf refs (IsRefOf set.now (IsSelected set.now (lists_of sets.now.named.items) kind (filters_of filters.now)))) }
{
    let mut refs = picked(alloc, kind, set)?;
    for filter in filters {
        let kept = kept_by(alloc, filter, sets, set)?;
        refs = refs.intersection(alloc, &kept)?;
    }
    Ok(refs)
}

/// The objects of the kind of a query statement.
fn picked(alloc: Global, kind: Pick, set: &ObjectSet) -> Result<RefSet, AllocError>
    ensures { IfOk result (λ refs. IsSetOf refs (IsRefOf set.now (IsPicked kind))) }
{
    let objects = set.as_slice();
    let mut refs = Vec::new(alloc);
    for object in objects {
        if is_picked(kind, object) {
            refs.push(object.reference())?;
        }
    }
    Ok(RefSet::from_refs(refs))
}
