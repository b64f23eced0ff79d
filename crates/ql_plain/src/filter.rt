//! What filters keep.

ghost use Rattle.std.specs.Prelude.{◌≡◌, ◌↔◌, IfOk, IsTrue};
ghost use Rattle.std.specs.List.{Contains};
ghost use Rattle.osm_model.specs.Elements.{reference};
ghost use Rattle.osm_model.specs.Sets.{IsObjectSet};
ghost use Rattle.ql_syntax.specs.StatementViews.{filter_of};
ghost use Rattle.ref_sets.specs.NamedSets.{lists_of};
ghost use Rattle.ref_sets.specs.Sets.{IsSetOf};
ghost use Rattle.ql_meaning.specs.ObjectTests.{PassesAlone};
ghost use Rattle.ql_meaning.specs.Values.{IsOnPath, IsRefOf, Passes};
ghost use Rattle.ql_plain.specs.internal.Keeping.{Keeps};

use crate::neighbours::{above, below};
use crate::object_test::passes;
use osm_model::{Kind, ObjectSet, Ref};
use ql_syntax::{Filter, Path};
use ref_sets::{NamedSets, RefSet};
use std::alloc::{AllocError, Global};

/// A set that has just those objects that a filter keeps. It may have references of no object too.
pub(crate) fn kept_by(
    alloc: Global,
    filter: &Filter<'_>,
    sets: &NamedSets<'_>,
    set: &ObjectSet,
) -> Result<RefSet, AllocError>
    ensures { IfOk result
        (λ refs. Keeps set.now refs
        (λ o. Passes set.now (lists_of sets.now.named.items) o (filter_of filter.now))) }
{
    // For the proof alone: a reference names one object.
    let _ = set.as_slice();
    match filter {
        Filter::InSet(name) => sets.get(name.as_bytes()).copy(alloc),
        Filter::Ids(ids) => with_ids(alloc, ids.as_slice()),
        Filter::Via(path, name) => on_path(alloc, *path, sets.get(name.as_bytes()), set),
        _ => passing(alloc, filter, set),
    }
}

/// All references with ids of a list, of each kind.
fn with_ids(alloc: Global, ids: &[i64]) -> Result<RefSet, AllocError>
    ensures { IfOk result (λ refs. IsSetOf refs (λ r. Contains ids.now r.id)) }
{
    let mut refs = Vec::new(alloc);
    for id in ids {
        refs.push(Ref {
            kind: Kind::Node,
            id: *id,
        })?;
        refs.push(Ref {
            kind: Kind::Way,
            id: *id,
        })?;
        refs.push(Ref {
            kind: Kind::Rel,
            id: *id,
        })?;
    }
    Ok(RefSet::from_refs(refs))
}

/// Where a path leads from a set.
fn on_path(alloc: Global, path: Path, from: &RefSet, set: &ObjectSet) -> Result<RefSet, AllocError>
    ensures { IfOk result
        (λ refs. IsSetOf refs (IsRefOf set.now (IsOnPath set.now from.now path))) }
{
    match path {
        Path::W => below(alloc, set, from, Kind::Way),
        Path::R => below(alloc, set, from, Kind::Rel),
        Path::Bn => above(alloc, set, from, Kind::Node),
        Path::Bw => above(alloc, set, from, Kind::Way),
        Path::Br => above(alloc, set, from, Kind::Rel),
    }
}

/// The objects that a filter keeps which looks at an object alone.
fn passing(alloc: Global, filter: &Filter<'_>, set: &ObjectSet) -> Result<RefSet, AllocError>
    ensures { IfOk result (λ refs. IsSetOf refs (IsRefOf set.now
        (λ o. PassesAlone (filter_of filter.now) o))) }
{
    let objects = set.as_slice();
    let mut refs = Vec::new(alloc);
    for object in objects {
        if passes(filter, object) {
            refs.push(object.reference())?;
        }
    }
    Ok(RefSet::from_refs(refs))
}
