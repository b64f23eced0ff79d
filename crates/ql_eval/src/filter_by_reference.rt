//! Filters that look at references alone.

ghost use Rattle.std.specs.Prelude.{◌≢◌, IfErr, IfOk, OnOk};
ghost use Rattle.std.specs.List.{Contains};
ghost use Rattle.osm_model.specs.declared.kind.Kind.TheVariants as kinds;
ghost use Rattle.osm_keys.specs.Grains.{grain_of};
ghost use Rattle.osm_keys.specs.Publications.{IsPublication, Publication};
ghost use Rattle.ql_syntax.specs.StatementViews.{filter_of, filters_of};
ghost use Rattle.ref_sets.specs.Adding.{Adds, From};
ghost use Rattle.ref_sets.specs.Sets.{IsSetOf};
ghost use Rattle.ref_sets.specs.NamedSets.{lists_of};
ghost use Rattle.ql_eval.specs.Asks.{AskedByRest, AskedFor, IsListedBy, IsOfKindIn};
ghost use Rattle.ql_eval.specs.Questions.{NeededBy, line_ask};
ghost use Rattle.ql_eval.specs.internal.Links.{AreAllThere, AreThere};
ghost use Rattle.ql_eval.specs.internal.Narrowing.{AskedByPathDown, HasId, IsNamedBy, IsNamedByAll, IsNamedOnPath};
ghost use Rattle.ql_eval.specs.internal.Giving.{AllGiven, AllSetsGiven};
ghost use Rattle.ql_eval.specs.internal.Truths.{EndsTruly};

use crate::fault::EvalFault;
use crate::links::members_of;
use crate::source::Source;
use osm_model::{Kind, Ref};
use ql_syntax::{Filter, Path};
use ref_sets::{NamedSets, RefSet};
use std::alloc::{AllocError, Global};

/// Of some references those that all filters name, as far as references alone tell. A path down asks for the objects
/// of its set, whatever is left.
pub(crate) fn filter_by_reference<W: Source>(
    alloc: Global,
    source: &mut W,
    refs: RefSet,
    filters: &[Filter<'_>],
    sets: &NamedSets<'_>,
) -> Result<RefSet, EvalFault>
    requires named { AllGiven (W.gave source.old) refs }
    requires sets_named { AllSetsGiven (W.gave source.old) (lists_of sets.now.named.items) }
    ensures later { W.later source.old source.new }
    ensures walked { OnOk result (W.walked source.old source.new) }
    ensures told { IfErr result (W.tells source.new) }
    ensures named { IfOk result (AllGiven (W.gave source.new)) }
    ensures answer { let env = lists_of sets.now.named.items in
        (p : Publication) → IsPublication p → W.under source.old p → AreAllThere p.objects env
        → EndsTruly W.holds W.used W.under source.old source.new p
        (λ left. IsSetOf left
        (λ r. Contains refs r × IsNamedByAll p.objects env (filters_of filters.now) r))
        (NeededBy p (From (filters_of filters.now) (AskedByRest p env))) result }
{
    // For the proof alone: a set rises.
    let _ = refs.as_slice();
    let mut left = refs;
    for filter in filters {
        left = named(alloc, source, left, filter, sets)?;
    }
    Ok(left)
}

/// Of some references those that a filter names. Filters that look at an object name all.
fn named<W: Source>(
    alloc: Global,
    source: &mut W,
    refs: RefSet,
    filter: &Filter<'_>,
    sets: &NamedSets<'_>,
) -> Result<RefSet, EvalFault>
    requires named { AllGiven (W.gave source.old) refs }
    requires sets_named { AllSetsGiven (W.gave source.old) (lists_of sets.now.named.items) }
    ensures later { W.later source.old source.new }
    ensures walked { OnOk result (W.walked source.old source.new) }
    ensures told { IfErr result (W.tells source.new) }
    ensures named { IfOk result (AllGiven (W.gave source.new)) }
    ensures answer { let env = lists_of sets.now.named.items in
        (p : Publication) → IsPublication p → W.under source.old p → AreAllThere p.objects env
        → EndsTruly W.holds W.used W.under source.old source.new p
        (λ left. IsSetOf left
        (λ r. Contains refs r × IsNamedBy p.objects env r (filter_of filter.now)))
        (NeededBy p (AskedByRest p env (filter_of filter.now))) result }
{
    // For the proof alone: a set rises.
    let _ = refs.as_slice();
    match filter {
        Filter::InSet(name) => Ok(refs.intersection(alloc, sets.get(name.as_bytes()))?),
        Filter::Ids(ids) => Ok(with_ids(alloc, &refs, ids.as_slice())?),
        Filter::Via(path, name) => on_path(alloc, source, refs, *path, sets.get(name.as_bytes())),
        _ => Ok(refs),
    }
}

/// Of some references those with ids of a list.
fn with_ids(alloc: Global, refs: &RefSet, ids: &[i64]) -> Result<RefSet, AllocError>
    ensures { IfOk result
        (λ left. IsSetOf left (λ r. Contains refs.now r × Contains ids.now r.id)) }
{
    let mut those = Vec::new(alloc);
    for id in ids {
        add_with_id(*id, &mut those)?;
    }
    let with_ids = RefSet::from_refs(those);
    refs.intersection(alloc, &with_ids)
}

/// Adds the references with an id: one of each kind.
fn add_with_id(id: i64, refs: &mut Vec<Ref>) -> Result<(), AllocError>
    ensures { OnOk result (Adds refs.old.items refs.new.items (HasId id)) }
{
    refs.push(Ref {
        kind: Kind::Node,
        id,
    })?;
    refs.push(Ref {
        kind: Kind::Way,
        id,
    })?;
    refs.push(Ref {
        kind: Kind::Rel,
        id,
    })?;
    Ok(())
}

/// Of some references those to which a path leads down from a set. Paths up name all.
fn on_path<W: Source>(
    alloc: Global,
    source: &mut W,
    refs: RefSet,
    path: Path,
    from: &RefSet,
) -> Result<RefSet, EvalFault>
    requires named { AllGiven (W.gave source.old) refs }
    requires from_named { AllGiven (W.gave source.old) from.now }
    ensures later { W.later source.old source.new }
    ensures walked { OnOk result (W.walked source.old source.new) }
    ensures told { IfErr result (W.tells source.new) }
    ensures named { IfOk result (AllGiven (W.gave source.new)) }
    ensures answer { (p : Publication) → IsPublication p → W.under source.old p
        → AreThere p.objects from.now
        → EndsTruly W.holds W.used W.under source.old source.new p
        (λ left. IsSetOf left (λ r. Contains refs r × IsNamedOnPath p.objects from.now path r))
        (NeededBy p (AskedByPathDown p from.now path)) result }
{
    // For the proof alone: a set rises.
    let _ = refs.as_slice();
    match path {
        Path::W => listed_from(alloc, source, &refs, from, Kind::Way),
        Path::R => listed_from(alloc, source, &refs, from, Kind::Rel),
        Path::Bn | Path::Bw | Path::Br => Ok(refs),
    }
}

/// Of some references those that an object of a set and of a kind lists.
fn listed_from<W: Source>(
    alloc: Global,
    source: &mut W,
    refs: &RefSet,
    from: &RefSet,
    kind: Kind,
) -> Result<RefSet, EvalFault>
    // Nodes list nothing, and aren't asked.
    requires parent { kind ≢ kinds.Node }
    requires named { AllGiven (W.gave source.old) refs.now }
    requires from_named { AllGiven (W.gave source.old) from.now }
    ensures later { W.later source.old source.new }
    ensures walked { OnOk result (W.walked source.old source.new) }
    ensures told { IfErr result (W.tells source.new) }
    ensures named { IfOk result (AllGiven (W.gave source.new)) }
    ensures answer { (p : Publication) → IsPublication p → W.under source.old p
        → AreThere p.objects from.now
        → EndsTruly W.holds W.used W.under source.old source.new p
        (λ left. IsSetOf left
        (λ r. Contains refs.now r × IsListedBy p.objects (IsOfKindIn from.now kind) r))
        (NeededBy p (AskedFor (IsOfKindIn from.now kind) (line_ask (grain_of p.edition)))) result }
{
    let listed = members_of(alloc, source, from.of_kinds(kind, kind))?;
    Ok(refs.intersection(alloc, &listed)?)
}
