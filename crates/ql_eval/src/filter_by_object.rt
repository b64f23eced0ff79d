//! Filters that look at an object.

ghost use Rattle.std.specs.Prelude.{◌++◌, ◌↔◌, IfErr, IfOk, IsTrue, OnOk};
ghost use Rattle.osm_keys.specs.Publications.{IsPublication, Publication};
ghost use Rattle.ql_syntax.specs.StatementViews.{filter_of, filters_of};
ghost use Rattle.ref_sets.specs.Adding.{Adds, From};
ghost use Rattle.ref_sets.specs.Sets.{IsSetOf};
ghost use Rattle.ref_sets.specs.NamedSets.{lists_of};
ghost use Rattle.ql_eval.specs.Questions.{NeededBy};
ghost use Rattle.ql_eval.specs.internal.Entries.{IsThere};
ghost use Rattle.ql_eval.specs.internal.Links.{AreThere, IsLineAsk};
ghost use Rattle.ql_eval.specs.internal.Objects.{AreKnownThere, IsKnownThere};
ghost use Rattle.ql_eval.specs.internal.Narrowing.{IsPassingAs, PassesAll, PassesItself, PassesPath};
ghost use Rattle.ql_eval.specs.internal.Giving.{AllGiven};
ghost use Rattle.ql_eval.specs.internal.Truths.{EndsTruly};

use crate::announcing::announce_all;
use crate::fault::EvalFault;
use crate::lists_in::lists_in;
use crate::object_test::passes_alone;
use crate::source::Source;
use osm_model::{Kind, Object, Ref};
use ql_syntax::{Filter, Path};
use ref_sets::{NamedSets, RefSet};
use std::alloc::Global;

/// Of candidates those whose objects the filters keep that look at an object: each object is read once. `Absent` where
/// one isn't there.
pub(crate) fn filter_by_object<W: Source>(
    alloc: Global,
    source: &mut W,
    candidates: &RefSet,
    before: &[Filter<'_>],
    after: &[Filter<'_>],
    sets: &NamedSets<'_>,
) -> Result<RefSet, EvalFault>
    requires { AllGiven (W.gave source.old) candidates.now }
    ensures later { W.later source.old source.new }
    ensures walked { OnOk result (W.walked source.old source.new) }
    ensures told { IfErr result (W.tells source.new) }
    ensures named { IfOk result (AllGiven (W.gave source.new)) }
    ensures there { OnOk result (AreKnownThere (W.knows source.new) candidates.now) }
    ensures answer { let env = lists_of sets.now.named.items in
        let filters = filters_of before.now ++ filters_of after.now in
        (p : Publication) → IsPublication p → W.under source.old p
        → AreThere p.objects candidates.now
        → EndsTruly W.holds W.used W.under source.old source.new p
        (λ refs. IsSetOf refs
        (From candidates.now (IsPassingAs p.objects env filters)))
        (NeededBy p (From candidates.now (IsLineAsk p))) result }
{
    let mut refs = Vec::new(alloc);
    let names = candidates.as_slice();
    announce_all(source, names);
    for name in names {
        add_passing(source, *name, before, after, sets, &mut refs)?;
    }
    Ok(RefSet::from_refs(refs))
}

/// Adds a candidate where the filters keep its object.
fn add_passing<W: Source>(
    source: &mut W,
    name: Ref,
    before: &[Filter<'_>],
    after: &[Filter<'_>],
    sets: &NamedSets<'_>,
    refs: &mut Vec<Ref>,
) -> Result<(), EvalFault>
    requires name_named { W.gave source.old name }
    requires named { AllGiven (W.gave source.old) refs.old.items }
    ensures later { W.later source.old source.new }
    ensures walked { OnOk result (W.walked source.old source.new) }
    ensures told { IfErr result (W.tells source.new) }
    ensures named { OnOk result (AllGiven (W.gave source.new) refs.new.items) }
    ensures there { OnOk result (IsKnownThere (W.knows source.new) name) }
    ensures answer { let env = lists_of sets.now.named.items in
        let filters = filters_of before.now ++ filters_of after.now in
        (p : Publication) → IsPublication p → W.under source.old p → IsThere p.objects name
        → EndsTruly W.holds W.used W.under source.old source.new p
        (λ _. Adds refs.old.items refs.new.items (IsPassingAs p.objects env filters name))
        (NeededBy p (IsLineAsk p name)) result }
{
    source.look_up(name)?;
    match source.known(name) {
        Some(object) => {
            if passes_both(before, after, object, sets) {
                refs.push(name)?;
            }
            Ok(())
        }
        None => Err(EvalFault::Absent),
    }
}

/// Whether the filters before and after a base keep an object.
fn passes_both(
    before: &[Filter<'_>],
    after: &[Filter<'_>],
    object: &Object,
    sets: &NamedSets<'_>,
) -> bool
    ensures { IsTrue result ↔
        PassesAll (lists_of sets.now.named.items)
        (filters_of before.now ++ filters_of after.now) object.now }
{
    passes_all(before, object, sets) && passes_all(after, object, sets)
}

/// Whether all filters keep an object. The first that doesn't ends it.
fn passes_all(filters: &[Filter<'_>], object: &Object, sets: &NamedSets<'_>) -> bool
    ensures { IsTrue result ↔
        PassesAll (lists_of sets.now.named.items) (filters_of filters.now) object.now }
{
    for filter in filters {
        if !passes(filter, object, sets) {
            return false;
        }
    }
    true
}

/// Whether a filter keeps an object, as far as it and the named sets tell.
fn passes(filter: &Filter<'_>, object: &Object, sets: &NamedSets<'_>) -> bool
    ensures { IsTrue result ↔
        PassesItself (lists_of sets.now.named.items) object.now (filter_of filter.now) }
{
    match filter {
        Filter::Via(path, name) => passes_path(*path, object, sets.get(name.as_bytes())),
        _ => passes_alone(filter, object),
    }
}

/// Whether a path leads up to an object from a set; paths down look at its reference alone.
fn passes_path(path: Path, object: &Object, from: &RefSet) -> bool
    ensures { IsTrue result ↔ PassesPath from.now path object.now }
{
    match path {
        Path::W | Path::R => true,
        Path::Bn => lists_in(object, Kind::Node, from),
        Path::Bw => lists_in(object, Kind::Way, from),
        Path::Br => lists_in(object, Kind::Rel, from),
    }
}
