//! What the base of a query statement finds, asked of a source.

ghost use Rattle.std.specs.Prelude.{◌≡◌, ◌↔◌, ◌<◌, ◌∷◌, ℕ, IfErr, IfOk, List, OnOk, [], length};
ghost use Rattle.std.specs.List.{Contains};
ghost use Rattle.std.specs.Option.{ForSome, option_map, option_to_list};
ghost use Rattle.osm_model.specs.Limits.{HasNoNul};
ghost use Rattle.osm_model.specs.Tagged.{HasKeyOf};
ghost use Rattle.osm_model.specs.declared.reference.Ref.{Ref};
ghost use Rattle.osm_keys.specs.Grains.{grain_of};
ghost use Rattle.osm_keys.specs.Publications.{IsPublication, Publication};
ghost use Rattle.osm_keys.specs.Ranges.{IsKindOf};
ghost use Rattle.ql_syntax.specs.LawfulQueries.{Allows};
ghost use Rattle.ql_syntax.specs.StatementViews.{filter_of};
ghost use Rattle.ref_sets.specs.Adding.{Adds, From};
ghost use Rattle.ref_sets.specs.Sets.{IsSetOf};
ghost use Rattle.ref_sets.specs.NamedSets.{lists_of};
ghost use Rattle.ql_meaning.specs.Values.{IsRefOf, IsSelected};
ghost use Rattle.ql_plan.specs.Plans.{never, rank_of};
ghost use Rattle.ql_eval.specs.Absences.{IsAskedById};
ghost use Rattle.ql_eval.specs.Asks.{AskedByBase, AskedFor, IsAskedInBox, kind_picked};
ghost use Rattle.ql_eval.specs.internal.Boxes.{IsInBox};
ghost use Rattle.ql_eval.specs.Questions.{NeededBy, names_ask, object_ask};
ghost use Rattle.ql_eval.specs.Questions as questions;
ghost use Rattle.ql_eval.specs.Work.{HasNoClash, IsInCellsOf, OfSet, Steps, WorkOfBase};
ghost use Rattle.ql_eval.specs.internal.Affording.{WorkOfFinding};
ghost use Rattle.ql_eval.specs.internal.Candidates.{IsKeptOf, IsKindAsk, IsOfIds, IsOfThisKind, IsWith};
ghost use Rattle.ql_eval.specs.internal.Entries.{IsThere};
ghost use Rattle.ql_eval.specs.internal.Links.{AreAllThere};
ghost use Rattle.ql_eval.specs.internal.Giving.{AllGiven, AllSetsGiven};
ghost use Rattle.ql_eval.specs.internal.Metering.{IsBounded, IsSpent};
ghost use Rattle.ql_eval.specs.internal.Truths.{EndsTruly};

use crate::affording::afford_base;
use crate::fault::EvalFault;
use crate::kinds::{first_kind, kind_of, kinds_in, last_kind};
use crate::links::those_there;
use crate::meter::Meter;
use crate::paths::on_path;
use crate::question::Question;
use crate::source::Source;
use osm_model::{BoxArea, Kind, Ref};
use ql_syntax::{Filter, Pick};
use ref_sets::{NamedSets, RefSet};
use std::alloc::{AllocError, Global};

/// The objects of a kind that the base keeps, or all of the kind where there is none, as a set. Where there is a budget, no
/// more is read than it allows, and what there is to read is counted where it is more.
pub(crate) fn find_candidates<W: Source>(
    alloc: Global,
    source: &mut W,
    meter: &mut Meter,
    pick: Pick,
    base: Option<&Filter<'_>>,
    sets: &NamedSets<'_>,
) -> Result<RefSet, EvalFault>
    requires base { ForSome (option_map (λ f. filter_of f.now) base)
        (λ base. rank_of base < never) }
    requires asked { (r : Ref) → IsAskedById pick (option_to_list (option_map (λ f. filter_of f.now) base)) r
        → W.may_be_absent source.old r }
    requires named { AllSetsGiven (W.gave source.old) (lists_of sets.now.named.items) }
    ensures later { W.later source.old source.new }
    ensures walked { OnOk result (W.walked source.old source.new) }
    ensures told { IfErr result (W.tells source.new) }
    ensures named { IfOk result (AllGiven (W.gave source.new)) }
    ensures answer { let env = lists_of sets.now.named.items in
        let filter = option_map (λ f. filter_of f.now) base.entry in
        (p : Publication) → IsPublication p → W.under source.old p → AreAllThere p.objects env
        → ForSome filter (Allows pick)
        → EndsTruly W.holds W.used W.under source.old source.new p
        (λ refs. IsSetOf refs
        (IsRefOf p.objects (IsSelected p.objects env pick (option_to_list filter))))
        (NeededBy p (AskedByBase p env (kind_picked pick) filter)) result }
    // Where there is more to read than the budget allows, steps for candidates have been counted.
    ensures bounded { let env = lists_of sets.now.named.items in
        let filter = option_map (λ f. filter_of f.now) base.entry in
        (p : Publication) → IsPublication p → W.under source.old p → AreAllThere p.objects env
        → ForSome filter (Allows pick) → HasNoClash p (W.used source.new)
        → IsBounded (WorkOfFinding p env pick filter) meter.old.spent meter.new.spent }
    ensures read { OnOk result (let env = lists_of sets.now.named.items in
        let filter = option_map (λ f. filter_of f.now) base.entry in
        (p : Publication) → IsPublication p → W.under source.old p → AreAllThere p.objects env
        → ForSome filter (Allows pick) → HasNoClash p (W.used source.new)
        → IsBounded (WorkOfBase p filter) meter.old.spent meter.new.spent) }
    ensures spent { OnOk result (let env = lists_of sets.now.named.items in
        let filter = option_map (λ f. filter_of f.now) base.entry in
        (p : Publication) → IsPublication p → W.under source.old p → AreAllThere p.objects env
        → ForSome filter (Allows pick) → HasNoClash p (W.used source.new)
        → IsSpent (WorkOfBase p filter) meter.old.spent meter.new.spent) }
{
    let before = meter.spent;
    match read_base(alloc, source, meter, pick, base, sets) {
        Ok(refs) => Ok(refs),
        Err(EvalFault::Memory) => {
            afford_base(source, meter, before, pick, base)?;
            Err(EvalFault::Memory)
        }
        Err(fault) => Err(fault),
    }
}

/// The same, refused as memory is where there is more to read than the budget allows.
fn read_base<W: Source>(
    alloc: Global,
    source: &mut W,
    meter: &mut Meter,
    pick: Pick,
    base: Option<&Filter<'_>>,
    sets: &NamedSets<'_>,
) -> Result<RefSet, EvalFault>
    requires base { ForSome (option_map (λ f. filter_of f.now) base)
        (λ base. rank_of base < never) }
    requires asked { (r : Ref) → IsAskedById pick (option_to_list (option_map (λ f. filter_of f.now) base)) r
        → W.may_be_absent source.old r }
    requires named { AllSetsGiven (W.gave source.old) (lists_of sets.now.named.items) }
    ensures later { W.later source.old source.new }
    ensures walked { OnOk result (W.walked source.old source.new) }
    ensures told { IfErr result (W.tells source.new) }
    ensures named { IfOk result (AllGiven (W.gave source.new)) }
    ensures answer { let env = lists_of sets.now.named.items in
        let filter = option_map (λ f. filter_of f.now) base.entry in
        (p : Publication) → IsPublication p → W.under source.old p → AreAllThere p.objects env
        → ForSome filter (Allows pick)
        → EndsTruly W.holds W.used W.under source.old source.new p
        (λ refs. IsSetOf refs
        (IsRefOf p.objects (IsSelected p.objects env pick (option_to_list filter))))
        (NeededBy p (AskedByBase p env (kind_picked pick) filter)) result }
    ensures bounded { let env = lists_of sets.now.named.items in
        let filter = option_map (λ f. filter_of f.now) base.entry in
        (p : Publication) → IsPublication p → W.under source.old p → AreAllThere p.objects env
        → ForSome filter (Allows pick) → HasNoClash p (W.used source.new)
        → IsBounded (WorkOfBase p filter) meter.old.spent meter.new.spent }
    ensures spent { OnOk result (let env = lists_of sets.now.named.items in
        let filter = option_map (λ f. filter_of f.now) base.entry in
        (p : Publication) → IsPublication p → W.under source.old p → AreAllThere p.objects env
        → ForSome filter (Allows pick) → HasNoClash p (W.used source.new)
        → IsSpent (WorkOfBase p filter) meter.old.spent meter.new.spent) }
{
    match base {
        None => of_kinds(alloc, source, kinds_in(kind_of(pick)), meter.room()),
        Some(filter) => kept_by(alloc, source, meter, pick, filter, sets),
    }
}

/// The objects of some kinds, as a set. Refused as memory is where one of the kinds has more than `most`.
fn of_kinds<W: Source>(
    alloc: Global,
    source: &mut W,
    kinds: &[Kind],
    most: usize,
) -> Result<RefSet, EvalFault>
    ensures later { W.later source.old source.new }
    ensures walked { OnOk result (W.walked source.old source.new) }
    ensures told { IfErr result (W.tells source.new) }
    ensures named { IfOk result (AllGiven (W.gave source.new)) }
    ensures answer { (p : Publication) → IsPublication p → W.under source.old p
        → EndsTruly W.holds W.used W.under source.old source.new p
        (λ refs. IsSetOf refs (From kinds.now (IsOfThisKind p.objects)))
        (NeededBy p (From kinds.now IsKindAsk)) result }
{
    let mut refs = Vec::new(alloc);
    for kind in kinds {
        add_kind(source, *kind, most, &mut refs)?;
    }
    Ok(RefSet::from_refs(refs))
}

/// Adds the objects of a kind. Refused as memory is where it has more than `most`.
fn add_kind<W: Source>(
    source: &mut W,
    kind: Kind,
    most: usize,
    refs: &mut Vec<Ref>,
) -> Result<(), EvalFault>
    requires { AllGiven (W.gave source.old) refs.old.items }
    ensures later { W.later source.old source.new }
    ensures walked { OnOk result (W.walked source.old source.new) }
    ensures told { IfErr result (W.tells source.new) }
    ensures named { OnOk result (AllGiven (W.gave source.new) refs.new.items) }
    ensures answer { (p : Publication) → IsPublication p → W.under source.old p
        → EndsTruly W.holds W.used W.under source.old source.new p
        (λ _. Adds refs.old.items refs.new.items (IsOfThisKind p.objects kind))
        (NeededBy p (IsKindAsk kind)) result }
{
    let found = source.names(&Question::OfKind(kind), most)?;
    refs.extend_from_slice(found.as_slice())?;
    Ok(())
}

/// The objects of a kind, or of all kinds, that a filter keeps which can be a base, as a set.
fn kept_by<W: Source>(
    alloc: Global,
    source: &mut W,
    meter: &mut Meter,
    pick: Pick,
    filter: &Filter<'_>,
    sets: &NamedSets<'_>,
) -> Result<RefSet, EvalFault>
    requires base { rank_of (filter_of filter.now) < never }
    requires asked { (r : Ref) → IsAskedById pick (filter_of filter.now ∷ []) r
        → W.may_be_absent source.old r }
    requires named { AllSetsGiven (W.gave source.old) (lists_of sets.now.named.items) }
    ensures later { W.later source.old source.new }
    ensures walked { OnOk result (W.walked source.old source.new) }
    ensures told { IfErr result (W.tells source.new) }
    ensures named { IfOk result (AllGiven (W.gave source.new)) }
    ensures answer { let env = lists_of sets.now.named.items in
        (p : Publication) → IsPublication p → W.under source.old p
        → AreAllThere p.objects env → Allows pick (filter_of filter.now)
        → EndsTruly W.holds W.used W.under source.old source.new p
        (λ refs. IsSetOf refs
        (IsKeptOf p.objects env (kind_picked pick) (filter_of filter.now)))
        (NeededBy p (AskedByBase p env (kind_picked pick) (Some (filter_of filter.now))))
        result }
    ensures bounded { let env = lists_of sets.now.named.items in
        (p : Publication) → IsPublication p → W.under source.old p → AreAllThere p.objects env
        → Allows pick (filter_of filter.now) → HasNoClash p (W.used source.new)
        → IsBounded (WorkOfBase p (Some (filter_of filter.now)))
        meter.old.spent meter.new.spent }
    ensures spent { OnOk result (let env = lists_of sets.now.named.items in
        (p : Publication) → IsPublication p → W.under source.old p → AreAllThere p.objects env
        → Allows pick (filter_of filter.now) → HasNoClash p (W.used source.new)
        → IsSpent (WorkOfBase p (Some (filter_of filter.now)))
        meter.old.spent meter.new.spent) }
{
    let kind = kind_of(pick);
    match filter {
        Filter::Ids(ids) => with_ids(alloc, source, ids.as_slice(), kind),
        Filter::InSet(name) => Ok(picked(alloc, sets.get(name.as_bytes()), kind)?),
        Filter::Via(path, name) => on_path(alloc, source, *path, sets.get(name.as_bytes()), kind),
        Filter::KeyIs(key, value) => {
            let question = Question::WithTag(key.as_bytes(), value.as_bytes(), kind);
            source.names(&question, meter.room())
        }
        Filter::HasKey(key) => with_key(alloc, source, meter, key.as_bytes(), kind),
        Filter::Within(area) => in_box(alloc, source, meter, area, kind),
        Filter::LacksKey(_) | Filter::KeyIsNot(_, _) => unreachable!("never a base"),
    }
}

/// The objects with some ids that are there, of a kind or of all kinds, as a set.
fn with_ids<W: Source>(
    alloc: Global,
    source: &mut W,
    ids: &[i64],
    kind: Option<Kind>,
) -> Result<RefSet, EvalFault>
    requires { (r : Ref) → IsOfIds kind ids.now r → W.may_be_absent source.old r }
    ensures later { W.later source.old source.new }
    ensures walked { OnOk result (W.walked source.old source.new) }
    ensures told { IfErr result (W.tells source.new) }
    ensures named { IfOk result (AllGiven (W.gave source.new)) }
    ensures answer { (p : Publication) → IsPublication p → W.under source.old p
        → EndsTruly W.holds W.used W.under source.old source.new p
        (λ refs. IsSetOf refs (λ r. IsOfIds kind ids.now r × IsThere p.objects r))
        (NeededBy p (AskedFor (IsOfIds kind ids.now) object_ask)) result }
{
    let names = references(alloc, kinds_in(kind), ids)?;
    those_there(alloc, source, &names)
}

/// The references of some kinds with some ids.
fn references(alloc: Global, kinds: &[Kind], ids: &[i64]) -> Result<Vec<Ref>, AllocError>
    ensures { IfOk result
        (λ names. (r : Ref) → Contains names.items r ↔
        (Contains kinds.now r.kind × Contains ids.now r.id)) }
{
    let mut names = Vec::new(alloc);
    for kind in kinds {
        add_references(*kind, ids, &mut names)?;
    }
    Ok(names)
}

/// Adds the references of a kind with some ids.
fn add_references(kind: Kind, ids: &[i64], names: &mut Vec<Ref>) -> Result<(), AllocError>
    ensures { OnOk result (Adds names.old.items names.new.items (From ids.now (IsWith kind))) }
{
    for id in ids {
        names.push(Ref { kind, id: *id })?;
    }
    Ok(())
}

/// The objects that have a key, of a kind or of all kinds, as a set.
fn with_key<W: Source>(
    alloc: Global,
    source: &mut W,
    meter: &mut Meter,
    key: &[u8],
    kind: Option<Kind>,
) -> Result<RefSet, EvalFault>
    ensures later { W.later source.old source.new }
    ensures walked { OnOk result (W.walked source.old source.new) }
    ensures told { IfErr result (W.tells source.new) }
    ensures named { IfOk result (AllGiven (W.gave source.new)) }
    ensures answer { (p : Publication) → IsPublication p → W.under source.old p → HasNoNul key.now
        → EndsTruly W.holds W.used W.under source.old source.new p
        (λ refs. IsSetOf refs
        (λ r. IsRefOf p.objects (λ o. HasKeyOf o key.now) r × IsKindOf kind r))
        (NeededBy p (λ ask. ask ≡ names_ask (questions.WithKey key.now))) result }
    ensures bounded { (p : Publication) → IsPublication p → W.under source.old p → HasNoNul key.now
        → HasNoClash p (W.used source.new)
        → IsBounded (OfSet (IsRefOf p.objects (λ o. HasKeyOf o key.now))
        (λ found. Steps (length found))) meter.old.spent meter.new.spent }
    ensures spent { OnOk result ((p : Publication) → IsPublication p → W.under source.old p
        → HasNoNul key.now → HasNoClash p (W.used source.new)
        → IsSpent (OfSet (IsRefOf p.objects (λ o. HasKeyOf o key.now))
        (λ found. Steps (length found))) meter.old.spent meter.new.spent) }
{
    let found = source.names(&Question::WithKey(key), meter.room())?;
    meter.charge(found.as_slice().len())?;
    Ok(picked(alloc, &found, kind)?)
}

/// The nodes in a box, if nodes are asked for, as a set. Those beside it in its cells are read too, and counted.
fn in_box<W: Source>(
    alloc: Global,
    source: &mut W,
    meter: &mut Meter,
    area: &BoxArea<'_>,
    kind: Option<Kind>,
) -> Result<RefSet, EvalFault>
    ensures later { W.later source.old source.new }
    ensures walked { OnOk result (W.walked source.old source.new) }
    ensures told { IfErr result (W.tells source.new) }
    ensures named { IfOk result (AllGiven (W.gave source.new)) }
    ensures answer { (p : Publication) → IsPublication p → W.under source.old p
        → EndsTruly W.holds W.used W.under source.old source.new p
        (λ refs. IsSetOf refs (λ r. IsRefOf p.objects (IsInBox area.now) r × IsKindOf kind r))
        (NeededBy p (IsAskedInBox p area.now)) result }
    ensures bounded { (p : Publication) → IsPublication p → W.under source.old p
        → HasNoClash p (W.used source.new)
        → IsBounded (OfSet (IsRefOf p.objects (IsInCellsOf (grain_of p.edition) area.now))
        (λ found. Steps (length found))) meter.old.spent meter.new.spent }
    ensures spent { OnOk result ((p : Publication) → IsPublication p → W.under source.old p
        → HasNoClash p (W.used source.new)
        → IsSpent (OfSet (IsRefOf p.objects (IsInCellsOf (grain_of p.edition) area.now))
        (λ found. Steps (length found))) meter.old.spent meter.new.spent) }
{
    // Where the box goes round the earth a cell may be read twice.
    let found = source.nodes_in(area, meter.room().saturating_mul(2))?;
    meter.charge(found.read)?;
    Ok(picked(alloc, &found.nodes, kind)?)
}

/// The references of a set that are of a kind, or all of them.
fn picked(alloc: Global, names: &RefSet, kind: Option<Kind>) -> Result<RefSet, AllocError>
    ensures { IfOk result (λ refs. IsSetOf refs (λ r. Contains names.now r × IsKindOf kind r)) }
{
    let part = names.of_kinds(first_kind(kind), last_kind(kind));
    Ok(RefSet::from_rising(Vec::from_slice(alloc, part)?))
}
