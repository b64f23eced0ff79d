//! Query statements, asked of a source.

ghost use Rattle.std.specs.Prelude.{◌≡◌, ◌<◌, ℕ, IfErr, IfOk, List, OnOk};
ghost use Rattle.std.specs.List.{AllByRecursion};
ghost use Rattle.std.specs.Option.{ForSome};
ghost use Rattle.osm_model.specs.declared.reference.Ref.{Ref};
ghost use Rattle.osm_keys.specs.Publications.{IsPublication, Publication};
ghost use Rattle.ql_syntax.specs.LawfulQueries.{Allows};
ghost use Rattle.ql_syntax.specs.StatementViews.{filters_of};
ghost use Rattle.ref_sets.specs.Sets.{IsSetOf};
ghost use Rattle.ref_sets.specs.NamedSets.{lists_of};
ghost use Rattle.ql_meaning.specs.Values.{IsRefOf, IsSelected};
ghost use Rattle.ql_plan.specs.Plans.{filters_in, never, rank_of};
ghost use Rattle.ql_eval.specs.Absences.{IsAskedById};
ghost use Rattle.ql_eval.specs.Asks.{AskedByPlan, AskedBySelect};
ghost use Rattle.ql_eval.specs.Questions.{NeededBy};
ghost use Rattle.ql_eval.specs.Work.{HasNoClash, WorkByPlan, WorkOfSelect};
ghost use Rattle.ql_eval.specs.internal.Links.{AreAllThere};
ghost use Rattle.ql_eval.specs.internal.Giving.{AllGiven, AllSetsGiven};
ghost use Rattle.ql_eval.specs.internal.Metering.{IsBounded, IsSpent};
ghost use Rattle.ql_eval.specs.internal.Truths.{EndsTruly};

use crate::apply_filters::apply_filters;
use crate::candidates::find_candidates;
use crate::choose_plan::choose_plan;
use crate::fault::EvalFault;
use crate::kinds::kind_of;
use crate::meter::Meter;
use crate::reads::charge_filters;
use crate::source::Source;
use ql_plan::Plan;
use ql_syntax::{Filter, Pick};
use ref_sets::{NamedSets, RefSet};
use std::alloc::Global;

/// The objects of a kind that all filters keep, as a set: what the base of the plan finds, of which the other filters
/// are tested.
pub(crate) fn select<W: Source>(
    alloc: Global,
    source: &mut W,
    meter: &mut Meter,
    pick: Pick,
    filters: &[Filter<'_>],
    sets: &NamedSets<'_>,
) -> Result<RefSet, EvalFault>
    requires asked { (r : Ref) → IsAskedById pick (filters_of filters.now) r
        → W.may_be_absent source.old r }
    requires named { AllSetsGiven (W.gave source.old) (lists_of sets.now.named.items) }
    ensures later { W.later source.old source.new }
    ensures walked { OnOk result (W.walked source.old source.new) }
    ensures told { IfErr result (W.tells source.new) }
    ensures named { IfOk result (AllGiven (W.gave source.new)) }
    ensures answer { let env = lists_of sets.now.named.items in
        (p : Publication) → IsPublication p → W.under source.old p → AreAllThere p.objects env
        → AllByRecursion (Allows pick) (filters_of filters.now)
        → EndsTruly W.holds W.used W.under source.old source.new p
        (λ refs. IsSetOf refs
        (IsRefOf p.objects (IsSelected p.objects env pick (filters_of filters.now))))
        (NeededBy p (AskedBySelect p env pick (filters_of filters.now))) result }
    ensures bounded { let env = lists_of sets.now.named.items in
        (p : Publication) → IsPublication p → W.under source.old p → AreAllThere p.objects env
        → AllByRecursion (Allows pick) (filters_of filters.now) → HasNoClash p (W.used source.new)
        → IsBounded (WorkOfSelect p env pick (filters_of filters.now))
        meter.old.spent meter.new.spent }
    ensures spent { OnOk result (let env = lists_of sets.now.named.items in
        (p : Publication) → IsPublication p → W.under source.old p → AreAllThere p.objects env
        → AllByRecursion (Allows pick) (filters_of filters.now) → HasNoClash p (W.used source.new)
        → IsSpent (WorkOfSelect p env pick (filters_of filters.now))
        meter.old.spent meter.new.spent) }
{
    charge_filters(meter, filters, sets)?;
    let plan = choose_plan(alloc, source, kind_of(pick), filters)?;
    answered(alloc, source, meter, pick, &plan, sets)
}

/// The same by a plan.
fn answered<W: Source>(
    alloc: Global,
    source: &mut W,
    meter: &mut Meter,
    pick: Pick,
    plan: &Plan<'_, '_>,
    sets: &NamedSets<'_>,
) -> Result<RefSet, EvalFault>
    requires base { ForSome plan.now.base (λ base. rank_of base < never) }
    requires asked { (r : Ref) → IsAskedById pick (filters_in plan.now) r
        → W.may_be_absent source.old r }
    requires named { AllSetsGiven (W.gave source.old) (lists_of sets.now.named.items) }
    ensures later { W.later source.old source.new }
    ensures walked { OnOk result (W.walked source.old source.new) }
    ensures told { IfErr result (W.tells source.new) }
    ensures named { IfOk result (AllGiven (W.gave source.new)) }
    ensures answer { let env = lists_of sets.now.named.items in
        (p : Publication) → IsPublication p → W.under source.old p → AreAllThere p.objects env
        → AllByRecursion (Allows pick) (filters_in plan.now)
        → EndsTruly W.holds W.used W.under source.old source.new p
        (λ refs. IsSetOf refs
        (IsRefOf p.objects (IsSelected p.objects env pick (filters_in plan.now))))
        (NeededBy p (AskedByPlan p env pick plan.now)) result }
    ensures bounded { let env = lists_of sets.now.named.items in
        (p : Publication) → IsPublication p → W.under source.old p → AreAllThere p.objects env
        → AllByRecursion (Allows pick) (filters_in plan.now) → HasNoClash p (W.used source.new)
        → IsBounded (WorkByPlan p env pick plan.now) meter.old.spent meter.new.spent }
    ensures spent { OnOk result (let env = lists_of sets.now.named.items in
        (p : Publication) → IsPublication p → W.under source.old p → AreAllThere p.objects env
        → AllByRecursion (Allows pick) (filters_in plan.now) → HasNoClash p (W.used source.new)
        → IsSpent (WorkByPlan p env pick plan.now) meter.old.spent meter.new.spent) }
{
    let found = find_candidates(alloc, source, meter, pick, plan.base(), sets)?;
    let front = plan.before();
    let back = plan.after();
    meter.charge_each(found.as_slice().len(), front.len(), back.len())?;
    apply_filters(alloc, source, found, front, back, sets)
}
