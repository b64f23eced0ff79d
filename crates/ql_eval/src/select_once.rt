//! Query statements that may have been asked before.

ghost use Rattle.std.specs.Prelude.{◌≡◌, ◌<◌, ℕ, IfErr, IfOk, List, OnOk};
ghost use Rattle.std.specs.List.{AllByRecursion};
ghost use Rattle.osm_model.specs.declared.reference.Ref.{Ref};
ghost use Rattle.osm_keys.specs.Publications.{IsPublication, Publication};
ghost use Rattle.ql_syntax.specs.LawfulQueries.{Allows};
ghost use Rattle.ql_syntax.specs.StatementViews.{filters_of};
ghost use Rattle.ref_sets.specs.Sets.{IsSetOf};
ghost use Rattle.ref_sets.specs.NamedSets.{lists_of};
ghost use Rattle.ql_meaning.specs.Values.{IsRefOf, IsSelected};
ghost use Rattle.ql_eval.specs.Absences.{IsAskedById};
ghost use Rattle.ql_eval.specs.Asks.{AskedBySelect};
ghost use Rattle.ql_eval.specs.Questions.{NeededBy};
ghost use Rattle.ql_eval.specs.Work.{HasNoClash, WorkOfSelect};
ghost use Rattle.ql_eval.specs.internal.Links.{AreAllThere};
ghost use Rattle.ql_eval.specs.internal.Giving.{AllGiven, AllSetsGiven};
ghost use Rattle.ql_eval.specs.internal.Metering.{IsBounded, IsSpent};
ghost use Rattle.ql_eval.specs.internal.Recalling.{AreAnswersGiven, AreAnswers};
ghost use Rattle.ql_eval.specs.internal.Truths.{EndsTruly};

use crate::fault::EvalFault;
use crate::meter::Meter;
use crate::reads::sets_read;
use crate::select::select;
use crate::select_memo::{AskedSelect, SelectMemo};
use crate::source::Source;
use ql_syntax::{Filter, Pick};
use ref_sets::{NamedSets, RefSet};
use std::alloc::Global;
use std::rc::Rc;

/// The objects of a kind that all filters keep, as a set. Where the query asked the same before, over the same named sets, it
/// is what was given then, no tree is asked, and its work is counted as it was then.
pub(crate) fn select_once<'s, 'q, W: Source>(
    alloc: Global,
    source: &mut W,
    meter: &mut Meter,
    memo: &mut SelectMemo<'s, 'q>,
    pick: Pick,
    filters: &'s [Filter<'q>],
    sets: &NamedSets<'_>,
) -> Result<Rc<RefSet>, EvalFault>
    requires asked { (r : Ref) → IsAskedById pick (filters_of filters.now) r
        → W.may_be_absent source.old r }
    requires named { AllSetsGiven (W.gave source.old) (lists_of sets.now.named.items) }
    requires recalled_named { AreAnswersGiven (W.gave source.old) memo.old.remembered.items }
    ensures later { W.later source.old source.new }
    ensures walked { OnOk result (W.walked source.old source.new) }
    ensures told { IfErr result (W.tells source.new) }
    ensures named { IfOk result (λ refs. AllGiven (W.gave source.new) refs.value) }
    ensures recalled_named { OnOk result (AreAnswersGiven (W.gave source.new) memo.new.remembered.items) }
    ensures answer { let env = lists_of sets.now.named.items in
        (p : Publication) → IsPublication p → W.under source.old p
        → AreAnswers p (W.used source.old) memo.old.remembered.items → AreAllThere p.objects env
        → AllByRecursion (Allows pick) (filters_of filters.now)
        → EndsTruly W.holds W.used W.under source.old source.new p
        (λ refs. IsSetOf refs.value
        (IsRefOf p.objects (IsSelected p.objects env pick (filters_of filters.now)))
        × AreAnswers p (W.used source.new) memo.new.remembered.items)
        (NeededBy p (AskedBySelect p env pick (filters_of filters.now))) result }
    ensures bounded { let env = lists_of sets.now.named.items in
        (p : Publication) → IsPublication p → W.under source.old p
        → AreAnswers p (W.used source.old) memo.old.remembered.items → AreAllThere p.objects env
        → AllByRecursion (Allows pick) (filters_of filters.now) → HasNoClash p (W.used source.new)
        → IsBounded (WorkOfSelect p env pick (filters_of filters.now))
        meter.old.spent meter.new.spent }
    ensures spent { OnOk result (let env = lists_of sets.now.named.items in
        (p : Publication) → IsPublication p → W.under source.old p
        → AreAnswers p (W.used source.old) memo.old.remembered.items → AreAllThere p.objects env
        → AllByRecursion (Allows pick) (filters_of filters.now) → HasNoClash p (W.used source.new)
        → IsSpent (WorkOfSelect p env pick (filters_of filters.now))
        meter.old.spent meter.new.spent) }
{
    if !memo.remembers() {
        let refs = select(alloc, source, meter, pick, filters, sets)?;
        return Ok(Rc::new(alloc, refs)?);
    }
    let asked = AskedSelect {
        pick,
        filters,
        reads: sets_read(alloc, filters, sets)?,
    };
    if let Some(one) = memo.recalled(&asked) {
        meter.charge_again(one.work)?;
        return Ok(one.found.clone()?);
    }
    let before = meter.spent;
    let refs = Rc::new(alloc, select(alloc, source, meter, pick, filters, sets)?)?;
    memo.remember(asked, refs.clone()?, before, meter.spent)?;
    Ok(refs)
}
