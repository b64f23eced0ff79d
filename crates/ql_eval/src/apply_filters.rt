//! Of candidates those that the left-over filters keep.

ghost use Rattle.std.specs.Prelude.{◌++◌, IfErr, IfOk, OnOk};
ghost use Rattle.std.specs.List.{Contains};
ghost use Rattle.osm_keys.specs.Publications.{IsPublication, Publication};
ghost use Rattle.ql_syntax.specs.StatementViews.{filters_of};
ghost use Rattle.ref_sets.specs.Adding.{From};
ghost use Rattle.ref_sets.specs.Sets.{IsSetOf};
ghost use Rattle.ref_sets.specs.NamedSets.{lists_of};
ghost use Rattle.ql_eval.specs.Asks.{AskedByRest};
ghost use Rattle.ql_eval.specs.Questions.{NeededBy};
ghost use Rattle.ql_eval.specs.internal.Links.{AreAllThere, AreThere};
ghost use Rattle.ql_eval.specs.internal.Selecting.{IsKeptBy, IsTestAsk};
ghost use Rattle.ql_eval.specs.internal.Narrowing.{IsNamedByAll};
ghost use Rattle.ql_eval.specs.internal.Giving.{AllGiven, AllSetsGiven};
ghost use Rattle.ql_eval.specs.internal.Truths.{EndsTruly};

use crate::fault::EvalFault;
use crate::filter_by_object::filter_by_object;
use crate::filter_by_reference::filter_by_reference;
use crate::source::Source;
use ql_syntax::Filter;
use ref_sets::{NamedSets, RefSet};
use std::alloc::Global;

/// Of candidates those that the filters keep which are written before and after the base. With any filter each
/// candidate's object is read once, and each path down asks for the objects of its set, whatever the candidates are.
/// Without filters nothing is asked, and all candidates stay. `Absent` where a candidate isn't there.
pub(crate) fn apply_filters<W: Source>(
    alloc: Global,
    source: &mut W,
    candidates: RefSet,
    before: &[Filter<'_>],
    after: &[Filter<'_>],
    sets: &NamedSets<'_>,
) -> Result<RefSet, EvalFault>
    requires named { AllGiven (W.gave source.old) candidates }
    requires sets_named { AllSetsGiven (W.gave source.old) (lists_of sets.now.named.items) }
    ensures later { W.later source.old source.new }
    ensures walked { OnOk result (W.walked source.old source.new) }
    ensures told { IfErr result (W.tells source.new) }
    ensures named { IfOk result (AllGiven (W.gave source.new)) }
    ensures answer { let env = lists_of sets.now.named.items in
        let filters = filters_of before.now ++ filters_of after.now in
        (p : Publication) → IsPublication p → W.under source.old p
        → AreThere p.objects candidates → AreAllThere p.objects env
        → EndsTruly W.holds W.used W.under source.old source.new p
        (λ refs. IsSetOf refs
        (λ r. Contains candidates r × IsKeptBy p.objects env filters r))
        (NeededBy p (IsTestAsk p env filters candidates)) result }
{
    if before.is_empty() && after.is_empty() {
        // For the proof alone: a set rises.
        let _ = candidates.as_slice();
        return Ok(candidates);
    }
    let refs = filter_by_object(alloc, source, &candidates, before, after, sets)?;
    filter_by_both(alloc, source, refs, before, after, sets)
}

/// Of some references those that the filters before and after a base name.
fn filter_by_both<W: Source>(
    alloc: Global,
    source: &mut W,
    refs: RefSet,
    before: &[Filter<'_>],
    after: &[Filter<'_>],
    sets: &NamedSets<'_>,
) -> Result<RefSet, EvalFault>
    requires named { AllGiven (W.gave source.old) refs }
    requires sets_named { AllSetsGiven (W.gave source.old) (lists_of sets.now.named.items) }
    ensures later { W.later source.old source.new }
    ensures walked { OnOk result (W.walked source.old source.new) }
    ensures told { IfErr result (W.tells source.new) }
    ensures named { IfOk result (AllGiven (W.gave source.new)) }
    ensures answer { let env = lists_of sets.now.named.items in
        let filters = filters_of before.now ++ filters_of after.now in
        (p : Publication) → IsPublication p → W.under source.old p → AreAllThere p.objects env
        → EndsTruly W.holds W.used W.under source.old source.new p
        (λ left. IsSetOf left
        (λ r. Contains refs r × IsNamedByAll p.objects env filters r))
        (NeededBy p (From filters (AskedByRest p env))) result }
{
    let left = filter_by_reference(alloc, source, refs, before, sets)?;
    filter_by_reference(alloc, source, left, after, sets)
}
