//! Which plan of a query statement is taken.

ghost use Rattle.std.specs.Prelude.{◌≡◌, ◌+◌, ◌<◌, IfErr, IfOk, OnOk, filter, if◌then◌else◌, length};
ghost use Rattle.std.specs.Option.{ForSome};
ghost use Rattle.tree_node.specs.Outcomes.{Outcome};
ghost use Rattle.osm_keys.specs.Publications.{IsPublication, Publication};
ghost use Rattle.ql_syntax.specs.StatementViews.{filter_of, filters_of};
ghost use Rattle.ref_sets.specs.Adding.{From};
ghost use Rattle.ql_plan.specs.Plans.{filters_in, is_counted, never, rank_of};
ghost use Rattle.ql_eval.specs.Asks.{AreCounts, IsPlanned};
ghost use Rattle.ql_eval.specs.Faults.{cause_of_evaluation};
ghost use Rattle.ql_eval.specs.Questions.{NeededBy};
ghost use Rattle.ql_eval.specs.Asks.{AskedByChoice};
ghost use Rattle.ql_eval.specs.internal.Counting.{HasCounted, IsRivalAsk};
ghost use Rattle.ql_eval.specs.internal.Truths.{StaysTrue};
ghost use Rattle.tree_walk.specs.Uses.{nodes_around};

use crate::fault::EvalFault;
use crate::question::Question;
use crate::source::Source;
use osm_model::Kind;
use ql_plan::{Plan, plan};
use ql_syntax::Filter;
use std::alloc::Global;

/// The plan of a query statement with these filters: where several of them could be the base, the one with the fewest
/// entries is, and these are counted. Without rivals nothing is asked, and no memory is taken.
pub(crate) fn choose_plan<'q, 's, W: Source>(
    alloc: Global,
    source: &mut W,
    kind: Option<Kind>,
    filters: &'s [Filter<'q>],
) -> Result<Plan<'q, 's>, EvalFault>
    ensures later { W.later source.old source.new }
    ensures walked { OnOk result (W.walked source.old source.new) }
    ensures told { IfErr result (W.tells source.new) }
    ensures truly { StaysTrue W.under source.old source.new }
    // Whatever the source tells, the plan has these filters, and its base is one that can be a base.
    ensures written { IfOk result (λ plan. (filters_in plan ≡ filters_of filters.now)
        × ForSome plan.base (λ base. rank_of base < never)) }
    ensures answer { (p : Publication) → IsPublication p → W.reads source.old p
        → Outcome cause_of_evaluation (IsPlanned p kind (filters_of filters.now))
        (NeededBy p (AskedByChoice kind (filters_of filters.now)))
        (nodes_around W.holds W.used source.old source.new) result }
{
    let plan = plan(filters);
    if !plan.has_rivals() {
        return Ok(plan);
    }
    let counts = counts_of(alloc, source, kind, filters)?;
    Ok(plan.choose(&counts))
}

/// The counts of the filters `[k=v]` and `[k]`, in their order.
fn counts_of<W: Source>(
    alloc: Global,
    source: &mut W,
    kind: Option<Kind>,
    filters: &[Filter<'_>],
) -> Result<Vec<u64>, EvalFault>
    ensures later { W.later source.old source.new }
    ensures walked { OnOk result (W.walked source.old source.new) }
    ensures told { IfErr result (W.tells source.new) }
    ensures truly { StaysTrue W.under source.old source.new }
    ensures many { IfOk result
        (λ counts. length counts.items ≡ length (filter is_counted (filters_of filters.now))) }
    ensures answer { (p : Publication) → IsPublication p → W.reads source.old p
        → Outcome cause_of_evaluation
        (λ counts. AreCounts p kind (filter is_counted (filters_of filters.now)) counts.items)
        (NeededBy p (From (filters_of filters.now) (IsRivalAsk kind)))
        (nodes_around W.holds W.used source.old source.new) result }
{
    let mut counts = Vec::new(alloc);
    for filter in filters {
        add_count(source, kind, filter, &mut counts)?;
    }
    Ok(counts)
}

/// Adds the number of entries of a filter `[k=v]` or `[k]`; other filters aren't counted.
fn add_count<W: Source>(
    source: &mut W,
    kind: Option<Kind>,
    filter: &Filter<'_>,
    counts: &mut Vec<u64>,
) -> Result<(), EvalFault>
    ensures later { W.later source.old source.new }
    ensures walked { OnOk result (W.walked source.old source.new) }
    ensures told { IfErr result (W.tells source.new) }
    ensures truly { StaysTrue W.under source.old source.new }
    ensures many { OnOk result
        (length counts.new.items ≡ length counts.old.items +
        (if is_counted (filter_of filter.now) then 1 else 0)) }
    ensures answer { (p : Publication) → IsPublication p → W.reads source.old p
        → Outcome cause_of_evaluation
        (λ _. HasCounted p kind (filter_of filter.now) counts.old.items counts.new.items)
        (NeededBy p (IsRivalAsk kind (filter_of filter.now)))
        (nodes_around W.holds W.used source.old source.new) result }
{
    match filter {
        Filter::KeyIs(key, value) => {
            let count = source.count(&Question::WithTag(key.as_bytes(), value.as_bytes(), kind))?;
            counts.push(count)?;
            Ok(())
        }
        Filter::HasKey(key) => {
            let count = source.count(&Question::WithKey(key.as_bytes()))?;
            counts.push(count)?;
            Ok(())
        }
        _ => Ok(()),
    }
}
