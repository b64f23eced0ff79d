//! What a scan would read, counted where it is more than a budget allows.

ghost use Rattle.std.specs.Prelude.{◌≡◌, ℕ, IfErr, OnOk, Some, ⊤};
ghost use Rattle.std.specs.Option.{ForSome, option_map};
ghost use Rattle.osm_keys.specs.Publications.{IsPublication, Publication};
ghost use Rattle.ql_syntax.specs.LawfulQueries.{Allows};
ghost use Rattle.ql_syntax.specs.StatementViews.{filter_of};
ghost use Rattle.ref_sets.specs.Adding.{From};
ghost use Rattle.ref_sets.specs.NamedSets.{Env};
ghost use Rattle.ql_eval.specs.Asks.{AskedByBase, kind_picked, kinds_of};
ghost use Rattle.ql_eval.specs.Faults.{cause_of_evaluation};
ghost use Rattle.ql_eval.specs.Questions.{NeededBy};
ghost use Rattle.ql_eval.specs.Work.{HasNoClash};
ghost use Rattle.ql_eval.specs.internal.Affording.{IsPartOf, IsWithinSet, Within, WorkOfFinding};
ghost use Rattle.ql_eval.specs.internal.Candidates.{IsKindAsk, IsOfThisKind};
ghost use Rattle.ql_eval.specs.internal.Metering.{IsBounded};
ghost use Rattle.tree_walk.specs.Uses.{nodes_around};

use crate::fault::EvalFault;
use crate::kinds::{kind_of, kinds_in};
use crate::meter::Meter;
use crate::question::Question;
use crate::source::Source;
use osm_model::Kind;
use ql_syntax::{Filter, Pick};

/// For a base whose reading was refused as memory is, with what was counted before it: refused so again where there is a
/// budget, and the entries alone that the base reads pass it. They are counted then, by walks that use only nodes that
/// reading them uses too. Otherwise memory did run out.
pub(crate) fn afford_base<W: Source>(
    source: &mut W,
    meter: &mut Meter,
    before: u128,
    pick: Pick,
    base: Option<&Filter<'_>>,
) -> Result<(), EvalFault>
    ensures later { W.later source.old source.new }
    ensures told { IfErr result (W.tells source.new) }
    ensures answer { let filter = option_map (λ f. filter_of f.now) base.entry in
        (p : Publication) (env : Env) → IsPublication p → W.reads source.old p
        → ForSome filter (Allows pick)
        → Within cause_of_evaluation (λ _. ⊤)
        (NeededBy p (AskedByBase p env (kind_picked pick) filter))
        (nodes_around W.holds W.used source.old source.new) result }
    ensures bounded { let filter = option_map (λ f. filter_of f.now) base.entry in
        (p : Publication) (env : Env) → IsPublication p → W.reads source.old p
        → ForSome filter (Allows pick) → HasNoClash p (W.used source.new)
        → IsBounded (WorkOfFinding p env pick filter) before meter.old.spent
        → IsBounded (WorkOfFinding p env pick filter) before meter.new.spent }
{
    // (where what was read was counted and passes it, that tells why)
    if !meter.is_limited() || meter.is_passed() {
        return Ok(());
    }
    let number = count_base(source, pick, base)?;
    meter.spent = before;
    Ok(meter.afford(number)?)
}

/// The number of entries that the base of a query statement reads, or of all objects of its kinds where there is none. None are
/// counted of a base that asks for single objects or follows links.
fn count_base<W: Source>(
    source: &mut W,
    pick: Pick,
    base: Option<&Filter<'_>>,
) -> Result<u64, EvalFault>
    ensures later { W.later source.old source.new }
    ensures walked { OnOk result (W.walked source.old source.new) }
    ensures told { IfErr result (W.tells source.new) }
    ensures answer { let filter = option_map (λ f. filter_of f.now) base.entry in
        (p : Publication) (env : Env) → IsPublication p → W.reads source.old p
        → ForSome filter (Allows pick)
        → Within cause_of_evaluation (IsPartOf (WorkOfFinding p env pick filter))
        (NeededBy p (AskedByBase p env (kind_picked pick) filter))
        (nodes_around W.holds W.used source.old source.new) result }
{
    match base {
        None => count_kinds(source, kind_of(pick)),
        Some(filter) => count_kept(source, pick, filter),
    }
}

/// The number of objects of a kind, or of all.
fn count_kinds<W: Source>(source: &mut W, kind: Option<Kind>) -> Result<u64, EvalFault>
    ensures later { W.later source.old source.new }
    ensures walked { OnOk result (W.walked source.old source.new) }
    ensures told { IfErr result (W.tells source.new) }
    ensures answer { (p : Publication) → IsPublication p → W.reads source.old p
        → Within cause_of_evaluation
        (IsWithinSet (From (kinds_of kind) (IsOfThisKind p.objects)))
        (NeededBy p (From (kinds_of kind) IsKindAsk))
        (nodes_around W.holds W.used source.old source.new) result }
{
    let mut number = 0u64;
    for one in kinds_in(kind) {
        let more = source.count(&Question::OfKind(*one))?;
        number = number.saturating_add(more);
    }
    Ok(number)
}

/// The number of entries that a filter reads as a base.
fn count_kept<W: Source>(source: &mut W, pick: Pick, filter: &Filter<'_>) -> Result<u64, EvalFault>
    ensures later { W.later source.old source.new }
    ensures walked { OnOk result (W.walked source.old source.new) }
    ensures told { IfErr result (W.tells source.new) }
    ensures answer { let base = Some (filter_of filter.now) in
        (p : Publication) (env : Env) → IsPublication p → W.reads source.old p
        → Allows pick (filter_of filter.now)
        → Within cause_of_evaluation (IsPartOf (WorkOfFinding p env pick base))
        (NeededBy p (AskedByBase p env (kind_picked pick) base))
        (nodes_around W.holds W.used source.old source.new) result }
{
    match filter {
        Filter::KeyIs(key, value) => source.count(&Question::WithTag(
            key.as_bytes(),
            value.as_bytes(),
            kind_of(pick),
        )),
        Filter::HasKey(key) => source.count(&Question::WithKey(key.as_bytes())),
        Filter::Within(area) => source.count_in(area),
        _ => Ok(0),
    }
}
