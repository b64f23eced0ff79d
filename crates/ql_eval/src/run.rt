//! Statements that write sets, asked of a source.

ghost use Rattle.std.specs.Prelude.{◌≡◌, ℕ, IfErr, IfOk, List, OnOk};
ghost use Rattle.osm_model.specs.declared.reference.Ref.{Ref};
ghost use Rattle.osm_keys.specs.Publications.{IsPublication, Publication};
ghost use Rattle.ql_syntax.specs.StatementViews.{statement_of, statements_of};
ghost use Rattle.ql_meaning.specs.Meanings.{After, AfterAll, Telling};
ghost use Rattle.ref_sets.specs.NamedSets.{lists_of};
ghost use Rattle.ql_eval.specs.Absences.{HasIdOf, HaveIdOf};
ghost use Rattle.ql_eval.specs.Asks.{AskedBy, AskedByAll};
ghost use Rattle.ql_eval.specs.Questions.{NeededBy};
ghost use Rattle.ql_eval.specs.Work.{HasNoClash, WorkOf, WorkOfAll};
ghost use Rattle.ql_eval.specs.internal.Lawful.{CanRun, CanRunAll};
ghost use Rattle.ql_eval.specs.internal.Links.{AreAllThere};
ghost use Rattle.ql_eval.specs.internal.Giving.{AllGiven, AllSetsGiven};
ghost use Rattle.ql_eval.specs.internal.Metering.{IsBounded, IsSpent, WorkOfLast};
ghost use Rattle.ql_eval.specs.internal.Recalling.{AreAnswersGiven, AreAnswers};
ghost use Rattle.ql_eval.specs.internal.Truths.{EndsTruly};

use crate::fault::EvalFault;
use crate::meter::Meter;
use crate::recursions::recurse_once;
use crate::select_memo::SelectMemo;
use crate::select_once::select_once;
use crate::source::Source;
use crate::written::{shared_by, written_by};
use osm_model::Ref;
use ql_syntax::Stmt;
use ref_sets::{NamedSets, RefSet};
use std::alloc::Global;

/// Runs a statement: the set that it writes is written. An out writes none. Refused for the budget once a part of its work
/// passes that, or of its set, which is counted by whoever runs it.
#[cycle(run)]
pub(crate) fn run<'s, 'q, W: Source>(
    alloc: Global,
    statement: &'s Stmt<'q>,
    sets: &mut NamedSets<'q>,
    source: &mut W,
    meter: &mut Meter,
    memo: &mut SelectMemo<'s, 'q>,
) -> Result<(), EvalFault>
    requires asked { (r : Ref) → HasIdOf (statement_of statement.now) r → W.may_be_absent source.old r }
    requires named { AllSetsGiven (W.gave source.old) (lists_of sets.old.named.items) }
    requires recalled_named { AreAnswersGiven (W.gave source.old) memo.old.remembered.items }
    ensures later { W.later source.old source.new }
    ensures walked { OnOk result (W.walked source.old source.new) }
    ensures told { IfErr result (W.tells source.new) }
    ensures named { OnOk result (AllSetsGiven (W.gave source.new) (lists_of sets.new.named.items)) }
    ensures recalled_named { OnOk result (AreAnswersGiven (W.gave source.new) memo.new.remembered.items) }
    ensures answer { let env = lists_of sets.old.named.items in
        let next = lists_of sets.new.named.items in
        (p : Publication) → IsPublication p → W.under source.old p
        → AreAnswers p (W.used source.old) memo.old.remembered.items → AreAllThere p.objects env
        → CanRun (statement_of statement.now)
        → EndsTruly W.holds W.used W.under source.old source.new p
        (λ _. After p.objects (statement_of statement.now) env next
        × AreAnswers p (W.used source.new) memo.new.remembered.items)
        (NeededBy p (AskedBy p (statement_of statement.now) env)) result }
    ensures in_row { let env = lists_of sets.old.named.items in
        (tell : Telling) (p : Publication) → IsPublication p → W.under source.old p
        → AreAnswers p (W.used source.old) memo.old.remembered.items → AreAllThere p.objects env
        → CanRun (statement_of statement.now) → HasNoClash p (W.used source.new)
        → IsBounded (WorkOfLast tell p (statement_of statement.now) env) meter.old.spent meter.new.spent }
    ensures bounded { OnOk result (let env = lists_of sets.old.named.items in
        (tell : Telling) (p : Publication) → IsPublication p → W.under source.old p
        → AreAnswers p (W.used source.old) memo.old.remembered.items → AreAllThere p.objects env
        → CanRun (statement_of statement.now) → HasNoClash p (W.used source.new)
        → IsBounded (WorkOf tell p (statement_of statement.now) env) meter.old.spent meter.new.spent) }
    ensures spent { OnOk result (let env = lists_of sets.old.named.items in
        (tell : Telling) (p : Publication) → IsPublication p → W.under source.old p
        → AreAnswers p (W.used source.old) memo.old.remembered.items → AreAllThere p.objects env
        → CanRun (statement_of statement.now) → HasNoClash p (W.used source.new)
        → IsSpent (WorkOf tell p (statement_of statement.now) env) meter.old.spent meter.new.spent) }
{
    match statement {
        Stmt::Select {
            kind,
            filters,
            into,
        } => {
            let refs = select_once(alloc, source, meter, memo, *kind, filters, sets)?;
            sets.write_shared(into.as_bytes(), refs)?;
            Ok(())
        }
        Stmt::Recurse { from, how, into } => {
            let set = sets.shared(from.as_bytes())?;
            meter.charge(set.as_slice().len())?;
            let refs = recurse_once(alloc, source, meter, *how, set)?;
            sets.write_shared(into.as_bytes(), refs)?;
            Ok(())
        }
        Stmt::Item { from, into } => {
            // One more owner of the same set: a copy would let a long query of these fill the memory.
            let refs = sets.shared(from.as_bytes())?;
            sets.write_shared(into.as_bytes(), refs)?;
            Ok(())
        }
        Stmt::Union { parts, into } => {
            note_all_asked(&*source, parts);
            let given = run_all(alloc, parts, sets, source, meter, memo)?;
            let refs = RefSet::from_runs(given)?;
            sets.write(into.as_bytes(), refs)?;
            Ok(())
        }
        Stmt::Minus { left, right, into } => {
            run(alloc, left, sets, source, meter, memo)?;
            let first = shared_by(alloc, left, sets)?;
            meter.charge_run(&first)?;
            run(alloc, right, sets, source, meter, memo)?;
            let second = written_by(right, sets);
            meter.charge_run(second)?;
            let refs = first.difference(alloc, second)?;
            sets.write(into.as_bytes(), refs)?;
            Ok(())
        }
        Stmt::Print(_) => Ok(()),
    }
}

/// Runs statements in order, and gives what they wrote, one after the other.
#[cycle(run)]
fn run_all<'s, 'q, W: Source>(
    alloc: Global,
    parts: &'s [Stmt<'q>],
    sets: &mut NamedSets<'q>,
    source: &mut W,
    meter: &mut Meter,
    memo: &mut SelectMemo<'s, 'q>,
) -> Result<Vec<Ref>, EvalFault>
    requires asked { (r : Ref) → HaveIdOf (statements_of parts.now) r → W.may_be_absent source.old r }
    requires named { AllSetsGiven (W.gave source.old) (lists_of sets.old.named.items) }
    requires recalled_named { AreAnswersGiven (W.gave source.old) memo.old.remembered.items }
    ensures later { W.later source.old source.new }
    ensures walked { OnOk result (W.walked source.old source.new) }
    ensures told { IfErr result (W.tells source.new) }
    ensures sets_named { OnOk result
        (AllSetsGiven (W.gave source.new) (lists_of sets.new.named.items)) }
    ensures named { IfOk result (λ given. AllGiven (W.gave source.new) given.items) }
    ensures recalled_named { OnOk result (AreAnswersGiven (W.gave source.new) memo.new.remembered.items) }
    ensures answer { let env = lists_of sets.old.named.items in
        let next = lists_of sets.new.named.items in
        (p : Publication) → IsPublication p → W.under source.old p
        → AreAnswers p (W.used source.old) memo.old.remembered.items → AreAllThere p.objects env
        → CanRunAll (statements_of parts.now)
        → EndsTruly W.holds W.used W.under source.old source.new p
        (λ given. AfterAll p.objects (statements_of parts.now) env next given.items
        × AreAnswers p (W.used source.new) memo.new.remembered.items)
        (NeededBy p (AskedByAll p (statements_of parts.now) env)) result }
    ensures bounded { let env = lists_of sets.old.named.items in
        (tell : Telling) (p : Publication) → IsPublication p → W.under source.old p
        → AreAnswers p (W.used source.old) memo.old.remembered.items → AreAllThere p.objects env
        → CanRunAll (statements_of parts.now) → HasNoClash p (W.used source.new)
        → IsBounded (WorkOfAll tell p (statements_of parts.now) env) meter.old.spent meter.new.spent }
    ensures spent { OnOk result (let env = lists_of sets.old.named.items in
        (tell : Telling) (p : Publication) → IsPublication p → W.under source.old p
        → AreAnswers p (W.used source.old) memo.old.remembered.items → AreAllThere p.objects env
        → CanRunAll (statements_of parts.now) → HasNoClash p (W.used source.new)
        → IsSpent (WorkOfAll tell p (statements_of parts.now) env) meter.old.spent meter.new.spent) }
{
    let mut given = Vec::new(alloc);
    for part in parts {
        note_asked(&*source, part);
        run(alloc, part, sets, source, meter, memo)?;
        let written = written_by(part, sets);
        meter.charge_run(written)?;
        given.extend_from_slice(written.as_slice())?;
    }
    Ok(given)
}

/// Does nothing at run time: at the recursive call after it, the prover finds what it requires.
fn note_asked<W: Source>(_source: &W, _statement: &Stmt<'_>)
    requires { (r : Ref) → HasIdOf (statement_of _statement.now) r → W.may_be_absent _source.now r }
    ensures { (r : Ref) → HasIdOf (statement_of _statement.now) r → W.may_be_absent _source.now r }
{}

/// The same for several statements.
fn note_all_asked<W: Source>(_source: &W, _statements: &[Stmt<'_>])
    requires { (r : Ref) → HaveIdOf (statements_of _statements.now) r → W.may_be_absent _source.now r }
    ensures { (r : Ref) → HaveIdOf (statements_of _statements.now) r → W.may_be_absent _source.now r }
{}
