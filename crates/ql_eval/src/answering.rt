//! The statements of a query, one after the other.

ghost use Rattle.std.specs.Prelude.{◌≡◌, ℕ, IfErr, List, OnOk};
ghost use Rattle.osm_model.specs.declared.reference.Ref.{Ref};
ghost use Rattle.osm_keys.specs.Publications.{IsPublication, Publication};
ghost use Rattle.ql_syntax.specs.LawfulQueries.{IsQuery, IsTop};
ghost use Rattle.ql_syntax.specs.StatementViews.{statement_of, statements_of};
ghost use Rattle.osm_forms.specs.Forms.{form_text};
ghost use Rattle.ql_meaning.specs.Meanings.{After, Means_by, told_by};
ghost use Rattle.ref_sets.specs.NamedSets.{nothing_named, lists_of};
ghost use Rattle.ql_eval.specs.Absences.{HasIdOf, HaveIdOf};
ghost use Rattle.ql_eval.specs.Asks.{AskedBy, AskedByAll};
ghost use Rattle.ql_eval.specs.Questions.{NeededBy};
ghost use Rattle.ql_eval.specs.Work.{HasNoClash, WorkOf, WorkOfQuery};
ghost use Rattle.ql_eval.specs.Written.{HasWritten};
ghost use Rattle.ql_eval.specs.internal.Links.{AreAllThere};
ghost use Rattle.ql_eval.specs.internal.Giving.{AllSetsGiven};
ghost use Rattle.ql_eval.specs.internal.Metering.{IsBounded, IsSpent, WorkOfLast};
ghost use Rattle.ql_eval.specs.internal.Recalling.{AreAnswersGiven, AreAnswers};
ghost use Rattle.ql_eval.specs.internal.Truths.{EndsTruly};

use crate::fault::EvalFault;
use crate::meter::Meter;
use crate::print::print;
use crate::repetition::may_repeat;
use crate::run::run;
use crate::select_memo::SelectMemo;
use crate::sink::Sink;
use crate::source::Source;
use crate::written::written_by;
use osm_forms::Form;
use ql_syntax::Stmt;
use ref_sets::NamedSets;
use std::alloc::Global;

/// Runs the statements of a query, and writes what they print in a form. No set is named at first.
pub(crate) fn answer_all<'q, W: Source, T: Sink>(
    alloc: Global,
    form: Form,
    statements: &[Stmt<'q>],
    source: &mut W,
    meter: &mut Meter,
    sink: &mut T,
) -> Result<(), EvalFault>
    requires { (r : Ref) → HaveIdOf (statements_of statements.now) r → W.may_be_absent source.old r }
    ensures later { W.later source.old source.new }
    ensures walked { OnOk result (W.walked source.old source.new) }
    ensures told { IfErr result (W.tells source.new) }
    ensures kept { T.kept sink.new ≡ T.kept sink.old }
    ensures wrote { (text : List ℕ) × HasWritten (T.stands sink.old) (T.stands sink.new) text }
    ensures answer { (p : Publication) → IsPublication p → W.under source.old p
        → IsQuery (statements_of statements.now)
        → EndsTruly W.holds W.used W.under source.old source.new p
        (λ _. (text : List ℕ)
        × Means_by (form_text form) p.objects (statements_of statements.now) text
        × HasWritten (T.stands sink.old) (T.stands sink.new) text)
        (NeededBy p (AskedByAll p (statements_of statements.now) nothing_named)) result }
    ensures bounded { (p : Publication) → IsPublication p → W.under source.old p
        → IsQuery (statements_of statements.now) → HasNoClash p (W.used source.new)
        → IsBounded (WorkOfQuery (form_text form) p (statements_of statements.now))
        meter.old.spent meter.new.spent }
    ensures spent { OnOk result ((p : Publication) → IsPublication p → W.under source.old p
        → IsQuery (statements_of statements.now) → HasNoClash p (W.used source.new)
        → IsSpent (WorkOfQuery (form_text form) p (statements_of statements.now))
        meter.old.spent meter.new.spent) }
{
    let mut sets = NamedSets::new(alloc);
    let mut memo = SelectMemo::new(alloc, may_repeat(statements));
    for statement in statements {
        answer_statement(
            alloc, form, statement, &mut sets, source, meter, &mut memo, sink,
        )?;
        meter.charge_run(written_by(statement, &sets))?;
    }
    Ok(())
}

/// Runs a statement, and writes what it prints.
fn answer_statement<'s, 'q, W: Source, T: Sink>(
    alloc: Global,
    form: Form,
    statement: &'s Stmt<'q>,
    sets: &mut NamedSets<'q>,
    source: &mut W,
    meter: &mut Meter,
    memo: &mut SelectMemo<'s, 'q>,
    sink: &mut T,
) -> Result<(), EvalFault>
    requires asked { (r : Ref) → HasIdOf (statement_of statement.now) r → W.may_be_absent source.old r }
    requires named { AllSetsGiven (W.gave source.old) (lists_of sets.old.named.items) }
    requires recalled_named { AreAnswersGiven (W.gave source.old) memo.old.remembered.items }
    ensures later { W.later source.old source.new }
    ensures walked { OnOk result (W.walked source.old source.new) }
    ensures told { IfErr result (W.tells source.new) }
    ensures named { OnOk result (AllSetsGiven (W.gave source.new) (lists_of sets.new.named.items)) }
    ensures recalled_named { OnOk result (AreAnswersGiven (W.gave source.new) memo.new.remembered.items) }
    ensures kept { T.kept sink.new ≡ T.kept sink.old }
    ensures wrote { (text : List ℕ) × HasWritten (T.stands sink.old) (T.stands sink.new) text }
    ensures answer { let env = lists_of sets.old.named.items in
        let next = lists_of sets.new.named.items in
        (p : Publication) → IsPublication p → W.under source.old p
        → AreAnswers p (W.used source.old) memo.old.remembered.items
        → AreAllThere p.objects env → IsTop (statement_of statement.now)
        → EndsTruly W.holds W.used W.under source.old source.new p
        (λ _. After p.objects (statement_of statement.now) env next
        × HasWritten (T.stands sink.old) (T.stands sink.new)
        (told_by (form_text form) p.objects (statement_of statement.now) env)
        × AreAnswers p (W.used source.new) memo.new.remembered.items)
        (NeededBy p (AskedBy p (statement_of statement.now) env)) result }
    ensures in_row { let env = lists_of sets.old.named.items in
        (p : Publication) → IsPublication p → W.under source.old p
        → AreAnswers p (W.used source.old) memo.old.remembered.items
        → AreAllThere p.objects env → IsTop (statement_of statement.now)
        → HasNoClash p (W.used source.new)
        → IsBounded (WorkOfLast (form_text form) p (statement_of statement.now) env) meter.old.spent meter.new.spent }
    ensures bounded { OnOk result (let env = lists_of sets.old.named.items in
        (p : Publication) → IsPublication p → W.under source.old p
        → AreAnswers p (W.used source.old) memo.old.remembered.items
        → AreAllThere p.objects env → IsTop (statement_of statement.now)
        → HasNoClash p (W.used source.new)
        → IsBounded (WorkOf (form_text form) p (statement_of statement.now) env) meter.old.spent meter.new.spent) }
    ensures spent { OnOk result (let env = lists_of sets.old.named.items in
        (p : Publication) → IsPublication p → W.under source.old p
        → AreAnswers p (W.used source.old) memo.old.remembered.items
        → AreAllThere p.objects env → IsTop (statement_of statement.now)
        → HasNoClash p (W.used source.new)
        → IsSpent (WorkOf (form_text form) p (statement_of statement.now) env) meter.old.spent meter.new.spent) }
{
    match statement {
        Stmt::Print(out) => print(
            alloc,
            form,
            source,
            meter,
            sets.get(out.from.as_bytes()),
            out.mode,
            out.limit,
            sink,
        ),
        _ => run(alloc, statement, sets, source, meter, memo),
    }
}
