//! The answer to a query, over nodes that a shelf gives.

ghost use Rattle.std.specs.Prelude.{◌-◌, ◌^◌, ◌<◌, ◌≡◌, ◌≢◌, ◌⊎◌, ℕ, Err, IfOk, List, None, OnErr, length};
ghost use Rattle.tree_node.specs.Digests.{digest as digest_word};
ghost use Rattle.tree_node.specs.Outcomes.{Clash};
ghost use Rattle.osm_forms.specs.Forms.{form_text};
ghost use Rattle.osm_keys.specs.Manifests.{manifest_bytes};
ghost use Rattle.osm_keys.specs.Publications.{IsPublication, Publication, root_of};
ghost use Rattle.osm_keys.specs.declared.manifest.Manifest.{Manifest};
ghost use Rattle.ql_syntax.specs.StatementViews.{statements_of};
ghost use Rattle.ql_eval.specs.Asks.{IsNeeded};
ghost use Rattle.ql_eval.specs.Work.{HasNoClash, WorkOfQuery};
ghost use Rattle.ql_eval.specs.Written.{HasWrittenMeaning_by};
ghost use Rattle.outside_answer.specs.Answers.{KeepsBudget, fault_told};

use crate::fault::AnswerFault;
use osm_forms::Form;
use outside_shelf::{ProofShelf, Refused};
use ql_eval::{EvalFault, Report, Sink, evaluate_within};
use ql_syntax::Query;
use std::alloc::Global;
use tree_node::Digest;

/// Writes the answer to a query into a sink, in a form, from the nodes that a shelf gives under a root, with at most so much
/// work, as [`evaluate_within`] counts it. Of what the shelf gives nothing is assumed but what its type keeps: a node that it gives
/// has the digest that was asked. The shelf has these nodes as used from then on.
///
/// Refused with `Source` where the shelf gave no node that was asked for, by the reason that it told for the last one, and else
/// with `Evaluation`, by the fault of [`evaluate_within`], which is always so of too much work. A refusal leaves the text of the
/// sink as it was. It says nothing of the set, since another shelf may have the nodes.
pub fn answer_from<'a, S: ProofShelf<'a>, T: Sink>(
    alloc: Global,
    shelf: &mut S,
    query: &Query<'_>,
    root: &Digest,
    form: Form,
    most: Option<u64>,
    sink: &mut T,
) -> Result<Report, AnswerFault>
    // The sink tells its length, to which a refused answer is cut.
    requires { (text : List ℕ) → T.stands sink.old text → length text < 2 ^ 64 - 1 }
    ensures kept { T.kept sink.new ≡ T.kept sink.old }
    ensures refused { OnErr result
        ((text : List ℕ) → T.stands sink.old text → T.stands sink.new text) }
    // Under the root of any publication: what is written is the query's meaning over its set, in the form, unless a node that
    // the query needs and a different one that the shelf used have one digest.
    ensures right { (p : Publication) → IsPublication p → root.now.0 ≡ root_of p
        → IfOk result (λ _.
        HasWrittenMeaning_by (form_text form) p (statements_of query.now)
        (T.stands sink.old) (T.stands sink.new)
        ⊎ Clash (IsNeeded p (statements_of query.now)) (S.used shelf.new)) }
    // Whatever the root is of, it is the digest of a manifest where there is an answer.
    ensures rooted { IfOk result
        (λ _. (found : Manifest) × (digest_word (manifest_bytes found) ≡ root.now.0)) }
    // Without a budget no work is too much.
    ensures limited { most ≡ None → result ≢ Err (AnswerFault.Evaluation EvalFault.Work) }
    // Under the root of a publication there is an answer only where the query's work is within the budget, and its report has
    // it; and it is refused for the budget only where it is too much, with a like exception.
    ensures budget { (p : Publication) → IsPublication p → root.now.0 ≡ root_of p
        → HasNoClash p (S.used shelf.new)
        → KeepsBudget (WorkOfQuery (form_text form) p (statements_of query.now)) most result }
{
    match evaluate_within(alloc, form, query, root, shelf, sink, most) {
        Ok(report) => Ok(report),
        Err(fault) => Err(refusal(fault, shelf.reason())),
    }
}

/// Why there is no answer: too much work, or why the source gave no node, or else what the evaluation refused.
fn refusal(fault: EvalFault, reason: Option<Refused>) -> AnswerFault
    ensures { result ≡ fault_told fault reason }
{
    match (fault, reason) {
        (EvalFault::Work, _) => AnswerFault::Evaluation(EvalFault::Work),
        (_, Some(reason)) => AnswerFault::Source(reason),
        (fault, None) => AnswerFault::Evaluation(fault),
    }
}
