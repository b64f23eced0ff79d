//! The text of an answer, from the nodes of a source.

ghost use Rattle.std.specs.Prelude.{◌≡◌, ◌≢◌, ℕ, Err, IfErr, IfOk, List, None};
ghost use Rattle.tree_node.specs.Digests.{digest as digest_word};
ghost use Rattle.osm_forms.specs.Forms.{form_text};
ghost use Rattle.osm_keys.specs.Manifests.{manifest_bytes};
ghost use Rattle.osm_keys.specs.Publications.{IsPublication, Publication, root_of};
ghost use Rattle.osm_keys.specs.declared.manifest.Manifest.{Manifest};
ghost use Rattle.ql_eval.specs.Work.{IsNodeOf};
ghost use Rattle.ql_syntax.specs.Queries.{Reads};
ghost use Rattle.ql_syntax.specs.StatementViews.{statements_of};
ghost use Rattle.osm_prove.specs.Budgets.{IsWorkOf};
ghost use Rattle.outside_shelf.specs.SecondPreimages.{HaveSecondPreimage};
ghost use Rattle.osm_packs.specs.Querying.{IsRight, KeepsBudget};
ghost use Rattle.osm_packs.specs.internal.Faults.{IsOfNodes, fault_of_answer, fault_of_evaluation, fault_of_reason};

use crate::limits::Limits;
use crate::not_answered::NotAnswered;
use bumpalo::Bump;
use osm_forms::Form;
use outside_answer::{AnswerFault, answer_from};
use outside_shelf::{NodeSource, OutsideShelf, Refused};
use ql_eval::EvalFault;
use ql_syntax::Query;
use std::alloc::Global;
use tree_node::Digest;

/// The text that a query's objects have in the form, from the nodes of a source. Nothing that it gives is trusted.
pub(crate) fn answer_text<N: NodeSource + Drop>(
    alloc: Global,
    form: Form,
    root: &Digest,
    query: &Query<'_>,
    limits: Limits,
    source: N,
) -> Result<Vec<u8>, NotAnswered>
    ensures right { (p : Publication) (text : List ℕ) → Reads text (statements_of query.now)
        → IsPublication p → root.now.0 ≡ root_of p
        → IfOk result (λ found. IsRight p form text found.items) }
    ensures rooted { IfOk result
        (λ _. (found : Manifest) × (digest_word (manifest_bytes found) ≡ root.now.0)) }
    ensures budget { (p : Publication) (text : List ℕ) → Reads text (statements_of query.now)
        → IsPublication p → root.now.0 ≡ root_of p → ¬ HaveSecondPreimage (IsNodeOf p)
        → KeepsBudget (IsWorkOf (form_text form) p text) limits.work result }
    ensures limited { limits.work ≡ None → result ≢ Err NotAnswered.Work }
    ensures told { IfErr result IsOfNodes }
{
    let arena = Bump::new(alloc);
    let mut nodes = OutsideShelf::new(alloc, &arena, source, limits.bytes);
    let mut text = Vec::new(alloc);
    match answer_from(alloc, &mut nodes, query, root, form, limits.work, &mut text) {
        Ok(_) => Ok(text),
        Err(fault) => Err(fault_of_answer(fault)),
    }
}

/// What it is to the command that there is no answer.
fn fault_of_answer(fault: AnswerFault) -> NotAnswered
    ensures { result ≡ fault_of_answer fault }
{
    match fault {
        AnswerFault::Source(reason) => fault_of_reason(reason),
        AnswerFault::Evaluation(fault) => fault_of_evaluation(fault),
    }
}

/// What a node that isn't given is to the command.
fn fault_of_reason(reason: Refused) -> NotAnswered
    ensures { result ≡ fault_of_reason reason }
{
    match reason {
        Refused::Memory => NotAnswered::Memory,
        _ => NotAnswered::Node(reason),
    }
}

/// What a refused evaluation is to the command.
fn fault_of_evaluation(fault: EvalFault) -> NotAnswered
    ensures { result ≡ fault_of_evaluation fault }
{
    match fault {
        EvalFault::Memory => NotAnswered::Memory,
        EvalFault::Work => NotAnswered::Work,
        _ => NotAnswered::Evaluation(fault),
    }
}
