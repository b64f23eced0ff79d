//! Queries, evaluated over nodes that a shelf gives.

ghost use Rattle.std.specs.Prelude.{◌≡◌, ◌≢◌, Err, IfErr, IfOk, None, OnOk};
ghost use Rattle.tree_node.specs.Digests.{digest as digest_word};
ghost use Rattle.tree_node.specs.Outcomes.{GrownByAll, RefusedFor};
ghost use Rattle.osm_forms.specs.Forms.{form_text};
ghost use Rattle.osm_forms.specs.declared.form.Form.TheVariants.{Opl};
ghost use Rattle.osm_keys.specs.Manifests.{manifest_bytes};
ghost use Rattle.osm_keys.specs.Publications.{IsPublication, Publication, root_of};
ghost use Rattle.osm_keys.specs.declared.manifest.Manifest.{Manifest};
ghost use Rattle.ql_syntax.specs.StatementViews.{statements_of};
ghost use Rattle.ql_meaning.specs.Meanings.{Means};
ghost use Rattle.ql_eval.specs.Asks.{IsNeeded};
ghost use Rattle.ql_eval.specs.Faults.{cause_of_evaluation};
ghost use Rattle.ql_eval.specs.Work.{HasNoClash, WorkOfQuery};
ghost use Rattle.osm_prove.specs.Budgets.{IsTooMuch, IsWithinBudget};
ghost use Rattle.outside_proof.specs.Faults.{fault_told, source_told};

use crate::fault::OutsideFault;
use osm_forms::Form;
use outside_shelf::Refused;
use ql_eval::{EvalFault, ManifestFault, evaluate_within};
use ql_syntax::Query;
use std::alloc::Global;
use tree_node::{Digest, Shelf};
use tree_walk::WalkFault;

/// The answer to a query under a root within a budget, from what a shelf holds. The shelf then has the nodes that the query
/// needs as used too.
pub(crate) fn evaluate_over<'a, S: Shelf<'a>>(
    alloc: Global,
    query: &Query<'_>,
    root: &Digest,
    shelf: &mut S,
    most: Option<u64>,
) -> Result<Vec<u8>, EvalFault>
    ensures means { (p : Publication) → IsPublication p → root.now.0 ≡ root_of p
        → HasNoClash p (S.used shelf.new)
        → IfOk result (λ answer. Means p.objects (statements_of query.now) answer.items) }
    ensures needed { (p : Publication) → IsPublication p → root.now.0 ≡ root_of p
        → HasNoClash p (S.used shelf.new)
        → OnOk result
        (GrownByAll (S.used shelf.old) (S.used shelf.new) (IsNeeded p (statements_of query.now))) }
    ensures rooted { OnOk result
        ((found : Manifest) × (digest_word (manifest_bytes found) ≡ root.now.0)) }
    ensures only { (p : Publication) → IsPublication p → root.now.0 ≡ root_of p
        → HasNoClash p (S.used shelf.new)
        → IfErr result
        (λ fault. RefusedFor (IsNeeded p (statements_of query.now)) (S.holds shelf.new)
        (cause_of_evaluation fault)) }
    ensures limited { most ≡ None → result ≢ Err EvalFault.Work }
    ensures within { (p : Publication) → IsPublication p → root.now.0 ≡ root_of p
        → HasNoClash p (S.used shelf.new)
        → OnOk result
        (IsWithinBudget (WorkOfQuery (form_text Opl) p (statements_of query.now)) most) }
    ensures too_much { (p : Publication) → IsPublication p → root.now.0 ≡ root_of p
        → HasNoClash p (S.used shelf.new)
        → result ≡ Err EvalFault.Work
        → IsTooMuch (WorkOfQuery (form_text Opl) p (statements_of query.now)) most }
{
    let mut answer = Vec::new(alloc);
    match evaluate_within(alloc, Form::Opl, query, root, shelf, &mut answer, most) {
        Ok(_) => Ok(answer),
        Err(fault) => Err(fault),
    }
}

/// Why there is no answer: too much work, no memory, why the shelf gave no node, or else what the evaluation refused.
pub(crate) fn refusal(fault: EvalFault, reason: Option<Refused>) -> OutsideFault
    ensures { result ≡ fault_told fault reason }
{
    match fault {
        EvalFault::Work => OutsideFault::Work,
        EvalFault::Memory => OutsideFault::Memory,
        EvalFault::Walk(WalkFault::Memory) => OutsideFault::Memory,
        EvalFault::Walk(WalkFault::Missing) => source_refusal(reason),
        EvalFault::Manifest(ManifestFault::Memory) => OutsideFault::Memory,
        EvalFault::Manifest(ManifestFault::Missing) => source_refusal(reason),
        other => OutsideFault::Evaluation(other),
    }
}

/// Why the shelf gave no node. It has told a reason where it gave none to the evaluation; without one the node
/// counts as absent.
fn source_refusal(reason: Option<Refused>) -> OutsideFault
    ensures { result ≡ source_told reason }
{
    match reason {
        Some(Refused::Memory) => OutsideFault::Memory,
        Some(reason) => OutsideFault::Source(reason),
        None => OutsideFault::Source(Refused::Absent),
    }
}
