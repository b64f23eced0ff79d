//! An answer, as a mirror makes it of nodes that a shelf gives.

ghost use Rattle.std.specs.Prelude.{◌≡◌, ◌≢◌, Err, IfErr, IfOk, None, OnOk};
ghost use Rattle.tree_node.specs.Digests.{digest as digest_word};
ghost use Rattle.osm_forms.specs.Forms.{form_text};
ghost use Rattle.osm_forms.specs.declared.form.Form.TheVariants.{Opl};
ghost use Rattle.osm_keys.specs.Manifests.{manifest_bytes};
ghost use Rattle.osm_keys.specs.Publications.{IsPublication, Publication, root_of};
ghost use Rattle.osm_keys.specs.declared.manifest.Manifest.{Manifest};
ghost use Rattle.ql_syntax.specs.StatementViews.{statements_of};
ghost use Rattle.ql_meaning.specs.Meanings.{Means};
ghost use Rattle.ql_eval.specs.Work.{HasNoClash, WorkOfQuery};
ghost use Rattle.outside_proof.specs.Budgets.{KeepsBudget};
ghost use Rattle.outside_proof.specs.Faults.{IsFromOutside, IsNamed};

use crate::evaluation::{evaluate_over, refusal};
use crate::fault::OutsideFault;
use outside_shelf::ProofShelf;
use ql_syntax::Query;
use std::alloc::Global;
use tree_node::Digest;

/// The answer to a query under a root within a budget, from what a shelf gives, as [`prove_over`](crate::prove_over) gives it,
/// without the proof. The answer is OPL. Nothing is assumed of what the shelf has given before.
///
/// # Errors
///
/// As of [`prove_over`](crate::prove_over), but never `TooLong`.
pub fn answer_over<'a, S: ProofShelf<'a>>(
    alloc: Global,
    shelf: &mut S,
    query: &Query<'_>,
    root: &Digest,
    most: Option<u64>,
) -> Result<Vec<u8>, OutsideFault>
    // Under the root of any publication: what is given is the query's meaning over its set, unless a node of the publication
    // and a different one that the shelf used have one digest.
    ensures means { (p : Publication) → IsPublication p → root.now.0 ≡ root_of p
        → HasNoClash p (S.used shelf.new)
        → IfOk result (λ answer. Means p.objects (statements_of query.now) answer.items) }
    // Whatever the root is of, it is the digest of a manifest where there is an answer.
    ensures rooted { OnOk result
        ((found : Manifest) × (digest_word (manifest_bytes found) ≡ root.now.0)) }
    // Under the root of a publication it is refused for memory, for the budget or for a node that wasn't given alone.
    ensures only { (p : Publication) → IsPublication p → root.now.0 ≡ root_of p
        → HasNoClash p (S.used shelf.new)
        → IfErr result IsFromOutside }
    // Whatever the root is of, a source's reason isn't memory, and a fault of the nodes is one.
    ensures named { IfErr result IsNamed }
    ensures short { result ≢ Err OutsideFault.TooLong }
    // Without a budget no work is too much.
    ensures limited { most ≡ None → result ≢ Err OutsideFault.Work }
    // It is answered only where its work is within the budget, and refused for the budget only where it is too much.
    ensures budget { (p : Publication) → IsPublication p → root.now.0 ≡ root_of p
        → HasNoClash p (S.used shelf.new)
        → KeepsBudget (WorkOfQuery (form_text Opl) p (statements_of query.now)) most result }
{
    match evaluate_over(alloc, query, root, shelf, most) {
        Ok(answer) => Ok(answer),
        Err(fault) => Err(refusal(fault, shelf.reason())),
    }
}
