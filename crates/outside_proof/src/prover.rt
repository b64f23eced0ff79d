//! An answer and its proof, as a mirror makes them of nodes that a shelf gives.

ghost use Rattle.std.specs.Prelude.{◌≡◌, ◌≢◌, Err, IfErr, IfOk, None, OnOk};
ghost use Rattle.tree_node.specs.Digests.{digest as digest_word};
ghost use Rattle.tree_node.specs.Shelves.{IsEmptySet};
ghost use Rattle.osm_forms.specs.Forms.{form_text};
ghost use Rattle.osm_forms.specs.declared.form.Form.TheVariants.{Opl};
ghost use Rattle.osm_keys.specs.Manifests.{manifest_bytes};
ghost use Rattle.osm_keys.specs.Publications.{IsPublication, Publication, root_of};
ghost use Rattle.osm_keys.specs.declared.manifest.Manifest.{Manifest};
ghost use Rattle.ql_syntax.specs.StatementViews.{statements_of};
ghost use Rattle.ql_meaning.specs.Meanings.{Means};
ghost use Rattle.ql_eval.specs.Work.{HasNoClash, WorkOfQuery};
ghost use Rattle.osm_prove.specs.Proved.{IsProofOf};
ghost use Rattle.outside_proof.specs.Budgets.{KeepsBudget};
ghost use Rattle.outside_proof.specs.Listings.{ListsRising};
ghost use Rattle.outside_proof.specs.Faults.{IsFromOutside, IsNamed};

use crate::evaluation::{evaluate_over, refusal};
use crate::fault::OutsideFault;
use crate::listing::list_parts;
use outside_shelf::ProofShelf;
use ql_syntax::Query;
use std::alloc::Global;
use tree_node::Digest;

/// The answer to a query, and the proof of it.
#[derive(Drop)]
pub struct AnswerAndProof {
    /// The answer, OPL.
    pub answer: Vec<u8>,
    /// The proof, which lists the nodes that the query needs by rising digest.
    pub proof: Vec<u8>,
}

/// The answer to a query under a root within a budget, and the proof by which a checker says yes to them, from what a shelf
/// gives. Nothing of the shelf may be used yet, since the proof lists all nodes that are used then, and no more; these are
/// copied once, into it. Of what the shelf gives nothing is assumed but what its type keeps: a node that it gives has the
/// digest that was asked.
///
/// Under the root of a publication answer and proof are those of [`osm_prove::prove_within`], unless two different nodes have
/// one digest.
///
/// # Errors
///
/// `Source` where the shelf gave no node that was needed, with the reason that it tells. `Work` where more is to be done than
/// the budget has. `Evaluation` where the nodes that were given aren't those of a publication, and `TooLong` where they don't
/// fit a proof. `Memory` where an allocation is refused, to the shelf too. Nodes that were used stay so.
pub fn prove_over<'a, S: ProofShelf<'a>>(
    alloc: Global,
    shelf: &mut S,
    query: &Query<'_>,
    root: &Digest,
    most: Option<u64>,
) -> Result<AnswerAndProof, OutsideFault>
    requires unused { IsEmptySet (S.used shelf.old) }
    // Under the root of any publication: what is given is the query's meaning over its set, and the one proof, unless a node of
    // the publication and a different one that the shelf used have one digest.
    ensures proved { (p : Publication) → IsPublication p → root.now.0 ≡ root_of p
        → HasNoClash p (S.used shelf.new)
        → IfOk result (λ both. Means p.objects (statements_of query.now) both.answer.items
        × IsProofOf p (statements_of query.now) both.proof.items) }
    // Whatever the root is of, the proof lists nodes by rising digest,
    ensures listed { IfOk result (λ both. ListsRising both.proof.items) }
    // and the root is the digest of a manifest where there is an answer.
    ensures rooted { OnOk result
        ((found : Manifest) × (digest_word (manifest_bytes found) ≡ root.now.0)) }
    // Under the root of a publication it is refused for memory, for the budget or for a node that wasn't given alone.
    ensures only { (p : Publication) → IsPublication p → root.now.0 ≡ root_of p
        → HasNoClash p (S.used shelf.new)
        → IfErr result IsFromOutside }
    // Whatever the root is of, a source's reason isn't memory, and a fault of the nodes is one.
    ensures named { IfErr result IsNamed }
    // Without a budget no work is too much.
    ensures limited { most ≡ None → result ≢ Err OutsideFault.Work }
    // It is answered only where its work is within the budget, and refused for the budget only where it is too much.
    ensures budget { (p : Publication) → IsPublication p → root.now.0 ≡ root_of p
        → HasNoClash p (S.used shelf.new)
        → KeepsBudget (WorkOfQuery (form_text Opl) p (statements_of query.now)) most result }
{
    let answer = match evaluate_over(alloc, query, root, shelf, most) {
        Ok(answer) => answer,
        Err(fault) => return Err(refusal(fault, shelf.reason())),
    };
    let parts = shelf.used_parts(alloc)?;
    let proof = list_parts(alloc, &parts)?;
    Ok(AnswerAndProof { answer, proof })
}
