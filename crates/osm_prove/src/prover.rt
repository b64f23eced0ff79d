//! An answer and its proof, as a mirror makes them.

ghost use Rattle.std.specs.Prelude.{◌≡◌, ◌≢◌, ◌⊎◌, Err, IfErr, IfOk, None};
ghost use Rattle.osm_forms.specs.Forms.{form_text};
ghost use Rattle.osm_forms.specs.declared.form.Form.TheVariants.{Opl};
ghost use Rattle.osm_keys.specs.Publications.{Publication, root_of};
ghost use Rattle.osm_index.specs.Snapshots.{HoldsPublication};
ghost use Rattle.ql_syntax.specs.Queries.{HasFault, Reads};
ghost use Rattle.ql_syntax.specs.StatementViews.{statements_of};
ghost use Rattle.ql_syntax.specs.Statements.{Statements};
ghost use Rattle.ql_syntax.specs.declared.fault.QlFault.{QlFault};
ghost use Rattle.ql_meaning.specs.Meanings.{Means};
ghost use Rattle.ql_eval.specs.Work.{WorkOfQuery};
ghost use Rattle.osm_prove.specs.Budgets.{IsWorkOf, KeepsBudget};
ghost use Rattle.osm_prove.specs.Proved.{IsProofOf, IsProved};

use crate::evaluation::evaluate_over;
use crate::proof_writer::write_proof;
use crate::prove_fault::ProveFault;
use crate::proved::Proved;
use crate::query_reader::read_query;
use osm_index::Snapshot;
use ql_syntax::Query;
use std::alloc::Global;
use tree_node::Recorder;

/// The answer to a query over a snapshot, its root, and the proof by which a checker says yes to them. The
/// query is these bytes as they stand.
///
/// The proof lists the nodes that the evaluation of the query needs, the manifest among them. Its nodes are
/// copied once, from the snapshot into the proof.
///
/// Refused with `Query` exactly where the query doesn't read, and else only where memory runs out.
pub fn prove(alloc: Global, snapshot: &Snapshot, query: &[u8]) -> Result<Proved, ProveFault>
    // What is given is the root, the query's meaning over the snapshot's set, and the one proof.
    ensures proved { (p : Publication) → HoldsPublication snapshot.now p
        → IfOk result (λ proved. (proved.root.0 ≡ root_of p)
        × IsProved p query.now proved.answer.items proved.proof.items) }
    // A query with a fault is refused with it, unless memory runs out,
    ensures refused { (fault : QlFault) → HasFault query.now fault
        → (result ≡ Err (ProveFault.Query fault)) ⊎ (result ≡ Err ProveFault.Memory) }
    // and no other is told;
    ensures told { (fault : QlFault) → result ≡ Err (ProveFault.Query fault)
        → HasFault query.now fault }
    // one that reads is refused for memory alone.
    ensures only { (statements : Statements) → Reads query.now statements
        → IfErr result (λ fault. fault ≡ ProveFault.Memory) }
{
    prove_within(alloc, snapshot, query, None)
}

/// The answer to a query over a snapshot, its root and the proof of it, as [`prove`] gives them, within a budget: what more
/// is to be done for than it has is refused with `Work`. What is counted says [`ql_eval::evaluate_within`].
///
/// Refused with `Query` exactly where the query doesn't read, and else only with `Work` or where memory runs out.
pub fn prove_within(
    alloc: Global,
    snapshot: &Snapshot,
    query: &[u8],
    most: Option<u64>,
) -> Result<Proved, ProveFault>
    // What is given is the root, the query's meaning over the snapshot's set, and the one proof.
    ensures proved { (p : Publication) → HoldsPublication snapshot.now p
        → IfOk result (λ proved. (proved.root.0 ≡ root_of p)
        × IsProved p query.now proved.answer.items proved.proof.items) }
    // A query with a fault is refused with it, unless memory runs out,
    ensures refused { (fault : QlFault) → HasFault query.now fault
        → (result ≡ Err (ProveFault.Query fault)) ⊎ (result ≡ Err ProveFault.Memory) }
    // and no other is told;
    ensures told { (fault : QlFault) → result ≡ Err (ProveFault.Query fault)
        → HasFault query.now fault }
    // one that reads is refused for memory or for the budget alone,
    ensures only { (statements : Statements) → Reads query.now statements
        → IfErr result (λ fault. (fault ≡ ProveFault.Memory) ⊎ (fault ≡ ProveFault.Work)) }
    // answered only where its work is within the budget, and refused for the budget only where it is too much.
    ensures budget { (p : Publication) → HoldsPublication snapshot.now p
        → KeepsBudget (IsWorkOf (form_text Opl) p query.now) most result }
    // Without a budget no work is too much.
    ensures limited { most ≡ None → result ≢ Err ProveFault.Work }
{
    let parsed = read_query(alloc, query)?;
    let (answer, proof) = answer_with_proof(alloc, snapshot, &parsed, most)?;
    Ok(Proved {
        root: *snapshot.root(),
        answer,
        proof,
    })
}

/// The answer to a query over a snapshot within a budget, and the proof of it. Refused with `Work` where the budget is passed,
/// and else only where memory runs out.
fn answer_with_proof(
    alloc: Global,
    snapshot: &Snapshot,
    query: &Query<'_>,
    most: Option<u64>,
) -> Result<(Vec<u8>, Vec<u8>), ProveFault>
    ensures proved { (p : Publication) → HoldsPublication snapshot.now p
        → IfOk result (λ both. Means p.objects (statements_of query.now) both.0.items
        × IsProofOf p (statements_of query.now) both.1.items) }
    ensures only { IfErr result (λ fault. (fault ≡ ProveFault.Memory) ⊎ (fault ≡ ProveFault.Work)) }
    ensures limited { most ≡ None → result ≢ Err ProveFault.Work }
    ensures budget { (p : Publication) → HoldsPublication snapshot.now p
        → KeepsBudget (WorkOfQuery (form_text Opl) p (statements_of query.now)) most result }
{
    let mut shelf = Recorder::new(alloc, snapshot.stock());
    let answer = evaluate_over(alloc, snapshot, query, &mut shelf, most)?;
    let parts = shelf.parts()?;
    let proof = write_proof(alloc, &parts)?;
    Ok((answer, proof))
}
