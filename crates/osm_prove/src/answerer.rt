//! An answer, as a mirror makes it.

ghost use Rattle.std.specs.Prelude.{◌≡◌, ◌≢◌, ◌⊎◌, Err, IfErr, IfOk, None};
ghost use Rattle.osm_forms.specs.Forms.{form_text};
ghost use Rattle.osm_forms.specs.declared.form.Form.TheVariants.{Opl};
ghost use Rattle.osm_keys.specs.Publications.{Publication, root_of};
ghost use Rattle.osm_index.specs.Snapshots.{HoldsPublication};
ghost use Rattle.ql_syntax.specs.Queries.{HasFault, Reads};
ghost use Rattle.ql_syntax.specs.Statements.{Statements};
ghost use Rattle.ql_syntax.specs.declared.fault.QlFault.{QlFault};
ghost use Rattle.osm_prove.specs.Budgets.{IsWorkOf, KeepsBudget};
ghost use Rattle.osm_prove.specs.Proved.{IsAnswer};

use crate::answered::Answered;
use crate::evaluation::evaluate_over;
use crate::prove_fault::ProveFault;
use crate::query_reader::read_query;
use osm_index::Snapshot;
use std::alloc::Global;
use tree_node::Recorder;

/// The answer to a query over a snapshot, and its root, as [`prove`](crate::prove) gives them, without the proof. The
/// query is these bytes as they stand.
///
/// No list of the needed nodes is made, and none of them is copied.
///
/// Refused with `Query` exactly where the query doesn't read, and else only where memory runs out.
pub fn answer(alloc: Global, snapshot: &Snapshot, query: &[u8]) -> Result<Answered, ProveFault>
    // What is given is the root, and the query's meaning over the snapshot's set.
    ensures answered { (p : Publication) → HoldsPublication snapshot.now p
        → IfOk result (λ answered. (answered.root.0 ≡ root_of p)
        × IsAnswer p query.now answered.answer.items) }
    // A query with a fault is refused with it, unless memory runs out,
    ensures refused { (fault : QlFault) → HasFault query.now fault
        → (result ≡ Err (ProveFault.Query fault)) ⊎ (result ≡ Err ProveFault.Memory) }
    // and no other is told;
    ensures told { (fault : QlFault) → result ≡ Err (ProveFault.Query fault)
        → HasFault query.now fault }
    // one that reads is refused for memory alone.
    ensures only { (statements : Statements) → Reads query.now statements
        → IfErr result (λ fault. fault ≡ ProveFault.Memory) }
{
    answer_within(alloc, snapshot, query, None)
}

/// The answer to a query over a snapshot, and its root, as [`answer`] gives them, within a budget: what more is to be done
/// for than it has is refused with `Work`. What is counted says [`ql_eval::evaluate_within`].
///
/// Refused with `Query` exactly where the query doesn't read, and else only with `Work` or where memory runs out.
pub fn answer_within(
    alloc: Global,
    snapshot: &Snapshot,
    query: &[u8],
    most: Option<u64>,
) -> Result<Answered, ProveFault>
    // What is given is the root, and the query's meaning over the snapshot's set.
    ensures answered { (p : Publication) → HoldsPublication snapshot.now p
        → IfOk result (λ answered. (answered.root.0 ≡ root_of p)
        × IsAnswer p query.now answered.answer.items) }
    // A query with a fault is refused with it, unless memory runs out,
    ensures refused { (fault : QlFault) → HasFault query.now fault
        → (result ≡ Err (ProveFault.Query fault)) ⊎ (result ≡ Err ProveFault.Memory) }
    // and no other is told;
    ensures told { (fault : QlFault) → result ≡ Err (ProveFault.Query fault)
        → HasFault query.now fault }
    // one that reads is refused for memory or for the budget alone,
    ensures only { (statements : Statements) → Reads query.now statements
        → IfErr result (λ fault. (fault ≡ ProveFault.Memory) ⊎ (fault ≡ ProveFault.Work)) }
    // answered only where its work is within the budget, and refused for the budget only where it is too much.
    ensures budget { (p : Publication) → HoldsPublication snapshot.now p
        → KeepsBudget (IsWorkOf (form_text Opl) p query.now) most result }
    // Without a budget no work is too much.
    ensures limited { most ≡ None → result ≢ Err ProveFault.Work }
{
    let parsed = read_query(alloc, query)?;
    let mut shelf = Recorder::new(alloc, snapshot.stock());
    let answer = evaluate_over(alloc, snapshot, &parsed, &mut shelf, most)?;
    Ok(Answered {
        root: *snapshot.root(),
        answer,
    })
}
