//! Queries, evaluated over a snapshot.

ghost use Rattle.std.specs.Prelude.{◌≡◌, ◌≢◌, ◌↔◌, ◌⊎◌, Err, IfErr, IfOk, IsTrue, None, OnOk};
ghost use Rattle.tree_node.specs.Outcomes.{GrownByAll, NoMemory};
ghost use Rattle.tree_node.specs.Recorders.{RecorderHolds, RecorderUsed};
ghost use Rattle.tree_node.specs.Shelves.{SameNodes};
ghost use Rattle.tree_node.specs.Stocks.{HasNode};
ghost use Rattle.osm_forms.specs.Forms.{form_text};
ghost use Rattle.osm_forms.specs.declared.form.Form.TheVariants.{Opl};
ghost use Rattle.osm_keys.specs.Publications.{Publication};
ghost use Rattle.osm_index.specs.Snapshots.{HoldsPublication};
ghost use Rattle.ql_syntax.specs.StatementViews.{statements_of};
ghost use Rattle.ql_meaning.specs.Meanings.{Means};
ghost use Rattle.ql_eval.specs.Asks.{IsNeeded};
ghost use Rattle.ql_eval.specs.Faults.{cause_of_evaluation};
ghost use Rattle.ql_eval.specs.Work.{WorkOfQuery};
ghost use Rattle.osm_prove.specs.Budgets.{KeepsBudget};

use crate::prove_fault::ProveFault;
use osm_forms::Form;
use osm_index::Snapshot;
use ql_eval::{EvalFault, ManifestFault, evaluate_within};
use ql_syntax::Query;
use std::alloc::Global;
use tree_node::Recorder;
use tree_walk::WalkFault;

/// The answer to a query over a snapshot within a budget, by a shelf over its stock. The shelf then has the nodes that the
/// query needs as used too. Refused with `Work` where the budget is passed, and else only where memory runs out.
pub(crate) fn evaluate_over(
    alloc: Global,
    snapshot: &Snapshot,
    query: &Query<'_>,
    shelf: &mut Recorder<'_>,
    most: Option<u64>,
) -> Result<Vec<u8>, ProveFault>
    requires { SameNodes (HasNode snapshot.now.stock) (RecorderHolds shelf.old) }
    ensures means { (p : Publication) → HoldsPublication snapshot.now p
        → IfOk result (λ answer. Means p.objects (statements_of query.now) answer.items) }
    ensures needed { (p : Publication) → HoldsPublication snapshot.now p
        → OnOk result (GrownByAll (RecorderUsed shelf.old) (RecorderUsed shelf.new)
        (IsNeeded p (statements_of query.now))) }
    ensures only { IfErr result (λ fault. (fault ≡ ProveFault.Memory) ⊎ (fault ≡ ProveFault.Work)) }
    ensures limited { most ≡ None → result ≢ Err ProveFault.Work }
    ensures budget { (p : Publication) → HoldsPublication snapshot.now p
        → KeepsBudget (WorkOfQuery (form_text Opl) p (statements_of query.now)) most result }
{
    let mut answer = Vec::new(alloc);
    match evaluate_within(
        alloc,
        Form::Opl,
        query,
        snapshot.root(),
        shelf,
        &mut answer,
        most,
    ) {
        Ok(_) => Ok(answer),
        Err(fault) => Err(refusal_of(fault)),
    }
}

/// What an evaluation over a snapshot is refused for.
fn refusal_of(fault: EvalFault) -> ProveFault
    requires { ∥ cause_of_evaluation fault ≡ NoMemory ∥₁ }
    ensures work { (result ≡ ProveFault.Work) ↔ (fault ≡ EvalFault.Work) }
    ensures only { (result ≡ ProveFault.Memory) ⊎ (result ≡ ProveFault.Work) }
{
    if is_work(fault) {
        return ProveFault::Work;
    }
    if !is_memory(fault) {
        unreachable!("the snapshot holds each node that a query needs");
    }
    ProveFault::Memory
}

/// Whether an evaluation was refused for its budget.
fn is_work(fault: EvalFault) -> bool
    ensures { IsTrue result ↔ (fault ≡ EvalFault.Work) }
{
    matches!(fault, EvalFault::Work)
}

/// Whether an evaluation was refused for memory, wherever it ran out.
fn is_memory(fault: EvalFault) -> bool
    ensures { cause_of_evaluation fault ≡ NoMemory → fault ≢ EvalFault.Work → IsTrue result }
{
    match fault {
        EvalFault::Memory => true,
        EvalFault::Walk(fault) => matches!(fault, WalkFault::Memory),
        EvalFault::Manifest(fault) => matches!(fault, ManifestFault::Memory),
        EvalFault::Form | EvalFault::Absent | EvalFault::Work => false,
    }
}
