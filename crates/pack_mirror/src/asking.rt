//! Queries, evaluated over kept nodes and over the source of a pack.

ghost use Rattle.std.specs.Prelude.{◌≡◌, ◌≢◌, Err, IfErr, IfOk, None};
ghost use Rattle.osm_forms.specs.Forms.{form_text};
ghost use Rattle.osm_forms.specs.declared.form.Form.TheVariants.{Opl};
ghost use Rattle.osm_keys.specs.Publications.{Publication};
ghost use Rattle.osm_prove.specs.Proved.{IsProofOf};
ghost use Rattle.outside_proof.specs.Budgets.{KeepsBudget};
ghost use Rattle.ql_eval.specs.Work.{WorkOfQuery};
ghost use Rattle.ql_meaning.specs.Meanings.{Means};
ghost use Rattle.ql_syntax.specs.StatementViews.{statements_of};
ghost use Rattle.osm_gate.specs.declared.mirror_fault.MirrorFault.TheVariants.{Device};
ghost use Rattle.pack_mirror.specs.Faults.{fault_of_answer};
ghost use Rattle.pack_mirror.specs.Roots.{StandsFor};

use crate::gained::{Gained, copy_brought};
use crate::lent::Lent;
use bumpalo::Bump;
use node_pack::{PackSource, ReadAt};
use outside_proof::{AnswerAndProof, OutsideFault, answer_over, prove_over};
use outside_shelf::{NodeStock, StockedShelf};
use ql_syntax::Query;
use std::alloc::Global;
use tree_node::Digest;

/// The answer to a query under a root, from the nodes of a stock and from what a source gives now, and what is to be kept of
/// the latter where there is so much room. What else it takes of memory goes back with the call.
pub(crate) fn ask_answer<F: ReadAt + Drop>(
    alloc: Global,
    source: &mut PackSource<F>,
    stock: &NodeStock,
    query: &Query<'_>,
    root: &Digest,
    most: Option<u64>,
    room: u64,
) -> (Result<Vec<u8>, OutsideFault>, Option<Gained>)
    ensures means { (p : Publication) → StandsFor root.now p
        → IfOk result.0 (λ answer. Means p.objects (statements_of query.now) answer.items) }
    ensures limited { most ≡ None → result.0 ≢ Err OutsideFault.Work }
    ensures failed { IfErr result.0 (λ fault. fault_of_answer fault ≡ Device → result.1 ≡ None) }
    ensures budget { (p : Publication) → StandsFor root.now p
        → KeepsBudget (WorkOfQuery (form_text Opl) p (statements_of query.now)) most result.0 }
{
    let arena = Bump::new(alloc);
    let mut shelf = StockedShelf::new(alloc, stock, &arena, Lent::new(source), None);
    let given = answer_over(alloc, &mut shelf, query, root, most);
    let more = copy_brought(alloc, &given, &shelf, room);
    (given, more)
}

/// The answer with its proof, as [`ask_answer`] gives the answer alone.
pub(crate) fn ask_proof<F: ReadAt + Drop>(
    alloc: Global,
    source: &mut PackSource<F>,
    stock: &NodeStock,
    query: &Query<'_>,
    root: &Digest,
    most: Option<u64>,
    room: u64,
) -> (Result<AnswerAndProof, OutsideFault>, Option<Gained>)
    ensures proved { (p : Publication) → StandsFor root.now p
        → IfOk result.0 (λ both. Means p.objects (statements_of query.now) both.answer.items
        × IsProofOf p (statements_of query.now) both.proof.items) }
    ensures limited { most ≡ None → result.0 ≢ Err OutsideFault.Work }
    ensures failed { IfErr result.0 (λ fault. fault_of_answer fault ≡ Device → result.1 ≡ None) }
    ensures budget { (p : Publication) → StandsFor root.now p
        → KeepsBudget (WorkOfQuery (form_text Opl) p (statements_of query.now)) most result.0 }
{
    let arena = Bump::new(alloc);
    let mut shelf = StockedShelf::new(alloc, stock, &arena, Lent::new(source), None);
    let given = prove_over(alloc, &mut shelf, query, root, most);
    let more = copy_brought(alloc, &given, &shelf, room);
    (given, more)
}
