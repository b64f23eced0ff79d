//! The teller.

ghost use Rattle.std.specs.Prelude.{◌≡◌, ◌≢◌, ◌⊎◌, ℕ, Err, IfOk, List, None, Ok};
ghost use Rattle.std.specs.declared.alloc.Global.{Global};
ghost use Rattle.std.specs.declared.vec.Vec.{Vec};
ghost use Rattle.tree_node.specs.Outcomes.{Clash};
ghost use Rattle.tree_node.specs.Parts.{HaveRisingDigests};
ghost use Rattle.std.specs.List.{Contains};
ghost use Rattle.osm_forms.specs.Forms.{form_text};
ghost use Rattle.osm_keys.specs.Publications.{IsNodeIn, IsPublication, Publication, root_of};
ghost use Rattle.ql_syntax.specs.StatementViews.{statements_of};
ghost use Rattle.ql_eval.specs.declared.evaluation.Report.{Report};
ghost use Rattle.ql_eval.specs.Work.{WorkOfQuery};
ghost use Rattle.osm_prove.specs.Budgets.{IsWorkOf};
ghost use Rattle.osm_prove.specs.Proofs.{FitsProof, nodes_of};
ghost use Rattle.osm_check.specs.Budgets.{TellsWithin};
ghost use Rattle.osm_check.specs.Telling.{IsProvedIn, IsTold, TellsText};
ghost use Rattle.osm_check.specs.Verdicts.{IsReadable, IsRisingProof, StandsIn, TellsOf};
ghost use Rattle.osm_check.specs.internal.Shown.{IsToldFrom};
ghost use Rattle.osm_check.specs.declared.verdict.Verdict.TheVariants as verdicts;
ghost use Rattle.osm_check.specs.declared.why.Why.{Why};

use crate::check_fault::CheckFault;
use crate::reasons::{stopped, unread};
use crate::told::Told;
use crate::why::Why;
use osm_forms::Form;
use osm_prove::{ProofFault, read_proof};
use ql_eval::evaluate_within;
use ql_syntax::{Query, parse};
use std::alloc::{AllocError, Global};
use tree_node::{Bag, Digest, Part};

/// The answer to a query in a form, from a root and a proof alone. Nothing is assumed of the query and the proof.
/// Roots of both editions are taken; the manifest tells which it is.
///
/// Where the proof isn't the one proof of the query, the reason is told that [`check`](crate::check) has for its no,
/// whatever the answer is: the first of `QueryRefused`, `ProofMalformed`, `ProofNotRising`, then as it is met in the
/// evaluation `NodeMissing`, `NodeMalformed`, `NodesDisagree` or `EntriesDisagree`, and `NodeUnused`. `AnswerDiffers`
/// is never told.
///
/// The query is evaluated once, over the nodes of the proof, which are slices of its bytes. The time grows with the
/// proof's bytes and with what the query costs over them ([`ql_eval::evaluate_in`]), the memory with the answer.
///
/// Refused only where memory runs out.
pub fn tell(
    alloc: Global,
    form: Form,
    query: &[u8],
    root: &Digest,
    proof: &[u8],
) -> Result<Told, AllocError>
    // The headline: under the root of any publication, a text that is told is the query's meaning over its set in this
    // form, and the proof the one proof of the query, unless a node of the publication and a different one in the proof
    // have the same digest.
    ensures headline { (p : Publication) (text : Vec ℕ Global) (report : Report) → IsPublication p
        → root.now.0 ≡ root_of p → result ≡ Ok (Told.Answer text report)
        → IsProvedIn p query.now form text.items proof.now
        ⊎ Clash (IsNodeIn p) (StandsIn proof.now) }
    // From the one proof of the query its meaning is always told.
    ensures honest { (p : Publication) (text : List ℕ) → IsPublication p → root.now.0 ≡ root_of p
        → IsProvedIn p query.now form text proof.now → IfOk result (TellsText text) }
    // What is told is right: a reason is the one of the verdict that is owed,
    ensures told { IfOk result (IsTold query.now root.now.0 form proof.now) }
    // and under the root of a publication the reason that is owed is told, with the same exception.
    ensures only { (p : Publication) (why : Why) → IsPublication p → root.now.0 ≡ root_of p
        → ((answer : List ℕ) → TellsOf p query.now answer proof.now (verdicts.No why))
        → IfOk result (λ told. told ≡ Told.No why) ⊎ Clash (IsNodeIn p) (StandsIn proof.now) }
{
    match tell_within(alloc, form, query, root, proof, None) {
        Ok(told) => Ok(told),
        Err(_) => Err(AllocError),
    }
}

/// The answer to a query in a form, as [`tell`] tells it, within a budget: where more is to be done than it has, nothing is
/// told. What is counted says [`evaluate_within`].
///
/// Refused with `Work` where the budget is passed, and else only where memory runs out.
pub fn tell_within(
    alloc: Global,
    form: Form,
    query: &[u8],
    root: &Digest,
    proof: &[u8],
    most: Option<u64>,
) -> Result<Told, CheckFault>
    // The headline: under the root of any publication, a text that is told is the query's meaning over its set in this
    // form, and the proof the one proof of the query, unless a node of the publication and a different one in the proof
    // have the same digest.
    ensures headline { (p : Publication) (text : Vec ℕ Global) (report : Report) → IsPublication p
        → root.now.0 ≡ root_of p → result ≡ Ok (Told.Answer text report)
        → IsProvedIn p query.now form text.items proof.now
        ⊎ Clash (IsNodeIn p) (StandsIn proof.now) }
    // From the one proof of the query its meaning is always told.
    ensures honest { (p : Publication) (text : List ℕ) → IsPublication p → root.now.0 ≡ root_of p
        → IsProvedIn p query.now form text proof.now → IfOk result (TellsText text) }
    // What is told is right: a reason is the one of the verdict that is owed,
    ensures told { IfOk result (IsTold query.now root.now.0 form proof.now) }
    // and under the root of a publication the reason that is owed is told, with the same exception.
    ensures only { (p : Publication) (why : Why) → IsPublication p → root.now.0 ≡ root_of p
        → ((answer : List ℕ) → TellsOf p query.now answer proof.now (verdicts.No why))
        → IfOk result (λ told. told ≡ Told.No why) ⊎ Clash (IsNodeIn p) (StandsIn proof.now) }
    // Without a budget no work is too much.
    ensures limited { most ≡ None → result ≢ Err CheckFault.Work }
    // It is too much only of a query that reads, over a proof that lists nodes by rising digest.
    ensures over { result ≡ Err CheckFault.Work → IsReadable query.now × IsRisingProof proof.now }
    // Under the root of a publication an answer is told only where the query's work is within the budget, and its report
    // has it; and nothing is told for the budget only where it is too much, with the same exception.
    ensures budget { (p : Publication) → IsPublication p → root.now.0 ≡ root_of p
        → ¬ Clash (IsNodeIn p) (StandsIn proof.now)
        → TellsWithin (IsWorkOf (form_text form) p query.now) most result }
{
    told_of(alloc, form, query, root, proof, most)
}

/// What is told of a query and a proof within a budget.
fn told_of(
    alloc: Global,
    form: Form,
    query: &[u8],
    root: &Digest,
    proof: &[u8],
    most: Option<u64>,
) -> Result<Told, CheckFault>
    ensures told { IfOk result (IsTold query.now root.now.0 form proof.now) }
    ensures limited { most ≡ None → result ≢ Err CheckFault.Work }
    ensures over { result ≡ Err CheckFault.Work → IsReadable query.now × IsRisingProof proof.now }
    ensures budget { (p : Publication) → IsPublication p → root.now.0 ≡ root_of p
        → ¬ Clash (IsNodeIn p) (StandsIn proof.now)
        → TellsWithin (IsWorkOf (form_text form) p query.now) most result }
{
    let parsed = match parse(alloc, query) {
        Ok(parsed) => parsed,
        Err(fault) => return Ok(Told::No(unread(fault)?)),
    };
    match read_proof(alloc, proof) {
        Ok(parts) => told_from(alloc, form, &parsed, root, parts, most),
        Err(ProofFault::Malformed) => Ok(Told::No(Why::ProofMalformed)),
        Err(ProofFault::NotRising) => Ok(Told::No(Why::ProofNotRising)),
        Err(ProofFault::Memory) => Err(CheckFault::Memory),
    }
}

/// What is told from the nodes of a proof within a budget.
fn told_from<'a>(
    alloc: Global,
    form: Form,
    query: &Query<'_>,
    root: &Digest,
    parts: Vec<Part<'a>>,
    most: Option<u64>,
) -> Result<Told, CheckFault>
    requires fit { FitsProof (nodes_of parts.items) }
    requires rising { HaveRisingDigests parts.items }
    ensures told { IfOk result (IsToldFrom root.now.0 (statements_of query.now) form
        (nodes_of parts.entry.items)) }
    ensures limited { most ≡ None → result ≢ Err CheckFault.Work }
    ensures budget { (p : Publication) → IsPublication p → root.now.0 ≡ root_of p
        → ¬ Clash (IsNodeIn p) (Contains (nodes_of parts.entry.items))
        → TellsWithin (WorkOfQuery (form_text form) p (statements_of query.now)) most result }
{
    let mut bag = Bag::new(alloc, parts)?;
    let mut text = Vec::new(alloc);
    let report = match evaluate_within(alloc, form, query, root, &mut bag, &mut text, most) {
        Ok(report) => report,
        Err(fault) => return Ok(Told::No(stopped(fault)?)),
    };
    if !bag.all_used() {
        return Ok(Told::No(Why::NodeUnused));
    }
    Ok(Told::Answer { text, report })
}
