//! The checker.

ghost use Rattle.std.specs.Prelude.{◌≡◌, ◌≢◌, ◌⊎◌, Err, IfOk, List, None};
ghost use Rattle.tree_node.specs.Outcomes.{Clash};
ghost use Rattle.tree_node.specs.Parts.{HaveRisingDigests};
ghost use Rattle.std.specs.List.{Contains};
ghost use Rattle.osm_forms.specs.Forms.{form_text};
ghost use Rattle.osm_forms.specs.declared.form.Form.TheVariants.{Opl};
ghost use Rattle.osm_keys.specs.Publications.{IsNodeIn, IsPublication, Publication, root_of};
ghost use Rattle.ql_syntax.specs.StatementViews.{statements_of};
ghost use Rattle.ql_eval.specs.Work.{WorkOfQuery};
ghost use Rattle.osm_prove.specs.Budgets.{IsWorkOf};
ghost use Rattle.osm_prove.specs.Proofs.{FitsProof, nodes_of};
ghost use Rattle.osm_prove.specs.Proved.{IsProved};
ghost use Rattle.osm_check.specs.Budgets.{KeepsBudget};
ghost use Rattle.osm_check.specs.Verdicts.{AreAlike, IsReadable, IsRisingProof, IsVerdict, IsYes, StandsIn, TellsOf};
ghost use Rattle.osm_check.specs.internal.Judging.{IsJudged};
ghost use Rattle.ql_eval.specs.declared.evaluation.Report.{Report};
ghost use Rattle.osm_check.specs.declared.verdict.Verdict.{Verdict};

use crate::check_fault::CheckFault;
use crate::matcher::Matcher;
use crate::reasons::{stopped, unread};
use crate::verdict::Verdict;
use crate::why::Why;
use osm_forms::Form;
use osm_prove::{ProofFault, read_proof};
use ql_eval::evaluate_within;
use ql_syntax::{Query, parse};
use std::alloc::{AllocError, Global};
use tree_node::{Bag, Digest, Part};

/// Whether an answer is right: whether it is the OPL text of the query's meaning over the set with this root.
/// Nothing is assumed of the query, the answer and the proof. Roots of both editions are checked; the manifest
/// tells which it is.
///
/// The reason for a no is the first of these: `QueryRefused` where the query doesn't read; `ProofMalformed`
/// and `ProofNotRising` where the proof isn't one; then as it is met in the evaluation `NodeMissing`,
/// `NodeMalformed`, `NodesDisagree` or `EntriesDisagree`; `NodeUnused` where the proof holds more than the
/// query needs; `AnswerDiffers` where the answer isn't the query's meaning.
///
/// The query is evaluated over the nodes of the proof, which are slices of its bytes, and what comes out is
/// compared with the answer on the way: neither is copied. The time grows with the proof's bytes and with what
/// the query costs over them ([`evaluate`]).
///
/// Refused only where memory runs out.
pub fn check(
    alloc: Global,
    query: &[u8],
    root: &Digest,
    answer: &[u8],
    proof: &[u8],
) -> Result<Verdict, AllocError>
    // The headline: under the root of any publication, a yes says that the answer is the query's meaning over its set,
    // and the proof the one proof of it, unless a node of the publication and a different one in the proof have the
    // same digest.
    ensures headline { (p : Publication) (report : Report) → IsPublication p
        → root.now.0 ≡ root_of p → result ≡ Ok (Verdict.Yes report)
        → IsProved p query.now answer.now proof.now ⊎ Clash (IsNodeIn p) (StandsIn proof.now) }
    // An honest mirror is always accepted.
    ensures honest { (p : Publication) → IsPublication p → root.now.0 ≡ root_of p
        → IsProved p query.now answer.now proof.now → IfOk result IsYes }
    // The verdict is the one that is owed,
    ensures verdict { IfOk result (IsVerdict query.now root.now.0 answer.now proof.now) }
    // and under the root of a publication the one that is owed is given, with the same exception.
    ensures only { (p : Publication) (owed : Verdict) → IsPublication p → root.now.0 ≡ root_of p
        → TellsOf p query.now answer.now proof.now owed
        → IfOk result (λ verdict. AreAlike verdict owed) ⊎ Clash (IsNodeIn p) (StandsIn proof.now) }
{
    match check_within(alloc, query, root, answer, proof, None) {
        Ok(verdict) => Ok(verdict),
        Err(_) => Err(AllocError),
    }
}

/// Whether an answer is right, as [`check`] tells, within a budget: where more is to be done than it has, there is no
/// verdict. What is counted says [`evaluate_within`]. A client that takes queries from strangers protects itself so.
///
/// Refused with `Work` where the budget is passed, and else only where memory runs out.
pub fn check_within(
    alloc: Global,
    query: &[u8],
    root: &Digest,
    answer: &[u8],
    proof: &[u8],
    most: Option<u64>,
) -> Result<Verdict, CheckFault>
    // The headline: under the root of any publication, a yes says that the answer is the query's meaning over its set,
    // and the proof the one proof of it, unless a node of the publication and a different one in the proof have the
    // same digest.
    ensures headline { (p : Publication) (report : Report) → IsPublication p
        → root.now.0 ≡ root_of p → result ≡ Ok (Verdict.Yes report)
        → IsProved p query.now answer.now proof.now ⊎ Clash (IsNodeIn p) (StandsIn proof.now) }
    // An honest mirror is always accepted.
    ensures honest { (p : Publication) → IsPublication p → root.now.0 ≡ root_of p
        → IsProved p query.now answer.now proof.now → IfOk result IsYes }
    // The verdict is the one that is owed,
    ensures verdict { IfOk result (IsVerdict query.now root.now.0 answer.now proof.now) }
    // and under the root of a publication the one that is owed is given, with the same exception.
    ensures only { (p : Publication) (owed : Verdict) → IsPublication p → root.now.0 ≡ root_of p
        → TellsOf p query.now answer.now proof.now owed
        → IfOk result (λ verdict. AreAlike verdict owed) ⊎ Clash (IsNodeIn p) (StandsIn proof.now) }
    // Without a budget no work is too much.
    ensures limited { most ≡ None → result ≢ Err CheckFault.Work }
    // It is too much only of a query that reads, over a proof that lists nodes by rising digest.
    ensures over { result ≡ Err CheckFault.Work → IsReadable query.now × IsRisingProof proof.now }
    // Under the root of a publication a yes is said only where the query's work is within the budget, and reports it; and
    // there is no verdict for the budget only where it is too much, with the same exception.
    ensures budget { (p : Publication) → IsPublication p → root.now.0 ≡ root_of p
        → ¬ Clash (IsNodeIn p) (StandsIn proof.now)
        → KeepsBudget (IsWorkOf (form_text Opl) p query.now) most result }
{
    decide(alloc, query, root, answer, proof, most)
}

/// The verdict within a budget.
fn decide(
    alloc: Global,
    query: &[u8],
    root: &Digest,
    answer: &[u8],
    proof: &[u8],
    most: Option<u64>,
) -> Result<Verdict, CheckFault>
    ensures verdict { IfOk result (IsVerdict query.now root.now.0 answer.now proof.now) }
    ensures limited { most ≡ None → result ≢ Err CheckFault.Work }
    ensures over { result ≡ Err CheckFault.Work → IsReadable query.now × IsRisingProof proof.now }
    ensures budget { (p : Publication) → IsPublication p → root.now.0 ≡ root_of p
        → ¬ Clash (IsNodeIn p) (StandsIn proof.now)
        → KeepsBudget (IsWorkOf (form_text Opl) p query.now) most result }
{
    let parsed = match parse(alloc, query) {
        Ok(parsed) => parsed,
        Err(fault) => return Ok(Verdict::No(unread(fault)?)),
    };
    match read_proof(alloc, proof) {
        Ok(parts) => judge(alloc, &parsed, root, answer, parts, most),
        Err(ProofFault::Malformed) => Ok(Verdict::No(Why::ProofMalformed)),
        Err(ProofFault::NotRising) => Ok(Verdict::No(Why::ProofNotRising)),
        Err(ProofFault::Memory) => Err(CheckFault::Memory),
    }
}

/// The verdict on an answer, from the nodes of a proof, within a budget.
fn judge<'a>(
    alloc: Global,
    query: &Query<'_>,
    root: &Digest,
    answer: &[u8],
    parts: Vec<Part<'a>>,
    most: Option<u64>,
) -> Result<Verdict, CheckFault>
    requires fit { FitsProof (nodes_of parts.items) }
    requires rising { HaveRisingDigests parts.items }
    ensures judged { IfOk result (IsJudged root.now.0 (statements_of query.now) answer.now
        (nodes_of parts.entry.items)) }
    ensures limited { most ≡ None → result ≢ Err CheckFault.Work }
    ensures budget { (p : Publication) → IsPublication p → root.now.0 ≡ root_of p
        → ¬ Clash (IsNodeIn p) (Contains (nodes_of parts.entry.items))
        → KeepsBudget (WorkOfQuery (form_text Opl) p (statements_of query.now)) most result }
{
    let mut bag = Bag::new(alloc, parts)?;
    let mut matcher = Matcher::new(answer);
    let report = match evaluate_within(
        alloc,
        Form::Opl,
        query,
        root,
        &mut bag,
        &mut matcher,
        most,
    ) {
        Ok(report) => report,
        Err(fault) => return Ok(Verdict::No(stopped(fault)?)),
    };
    if !bag.all_used() {
        return Ok(Verdict::No(Why::NodeUnused));
    }
    Ok(match matcher.difference() {
        Some(byte) => Verdict::No(Why::AnswerDiffers(byte)),
        None => Verdict::Yes(report),
    })
}
