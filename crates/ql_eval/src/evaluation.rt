//! The answer to a query, from what a shelf holds.

ghost use Rattle.std.specs.Prelude.{◌≡◌, ◌≢◌, ◌-◌, ◌^◌, ◌<◌, ◌⊎◌, ℕ, Err, IfErr, IfOk, List, None, OnErr, OnOk, length, true};
ghost use Rattle.tree_node.specs.Outcomes.{EndsWell, Outcome};
ghost use Rattle.tree_node.specs.Shelves.{HasNone, IsClashFree, Stays};
ghost use Rattle.tree_walk.specs.Walked.{HasWalked};
ghost use Rattle.tree_walk.specs.WalksGiven.{HasGiven};
ghost use Rattle.osm_keys.specs.Manifests.{top_among};
ghost use Rattle.osm_keys.specs.Publications.{IsPublication, Publication, root_of};
ghost use Rattle.ql_syntax.specs.LawfulQueries.{IsQuery};
ghost use Rattle.ql_syntax.specs.StatementViews.{statements_of};
ghost use Rattle.osm_forms.specs.Forms.{form_text};
ghost use Rattle.ref_sets.specs.NamedSets.{nothing_named};
ghost use Rattle.ql_eval.specs.Absences.{IsSound, MayBeAbsent};
ghost use Rattle.ql_eval.specs.Asks.{AskedByAll, IsNeeded};
ghost use Rattle.ql_eval.specs.Faults.{cause_of_evaluation};
ghost use Rattle.ql_eval.specs.Openings.{HasMalformed, IsUnder, nodes_after};
ghost use Rattle.ql_eval.specs.Questions.{NeededBy};
ghost use Rattle.ql_eval.specs.TrueFaults.{HoldsUnder, IsTrueFault};
ghost use Rattle.ql_eval.specs.Work.{HasNoClash, IsNodeOf, KeepsBudget, WorkOfQuery};
ghost use Rattle.ql_eval.specs.Written.{HasWritten, HasWrittenMeaning, HasWrittenMeaning_by};
ghost use Rattle.ql_eval.specs.internal.Metering.{IsBounded, IsSpent};
ghost use Rattle.ql_eval.specs.internal.TrueFaults.{IsTrueUnder};
ghost use Rattle.tree_walk.specs.Uses.{nodes_around};

use crate::answering::answer_all;
use crate::fault::EvalFault;
use crate::known::Known;
use crate::memo::Memo;
use crate::meter::Meter;
use crate::opening::{ManifestFault, open_manifest};
use crate::shelf_source::ShelfSource;
use crate::sink::Sink;
use osm_forms::Form;
use osm_keys::Manifest;
use ql_syntax::{Query, Stmt};
use std::alloc::Global;
use tree_node::{Digest, Shelf};
use tree_walk::Tally;

/// What an evaluation did.
#[derive(Clone, Copy, Debug, PartialEq, Eq)]
pub struct Report {
    /// How many walks it made, counts included. An object that is asked again takes no further walk. Neither does a recursion
    /// that is asked again from the same set, nor a query statement that is asked again over the same sets, if there was room
    /// to remember what it gave. It stays at the greatest u64.
    pub ranges: u64,
    /// How many nodes the walks fetched. It stays at the greatest u64.
    pub fetched: u64,
    /// How much it did, in bytes that were written and in steps of 100. It stays at the greatest u64.
    pub work: u64,
}

/// Writes the answer to a query into a sink, from the nodes under a root.
///
/// Each entry that a walk gives is read, whether the answer needs it or not. Each object is looked up and its line read
/// once, however often the query asks for it: the object, or that it isn't there, is kept until the query ends. Only what a
/// scan of a kind has read isn't kept: where the query needs its line later, it is looked up.
///
/// A refusal leaves the text of the sink as it was. The nodes that were fetched until then stay used.
pub fn evaluate<'a, S: Shelf<'a>, T: Sink>(
    alloc: Global,
    query: &Query<'_>,
    root: &Digest,
    shelf: &mut S,
    sink: &mut T,
) -> Result<Report, EvalFault>
    // The sink tells its length, to which a refused answer is cut.
    requires { (text : List ℕ) → T.stands sink.old text → length text < 2 ^ 64 - 1 }
    // What is held stays held, on a fixed shelf just that, and what was used stays used.
    ensures stays { Stays S.is_fixed (S.holds shelf.old) (S.holds shelf.new) }
    ensures grows { (bytes : List ℕ) → S.used shelf.old bytes → S.used shelf.new bytes }
    ensures kept { T.kept sink.new ≡ T.kept sink.old }
    ensures refused { OnErr result
        ((text : List ℕ) → T.stands sink.old text → T.stands sink.new text) }
    // E4 with `Missing` where no held node has the root.
    ensures none { S.is_fixed ≡ true → HasNone (S.holds shelf.new) root.now.0
        → result ≡ Err (EvalFault.Manifest ManifestFault.Missing) }
    // and with `Malformed` where what is held under it is no manifest, memory apart.
    ensures malformed { HasMalformed (S.holds shelf.new) root.now.0
        → (result ≡ Err (EvalFault.Manifest ManifestFault.Malformed))
        ⊎ (result ≡ Err EvalFault.Memory) }
    // Each fault is true of the nodes, whoever made them.
    ensures told { IfErr result (IsTrueFault (S.holds shelf.new) (S.used shelf.new) root.now.0) }
    // Without a budget no work is too much.
    ensures limited { result ≢ Err EvalFault.Work }
    // Whatever the root is of, the report counts the walks and what they fetched.
    ensures report { IfOk result (λ report. HoldsUnder (S.holds shelf.new) root.now.0 (λ found.
        HasWalked (nodes_after found S.holds S.used shelf.old shelf.new)
        0 report.ranges 0 report.fetched)) }
    // These walks are the report's: each gave what its nodes say, from the tops that the manifest names on, and all entries
    // that they gave are of their trees' forms. Where one of them looked for an object and found none, the object's id
    // stands in the query, or an object lists it that an entry puts; so each object that another entry named is there.
    ensures walks { IfOk result (λ report. HoldsUnder (S.holds shelf.new) root.now.0 (λ found.
        HasGiven (top_among found.tops)
        (IsSound (MayBeAbsent (statements_of query.now) (S.used shelf.new) found))
        (nodes_after found S.holds S.used shelf.old shelf.new)
        0 report.ranges 0 report.fetched)) }
    // Under the root of a publication: its answer, by just the needed nodes.
    ensures answer { (p : Publication) → IsPublication p → root.now.0 ≡ root_of p
        → Outcome cause_of_evaluation
        (λ _. HasWrittenMeaning p (statements_of query.now) (T.stands sink.old) (T.stands sink.new))
        (IsNeeded p (statements_of query.now))
        (nodes_around S.holds S.used shelf.old shelf.new) result }
    // Over a shelf that holds all needed nodes, memory alone refuses it, and no clash is left to speak of.
    ensures served { (p : Publication) → IsPublication p → root.now.0 ≡ root_of p
        → ((bytes : List ℕ) → IsNeeded p (statements_of query.now) bytes → S.holds shelf.new bytes)
        → EndsWell cause_of_evaluation
        (λ _. HasWrittenMeaning p (statements_of query.now) (T.stands sink.old) (T.stands sink.new))
        (IsNeeded p (statements_of query.now))
        (nodes_around S.holds S.used shelf.old shelf.new) result }
{
    evaluate_in(alloc, Form::Opl, query, root, shelf, sink)
}

/// Writes the answer to a query into a sink, in a form, from the nodes under a root: what [`evaluate`] writes, with each
/// object told in the form. It asks, uses and refuses the same, whatever the form.
///
/// A refusal leaves the text of the sink as it was. The nodes that were fetched until then stay used.
pub fn evaluate_in<'a, S: Shelf<'a>, T: Sink>(
    alloc: Global,
    form: Form,
    query: &Query<'_>,
    root: &Digest,
    shelf: &mut S,
    sink: &mut T,
) -> Result<Report, EvalFault>
    // The sink tells its length, to which a refused answer is cut.
    requires { (text : List ℕ) → T.stands sink.old text → length text < 2 ^ 64 - 1 }
    // What is held stays held, on a fixed shelf just that, and what was used stays used.
    ensures stays { Stays S.is_fixed (S.holds shelf.old) (S.holds shelf.new) }
    ensures grows { (bytes : List ℕ) → S.used shelf.old bytes → S.used shelf.new bytes }
    ensures kept { T.kept sink.new ≡ T.kept sink.old }
    ensures refused { OnErr result
        ((text : List ℕ) → T.stands sink.old text → T.stands sink.new text) }
    // E4 with `Missing` where no held node has the root.
    ensures none { S.is_fixed ≡ true → HasNone (S.holds shelf.new) root.now.0
        → result ≡ Err (EvalFault.Manifest ManifestFault.Missing) }
    // and with `Malformed` where what is held under it is no manifest, memory apart.
    ensures malformed { HasMalformed (S.holds shelf.new) root.now.0
        → (result ≡ Err (EvalFault.Manifest ManifestFault.Malformed))
        ⊎ (result ≡ Err EvalFault.Memory) }
    // Each fault is true of the nodes, whoever made them.
    ensures told { IfErr result (IsTrueFault (S.holds shelf.new) (S.used shelf.new) root.now.0) }
    // Without a budget no work is too much.
    ensures limited { result ≢ Err EvalFault.Work }
    // Whatever the root is of, the report counts the walks and what they fetched.
    ensures report { IfOk result (λ report. HoldsUnder (S.holds shelf.new) root.now.0 (λ found.
        HasWalked (nodes_after found S.holds S.used shelf.old shelf.new)
        0 report.ranges 0 report.fetched)) }
    // These walks are the report's: each gave what its nodes say, from the tops that the manifest names on, and all entries
    // that they gave are of their trees' forms. Where one of them looked for an object and found none, the object's id
    // stands in the query, or an object lists it that an entry puts; so each object that another entry named is there.
    ensures walks { IfOk result (λ report. HoldsUnder (S.holds shelf.new) root.now.0 (λ found.
        HasGiven (top_among found.tops)
        (IsSound (MayBeAbsent (statements_of query.now) (S.used shelf.new) found))
        (nodes_after found S.holds S.used shelf.old shelf.new)
        0 report.ranges 0 report.fetched)) }
    // Under the root of a publication: its answer, by just the needed nodes.
    ensures answer { (p : Publication) → IsPublication p → root.now.0 ≡ root_of p
        → Outcome cause_of_evaluation
        (λ _. HasWrittenMeaning_by (form_text form) p (statements_of query.now)
        (T.stands sink.old) (T.stands sink.new))
        (IsNeeded p (statements_of query.now))
        (nodes_around S.holds S.used shelf.old shelf.new) result }
    // Over a shelf that holds all needed nodes, memory alone refuses it, and no clash is left to speak of.
    ensures served { (p : Publication) → IsPublication p → root.now.0 ≡ root_of p
        → ((bytes : List ℕ) → IsNeeded p (statements_of query.now) bytes → S.holds shelf.new bytes)
        → EndsWell cause_of_evaluation
        (λ _. HasWrittenMeaning_by (form_text form) p (statements_of query.now)
        (T.stands sink.old) (T.stands sink.new))
        (IsNeeded p (statements_of query.now))
        (nodes_around S.holds S.used shelf.old shelf.new) result }
{
    evaluate_within(alloc, form, query, root, shelf, sink, None)
}

/// Writes the answer to a query into a sink, in a form, from the nodes under a root, within a budget: what [`evaluate_in`]
/// writes, unless more is to be done than the budget has. Then it is refused with `Work`. How much is done depends on the
/// query and on the set alone, so every mirror of a set refuses the same queries.
///
/// The budget counts 1 for a byte that is written, and 100 for a step: each statement, and each reference of the set that it
/// writes; each filter of a query statement, each id that is written in it and each reference of a named set that it reads;
/// each object that the base of a query statement finds, once more for each other filter; where the base is a key alone,
/// each object of any kind that has it, and where it is a box, each node in the cells that it meets; each reference of a set
/// that a recursion starts from; and each object that is printed. What was asked before and is remembered is counted as if it
/// were done again.
///
/// Of what a tag, a key or a box finds, and of each kind that a scan goes through, no more is read than the budget has left, of
/// a box twice as much. Where there is more, it is counted by walks that fetch only nodes at the ends of its ranges, so that it
/// is refused with `Work`. What paths and recursions find is counted once it is found: it is bounded by what the objects of the
/// set list that they start from, or by what lists them.
///
/// A refusal leaves the text of the sink as it was. The nodes that were fetched until then stay used.
pub fn evaluate_within<'a, S: Shelf<'a>, T: Sink>(
    alloc: Global,
    form: Form,
    query: &Query<'_>,
    root: &Digest,
    shelf: &mut S,
    sink: &mut T,
    most: Option<u64>,
) -> Result<Report, EvalFault>
    // The sink tells its length, to which a refused answer is cut.
    requires { (text : List ℕ) → T.stands sink.old text → length text < 2 ^ 64 - 1 }
    // What is held stays held, on a fixed shelf just that, and what was used stays used.
    ensures stays { Stays S.is_fixed (S.holds shelf.old) (S.holds shelf.new) }
    ensures grows { (bytes : List ℕ) → S.used shelf.old bytes → S.used shelf.new bytes }
    ensures kept { T.kept sink.new ≡ T.kept sink.old }
    ensures refused { OnErr result
        ((text : List ℕ) → T.stands sink.old text → T.stands sink.new text) }
    // E4 with `Missing` where no held node has the root.
    ensures none { S.is_fixed ≡ true → HasNone (S.holds shelf.new) root.now.0
        → result ≡ Err (EvalFault.Manifest ManifestFault.Missing) }
    // and with `Malformed` where what is held under it is no manifest, memory apart.
    ensures malformed { HasMalformed (S.holds shelf.new) root.now.0
        → (result ≡ Err (EvalFault.Manifest ManifestFault.Malformed))
        ⊎ (result ≡ Err EvalFault.Memory) }
    // Each fault is true of the nodes, whoever made them.
    ensures told { IfErr result (IsTrueFault (S.holds shelf.new) (S.used shelf.new) root.now.0) }
    // Without a budget no work is too much.
    ensures limited { most ≡ None → result ≢ Err EvalFault.Work }
    // Whatever the root is of, the report counts the walks and what they fetched.
    ensures report { IfOk result (λ report. HoldsUnder (S.holds shelf.new) root.now.0 (λ found.
        HasWalked (nodes_after found S.holds S.used shelf.old shelf.new)
        0 report.ranges 0 report.fetched)) }
    // These walks are the report's: each gave what its nodes say, from the tops that the manifest names on, and all entries
    // that they gave are of their trees' forms. Where one of them looked for an object and found none, the object's id
    // stands in the query, or an object lists it that an entry puts; so each object that another entry named is there.
    ensures walks { IfOk result (λ report. HoldsUnder (S.holds shelf.new) root.now.0 (λ found.
        HasGiven (top_among found.tops)
        (IsSound (MayBeAbsent (statements_of query.now) (S.used shelf.new) found))
        (nodes_after found S.holds S.used shelf.old shelf.new)
        0 report.ranges 0 report.fetched)) }
    // Under the root of a publication: its answer, by just the needed nodes.
    ensures answer { (p : Publication) → IsPublication p → root.now.0 ≡ root_of p
        → Outcome cause_of_evaluation
        (λ _. HasWrittenMeaning_by (form_text form) p (statements_of query.now)
        (T.stands sink.old) (T.stands sink.new))
        (IsNeeded p (statements_of query.now))
        (nodes_around S.holds S.used shelf.old shelf.new) result }
    // Over a shelf that holds all needed nodes, memory alone refuses it, and no clash is left to speak of.
    ensures served { (p : Publication) → IsPublication p → root.now.0 ≡ root_of p
        → ((bytes : List ℕ) → IsNeeded p (statements_of query.now) bytes → S.holds shelf.new bytes)
        → EndsWell cause_of_evaluation
        (λ _. HasWrittenMeaning_by (form_text form) p (statements_of query.now)
        (T.stands sink.old) (T.stands sink.new))
        (IsNeeded p (statements_of query.now))
        (nodes_around S.holds S.used shelf.old shelf.new) result }
    // Under the root of a publication the work of the query is within the budget, and reported, or it passes the budget,
    // unless nodes clash.
    ensures budget { (p : Publication) → IsPublication p → root.now.0 ≡ root_of p
        → HasNoClash p (S.used shelf.new)
        → KeepsBudget (WorkOfQuery (form_text form) p (statements_of query.now)) most result }
    // Over a shelf that holds all nodes of the publication there is no clash to speak of.
    ensures whole { (p : Publication) → IsPublication p → root.now.0 ≡ root_of p
        → ((bytes : List ℕ) → IsNodeOf p bytes → S.holds shelf.new bytes)
        → KeepsBudget (WorkOfQuery (form_text form) p (statements_of query.now)) most result }
{
    let len = sink.len();
    let manifest = open_manifest(root, shelf)?;
    let statements = query.stmts();
    match run_within(alloc, form, statements, manifest, shelf, sink, most) {
        Ok(report) => Ok(report),
        Err(fault) => {
            sink.cut(len);
            Err(fault)
        }
    }
}

/// Runs the statements of a query under a manifest within a budget, and writes what they print in a form.
fn run_within<'a, S: Shelf<'a>, T: Sink>(
    alloc: Global,
    form: Form,
    statements: &[Stmt<'_>],
    manifest: Manifest,
    shelf: &mut S,
    sink: &mut T,
    most: Option<u64>,
) -> Result<Report, EvalFault>
    ensures stays { Stays S.is_fixed (S.holds shelf.old) (S.holds shelf.new) }
    ensures grows { (bytes : List ℕ) → S.used shelf.old bytes → S.used shelf.new bytes }
    // As each shelf: no two held nodes have one digest, and what was used is held.
    ensures unlike { IsClashFree (S.holds shelf.new) }
    ensures held { (bytes : List ℕ) → S.used shelf.new bytes → S.holds shelf.new bytes }
    ensures walked { IfOk result (λ report. HasGiven (top_among manifest.tops)
        (IsSound (MayBeAbsent (statements_of statements.now) (S.used shelf.new) manifest))
        (nodes_around S.holds S.used shelf.old shelf.new) 0 report.ranges 0 report.fetched) }
    ensures told { IfErr result (λ fault. (fault ≡ EvalFault.Work)
        ⊎ IsTrueUnder (S.holds shelf.new) (S.used shelf.new) manifest fault) }
    ensures limited { most ≡ None → result ≢ Err EvalFault.Work }
    ensures budget { (p : Publication) → IsPublication p → IsUnder p manifest
        → IsQuery (statements_of statements.now) → HasNoClash p (S.used shelf.new)
        → KeepsBudget (WorkOfQuery (form_text form) p (statements_of statements.now)) most result }
    ensures kept { T.kept sink.new ≡ T.kept sink.old }
    ensures wrote { (text : List ℕ) × HasWritten (T.stands sink.old) (T.stands sink.new) text }
    ensures answer { (p : Publication) → IsPublication p → IsUnder p manifest
        → IsQuery (statements_of statements.now)
        → Outcome cause_of_evaluation
        (λ _. HasWrittenMeaning_by (form_text form) p (statements_of statements.now)
        (T.stands sink.old) (T.stands sink.new))
        (NeededBy p (AskedByAll p (statements_of statements.now) nothing_named))
        (nodes_around S.holds S.used shelf.old shelf.new) result }
{
    let mut tally = Tally {
        calls: 0,
        fetches: 0,
    };
    let mut meter = Meter::new(most);
    let ran = run_over(
        alloc, form, statements, manifest, shelf, sink, &mut tally, &mut meter,
    );
    if meter.passes(most) {
        return Err(EvalFault::Work);
    }
    ran?;
    Ok(Report {
        ranges: tally.calls,
        fetched: tally.fetches,
        work: meter.told(),
    })
}

/// Runs the statements of a query under a manifest, and writes what they print in a form. The tally becomes that of all walks, and what is
/// done is counted.
fn run_over<'a, S: Shelf<'a>, T: Sink>(
    alloc: Global,
    form: Form,
    statements: &[Stmt<'_>],
    manifest: Manifest,
    shelf: &mut S,
    sink: &mut T,
    tally: &mut Tally,
    meter: &mut Meter,
) -> Result<(), EvalFault>
    ensures stays { Stays S.is_fixed (S.holds shelf.old) (S.holds shelf.new) }
    ensures grows { (bytes : List ℕ) → S.used shelf.old bytes → S.used shelf.new bytes }
    // As each shelf: no two held nodes have one digest, and what was used is held.
    ensures unlike { IsClashFree (S.holds shelf.new) }
    ensures held { (bytes : List ℕ) → S.used shelf.new bytes → S.holds shelf.new bytes }
    ensures walked { OnOk result (HasGiven (top_among manifest.tops)
        (IsSound (MayBeAbsent (statements_of statements.now) (S.used shelf.new) manifest))
        (nodes_around S.holds S.used shelf.old shelf.new) 0 tally.new.calls 0 tally.new.fetches) }
    ensures told { IfErr result (IsTrueUnder (S.holds shelf.new) (S.used shelf.new) manifest) }
    ensures kept { T.kept sink.new ≡ T.kept sink.old }
    ensures wrote { (text : List ℕ) × HasWritten (T.stands sink.old) (T.stands sink.new) text }
    ensures answer { (p : Publication) → IsPublication p → IsUnder p manifest
        → IsQuery (statements_of statements.now)
        → Outcome cause_of_evaluation
        (λ _. HasWrittenMeaning_by (form_text form) p (statements_of statements.now)
        (T.stands sink.old) (T.stands sink.new))
        (NeededBy p (AskedByAll p (statements_of statements.now) nothing_named))
        (nodes_around S.holds S.used shelf.old shelf.new) result }
    ensures bounded { (p : Publication) → IsPublication p → IsUnder p manifest
        → IsQuery (statements_of statements.now) → HasNoClash p (S.used shelf.new)
        → IsBounded (WorkOfQuery (form_text form) p (statements_of statements.now))
        meter.old.spent meter.new.spent }
    ensures spent { OnOk result ((p : Publication) → IsPublication p → IsUnder p manifest
        → IsQuery (statements_of statements.now) → HasNoClash p (S.used shelf.new)
        → IsSpent (WorkOfQuery (form_text form) p (statements_of statements.now))
        meter.old.spent meter.new.spent) }
{
    let mut objects = Known::new(alloc);
    let mut memo = Memo::new(alloc);
    let mut source = ShelfSource {
        alloc,
        statements,
        shelf,
        manifest,
        tally: Tally {
            calls: 0,
            fetches: 0,
        },
        objects: &mut objects,
        memo: &mut memo,
        nodes: b"",
    };
    let ran = answer_all(alloc, form, statements, &mut source, meter, sink);
    *tally = source.tally;
    let ShelfSource {
        alloc: _,
        statements: _,
        shelf: _,
        manifest: _,
        tally: _,
        objects: _,
        memo: _,
        nodes: _,
    } = source;
    ran
}
