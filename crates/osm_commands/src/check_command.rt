//! The command `check ROOT QUERYFILE ANSWERFILE PROOFFILE [--max-size BYTES] [--max-work N]`.

ghost use Rattle.std.specs.Prelude.{◌≡◌, ◌≢◌, ◌⊎◌, ◌+◌, Err, IfErr, IfOk, None, Ok, OnOk, true};
ghost use Rattle.std.specs.Io.KnownBytes.{Appends, IsAtEnd, Keeps};
ghost use Rattle.tree_node.specs.Outcomes.{Clash};
ghost use Rattle.osm_forms.specs.Forms.{form_text};
ghost use Rattle.osm_forms.specs.declared.form.Form.TheVariants.{Opl};
ghost use Rattle.osm_keys.specs.Publications.{IsNodeIn, IsPublication, Publication, root_of};
ghost use Rattle.osm_prove.specs.Budgets.{IsWorkOf};
ghost use Rattle.osm_prove.specs.Proved.{IsProved};
ghost use Rattle.ql_eval.specs.declared.evaluation.Report.{Report};
ghost use Rattle.osm_check.specs.Verdicts.{IsReadable, IsRisingProof, IsVerdict, IsYes, StandsIn};
ghost use Rattle.osm_commands.specs.Budgets.{KeepsBudget};
ghost use Rattle.osm_commands.specs.Files.{ExplainsEndless, ExplainsTooLarge, FitsWithin, IfBoth, IfThree, IsBegunVerdict, IsUnchecked};
ghost use Rattle.osm_commands.specs.RootLines.{verdict_line};
ghost use Rattle.osm_commands.specs.WholeFiles.{IsQueryRead, TakesAtMost, TakesWithin, longest_query};

use crate::command_fault::CommandFault;
use crate::flushing_writer::FlushingWriter;
use crate::query_reader::read_query;
use crate::verdict_lines::verdict_line;
use crate::whole_reader::read_within;
use crate::whole_writer::write_whole;
use osm_check::{Digest, Verdict, check_within};
use std::alloc::Global;
use std::io::Read;

/// Reads the query's bytes, then the answer's, then the proof's, decides by the root and them alone whether
/// the answer is right, and writes the verdict: `yes`, or `no` and the reason, and LF. The root may be of
/// either edition.
///
/// Of the query's file no more is read than 65,537 bytes: a longer one is refused as a query (`C1 Q9`) whatever follows.
/// Of the answer's and the proof's file, each, no more is read than the limit in bytes and one, if there is a limit.
/// The query's work is counted as [`osm_check::check_within`] counts it, if there is a budget.
///
/// # Errors
///
/// `Endless` where the answer or the proof was read 2^32 times without an end; `TooLarge` where one of them has more bytes
/// than the limit, and then nothing is judged; `Work` where more is to be done for the query than the budget has, once all
/// three are read; `Memory` where an allocation was refused; `Device` where a read failed, or the write failed or took
/// nothing. They come in the order of reading. Nothing is written then, but where the output failed a beginning of the
/// line. The readers are left where they stood.
///
/// Clauses that speak of the readers' bytes do so where they tell them.
pub fn check<Q: Read, A: Read, P: Read, W: FlushingWriter>(
    alloc: Global,
    root: &Digest,
    query: &mut Q,
    answer: &mut A,
    proof: &mut P,
    limit: Option<u64>,
    most: Option<u64>,
    output: &mut W,
) -> Result<Verdict, CommandFault>
    // The headline: under the root of any publication, a yes says that the answer is the query's meaning over its set,
    // and the proof the one proof of it, unless a node of the publication and a different one in the proof have the
    // same digest.
    ensures headline { IfThree (Q.remaining query.old) (A.remaining answer.old)
        (P.remaining proof.old)
        (λ query_bytes answer_bytes proof_bytes. (p : Publication) (report : Report)
        → IsPublication p → root.now.0 ≡ root_of p
        → result ≡ Ok (Verdict.Yes report) → IsProved p query_bytes answer_bytes proof_bytes
        ⊎ Clash (IsNodeIn p) (StandsIn proof_bytes)) }
    // An honest mirror is always accepted.
    ensures honest { IfThree (Q.remaining query.old) (A.remaining answer.old)
        (P.remaining proof.old)
        (λ query_bytes answer_bytes proof_bytes. (p : Publication) → IsPublication p
        → root.now.0 ≡ root_of p
        → IsProved p query_bytes answer_bytes proof_bytes → IfOk result IsYes) }
    // The verdict is the one that is owed, and the output has gained exactly its line.
    ensures told { IfOk result (λ verdict. IfThree (Q.remaining query.old) (A.remaining answer.old)
        (P.remaining proof.old)
        (λ query_bytes answer_bytes proof_bytes.
        IsVerdict query_bytes root.now.0 answer_bytes proof_bytes verdict)
        × Appends (W.contents output.old) (W.contents output.new) (verdict_line verdict)) }
    // Nothing is held back then.
    ensures flushed { OnOk result (W.is_flushed output.new ≡ true) }
    // It is refused only out of memory, for a device, for a file without an end or that is too large, or for the budget.
    ensures refused { IfErr result IsUnchecked }
    // Only a file of 2^32 bytes or more is told to have no end.
    ensures endless { IfBoth (A.remaining answer.old) (P.remaining proof.old)
        (λ answer_bytes proof_bytes. IfErr result (ExplainsEndless answer_bytes proof_bytes)) }
    // Only a file that is larger than the limit is told to be too large: the answer, or else the proof.
    ensures too_large { IfBoth (A.remaining answer.old) (P.remaining proof.old)
        (λ answer_bytes proof_bytes. IfErr result
        (ExplainsTooLarge limit answer_bytes proof_bytes)) }
    // Where one is, there is no verdict.
    ensures fits { OnOk result (FitsWithin limit (A.remaining answer.old)
        × FitsWithin limit (P.remaining proof.old)) }
    // Without a budget no work is too much.
    ensures limited { most ≡ None → result ≢ Err CommandFault.Work }
    // It is too much only of a query that reads, with a proof that lists nodes by rising digest.
    ensures over { IfBoth (Q.remaining query.old) (P.remaining proof.old)
        (λ query_bytes proof_bytes. result ≡ Err CommandFault.Work
        → IsReadable query_bytes × IsRisingProof proof_bytes) }
    // Under the root of a publication a yes is said only where the query's work is within the budget, and reports it;
    // and there is no verdict for the budget only where it is too much, unless a node of the publication and a
    // different one in the proof have the same digest.
    ensures budget { IfBoth (Q.remaining query.old) (P.remaining proof.old)
        (λ query_bytes proof_bytes. (p : Publication) → IsPublication p → root.now.0 ≡ root_of p
        → ¬ Clash (IsNodeIn p) (StandsIn proof_bytes)
        → KeepsBudget (IsWorkOf (form_text Opl) p query_bytes) most result) }
    // Whatever happens, no more is taken of the files than what can matter.
    ensures takes { TakesAtMost (longest_query + 1) (Q.remaining query.old) (Q.remaining query.new)
        × TakesWithin limit (A.remaining answer.old) (A.remaining answer.new)
        × TakesWithin limit (P.remaining proof.old) (P.remaining proof.new) }
    // The answer is read only after the query,
    ensures answer_later { (answer.new ≡ answer.old)
        ⊎ IsQueryRead (Q.remaining query.old) (Q.remaining query.new) }
    // and the proof after the answer, to its end, and where that isn't too large.
    ensures proof_later { (proof.new ≡ proof.old)
        ⊎ (IsAtEnd (A.remaining answer.new) × FitsWithin limit (A.remaining answer.old)) }
    // Nothing is written but where a device fails,
    ensures nothing { IfErr result (λ fault. fault ≢ CommandFault.Device
        → Keeps (W.contents output.old) (W.contents output.new)) }
    // and never anything but a beginning of the verdict's line.
    ensures begun { IfThree (Q.remaining query.old) (A.remaining answer.old) (P.remaining proof.old)
        (λ query_bytes answer_bytes proof_bytes.
        IsBegunVerdict query_bytes root.now.0 answer_bytes proof_bytes
        (W.contents output.old) (W.contents output.new)) }
{
    let query = read_query(alloc, query)?;
    let answer = read_within(alloc, answer, limit)?;
    let proof = read_within(alloc, proof, limit)?;
    let verdict = check_within(alloc, &query, root, &answer, &proof, most)?;
    let line = verdict_line(alloc, &verdict)?;
    write_whole(output, line.as_bytes())?;
    Ok(verdict)
}
