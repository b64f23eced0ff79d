//! The command `prove FILE QUERYFILE ANSWERFILE PROOFFILE [--edition 1|2] [--sequence N]`.

ghost use Rattle.std.specs.Prelude.{◌≡◌, ◌≢◌, ◌⊎◌, IfErr, IfSome, List, ℕ, OnOk, true};
ghost use Rattle.std.specs.Io.KnownBytes.{Appends, Keeps};
ghost use Rattle.osm_forms.specs.declared.form.Form.TheVariants as forms;
ghost use Rattle.osm_keys.specs.Publications.{Publication};
ghost use Rattle.osm_commands.specs.Ask.{HoldsTrees, IsAnswer};
ghost use Rattle.osm_commands.specs.Files.{ExplainsFiles, IfBoth, IsBegunProof, IsOutsideFiles, IsProvedIn};
ghost use Rattle.osm_commands.specs.TreeRoots.{publication_line};

use crate::command_fault::CommandFault;
use crate::flushing_writer::FlushingWriter;
use crate::replacing_writer::{ReplacingWriter, put_both_in_place};
use crate::root_lines::root_line;
use crate::snapshot_reader::read_snapshot;
use crate::whole_reader::read_whole;
use crate::whole_writer::write_whole;
use osm_index::{BuildProgress, Edition};
use std::alloc::Global;
use std::io::Read;

/// Reads the input as the OPL text of a set of objects, then the query's bytes, and writes the answer, its
/// proof and, to the output, the set's root in this edition as `publish` does. Each is written once all of them
/// are made, in this order. Answer and proof are put in their places, in this order, once both are written and before
/// the root is.
///
/// # Errors
///
/// The input is looked at first, then its trees, then the query. `Opl` where the input holds no set of
/// objects, or was read 2^32 times without an end; `TooMany` where a tree of the set would have more than 2^29
/// entries, else `Clash` where two different nodes of the trees have one digest; `Endless` where the query was
/// read 2^32 times without an end; `Query` where it doesn't read; `Memory` where an allocation was refused;
/// `Device` where a read failed, a write failed or took nothing, or a text can't be put in its place. Nothing is written
/// then, but where a writer failed the texts before it and a beginning of its own. Where the answer can't be put in its
/// place, the proof isn't put in its place either, and the root isn't written. The readers are left where they stood.
///
/// Clauses that speak of the readers' bytes do so where they tell them.
pub fn prove<
    R: Read,
    Q: Read,
    B: BuildProgress,
    A: ReplacingWriter,
    P: ReplacingWriter,
    W: FlushingWriter,
>(
    alloc: Global,
    input: &mut R,
    query: &mut Q,
    edition: Edition,
    progress: &mut B,
    answer: &mut A,
    proof: &mut P,
    output: &mut W,
) -> Result<(), CommandFault>
    // The writers have gained exactly the answer, its proof and the root's line.
    ensures proved { OnOk result (IfBoth (R.remaining input.old) (Q.remaining query.old)
        (λ file bytes.
        (p : Publication) × (text : List ℕ) × (nodes : List ℕ)
        × IsProvedIn file bytes edition p text nodes
        × Appends (A.contents answer.old) (A.contents answer.new) text
        × Appends (P.contents proof.old) (P.contents proof.new) nodes
        × Appends (W.contents output.old) (W.contents output.new) (publication_line p))) }
    // Nothing is held back then.
    ensures flushed { OnOk result ((A.is_flushed answer.new ≡ true)
        × (P.is_flushed proof.new ≡ true)
        × (W.is_flushed output.new ≡ true)) }
    // Answer and proof are in their places.
    ensures placed { OnOk result ((A.is_in_place answer.new ≡ true)
        × (P.is_in_place proof.new ≡ true)) }
    // What has an answer is answered, unless memory or a device fails, the query never ends, or the trees can't be made.
    ensures only { IfBoth (R.remaining input.old) (Q.remaining query.old)
        (λ file bytes. (text : List ℕ) (answer : IsAnswer forms.Opl file bytes text)
        → IfErr result (IsOutsideFiles answer.set edition)) }
    // Which fault it is.
    ensures refused { IfBoth (R.remaining input.old) (Q.remaining query.old)
        (λ file bytes. IfErr result (ExplainsFiles file (R.remaining input.new) edition bytes)) }
    // The query is read only after the input, and where its trees are made.
    ensures query_later { (query.new ≡ query.old) ⊎ IfSome (R.remaining input.old)
        (λ file. HoldsTrees file edition) }
    // Nothing is written but where a device fails,
    ensures nothing { IfErr result (λ fault. fault ≢ CommandFault.Device
        → Keeps (A.contents answer.old) (A.contents answer.new)
        × Keeps (P.contents proof.old) (P.contents proof.new)
        × Keeps (W.contents output.old) (W.contents output.new)) }
    // and never anything but the three texts in their order: after one that lacks its end nothing.
    ensures begun { IfBoth (R.remaining input.old) (Q.remaining query.old) (λ file bytes.
        IsBegunProof file bytes edition
        (record { before = A.contents answer.old; after = A.contents answer.new })
        (record { before = P.contents proof.old; after = P.contents proof.new })
        (record { before = W.contents output.old; after = W.contents output.new })) }
{
    let snapshot = read_snapshot(alloc, input, edition, progress)?;
    let query = read_whole(alloc, query)?;
    let proved = osm_prove::prove(alloc, &snapshot, &query)?;
    let line = root_line(alloc, &proved.root)?;
    write_whole(answer, &proved.answer)?;
    write_whole(proof, &proved.proof)?;
    put_both_in_place(answer, proof)?;
    write_whole(output, line.as_bytes())
}
