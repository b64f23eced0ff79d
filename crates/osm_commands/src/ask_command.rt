//! The command `ask QUERY`.

ghost use Rattle.std.specs.Prelude.{◌≡◌, ◌≢◌, ℕ, List, IfErr, IfSome, OnOk, true};
ghost use Rattle.std.specs.Io.KnownBytes.{Appends, Keeps};
ghost use Rattle.osm_commands.specs.Ask.{Explains, IsAnswer, IsBegun, ask_edition};
ghost use Rattle.osm_commands.specs.TreeRoots.{IsOutsideOrTrees};

use crate::command_fault::CommandFault;
use crate::document_writer::write_document;
use crate::flushing_writer::FlushingWriter;
use crate::snapshot_reader::read_snapshot;
use osm_check::{Told, tell};
use osm_forms::Form;
use osm_index::{BuildProgress, Edition};
use osm_prove::prove;
use std::alloc::Global;
use std::io::Read;

/// Reads the input as the OPL text of a set of objects, and writes the query's answer over that set, in this form: the
/// document of its meaning, which in OPL is the objects' lines and nothing else. The query is these bytes as they stand;
/// what its settings ask for doesn't matter. The proof of the answer is made, and what is written is what this proof
/// shows under the set's root; the root is that of edition 2 with sequence number 0.
///
/// # Errors
///
/// The input is looked at first, then its trees, then the query. `Opl` where the input holds no set of
/// objects, or was read 2^32 times without an end; `TooMany` where a tree of the set would have more than 2^29
/// entries, else `Clash` where two different nodes of the trees have one digest; `Query` where the query
/// doesn't read; `Memory` where an allocation was refused; `Device` where a read failed, or a write failed or
/// took nothing. Nothing is written then, but where the output failed a beginning of the answer. The input is
/// left where it stood.
///
/// Clauses that speak of the input's bytes do so where the reader tells them.
pub fn ask<R: Read, B: BuildProgress, W: FlushingWriter>(
    alloc: Global,
    form: Form,
    query: &[u8],
    input: &mut R,
    progress: &mut B,
    output: &mut W,
) -> Result<(), CommandFault>
    // The output has gained exactly the answer.
    ensures answered { OnOk result (IfSome (R.remaining input.old) (λ file. (document : List ℕ)
        × IsAnswer form file query.now document × Appends (W.contents output.old)
        (W.contents output.new) document)) }
    // Nothing is held back then.
    ensures flushed { OnOk result (W.is_flushed output.new ≡ true) }
    // What has an answer is answered, unless memory or a device fails, or the trees can't be made.
    ensures only { IfSome (R.remaining input.old) (λ file.
        (document : List ℕ) (answer : IsAnswer form file query.now document)
        → IfErr result (IsOutsideOrTrees answer.set ask_edition)) }
    // Which fault it is.
    ensures refused { IfSome (R.remaining input.old) (λ file.
        IfErr result (Explains file (R.remaining input.new) ask_edition query.now)) }
    // Nothing is written but where a device fails,
    ensures nothing { IfErr result (λ fault. fault ≢ CommandFault.Device
        → Keeps (W.contents output.old) (W.contents output.new)) }
    // and never anything but a beginning of the answer.
    ensures begun { IfSome (R.remaining input.old) (λ file.
        IsBegun form file query.now (W.contents output.old) (W.contents output.new)) }
{
    let edition = Edition::Two { sequence: 0 };
    let snapshot = read_snapshot(alloc, input, edition, progress)?;
    let proved = prove(alloc, &snapshot, query)?;
    match tell(alloc, form, query, &proved.root, &proved.proof)? {
        Told::Answer { text, report: _ } => write_document(output, form, &text),
        Told::No(_) => unreachable!("an honest proof shows the answer"),
    }
}
