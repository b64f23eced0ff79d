//! The command `publish FILE [--edition 1|2] [--sequence N]`.

ghost use Rattle.std.specs.Prelude.{◌≡◌, ◌≢◌, IfErr, IfSome, List, OnOk, true};
ghost use Rattle.std.specs.Io.KnownBytes.{Appends, Keeps};
ghost use Rattle.osm_model.specs.Elements.{Element};
ghost use Rattle.opl_codec.specs.Files.{HoldsSet};
ghost use Rattle.osm_keys.specs.Publications.{Publication};
ghost use Rattle.osm_commands.specs.TreeRoots.{ExplainsTrees, IsBegunTreeRoot, IsOutsideOrTrees, IsPublicationIn, publication_line};

use crate::command_fault::CommandFault;
use crate::flushing_writer::FlushingWriter;
use crate::root_lines::root_line;
use crate::snapshot_reader::read_snapshot;
use crate::whole_writer::write_whole;
use osm_index::{BuildProgress, Edition};
use std::alloc::Global;
use std::io::Read;

/// Reads the input as the OPL text of a set of objects, and writes the set's root in this edition: 64
/// hexadecimal digits in lower case, and LF.
///
/// # Errors
///
/// `Opl` where the input holds no set of objects, or was read 2^32 times without an end; `TooMany` where a
/// tree of the set would have more than 2^29 entries, else `Clash` where two different nodes of the trees have
/// one digest; `Memory` where an allocation was refused; `Device` where a read failed, or a write failed or
/// took nothing. Nothing is written then, but where the output failed a beginning of the line. The input is
/// left where it stood.
///
/// Clauses that speak of the input's bytes do so where the reader tells them.
pub fn publish<R: Read, B: BuildProgress, W: FlushingWriter>(
    alloc: Global,
    input: &mut R,
    edition: Edition,
    progress: &mut B,
    output: &mut W,
) -> Result<(), CommandFault>
    // The output has gained exactly the line of the root of a publication of the set that the file holds.
    ensures published { OnOk result (IfSome (R.remaining input.old) (λ file. (p : Publication)
        × IsPublicationIn file edition p × Appends (W.contents output.old) (W.contents output.new)
        (publication_line p))) }
    // Nothing is held back then.
    ensures flushed { OnOk result (W.is_flushed output.new ≡ true) }
    // What holds a set is published, unless memory or a device fails, or its trees can't be made.
    ensures only { IfSome (R.remaining input.old) (λ file. (set : List Element) → HoldsSet file set
        → IfErr result (IsOutsideOrTrees set edition)) }
    // Which fault it is.
    ensures refused { IfSome (R.remaining input.old) (λ file.
        IfErr result (ExplainsTrees file (R.remaining input.new) edition)) }
    // Nothing is written but where a device fails,
    ensures nothing { IfErr result (λ fault. fault ≢ CommandFault.Device
        → Keeps (W.contents output.old) (W.contents output.new)) }
    // and never anything but a beginning of the line.
    ensures begun { IfSome (R.remaining input.old) (λ file.
        IsBegunTreeRoot file edition (W.contents output.old) (W.contents output.new)) }
{
    let snapshot = read_snapshot(alloc, input, edition, progress)?;
    let line = root_line(alloc, snapshot.root())?;
    write_whole(output, line.as_bytes())
}
