//! The set that an input holds, with its trees.

ghost use Rattle.std.specs.Prelude.{◌≡◌, IfErr, IfOk, IfSome, List, OnOk};
ghost use Rattle.osm_model.specs.Elements.{Element};
ghost use Rattle.opl_codec.specs.Files.{HoldsSet};
ghost use Rattle.osm_keys.specs.Publications.{Publication};
ghost use Rattle.osm_index.specs.Snapshots.{HoldsPublication};
ghost use Rattle.osm_commands.specs.Ask.{HoldsTrees};
ghost use Rattle.osm_commands.specs.TreeRoots.{ExplainsTrees, IsOutsideOrTrees, IsPublicationIn};

use crate::command_fault::CommandFault;
use opl_codec::read_set;
use osm_index::{BuildProgress, Edition, Snapshot};
use std::alloc::Global;
use std::io::Read;

/// Reads the input as the OPL text of a set of objects, and builds the set's trees in this edition. `progress` is told
/// which tree is begun.
///
/// Refused with `Opl` where the input holds no set of objects, or was read 2^32 times without an end;
/// `TooMany` where a tree of the set would have more than 2^29 entries, else `Clash` where two different nodes
/// of the trees have one digest; `Memory` where memory runs out; `Device` where a read fails.
pub fn read_snapshot<R: Read, B: BuildProgress>(
    alloc: Global,
    input: &mut R,
    edition: Edition,
    progress: &mut B,
) -> Result<Snapshot, CommandFault>
    // It holds a publication, which is one of the set that the file holds.
    ensures made { IfOk result (λ snapshot. (p : Publication) × HoldsPublication snapshot p
        × IfSome (R.remaining input.old) (λ file. IsPublicationIn file edition p)) }
    // So the file holds a set whose trees can be made.
    ensures trees { OnOk result (IfSome (R.remaining input.old) (λ file. HoldsTrees file edition)) }
    // What holds a set is made, unless memory or a device fails, or its trees can't be made.
    ensures only { IfSome (R.remaining input.old) (λ file. (set : List Element) → HoldsSet file set
        → IfErr result (IsOutsideOrTrees set edition)) }
    // Which fault it is.
    ensures refused { IfSome (R.remaining input.old) (λ file.
        IfErr result (ExplainsTrees file (R.remaining input.new) edition)) }
{
    let set = read_set(alloc, input)?;
    Ok(Snapshot::build_watched(alloc, set, edition, progress)?)
}
