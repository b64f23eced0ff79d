//! Writing a pack.

ghost use Rattle.std.specs.Io.KnownBytes.{Appends};
ghost use Rattle.std.specs.List.{AllByRecursion};
ghost use Rattle.std.specs.Prelude.{◌≡◌, ◌≢◌, ◌≤◌, ◌^◌, Err, IfErr, IfOk, List};
ghost use Rattle.byte_io.specs.Written.{AppendsFront};
ghost use Rattle.tree_node.specs.Shelves.{Stays};
ghost use Rattle.node_pack.specs.Packs.{AreApart, Kept, pack, pack_len};
ghost use Rattle.node_pack.specs.Reached.{ArePacked, IsReason};
ghost use Rattle.node_pack.specs.internal.Gathering.{HasShortNode, IsMeasured, IsPackFault, kepts};

use crate::gather::gather;
use crate::gathered::Gathered;
use crate::header::{Header, VERSION};
use crate::layout::{lay_out, place_of};
use crate::place::Place;
use crate::records::{append_header, write_records};
use crate::write_fault::WriteFault;
use byte_io::write_whole;
use std::alloc::Global;
use std::collections::HashMap;
use std::io::Write;
use tree_node::{Digest, Shelf};

/// Writes the pack of all nodes under a root, and gives its length in bytes, at most 2^48. A node is fetched once for each
/// reference to it, and its record written once. The writer gets small pieces and isn't flushed, so a buffered one serves. Beside
/// what the shelf takes, memory is taken for each node, not for its bytes: some 150 bytes and 32 for each child.
///
/// Refused with `Missing` where the shelf lacks a node, with `Malformed` where a node isn't what refers to it says, with `TooLong`
/// where a record would have 2^32 bytes or more or the pack more than 2^48, and where memory is refused: nothing is written then.
/// Refused with `NotWritten` where the writer fails or takes nothing: a beginning of the pack is written then.
pub fn write_pack<'a, S: Shelf<'a>, W: Write>(
    alloc: Global,
    shelf: &mut S,
    root: &Digest,
    writer: &mut W,
) -> Result<u64, WriteFault>
    // What is written is a pack of just the nodes under the root, and all of it.
    ensures written { IfOk result
        (λ len. (nodes : List Kept) × ArePacked (S.holds shelf.new) root.now.0 nodes
        × Appends (W.contents writer.old) (W.contents writer.new) (pack root.now.0 nodes)
        × (len ≡ pack_len nodes)) }
    // Each refusal has its reason, unless it is the writer's.
    ensures refused { IfErr result (λ fault. fault ≢ WriteFault.NotWritten
        → IsReason (S.holds shelf.new) root.now.0 fault) }
    // Where the writer fails, no more than a beginning of the pack is written, and nothing where another thing is at fault.
    ensures begun { result ≡ Err WriteFault.NotWritten
        → (nodes : List Kept) × ArePacked (S.holds shelf.new) root.now.0 nodes
        × AppendsFront (W.contents writer.old) (W.contents writer.new) (pack root.now.0 nodes) }
    ensures untouched { IfErr result
        (λ fault. fault ≢ WriteFault.NotWritten → writer.new ≡ writer.old) }
    // What is held stays held, and on a fixed shelf nothing else comes to be held.
    ensures stays { Stays S.is_fixed (S.holds shelf.old) (S.holds shelf.new) }
{
    let nodes = gather(alloc, shelf, root)?;
    write_nodes(alloc, root, nodes.as_slice(), writer)
}

/// Writes the pack of these nodes.
fn write_nodes<W: Write>(
    alloc: Global,
    root: &Digest,
    nodes: &[Gathered<'_>],
    writer: &mut W,
) -> Result<u64, WriteFault>
    requires measured { AllByRecursion IsMeasured nodes.now }
    requires short { AllByRecursion HasShortNode nodes.now }
    requires apart { AreApart (kepts nodes.now) }
    ensures written { IfOk result (λ len. Appends (W.contents writer.old) (W.contents writer.new)
        (pack root.now.0 (kepts nodes.now))) }
    ensures len { IfOk result (λ len. (len ≡ pack_len (kepts nodes.now)) × (len ≤ 2 ^ 48)) }
    ensures refused { IfErr result
        (IsPackFault root.now.0 (kepts nodes.now) (W.contents writer.old) (W.contents writer.new)
        (writer.new ≡ writer.old)) }
{
    let mut places = HashMap::new(alloc);
    let size = lay_out(0, nodes, &mut places)?;
    let header = Header {
        root: *root,
        size,
        manifest: place_of(&places, root),
    };
    let mut front = Vec::new(alloc);
    append_header(VERSION, &header, &mut front)?;
    write_whole(writer, front.as_slice())?;
    write_records(nodes, &places, writer)?;
    Ok(size)
}
