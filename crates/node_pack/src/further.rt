//! Writing a further file.

ghost use Rattle.std.specs.HashMap.{IsEmpty};
ghost use Rattle.std.specs.Io.KnownBytes.{Appends};
ghost use Rattle.std.specs.List.{AllByRecursion, flat_map};
ghost use Rattle.std.specs.Prelude.{◌≡◌, ◌≢◌, ◌<◌, ◌↔◌, ◌++◌, ℕ, Err, IfErr, IfOk, IsTrue, List, OnOk, Option};
ghost use Rattle.byte_io.specs.Written.{AppendsFront};
ghost use Rattle.node_pack.specs.Additions.{AreFurther, AreNew, IsFurtherReason, bytes_of, earlier_place};
ghost use Rattle.node_pack.specs.Further.{IsFurther, further, further_header, further_records};
ghost use Rattle.node_pack.specs.Headers.{header_with};
ghost use Rattle.node_pack.specs.Known.{IsKnown};
ghost use Rattle.node_pack.specs.Packs.{Kept, record_bytes};
ghost use Rattle.node_pack.specs.declared.header.TheConstants.{FURTHER_VERSION};
ghost use Rattle.node_pack.specs.declared.place.Place.{Place};
ghost use Rattle.node_pack.specs.internal.Gathering.{HasShortNode, kepts, place_by};
ghost use Rattle.node_pack.specs.internal.Laying.{AreEarlier, AreFit, ArePut, HasNoPlace, HasPlaces, IsBesideFault, IsFit, IsLeft, IsLeftIn, IsNewIn, IsPutFault, IsReadFault, IsTextFault};

use crate::gathered::{Gathered, read_new};
use crate::header::{FURTHER_VERSION, Header};
use crate::layout::lay_out;
use crate::learn::FILE_LIMIT;
use crate::place::Place;
use crate::read_at::ReadAt;
use crate::records::{append_header, write_records};
use crate::source::PackSource;
use crate::write_fault::WriteFault;
use byte_io::write_whole;
use std::alloc::Global;
use std::collections::HashMap;
use std::io::Write;
use tree_node::{Digest, NewNode};

/// Writes the further file with these new nodes, in their order, which comes under a number beside the files that a source reads,
/// and gives what its header says: the root, the length of the file in bytes, at most 2^48, and the place of the manifest's record.
/// The writer gets small pieces and isn't flushed, so a buffered one serves. Memory is taken for each node, not for its bytes: some
/// 150 bytes and 84 for each child.
///
/// Refused with `Malformed` where the source knows a place of one of the nodes in a file before this one, where one is neither a node
/// of a tree nor a manifest, where two have one digest, and where none has the root; with `Missing` where a child is neither among the
/// nodes nor known to the source in a file before; with `TooLong` where a record would have 2^32 bytes or more or the file more than
/// 2^48; and where memory is refused. Nothing is written then. Refused with `NotWritten` where the writer fails or takes nothing: a
/// beginning of the file is written then.
pub fn write_further<F: ReadAt + Drop, W: Write>(
    alloc: Global,
    number: u16,
    root: &Digest,
    nodes: &[NewNode],
    known: &PackSource<F>,
    writer: &mut W,
) -> Result<Header, WriteFault>
    requires number { number < 65535 }
    // What is written is a further file of just these nodes, and all of it.
    ensures written { IfOk result (λ header. (added : List Kept)
        × AreFurther number (earlier_place number known.now) root.now.0 (bytes_of nodes.now) added
        × Appends (W.contents writer.old) (W.contents writer.new)
        (further number (earlier_place number known.now) root.now.0 added)
        × (header ≡ further_header number (earlier_place number known.now) root.now.0 added)) }
    // Each refusal has its reason, unless it is the writer's.
    ensures refused { IfErr result (λ fault. fault ≢ WriteFault.NotWritten
        → IsFurtherReason number (earlier_place number known.now) root.now.0
        (bytes_of nodes.now) fault) }
    // Where the writer fails, no more than a beginning of the file is written, and nothing where another thing is at fault.
    ensures begun { result ≡ Err WriteFault.NotWritten → (added : List Kept)
        × AreFurther number (earlier_place number known.now) root.now.0 (bytes_of nodes.now) added
        × AppendsFront (W.contents writer.old) (W.contents writer.new)
        (further number (earlier_place number known.now) root.now.0 added) }
    ensures untouched { IfErr result
        (λ fault. fault ≢ WriteFault.NotWritten → writer.new ≡ writer.old) }
{
    if !are_new(number, nodes, known) {
        return Err(WriteFault::Malformed);
    }
    let read = read_all(alloc, nodes)?;
    let listed = read.as_slice();
    let mut places = HashMap::new(alloc);
    let header = lay_beside(number, root, listed, known, &mut places)?;
    write_laid(alloc, &header, listed, &places, writer)?;
    Ok(header)
}

/// Whether none of these nodes has an earlier place.
fn are_new<F: ReadAt + Drop>(number: u16, nodes: &[NewNode], known: &PackSource<F>) -> bool
    ensures { IsTrue result ↔ AreNew (earlier_place number known.now) (bytes_of nodes.now) }
{
    for node in nodes {
        if earlier(number, &node.digest, known).is_some() {
            return false;
        }
    }
    true
}

/// These nodes with the digests of their children, in their order.
///
/// Refused with `Malformed` where one is neither a node of a tree nor a manifest, with `TooLong` where its record would have 2^32
/// bytes or more, and where memory is refused.
fn read_all(alloc: Global, nodes: &[NewNode]) -> Result<Vec<Gathered<'_>>, WriteFault>
    ensures read { IfOk result (λ read. AreFit (bytes_of nodes.now) read.items) }
    ensures refused { IfErr result (IsReadFault (bytes_of nodes.now)) }
{
    let mut read = Vec::new(alloc);
    for node in nodes {
        let new = read_new(alloc, node)?;
        read.push(new)?;
    }
    Ok(read)
}

/// Puts the places of these nodes and of their children into an empty map, and gives the header of their file.
///
/// Refused with `TooLong` where the file would have more than 2^48 bytes, with `Malformed` where two nodes have one digest and where
/// none has the root, with `Missing` where a child has neither a place in the file nor an earlier one, and where memory is refused.
fn lay_beside<F: ReadAt + Drop>(
    number: u16,
    root: &Digest,
    nodes: &[Gathered<'_>],
    known: &PackSource<F>,
    places: &mut HashMap<Digest, Place>,
) -> Result<Header, WriteFault>
    requires number { number < 65535 }
    requires fit { AllByRecursion IsFit nodes.now }
    requires fresh { AllByRecursion (IsNewIn (earlier_place number known.now)) (kepts nodes.now) }
    requires empty { IsEmpty places.old }
    ensures header { IfOk result (λ header. header
        ≡ further_header number (earlier_place number known.now) root.now.0 (kepts nodes.now)) }
    ensures records { OnOk result (flat_map (record_bytes (place_by places.new)) (kepts nodes.now)
        ≡ further_records number (earlier_place number known.now) (kepts nodes.now)) }
    ensures is_further { OnOk result
        (IsFurther (further number (earlier_place number known.now) root.now.0 (kepts nodes.now))
        number (earlier_place number known.now) root.now.0 (kepts nodes.now)) }
    ensures refused { IfErr result
        (IsBesideFault number (earlier_place number known.now) root.now.0 nodes.now) }
{
    let size = lay_out(number, nodes, places)?;
    let Some(manifest) = places.get(root) else {
        return Err(WriteFault::Malformed);
    };
    let header = Header {
        root: *root,
        size,
        manifest: *manifest,
    };
    put_all(number, nodes, known, places)?;
    Ok(header)
}

/// Puts the earlier places of these nodes' children into the map, except for children that have a place there.
///
/// Refused with `Missing` where a child has neither, and where memory is refused.
fn put_all<F: ReadAt + Drop>(
    number: u16,
    nodes: &[Gathered<'_>],
    known: &PackSource<F>,
    places: &mut HashMap<Digest, Place>,
) -> Result<(), WriteFault>
    ensures keeps { (key : List ℕ) → IsKnown places.old key → IsKnown places.new key }
    ensures put { (place_of : List ℕ → Option Place) → ArePut place_of places.old
        → AreEarlier place_of (earlier_place number known.now) places.old
        → ArePut place_of places.new }
    ensures known { OnOk result (AllByRecursion (HasPlaces places.new) nodes.now) }
    ensures refused { IfErr result
        (IsPutFault (IsLeftIn (earlier_place number known.now) places.old nodes.now)) }
{
    for node in nodes {
        put_children(number, node.children.as_slice(), known, places)?;
    }
    Ok(())
}

/// Puts the earlier places of these children into the map, except for those that have a place there.
///
/// Refused with `Missing` where a child has neither, and where memory is refused.
fn put_children<F: ReadAt + Drop>(
    number: u16,
    children: &[Digest],
    known: &PackSource<F>,
    places: &mut HashMap<Digest, Place>,
) -> Result<(), WriteFault>
    ensures keeps { (key : List ℕ) → IsKnown places.old key → IsKnown places.new key }
    ensures put { (place_of : List ℕ → Option Place) → ArePut place_of places.old
        → AreEarlier place_of (earlier_place number known.now) places.old
        → ArePut place_of places.new }
    ensures known { OnOk result
        (AllByRecursion (λ child. IsKnown places.new child.0) children.now) }
    ensures refused { IfErr result
        (IsPutFault (IsLeft (earlier_place number known.now) places.old children.now)) }
{
    for child in children {
        put_child(number, child, known, places)?;
    }
    Ok(())
}

/// Puts the earlier place of a child into the map, unless it has a place there.
///
/// Refused with `Missing` where it has neither, and where memory is refused.
fn put_child<F: ReadAt + Drop>(
    number: u16,
    child: &Digest,
    known: &PackSource<F>,
    places: &mut HashMap<Digest, Place>,
) -> Result<(), WriteFault>
    ensures keeps { (key : List ℕ) → IsKnown places.old key → IsKnown places.new key }
    ensures put { (place_of : List ℕ → Option Place) → ArePut place_of places.old
        → AreEarlier place_of (earlier_place number known.now) places.old
        → ArePut place_of places.new }
    ensures known { OnOk result (IsKnown places.new child.now.0) }
    ensures refused { IfErr result
        (IsPutFault (HasNoPlace (earlier_place number known.now) places.old child.now.0)) }
{
    if places.contains_key(child) {
        return Ok(());
    }
    let Some(place) = earlier(number, child, known) else {
        return Err(WriteFault::Missing);
    };
    places.insert(*child, place)?;
    Ok(())
}

/// The place that a source knows of a node in a file before the one with this number.
fn earlier<F: ReadAt + Drop>(number: u16, key: &Digest, known: &PackSource<F>) -> Option<Place>
    ensures { result ≡ earlier_place number known.now key.now.0 }
{
    let place = known.place(key)?;
    if place.at < u64::from(number) * FILE_LIMIT {
        Some(place)
    } else {
        None
    }
}

/// Writes a header and the records of these nodes.
fn write_laid<W: Write>(
    alloc: Global,
    header: &Header,
    nodes: &[Gathered<'_>],
    places: &HashMap<Digest, Place>,
    writer: &mut W,
) -> Result<(), WriteFault>
    requires { AllByRecursion HasShortNode nodes.now }
    ensures whole { OnOk result (Appends (W.contents writer.old) (W.contents writer.new)
        (header_with FURTHER_VERSION header.now ++ flat_map (record_bytes (place_by places.now))
        (kepts nodes.now))) }
    ensures refused { IfErr result (IsTextFault
        (header_with FURTHER_VERSION header.now ++ flat_map (record_bytes (place_by places.now))
        (kepts nodes.now))
        (W.contents writer.old) (W.contents writer.new) (writer.new ≡ writer.old)) }
{
    let mut front = Vec::new(alloc);
    append_header(FURTHER_VERSION, header, &mut front)?;
    write_whole(writer, front.as_slice())?;
    write_records(nodes, places, writer)?;
    Ok(())
}
