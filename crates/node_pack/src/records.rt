//! Writing the parts of a pack.

ghost use Rattle.std.specs.Io.KnownBytes.{Appends};
ghost use Rattle.std.specs.List.{AllByRecursion, flat_map};
ghost use Rattle.std.specs.Prelude.{◌≡◌, ◌++◌, ◌<◌, ◌^◌, OnOk, length};
ghost use Rattle.byte_io.specs.Written.{AppendsFront};
ghost use Rattle.node_pack.specs.Headers.{header_with};
ghost use Rattle.node_pack.specs.Packs.{digests_of, record_bytes, table};
ghost use Rattle.node_pack.specs.Places.{place_bytes};
ghost use Rattle.node_pack.specs.internal.Gathering.{HasShortNode, kept_of, kepts, place_by};

use crate::gathered::Gathered;
use crate::header::{Header, MAGIC};
use crate::layout::place_of;
use crate::place::Place;
use byte_io::{NotWritten, write_whole};
use std::alloc::AllocError;
use std::collections::HashMap;
use std::io::Write;
use tree_node::Digest;

/// Appends the bytes of a header with this version, which has two reserved bytes after it.
pub(crate) fn append_header(
    version: u32,
    header: &Header,
    out: &mut Vec<u8>,
) -> Result<(), AllocError>
    ensures { OnOk result (out.new.items ≡ out.old.items ++ header_with version header.now) }
{
    out.extend_from_slice(&MAGIC.to_be_bytes())?;
    out.extend_from_slice(&version.to_be_bytes())?;
    out.extend_from_slice(&header.root.0)?;
    out.extend_from_slice(&header.size.to_be_bytes())?;
    out.extend_from_slice(&header.manifest.at.to_be_bytes())?;
    out.extend_from_slice(&header.manifest.len.to_be_bytes())
}

/// Writes the records of these nodes.
pub(crate) fn write_records<W: Write>(
    nodes: &[Gathered<'_>],
    places: &HashMap<Digest, Place>,
    writer: &mut W,
) -> Result<(), NotWritten>
    requires { AllByRecursion HasShortNode nodes.now }
    ensures whole { OnOk result (Appends (W.contents writer.old) (W.contents writer.new)
        (flat_map (record_bytes (place_by places.now)) (kepts nodes.now))) }
    ensures begun { AppendsFront (W.contents writer.old) (W.contents writer.new)
        (flat_map (record_bytes (place_by places.now)) (kepts nodes.now)) }
{
    for node in nodes {
        write_record(node, places, writer)?;
    }
    Ok(())
}

/// Writes a record: the length of the node, the node, the places of its children.
fn write_record<W: Write>(
    node: &Gathered<'_>,
    places: &HashMap<Digest, Place>,
    writer: &mut W,
) -> Result<(), NotWritten>
    requires { HasShortNode node.now }
    ensures whole { OnOk result (Appends (W.contents writer.old) (W.contents writer.new)
        (record_bytes (place_by places.now) (kept_of node.now))) }
    ensures begun { AppendsFront (W.contents writer.old) (W.contents writer.new)
        (record_bytes (place_by places.now) (kept_of node.now)) }
{
    write_whole(writer, &(node.bytes.len() as u32).to_be_bytes())?;
    write_whole(writer, node.bytes)?;
    write_table(node.children.as_slice(), places, writer)
}

/// Writes the places of these children.
fn write_table<W: Write>(
    children: &[Digest],
    places: &HashMap<Digest, Place>,
    writer: &mut W,
) -> Result<(), NotWritten>
    ensures whole { OnOk result (Appends (W.contents writer.old) (W.contents writer.new)
        (table (place_by places.now) (digests_of children.now))) }
    ensures begun { AppendsFront (W.contents writer.old) (W.contents writer.new)
        (table (place_by places.now) (digests_of children.now)) }
{
    for child in children {
        write_place(place_of(places, child), writer)?;
    }
    Ok(())
}

/// Writes a place.
fn write_place<W: Write>(place: Place, writer: &mut W) -> Result<(), NotWritten>
    ensures whole { OnOk result (Appends (W.contents writer.old) (W.contents writer.new)
        (place_bytes place)) }
    ensures begun { AppendsFront (W.contents writer.old) (W.contents writer.new)
        (place_bytes place) }
{
    write_whole(writer, &place.at.to_be_bytes())?;
    write_whole(writer, &place.len.to_be_bytes())
}
