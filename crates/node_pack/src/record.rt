//! Records: a node after its length, and the places of its children.

ghost use Rattle.std.specs.Prelude.{◌≡◌, ◌++◌, ◌+◌, ℕ, List, OnErr, OnOk, drop, min, take};
ghost use Rattle.node_pack.specs.Packs.{node_in};
ghost use Rattle.node_pack.specs.internal.Reading.{table_in};

use crate::place::Place;
use crate::read_at::{ReadAt, ReadFault};
use tree_node::ITEM_LIMIT;

/// How many bytes a record has at most beside its node: the length of the node, and a place for each child.
const RECORD_MORE: usize = 4 + 12 * ITEM_LIMIT;

/// Reads the record at a place of a file of this size, in place of what was read, as far as it can be that of a node of at most
/// so many bytes.
pub(crate) fn read_record<F: ReadAt>(
    file: &mut F,
    size: u64,
    place: Place,
    at_most: usize,
    record: &mut Vec<u8>,
) -> Result<(), ReadFault>
    ensures read { (bytes : List ℕ) → F.reads file.old bytes → OnOk result
        («record».new.items ≡ take (min place.len (at_most + 772)) (drop place.at bytes)) }
    ensures stays { (bytes : List ℕ) → F.reads file.old bytes → F.reads file.new bytes }
{
    record.clear();
    let len = (place.len as usize).min(at_most.saturating_add(RECORD_MORE));
    if place.at > size || len as u64 > size - place.at {
        return Err(ReadFault::Device);
    }
    file.read_at(place.at, len, record)
}

/// Appends the node of a record, or one byte more than so many of it.
pub(crate) fn append_node(bytes: &[u8], at_most: usize, into: &mut Vec<u8>) -> Result<(), ReadFault>
    ensures appended { OnOk result
        (into.new.items ≡ into.old.items ++ take (at_most + 1) (node_in bytes.now)) }
    ensures unchanged { OnErr result (into.new.items ≡ into.old.items) }
{
    let (node, _) = split_record(bytes);
    let len = node.len().min(at_most.saturating_add(1));
    into.extend_from_slice(&node[..len])?;
    Ok(())
}

/// The node of a record, and the table after it. Where the record ends before the node does, what there is of it counts.
pub(crate) fn split_record(bytes: &[u8]) -> (&[u8], &[u8])
    ensures node { result.0.now ≡ node_in bytes.now }
    ensures table { result.1.now ≡ table_in bytes.now }
{
    match bytes.split_first_chunk() {
        Some((len, rest)) => {
            let len = u32::from_be_bytes(*len) as usize;
            rest.split_at(len.min(rest.len()))
        }
        None => (b"", b""),
    }
}
