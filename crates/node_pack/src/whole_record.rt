//! A record that was read whole.

ghost use Rattle.std.specs.Prelude.{◌≡◌, ◌<◌, ◌+◌, ◌*◌, ℕ, IfOk, List, MatchOption, Option, Some, drop, length};
ghost use Rattle.node_pack.specs.Packs.{Kept, node_in};
ghost use Rattle.node_pack.specs.Placed.{HasNodesAt};
ghost use Rattle.node_pack.specs.Places.{first_place};
ghost use Rattle.node_pack.specs.WholeRecords.{IsPlaceOfChild, IsRecordAt, bytes_in};
ghost use Rattle.node_pack.specs.internal.Reading.{table_in};

use crate::place::Place;
use crate::read_at::{ReadAt, ReadFault};
use crate::record::{read_record, split_record};
use std::alloc::Global;

/// How many bytes a place takes in the table of a record.
const PLACE_LEN: usize = 12;

/// The record of a node, as a file has it: the node, and where the records of its children stand. Nothing in it is trusted.
#[derive(Drop)]
pub struct Record {
    bytes: Vec<u8>,
}

impl Record {
    /// Reads the record at a place of a file, in one read. It takes no more memory than the file has bytes.
    ///
    /// Refused with `Device` where the device fails or the file ends before the record does, and where memory is refused.
    pub fn read<F: ReadAt>(alloc: Global, file: &mut F, place: Place) -> Result<Record, ReadFault>
        // Where these bytes have nodes at places, it is the record of the node at this one.
        ensures read { (bytes : List ℕ) (limit : ℕ) (place_of : List ℕ → Option Place)
            (nodes : List Kept) (key : List ℕ)
            → F.reads file.old bytes → HasNodesAt bytes limit place_of nodes
            → place_of key ≡ Some place
            → IfOk result (IsRecordAt place_of limit nodes key) }
        ensures stays { (bytes : List ℕ) → F.reads file.old bytes → F.reads file.new bytes }
    {
        let size = file.size()?;
        let mut bytes = Vec::new(alloc);
        read_record(file, size, place, place.len as usize, &mut bytes)?;
        Ok(Record { bytes })
    }

    /// The node. Where the record ends before it does, what there is of it counts.
    pub fn node(&self) -> &[u8]
        ensures value { result.now ≡ node_in (bytes_in self.now) }
        ensures given { (place_of : List ℕ → Option Place) (limit : ℕ) (nodes : List Kept)
            (key : List ℕ)
            → (is : IsRecordAt place_of limit nodes key self.now) → result.now ≡ is.kept.bytes }
    {
        let (node, _) = split_record(self.bytes.as_slice());
        node
    }

    /// Where the record of a child stands, by its number among the node's children; none after the last one.
    pub fn child_place(&self, number: usize) -> Option<Place>
        ensures value { MatchOption result
            (length (table_in (bytes_in self.now)) < 12 * number + 12)
            (λ place. place ≡ first_place (drop (12 * number) (table_in (bytes_in self.now)))) }
        ensures given { (place_of : List ℕ → Option Place) (limit : ℕ) (nodes : List Kept)
            (key : List ℕ)
            → (is : IsRecordAt place_of limit nodes key self.now) → number < length is.kept.children
            → IsPlaceOfChild place_of limit is.kept number result }
    {
        let (_, table) = split_record(self.bytes.as_slice());
        place_in(table, number)
    }
}

/// The place with this number in a table; none after its last one.
fn place_in(table: &[u8], number: usize) -> Option<Place>
    ensures { MatchOption result (length table.now < 12 * number + 12)
        (λ place. place ≡ first_place (drop (12 * number) table.now)) }
{
    let start = number.checked_mul(PLACE_LEN)?;
    let rest = table.get(start..)?;
    let (place, _) = Place::split(rest)?;
    Some(place)
}
