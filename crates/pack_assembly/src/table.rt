//! The places of children.

ghost use Rattle.std.specs.Prelude.{◌≡◌, ◌≢◌, ◌≤◌, ◌∷◌, [], ℕ, Err, List, OnOk, Option, false, length, take, drop, true};
ghost use Rattle.std.specs.Io.KnownBytes.{Appends};
ghost use Rattle.byte_io.specs.Written.{AppendsFront};
ghost use Rattle.tree_node.specs.Nodes.{Node};
ghost use Rattle.node_pack.specs.Packs.{table};
ghost use Rattle.node_pack.specs.Places.{place_bytes};
ghost use Rattle.node_pack.specs.declared.place.Place.{Place};
ghost use Rattle.pack_assembly.specs.internal.Order.{digests_of};
ghost use Rattle.pack_assembly.specs.internal.Placing.{IsAmong};

use crate::record::record_len;
use crate::row::Row;
use crate::unwritten::Unwritten;
use byte_io::{NotWritten, write_whole};
use node_pack::Place;
use std::io::Write;
use tree_stream::NodeLevels;

/// Writes the places of this many nodes of a level, from the next on whose length wasn't read. Its record stands at `at`, which
/// moves on to the one after the last.
pub(crate) fn write_table<L: NodeLevels, W: Write>(
    row: Row,
    count: usize,
    at: &mut u64,
    levels: &mut L,
    writer: &mut W,
) -> Result<(), Unwritten>
    ensures whole { L.is_true ≡ true → (place_of : List ℕ → Option Place) (nodes : List Node)
        → IsAmong place_of (L.unmeasured levels.old row.tree row.level) at.old nodes
        → count ≤ length nodes
        → OnOk result
        (Appends (W.contents writer.old) (W.contents writer.new)
        (table place_of (digests_of (take count nodes)))) }
    ensures past { L.is_true ≡ true → (place_of : List ℕ → Option Place) (nodes : List Node)
        → IsAmong place_of (L.unmeasured levels.old row.tree row.level) at.old nodes
        → count ≤ length nodes
        → OnOk result
        (IsAmong place_of (L.unmeasured levels.new row.tree row.level) at.new (drop count nodes)) }
    ensures begun { L.is_true ≡ true → (place_of : List ℕ → Option Place) (nodes : List Node)
        → IsAmong place_of (L.unmeasured levels.old row.tree row.level) at.old nodes
        → count ≤ length nodes
        → AppendsFront (W.contents writer.old) (W.contents writer.new)
        (table place_of (digests_of (take count nodes))) }
    ensures nodes { OnOk result (L.nodes levels.new ≡ L.nodes levels.old) }
    ensures unread { OnOk result (L.unread levels.new ≡ L.unread levels.old) }
    ensures device { L.is_true ≡ true → L.may_refuse ≡ false
        → (place_of : List ℕ → Option Place) (nodes : List Node)
        → IsAmong place_of (L.unmeasured levels.old row.tree row.level) at.old nodes
        → count ≤ length nodes
        → result ≢ Err Unwritten.Device }
{
    for _ in 0..count {
        write_next_place(row, at, levels, writer)?;
    }
    Ok(())
}

/// Writes the place of the next node of a level, and moves on to the one after it.
fn write_next_place<L: NodeLevels, W: Write>(
    row: Row,
    at: &mut u64,
    levels: &mut L,
    writer: &mut W,
) -> Result<(), Unwritten>
    ensures whole { L.is_true ≡ true
        → (place_of : List ℕ → Option Place) (node : Node) (others : List Node)
        → IsAmong place_of (L.unmeasured levels.old row.tree row.level) at.old (node ∷ others)
        → OnOk result
        (Appends (W.contents writer.old) (W.contents writer.new)
        (table place_of (digests_of (node ∷ [])))) }
    ensures past { L.is_true ≡ true
        → (place_of : List ℕ → Option Place) (node : Node) (others : List Node)
        → IsAmong place_of (L.unmeasured levels.old row.tree row.level) at.old (node ∷ others)
        → OnOk result
        (IsAmong place_of (L.unmeasured levels.new row.tree row.level) at.new others) }
    ensures begun { L.is_true ≡ true
        → (place_of : List ℕ → Option Place) (node : Node) (others : List Node)
        → IsAmong place_of (L.unmeasured levels.old row.tree row.level) at.old (node ∷ others)
        → AppendsFront (W.contents writer.old) (W.contents writer.new)
        (table place_of (digests_of (node ∷ []))) }
    ensures nodes { OnOk result (L.nodes levels.new ≡ L.nodes levels.old) }
    ensures unread { OnOk result (L.unread levels.new ≡ L.unread levels.old) }
    ensures device { L.is_true ≡ true → L.may_refuse ≡ false
        → (place_of : List ℕ → Option Place) (node : Node) (others : List Node)
        → IsAmong place_of (L.unmeasured levels.old row.tree row.level) at.old (node ∷ others)
        → result ≢ Err Unwritten.Device }
{
    let Some(node) = levels.next_len(row.tree, row.level)? else {
        return Err(Unwritten::Device);
    };
    let Some(len) = record_len(node) else {
        return Err(Unwritten::Device);
    };
    write_place(Place { at: *at, len }, writer)?;
    *at = at.saturating_add(u64::from(len));
    Ok(())
}

/// Writes a place.
fn write_place<W: Write>(place: Place, writer: &mut W) -> Result<(), NotWritten>
    ensures whole { OnOk result (Appends (W.contents writer.old) (W.contents writer.new)
        (place_bytes place)) }
    ensures begun { AppendsFront (W.contents writer.old) (W.contents writer.new)
        (place_bytes place) }
{
    write_whole(writer, &place.at.to_be_bytes())?;
    write_whole(writer, &place.len.to_be_bytes())
}
