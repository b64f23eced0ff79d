//! Writing the records of a level.

ghost use Rattle.std.specs.Prelude.{◌≡◌, ◌≢◌, ◌≤◌, ◌-◌, ◌^◌, ◌∷◌, ℕ, Err, List, OnOk, Option, Some, drop, false, length, true};
ghost use Rattle.std.specs.Io.KnownBytes.{Appends};
ghost use Rattle.std.specs.List.{flat_map};
ghost use Rattle.byte_io.specs.Written.{AppendsFront};
ghost use Rattle.tree_node.specs.Nodes.{Node, Spells, level_of, spelling};
ghost use Rattle.tree_node.specs.Trees.{links_in};
ghost use Rattle.node_pack.specs.Packs.{child_digests, record_bytes, table};
ghost use Rattle.node_pack.specs.declared.place.Place.{Place};
ghost use Rattle.pack_assembly.specs.internal.Order.{kept_of, kepts_of, spellings};
ghost use Rattle.pack_assembly.specs.internal.Placing.{AreParentsOf};

use crate::record::LEVEL_CALLS;
use crate::row::Row;
use crate::table::write_table;
use crate::unwritten::Unwritten;
use byte_io::write_whole;
use std::io::Write;
use tree_node::NodeRef;
use tree_stream::NodeLevels;

/// A node has at most this many bytes, since its length has four.
const NODE_LIMIT: usize = 4_294_967_295;

/// Writes the records of all nodes of a level. Those of the level below stand from `below` on.
pub(crate) fn write_level<L: NodeLevels, W: Write>(
    row: Row,
    below: u64,
    levels: &mut L,
    node: &mut Vec<u8>,
    writer: &mut W,
) -> Result<(), Unwritten>
    ensures whole { L.is_true ≡ true → (place_of : List ℕ → Option Place) (nodes lower : List Node)
        → L.nodes levels.old row.tree row.level ≡ spellings nodes
        → AreParentsOf place_of (L.nodes levels.old row.tree (row.level - 1)) row below nodes lower
        → OnOk result (Appends (W.contents writer.old) (W.contents writer.new)
        (flat_map (record_bytes place_of) (kepts_of nodes))) }
    ensures begun { L.is_true ≡ true → (place_of : List ℕ → Option Place) (nodes lower : List Node)
        → L.nodes levels.old row.tree row.level ≡ spellings nodes
        → AreParentsOf place_of (L.nodes levels.old row.tree (row.level - 1)) row below nodes lower
        → AppendsFront (W.contents writer.old) (W.contents writer.new)
        (flat_map (record_bytes place_of) (kepts_of nodes)) }
    ensures nodes { OnOk result (L.nodes levels.new ≡ L.nodes levels.old) }
    ensures device { L.is_true ≡ true → L.may_refuse ≡ false
        → (place_of : List ℕ → Option Place) (nodes lower : List Node)
        → L.nodes levels.old row.tree row.level ≡ spellings nodes
        → AreParentsOf place_of (L.nodes levels.old row.tree (row.level - 1)) row below nodes lower
        → length nodes ≤ 2 ^ 29 → result ≢ Err Unwritten.Device }
{
    rewind_both(row, levels);
    let mut at = below;
    for _ in 0..LEVEL_CALLS {
        if !levels.next_node(row.tree, row.level, node)? {
            return Ok(());
        }
        write_record(row, node.as_slice(), &mut at, levels, writer)?;
    }
    Err(Unwritten::Device)
}

/// The level of the children of the nodes of a row.
fn lower_row(row: Row) -> Row
    ensures tree { result.tree ≡ row.tree }
    ensures level { result.level ≡ row.level - 1 }
{
    Row {
        tree: row.tree,
        level: row.level.saturating_sub(1),
    }
}

/// Goes back to the first node of a level, and to the first length of the level below.
fn rewind_both<L: NodeLevels>(row: Row, levels: &mut L)
    ensures nodes { L.nodes levels.new ≡ L.nodes levels.old }
    ensures unread { L.unread levels.new row.tree row.level
        ≡ L.nodes levels.old row.tree row.level }
    ensures unmeasured { L.unmeasured levels.new row.tree (row.level - 1)
        ≡ L.nodes levels.old row.tree (row.level - 1) }
{
    let lower = lower_row(row);
    levels.rewind(lower.tree, lower.level);
    levels.rewind(row.tree, row.level);
}

/// Writes the record of a node: its length, the node, the places of its children.
fn write_record<L: NodeLevels, W: Write>(
    row: Row,
    node: &[u8],
    at: &mut u64,
    levels: &mut L,
    writer: &mut W,
) -> Result<(), Unwritten>
    ensures whole { L.is_true ≡ true
        → (place_of : List ℕ → Option Place) (own : Node) (others lower : List Node)
        → node.now ≡ spelling own
        → AreParentsOf place_of (L.unmeasured levels.old row.tree (row.level - 1)) row at.old
        (own ∷ others) lower
        → OnOk result
        (Appends (W.contents writer.old) (W.contents writer.new)
        (record_bytes place_of (kept_of own))) }
    ensures past { L.is_true ≡ true
        → (place_of : List ℕ → Option Place) (own : Node) (others lower : List Node)
        → node.now ≡ spelling own
        → AreParentsOf place_of (L.unmeasured levels.old row.tree (row.level - 1)) row at.old
        (own ∷ others) lower
        → OnOk result
        (AreParentsOf place_of (L.unmeasured levels.new row.tree (row.level - 1)) row at.new others
        (drop (length (links_in own)) lower)) }
    ensures begun { L.is_true ≡ true
        → (place_of : List ℕ → Option Place) (own : Node) (others lower : List Node)
        → node.now ≡ spelling own
        → AreParentsOf place_of (L.unmeasured levels.old row.tree (row.level - 1)) row at.old
        (own ∷ others) lower
        → AppendsFront (W.contents writer.old) (W.contents writer.new)
        (record_bytes place_of (kept_of own)) }
    ensures nodes { OnOk result (L.nodes levels.new ≡ L.nodes levels.old) }
    ensures unread { OnOk result (L.unread levels.new ≡ L.unread levels.old) }
    ensures device { L.is_true ≡ true → L.may_refuse ≡ false
        → (place_of : List ℕ → Option Place) (own : Node) (others lower : List Node)
        → node.now ≡ spelling own
        → AreParentsOf place_of (L.unmeasured levels.old row.tree (row.level - 1)) row at.old
        (own ∷ others) lower
        → result ≢ Err Unwritten.Device }
{
    if node.len() > NODE_LIMIT {
        return Err(Unwritten::Device);
    }
    let Some(count) = child_count(row, node) else {
        return Err(Unwritten::Device);
    };
    write_whole(writer, &(node.len() as u32).to_be_bytes())?;
    write_whole(writer, node)?;
    write_children(row, count, at, levels, writer)
}

/// Writes the places of the children of a node that has so many.
fn write_children<L: NodeLevels, W: Write>(
    row: Row,
    count: usize,
    at: &mut u64,
    levels: &mut L,
    writer: &mut W,
) -> Result<(), Unwritten>
    ensures whole { L.is_true ≡ true
        → (place_of : List ℕ → Option Place) (own : Node) (others lower : List Node)
        → AreParentsOf place_of (L.unmeasured levels.old row.tree (row.level - 1)) row at.old
        (own ∷ others) lower
        → count ≡ length (links_in own)
        → OnOk result
        (Appends (W.contents writer.old) (W.contents writer.new)
        (table place_of (child_digests own))) }
    ensures past { L.is_true ≡ true
        → (place_of : List ℕ → Option Place) (own : Node) (others lower : List Node)
        → AreParentsOf place_of (L.unmeasured levels.old row.tree (row.level - 1)) row at.old
        (own ∷ others) lower
        → count ≡ length (links_in own)
        → OnOk result
        (AreParentsOf place_of (L.unmeasured levels.new row.tree (row.level - 1)) row at.new others
        (drop count lower)) }
    ensures begun { L.is_true ≡ true
        → (place_of : List ℕ → Option Place) (own : Node) (others lower : List Node)
        → AreParentsOf place_of (L.unmeasured levels.old row.tree (row.level - 1)) row at.old
        (own ∷ others) lower
        → count ≡ length (links_in own)
        → AppendsFront (W.contents writer.old) (W.contents writer.new)
        (table place_of (child_digests own)) }
    ensures nodes { OnOk result (L.nodes levels.new ≡ L.nodes levels.old) }
    ensures unread { OnOk result (L.unread levels.new ≡ L.unread levels.old) }
    ensures device { L.is_true ≡ true → L.may_refuse ≡ false
        → (place_of : List ℕ → Option Place) (own : Node) (others lower : List Node)
        → AreParentsOf place_of (L.unmeasured levels.old row.tree (row.level - 1)) row at.old
        (own ∷ others) lower
        → count ≡ length (links_in own) → result ≢ Err Unwritten.Device }
{
    if count == 0 {
        return Ok(());
    }
    write_table(lower_row(row), count, at, levels, writer)
}

/// How many children a node of a row has. Leaves have none, and aren't read.
fn child_count(row: Row, node: &[u8]) -> Option<usize>
    ensures { (own : Node) → Spells node.now own → level_of own ≡ row.level
        → result ≡ Some (length (links_in own)) }
{
    if row.level == 0 {
        return Some(0);
    }
    match NodeRef::read(node) {
        Ok(
            NodeRef::Inner {
                tree: _,
                level: _,
                children,
            },
        ) => Some(children.count()),
        Ok(
            NodeRef::Leaf {
                tree: _,
                entries: _,
            },
        )
        | Err(_) => None,
    }
}
