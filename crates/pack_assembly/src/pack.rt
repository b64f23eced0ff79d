//! Writing a pack of levels.

ghost use Rattle.std.specs.Prelude.{◌≡◌, ◌≢◌, ◌⊎◌, ◌≤◌, ◌+◌, ◌-◌, ◌^◌, [], ◌∷◌, ◌++◌, Err, IfErr, IfOk, IfSome, IsSome, OnErr, OnOk, false, true, ℕ};
ghost use Rattle.std.specs.Io.KnownBytes.{Appends};
ghost use Rattle.std.specs.List.{Contains, flat_map};
ghost use Rattle.byte_io.specs.Written.{AppendsFront};
ghost use Rattle.external_sort.specs.Sorting.{Holds};
ghost use Rattle.osm_keys.specs.Publications.{IsNodeIn, IsPublication, Publication, root_of};
ghost use Rattle.tree_node.specs.Outcomes.{Clash};
ghost use Rattle.node_pack.specs.Packs.{AreApart, record_len};
ghost use Rattle.pack_assembly.specs.Levels.{AreLevelsOf};
ghost use Rattle.pack_assembly.specs.Packing.{HasBegun, IsPacked, IsTooLong};
ghost use Rattle.pack_assembly.specs.internal.Keys.{key_entries};
ghost use Rattle.pack_assembly.specs.internal.Order.{all_kepts, digests_of, lens, manifest_kept, nodes_in, rows_in};
ghost use Rattle.pack_assembly.specs.internal.Placing.{AreHeightsOf, HasRowAt, IsReady, rest_of, row_bytes, rows_bytes, top_table, tops_table};

use crate::apart::check_apart;
use crate::digests::{push_digest, push_row};
use crate::fault::AssemblyFault;
use crate::front::{HEADER_LEN, front_of, manifest_record_len};
use crate::layout::{Layout, PlacedRow, lay_out, row_at};
use crate::level::write_level;
use crate::refusal::Refusal;
use crate::row::{Row, rows_of_heights};
use crate::table::write_table;
use crate::trees::BuiltTrees;
use crate::unwritten::Unwritten;
use byte_io::write_whole;
use external_sort::{RunStore, Sorter};
use std::alloc::Global;
use std::io::Write;
use tree_node::{Digest, Tree, digest_of};
use tree_stream::NodeLevels;

/// Writes the pack of four trees whose levels can be read again, and gives the root. The records have the order of
/// docs/FORMATS.md. Each level is gone through three times: its nodes once, to write them, and once more, from the second
/// level up, for the digests of the nodes below; its lengths twice. The sorter takes the digest of each node, to see that no
/// two nodes share one. The writer gets small pieces and isn't flushed, so a buffered one serves. Memory is taken for one node,
/// and some 24 bytes for each level.
///
/// # Errors
///
/// `Clash` where two different nodes have one digest; then `TooLong` where a record would have 2^32 bytes or more or the pack
/// more than 2^48; `Memory` where memory is refused before anything is written; `Device` where the levels or the sorter refuse,
/// or give back what they weren't given; `NotWritten` where the writer fails or takes nothing, and where the levels find no
/// memory for a node while the pack is written. A beginning of the pack may be written after the last two, and nothing is
/// after the others.
pub fn write_pack_of_levels<L: NodeLevels, S: RunStore, W: Write>(
    alloc: Global,
    trees: &BuiltTrees,
    levels: &mut L,
    digests: Sorter<S>,
    writer: &mut W,
) -> Result<Digest, AssemblyFault>
    // What is written is a pack of the publication, and the root is given.
    ensures written { L.is_true ≡ true → S.is_true ≡ true → Holds S.runs S.in_hand digests []
        → (p : Publication) → IsPublication p → AreLevelsOf p trees.now (L.nodes levels.old)
        → IfOk result
        (λ root. (root.0 ≡ root_of p)
        × IsPacked p (W.contents writer.old) (W.contents writer.new)) }
    // Two different nodes of the publication have one digest where it says so,
    ensures clash { result ≡ Err AssemblyFault.Clash → L.is_true ≡ true → S.is_true ≡ true
        → Holds S.runs S.in_hand digests [] → (p : Publication) → IsPublication p
        → AreLevelsOf p trees.now (L.nodes levels.old) → Clash (IsNodeIn p) (IsNodeIn p) }
    // and its nodes are too long for a pack where it says that.
    ensures too_long { result ≡ Err AssemblyFault.TooLong → L.is_true ≡ true → S.is_true ≡ true
        → Holds S.runs S.in_hand digests [] → (p : Publication) → IsPublication p
        → AreLevelsOf p trees.now (L.nodes levels.old) → IsTooLong p }
    // Nothing is written but where the device or the writer fails,
    ensures untouched { IfErr result
        (λ fault. fault ≢ AssemblyFault.Device → fault ≢ AssemblyFault.NotWritten
        → writer.new ≡ writer.old) }
    // and then no more than a beginning of the pack.
    ensures begun { L.is_true ≡ true → S.is_true ≡ true → Holds S.runs S.in_hand digests []
        → (p : Publication) → IsPublication p → AreLevelsOf p trees.now (L.nodes levels.old)
        → OnErr result
        (HasBegun p (W.contents writer.old) (W.contents writer.new) ⊎ (writer.new ≡ writer.old)) }
    // Where no device refuses and each gives back what it was given, none is at fault.
    ensures device { L.may_refuse ≡ false → S.may_refuse ≡ false → L.is_true ≡ true
        → S.is_true ≡ true
        → Holds S.runs S.in_hand digests [] → (p : Publication) → IsPublication p
        → AreLevelsOf p trees.now (L.nodes levels.old) → result ≢ Err AssemblyFault.Device }
{
    let manifest = trees.manifest(alloc)?;
    let root = digest_of(manifest.as_slice());
    let rows = rows_of_heights(alloc, &trees.heights)?;
    let mut node = Vec::new(alloc);
    let first = HEADER_LEN + u64::from(manifest_record_len(manifest.as_slice()));
    let placed = lay_out_apart(
        alloc,
        trees,
        &root,
        rows.as_slice(),
        first,
        levels,
        &mut node,
        digests,
    );
    match placed {
        Ok(layout) => {
            let front = front_of(alloc, &root, layout.size, manifest.as_slice())?;
            write_parts(
                front.as_slice(),
                layout.rows.as_slice(),
                trees,
                levels,
                &mut node,
                writer,
            )?;
            Ok(root)
        }
        Err(fault) => Err(fault),
    }
}

/// Lays out the levels of trees whose nodes have digests of their own.
///
/// Refused with `Clash` where they don't, and then as laying out is.
fn lay_out_apart<L: NodeLevels, S: RunStore>(
    alloc: Global,
    trees: &BuiltTrees,
    root: &Digest,
    rows: &[Row],
    first: u64,
    levels: &mut L,
    node: &mut Vec<u8>,
    digests: Sorter<S>,
) -> Result<Layout, AssemblyFault>
    requires { first ≤ 2 ^ 48 }
    ensures ready { L.is_true ≡ true → S.is_true ≡ true → Holds S.runs S.in_hand digests []
        → (p : Publication) → IsPublication p → AreLevelsOf p trees.now (L.nodes levels.old)
        → root.now.0 ≡ root_of p → rows.now ≡ rows_in p → first ≡ 60 + record_len (manifest_kept p)
        → IfOk result
        (λ layout. IsReady p (L.nodes levels.old) layout.rows.items
        × (layout.size ≡ 60 + lens (all_kepts p))) }
    ensures clash { result ≡ Err AssemblyFault.Clash → L.is_true ≡ true → S.is_true ≡ true
        → Holds S.runs S.in_hand digests [] → (p : Publication) → IsPublication p
        → AreLevelsOf p trees.now (L.nodes levels.old) → root.now.0 ≡ root_of p
        → rows.now ≡ rows_in p
        → Clash (IsNodeIn p) (IsNodeIn p) }
    ensures too_long { result ≡ Err AssemblyFault.TooLong → L.is_true ≡ true → S.is_true ≡ true
        → Holds S.runs S.in_hand digests [] → (p : Publication) → IsPublication p
        → AreLevelsOf p trees.now (L.nodes levels.old) → root.now.0 ≡ root_of p
        → rows.now ≡ rows_in p
        → first ≡ 60 + record_len (manifest_kept p) → IsTooLong p }
    ensures device { L.is_true ≡ true → L.may_refuse ≡ false → S.is_true ≡ true
        → S.may_refuse ≡ false
        → Holds S.runs S.in_hand digests [] → (p : Publication) → IsPublication p
        → AreLevelsOf p trees.now (L.nodes levels.old) → root.now.0 ≡ root_of p
        → rows.now ≡ rows_in p
        → result ≢ Err AssemblyFault.Device }
    ensures nodes { OnOk result (L.nodes levels.new ≡ L.nodes levels.old) }
{
    match check_nodes(trees, root, rows, levels, node, digests) {
        Ok(()) => lay_out(alloc, rows, first, levels),
        Err(fault) => Err(fault),
    }
}

/// Refused with `Clash` where two different nodes have one digest.
fn check_nodes<L: NodeLevels, S: RunStore>(
    trees: &BuiltTrees,
    root: &Digest,
    rows: &[Row],
    levels: &mut L,
    node: &mut Vec<u8>,
    mut digests: Sorter<S>,
) -> Result<(), AssemblyFault>
    ensures apart { L.is_true ≡ true → S.is_true ≡ true → Holds S.runs S.in_hand digests []
        → (p : Publication) → IsPublication p → AreLevelsOf p trees.now (L.nodes levels.old)
        → root.now.0 ≡ root_of p → rows.now ≡ rows_in p → OnOk result (AreApart (all_kepts p)) }
    ensures clash { result ≡ Err AssemblyFault.Clash → L.is_true ≡ true → S.is_true ≡ true
        → Holds S.runs S.in_hand digests [] → (p : Publication) → IsPublication p
        → AreLevelsOf p trees.now (L.nodes levels.old) → root.now.0 ≡ root_of p
        → rows.now ≡ rows_in p
        → Clash (IsNodeIn p) (IsNodeIn p) }
    ensures short { result ≢ Err AssemblyFault.TooLong }
    ensures device { L.is_true ≡ true → L.may_refuse ≡ false → S.is_true ≡ true
        → S.may_refuse ≡ false
        → Holds S.runs S.in_hand digests [] → (p : Publication) → IsPublication p
        → AreLevelsOf p trees.now (L.nodes levels.old) → root.now.0 ≡ root_of p
        → rows.now ≡ rows_in p
        → result ≢ Err AssemblyFault.Device }
    ensures nodes { OnOk result (L.nodes levels.new ≡ L.nodes levels.old) }
{
    push_nodes(trees, root, rows, levels, node, &mut digests)?;
    check_apart(digests)
}

/// Pushes the digests of the manifest and of all nodes.
fn push_nodes<L: NodeLevels, S: RunStore>(
    trees: &BuiltTrees,
    root: &Digest,
    rows: &[Row],
    levels: &mut L,
    node: &mut Vec<u8>,
    digests: &mut Sorter<S>,
) -> Result<(), Refusal>
    ensures held { L.is_true ≡ true → (p : Publication) → IsPublication p
        → AreLevelsOf p trees.now (L.nodes levels.old)
        → rows.now ≡ rows_in p
        → OnOk result (Holds S.runs S.in_hand digests.old [] → Holds S.runs S.in_hand digests.new
        (key_entries (root.now.0 ∷ flat_map (λ row. digests_of (nodes_in p row)) rows.now))) }
    ensures device { L.is_true ≡ true → L.may_refuse ≡ false → S.may_refuse ≡ false
        → (p : Publication)
        → IsPublication p → AreLevelsOf p trees.now (L.nodes levels.old)
        → result ≢ Err Refusal.Device }
    ensures nodes { OnOk result (L.nodes levels.new ≡ L.nodes levels.old) }
{
    push_digest(root, digests)?;
    for row in rows {
        push_row(trees, *row, levels, node, digests)?;
    }
    Ok(())
}

/// Writes the front of the pack, the places of the tops and the records of all levels.
fn write_parts<L: NodeLevels, W: Write>(
    front: &[u8],
    rows: &[PlacedRow],
    trees: &BuiltTrees,
    levels: &mut L,
    node: &mut Vec<u8>,
    writer: &mut W,
) -> Result<(), Unwritten>
    ensures whole { L.is_true ≡ true → (p : Publication) → IsReady p (L.nodes levels.old) rows.now
        → AreHeightsOf p trees.now.heights
        → OnOk result
        (Appends (W.contents writer.old) (W.contents writer.new) (front.now ++ rest_of p)) }
    ensures begun { L.is_true ≡ true → (p : Publication) → IsReady p (L.nodes levels.old) rows.now
        → AreHeightsOf p trees.now.heights
        → AppendsFront (W.contents writer.old) (W.contents writer.new) (front.now ++ rest_of p) }
    ensures device { L.is_true ≡ true → L.may_refuse ≡ false → (p : Publication)
        → IsReady p (L.nodes levels.old) rows.now → AreHeightsOf p trees.now.heights
        → result ≢ Err Unwritten.Device }
{
    write_whole(writer, front)?;
    write_tops(rows, trees, levels, writer)?;
    write_rows(rows, levels, node, writer)
}

/// Writes the places of the four tops.
fn write_tops<L: NodeLevels, W: Write>(
    rows: &[PlacedRow],
    trees: &BuiltTrees,
    levels: &mut L,
    writer: &mut W,
) -> Result<(), Unwritten>
    ensures whole { L.is_true ≡ true → (p : Publication) → IsReady p (L.nodes levels.old) rows.now
        → AreHeightsOf p trees.now.heights
        → OnOk result (Appends (W.contents writer.old) (W.contents writer.new) (tops_table p)) }
    ensures begun { L.is_true ≡ true → (p : Publication) → IsReady p (L.nodes levels.old) rows.now
        → AreHeightsOf p trees.now.heights
        → AppendsFront (W.contents writer.old) (W.contents writer.new) (tops_table p) }
    ensures device { L.is_true ≡ true → L.may_refuse ≡ false → (p : Publication)
        → IsReady p (L.nodes levels.old) rows.now → AreHeightsOf p trees.now.heights
        → result ≢ Err Unwritten.Device }
    ensures nodes { OnOk result (L.nodes levels.new ≡ L.nodes levels.old) }
{
    write_top(rows, Tree::Objects, trees, levels, writer)?;
    write_top(rows, Tree::Tags, trees, levels, writer)?;
    write_top(rows, Tree::Cells, trees, levels, writer)?;
    write_top(rows, Tree::Backs, trees, levels, writer)
}

/// Writes the place of the top of a tree: the one node of its last level.
fn write_top<L: NodeLevels, W: Write>(
    rows: &[PlacedRow],
    tree: Tree,
    trees: &BuiltTrees,
    levels: &mut L,
    writer: &mut W,
) -> Result<(), Unwritten>
    ensures whole { L.is_true ≡ true → (p : Publication) → IsReady p (L.nodes levels.old) rows.now
        → AreHeightsOf p trees.now.heights
        → OnOk result (Appends (W.contents writer.old) (W.contents writer.new) (top_table p tree)) }
    ensures begun { L.is_true ≡ true → (p : Publication) → IsReady p (L.nodes levels.old) rows.now
        → AreHeightsOf p trees.now.heights
        → AppendsFront (W.contents writer.old) (W.contents writer.new) (top_table p tree) }
    ensures device { L.is_true ≡ true → L.may_refuse ≡ false → (p : Publication)
        → IsReady p (L.nodes levels.old) rows.now → AreHeightsOf p trees.now.heights
        → result ≢ Err Unwritten.Device }
    ensures nodes { OnOk result (L.nodes levels.new ≡ L.nodes levels.old) }
{
    let level = trees.height(tree).saturating_sub(1);
    let Some(mut at) = row_at(rows, tree, level) else {
        return Err(Unwritten::Device);
    };
    levels.rewind(tree, level);
    write_table(Row { tree, level }, 1, &mut at, levels, writer)
}

/// Writes the records of all levels.
fn write_rows<L: NodeLevels, W: Write>(
    rows: &[PlacedRow],
    levels: &mut L,
    node: &mut Vec<u8>,
    writer: &mut W,
) -> Result<(), Unwritten>
    ensures whole { L.is_true ≡ true → (p : Publication) → IsReady p (L.nodes levels.old) rows.now
        → OnOk result
        (Appends (W.contents writer.old) (W.contents writer.new) (rows_bytes p rows.now)) }
    ensures begun { L.is_true ≡ true → (p : Publication) → IsReady p (L.nodes levels.old) rows.now
        → AppendsFront (W.contents writer.old) (W.contents writer.new) (rows_bytes p rows.now) }
    ensures device { L.is_true ≡ true → L.may_refuse ≡ false → (p : Publication)
        → IsReady p (L.nodes levels.old) rows.now → result ≢ Err Unwritten.Device }
{
    for placed in rows {
        write_row(placed.row, rows, levels, node, writer)?;
    }
    Ok(())
}

/// Writes the records of a level.
fn write_row<L: NodeLevels, W: Write>(
    row: Row,
    rows: &[PlacedRow],
    levels: &mut L,
    node: &mut Vec<u8>,
    writer: &mut W,
) -> Result<(), Unwritten>
    ensures whole { L.is_true ≡ true → (p : Publication) → IsReady p (L.nodes levels.old) rows.now
        → Contains (rows_in p) row
        → OnOk result (Appends (W.contents writer.old) (W.contents writer.new) (row_bytes p row)) }
    ensures begun { L.is_true ≡ true → (p : Publication) → IsReady p (L.nodes levels.old) rows.now
        → Contains (rows_in p) row
        → AppendsFront (W.contents writer.old) (W.contents writer.new) (row_bytes p row) }
    ensures device { L.is_true ≡ true → L.may_refuse ≡ false → (p : Publication)
        → IsReady p (L.nodes levels.old) rows.now → Contains (rows_in p) row
        → result ≢ Err Unwritten.Device }
    ensures nodes { OnOk result (L.nodes levels.new ≡ L.nodes levels.old) }
{
    let Some(below) = below_row(row, rows) else {
        return Err(Unwritten::Device);
    };
    write_level(row, below, levels, node, writer)
}

/// Where the first record of the level below a row stands; leaves have none.
fn below_row(row: Row, rows: &[PlacedRow]) -> Option<u64>
    ensures at { row.level ≢ 0 → IfSome result (HasRowAt rows.now row.tree (row.level - 1)) }
    ensures there { (at : ℕ) → HasRowAt rows.now row.tree (row.level - 1) at → IsSome result }
{
    if row.level == 0 {
        return Some(0);
    }
    row_at(rows, row.tree, row.level - 1)
}
