//! Where the records of a pack will stand.

ghost use Rattle.std.specs.Prelude.{◌≡◌, ◌≢◌, ◌⊎◌, ◌<◌, ◌≤◌, ◌+◌, ◌*◌, ◌^◌, Err, IfOk, IfSome, IsSome, List, MatchResult, OnOk, false, length, true, ℕ};
ghost use Rattle.std.specs.List.{AllByRecursion, flat_map};
ghost use Rattle.osm_keys.specs.Publications.{IsPublication, Publication};
ghost use Rattle.tree_stream.specs.ReadBack.{HasLen};
ghost use Rattle.tree_node.specs.Nodes.{IsNode, Node};
ghost use Rattle.pack_assembly.specs.internal.Order.{AreNodesOf, kepts_in, kepts_of, lens, spellings};
ghost use Rattle.pack_assembly.specs.internal.Placing.{AreLong, AreShort, HasRowAt, IsLaidOut};

use crate::fault::AssemblyFault;
use crate::record::{LEVEL_CALLS, record_len};
use crate::refusal::Refusal;
use crate::row::Row;
use std::alloc::Global;
use tree_node::Tree;
use tree_stream::{NodeLen, NodeLevels};

/// How many bytes a pack has at most, 2^48.
const FILE_LIMIT: u64 = 281_474_976_710_656;

/// A level, and the offset of its first record.
#[derive(Clone, Copy, Debug)]
pub(crate) struct PlacedRow {
    pub(crate) row: Row,
    pub(crate) at: u64,
}

/// All levels, each with the offset of its first record, and the length of the pack.
#[derive(Drop)]
pub(crate) struct Layout {
    pub(crate) rows: Vec<PlacedRow>,
    pub(crate) size: u64,
}

/// Lays out these levels one after the other from an offset on.
///
/// Refused with `TooLong` where a record would have 2^32 bytes or more, or where the pack would have more than 2^48.
pub(crate) fn lay_out<L: NodeLevels>(
    alloc: Global,
    rows: &[Row],
    first: u64,
    levels: &mut L,
) -> Result<Layout, AssemblyFault>
    requires { first ≤ 2 ^ 48 }
    ensures laid { L.is_true ≡ true → (p : Publication) → IsPublication p
        → AreNodesOf p (L.nodes levels.old)
        → IfOk result (IsLaidOut (kepts_in p) first rows.now) }
    ensures too_long { result ≡ Err AssemblyFault.TooLong → L.is_true ≡ true → (p : Publication)
        → IsPublication p
        → AreNodesOf p (L.nodes levels.old)
        → AreLong first (flat_map (kepts_in p) rows.now) }
    ensures clash { result ≢ Err AssemblyFault.Clash }
    ensures device { L.is_true ≡ true → L.may_refuse ≡ false → (p : Publication) → IsPublication p
        → AreNodesOf p (L.nodes levels.old) → result ≢ Err AssemblyFault.Device }
    ensures nodes { OnOk result (L.nodes levels.new ≡ L.nodes levels.old) }
{
    let mut placed = Vec::new(alloc);
    let mut at = first;
    for row in rows {
        placed.push(PlacedRow { row: *row, at })?;
        match end_of_row(*row, at, levels) {
            Ok(end) => at = end,
            Err(fault) => return Err(fault),
        }
    }
    Ok(Layout {
        rows: placed,
        size: at,
    })
}

/// Where the records of a level end that begin at this offset.
fn end_of_row<L: NodeLevels>(row: Row, start: u64, levels: &mut L) -> Result<u64, AssemblyFault>
    requires { start ≤ 2 ^ 48 }
    ensures end { L.is_true ≡ true → (nodes : List Node) → AllByRecursion IsNode nodes
        → L.nodes levels.old row.tree row.level ≡ spellings nodes
        → IfOk result (λ end. (end ≡ start + lens (kepts_of nodes)) × AreShort (kepts_of nodes)) }
    ensures short { IfOk result (λ end. end ≤ 2 ^ 48) }
    ensures too_long { result ≡ Err AssemblyFault.TooLong → L.is_true ≡ true → (nodes : List Node)
        → AllByRecursion IsNode nodes → L.nodes levels.old row.tree row.level ≡ spellings nodes
        → AreLong start (kepts_of nodes) }
    ensures clash { result ≢ Err AssemblyFault.Clash }
    ensures device { L.is_true ≡ true → L.may_refuse ≡ false → (nodes : List Node)
        → L.nodes levels.old row.tree row.level ≡ spellings nodes → length nodes ≤ 2 ^ 29
        → result ≢ Err AssemblyFault.Device }
    ensures nodes { OnOk result (L.nodes levels.new ≡ L.nodes levels.old) }
{
    levels.rewind(row.tree, row.level);
    let mut at = start;
    for _ in 0..LEVEL_CALLS {
        match next_len(row, levels)? {
            Some(len) => at = end_of_record(at, len)?,
            None => return Ok(at),
        }
    }
    Err(AssemblyFault::Device)
}

/// The length of the next node of a row.
fn next_len<L: NodeLevels>(row: Row, levels: &mut L) -> Result<Option<NodeLen>, Refusal>
    ensures measured { L.is_true ≡ true → IfOk result (λ len.
        HasLen (L.unmeasured levels.old) (L.unmeasured levels.new) row.tree row.level len) }
    ensures device { L.is_true ≡ true → L.may_refuse ≡ false → result ≢ Err Refusal.Device }
    ensures nodes { OnOk result (L.nodes levels.new ≡ L.nodes levels.old) }
{
    Ok(levels.next_len(row.tree, row.level)?)
}

/// Where the record of a node of this length ends that begins at this offset.
fn end_of_record(at: u64, len: NodeLen) -> Result<u64, AssemblyFault>
    requires { at ≤ 2 ^ 48 }
    ensures { MatchResult result
        (λ end. (end ≡ at + (4 + (len.bytes + 12 * len.children))) × (end ≤ 2 ^ 48)
        × (4 + (len.bytes + 12 * len.children) < 2 ^ 32))
        (λ fault. (fault ≡ AssemblyFault.TooLong)
        × ((2 ^ 32 ≤ 4 + (len.bytes + 12 * len.children))
        ⊎ (2 ^ 48 < at + (4 + (len.bytes + 12 * len.children))))) }
{
    let Some(len) = record_len(len) else {
        return Err(AssemblyFault::TooLong);
    };
    let end = at + u64::from(len);
    if end > FILE_LIMIT {
        return Err(AssemblyFault::TooLong);
    }
    Ok(end)
}

/// The offset of the first record of a level.
pub(crate) fn row_at(rows: &[PlacedRow], tree: Tree, level: u8) -> Option<u64>
    ensures at { IfSome result (HasRowAt rows.now tree level) }
    ensures there { (at : ℕ) → HasRowAt rows.now tree level at → IsSome result }
{
    for placed in rows {
        if placed.row.tree == tree && placed.row.level == level {
            return Some(placed.at);
        }
    }
    None
}
