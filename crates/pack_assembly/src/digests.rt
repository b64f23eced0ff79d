//! The digests of all nodes.

ghost use Rattle.std.specs.Prelude.{◌≡◌, ◌≢◌, ◌<◌, ◌≤◌, ◌^◌, ◌∷◌, ◌++◌, [], ℕ, Err, List, OnOk, false, length, map, true};
ghost use Rattle.std.specs.List.{AllByRecursion, Contains, flat_map};
ghost use Rattle.external_sort.specs.Records.{Entry};
ghost use Rattle.external_sort.specs.Sorting.{Holds};
ghost use Rattle.osm_keys.specs.Publications.{IsPublication, Publication};
ghost use Rattle.tree_node.specs.Nodes.{IsNode, Link, Node, Spells, level_of};
ghost use Rattle.node_pack.specs.Packs.{child_digests};
ghost use Rattle.pack_assembly.specs.Levels.{AreLevelsOf};
ghost use Rattle.pack_assembly.specs.internal.Keys.{key_entries, key_entry};
ghost use Rattle.pack_assembly.specs.internal.Order.{digests_of, nodes_in, rows_in, spellings};
ghost use Rattle.pack_assembly.specs.internal.Placing.{IsOfLevel};

use crate::record::LEVEL_CALLS;
use crate::refusal::Refusal;
use crate::row::Row;
use crate::trees::BuiltTrees;
use external_sort::{RunStore, Sorter};
use tree_node::{Children, Digest, NodeRef, Tree};
use tree_stream::NodeLevels;

/// Pushes the digests of the nodes of a row: that of a top is known, and those of other nodes stand in the nodes one level up.
pub(crate) fn push_row<L: NodeLevels, S: RunStore>(
    trees: &BuiltTrees,
    row: Row,
    levels: &mut L,
    node: &mut Vec<u8>,
    digests: &mut Sorter<S>,
) -> Result<(), Refusal>
    ensures held { L.is_true ≡ true → (p : Publication) → IsPublication p
        → AreLevelsOf p trees.now (L.nodes levels.old)
        → Contains (rows_in p) row
        → OnOk result ((records : List Entry) → Holds S.runs S.in_hand digests.old records
        → Holds S.runs S.in_hand digests.new
        (records ++ key_entries (digests_of (nodes_in p row)))) }
    ensures device { L.is_true ≡ true → L.may_refuse ≡ false → S.may_refuse ≡ false
        → (p : Publication)
        → IsPublication p → AreLevelsOf p trees.now (L.nodes levels.old)
        → result ≢ Err Refusal.Device }
    ensures nodes { OnOk result (L.nodes levels.new ≡ L.nodes levels.old) }
{
    if row.level >= trees.height(row.tree).saturating_sub(1) {
        return push_digest(&trees.top(row.tree), digests);
    }
    push_below(row.tree, row.level + 1, levels, node, digests)
}

/// Pushes the digests of the children of all nodes of a level.
fn push_below<L: NodeLevels, S: RunStore>(
    tree: Tree,
    level: u8,
    levels: &mut L,
    node: &mut Vec<u8>,
    digests: &mut Sorter<S>,
) -> Result<(), Refusal>
    ensures held { L.is_true ≡ true → (nodes : List Node) → AllByRecursion IsNode nodes
        → L.nodes levels.old tree level ≡ spellings nodes
        → OnOk result ((records : List Entry) → Holds S.runs S.in_hand digests.old records
        → Holds S.runs S.in_hand digests.new
        (records ++ key_entries (flat_map child_digests nodes))) }
    ensures device { L.is_true ≡ true → L.may_refuse ≡ false → S.may_refuse ≡ false
        → (nodes : List Node)
        → AllByRecursion (IsOfLevel level) nodes → 0 < level
        → L.nodes levels.old tree level ≡ spellings nodes
        → length nodes ≤ 2 ^ 29 → result ≢ Err Refusal.Device }
    ensures nodes { OnOk result (L.nodes levels.new ≡ L.nodes levels.old) }
{
    levels.rewind(tree, level);
    for _ in 0..LEVEL_CALLS {
        if !levels.next_node(tree, level, node)? {
            return Ok(());
        }
        push_children(node.as_slice(), digests)?;
    }
    Err(Refusal::Device)
}

/// Pushes the digests of the children of an inner node.
fn push_children<S: RunStore>(node: &[u8], digests: &mut Sorter<S>) -> Result<(), Refusal>
    ensures held { (inner : Node) → Spells node.now inner
        → OnOk result ((records : List Entry) → Holds S.runs S.in_hand digests.old records
        → Holds S.runs S.in_hand digests.new (records ++ key_entries (child_digests inner))) }
    ensures device { S.may_refuse ≡ false → (inner : Node) → Spells node.now inner
        → 0 < level_of inner
        → result ≢ Err Refusal.Device }
{
    match NodeRef::read(node) {
        Ok(
            NodeRef::Inner {
                tree: _,
                level: _,
                children,
            },
        ) => push_links(children, digests),
        Ok(
            NodeRef::Leaf {
                tree: _,
                entries: _,
            },
        )
        | Err(_) => Err(Refusal::Device),
    }
}

/// Pushes the digests of these children.
fn push_links<S: RunStore>(children: Children<'_>, digests: &mut Sorter<S>) -> Result<(), Refusal>
    ensures held { OnOk result ((records : List Entry) → Holds S.runs S.in_hand digests.old records
        → Holds S.runs S.in_hand digests.new
        (records ++ key_entries (map (λ (link : Link). link.child) children.entry))) }
    ensures device { S.may_refuse ≡ false → result ≢ Err Refusal.Device }
{
    for child in children {
        push_digest(&child.digest, digests)?;
    }
    Ok(())
}

/// Pushes a digest.
pub(crate) fn push_digest<S: RunStore>(key: &Digest, digests: &mut Sorter<S>) -> Result<(), Refusal>
    ensures held { OnOk result ((records : List Entry) → Holds S.runs S.in_hand digests.old records
        → Holds S.runs S.in_hand digests.new (records ++ key_entry key.now.0 ∷ [])) }
    ensures device { S.may_refuse ≡ false → result ≢ Err Refusal.Device }
{
    digests.push(&key.0, &[])?;
    Ok(())
}
