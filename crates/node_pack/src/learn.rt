//! Where the children of a node stand.

ghost use Rattle.std.specs.HashMap.{hash_map_len};
ghost use Rattle.std.specs.List.{AllByRecursion};
ghost use Rattle.std.specs.Prelude.{◌≡◌, ◌≤◌, ◌<◌, ◌+◌, ◌^◌, ◌⊎◌, ℕ, IfOk, List, OnOk, Option, Some, length};
ghost use Rattle.node_pack.specs.Known.{AreTrue, IsKnown, IsPlaced, IsTable};
ghost use Rattle.node_pack.specs.Packs.{HasChildren, Kept, digests_of, node_in, record_bytes};
ghost use Rattle.node_pack.specs.declared.place.Place.{Place};

use crate::children::list_children;
use crate::place::Place;
use crate::read_at::ReadFault;
use crate::record::split_record;
use std::alloc::{AllocError, Global};
use std::collections::HashMap;
use tree_node::Digest;

/// How many bytes a file has at most, 2^48. In files that are read as one the offsets of each begin at its number times this.
pub const FILE_LIMIT: u64 = 281_474_976_710_656;

/// Remembers where the children of a record's node stand, if the node has no more than so many bytes: those that stand below a
/// limit. Their digests are listed in `children` meanwhile.
pub(crate) fn learn(
    bytes: &[u8],
    at_most: usize,
    limit: u64,
    children: &mut Vec<Digest>,
    places: &mut HashMap<Digest, Place>,
) -> Result<(), ReadFault>
    ensures keeps { (key : List ℕ) → IsKnown places.old key → IsKnown places.new key }
    ensures long { at_most < length (node_in bytes.now) → places.new ≡ places.old }
    ensures trues { (place_of : List ℕ → Option Place) (kept : Kept) → AreTrue place_of places.old
        → bytes.now ≡ record_bytes place_of kept → HasChildren kept.bytes kept.children
        → AllByRecursion (IsPlaced place_of limit) kept.children → length kept.bytes < 2 ^ 32
        → AreTrue place_of places.new }
    ensures learned { (place_of : List ℕ → Option Place) (kept : Kept) → AreTrue place_of places.old
        → bytes.now ≡ record_bytes place_of kept → HasChildren kept.bytes kept.children
        → AllByRecursion (IsPlaced place_of limit) kept.children → length kept.bytes < 2 ^ 32
        → length kept.bytes ≤ at_most
        → OnOk result (AllByRecursion (IsKnown places.new) kept.children) }
{
    let (node, table) = split_record(bytes);
    if node.len() > at_most {
        return Ok(());
    }
    list_children(node, children)?;
    learn_places(children.as_slice(), table, limit, places)
}

/// Remembers the places of these children below a limit, as many as the table has.
fn learn_places(
    children: &[Digest],
    table: &[u8],
    limit: u64,
    places: &mut HashMap<Digest, Place>,
) -> Result<(), ReadFault>
    ensures keeps { (key : List ℕ) → IsKnown places.old key → IsKnown places.new key }
    ensures trues { (place_of : List ℕ → Option Place) → AreTrue place_of places.old
        → IsTable place_of limit (digests_of children.now) table.now → AreTrue place_of places.new }
    ensures learned { (place_of : List ℕ → Option Place) → AreTrue place_of places.old
        → IsTable place_of limit (digests_of children.now) table.now
        → OnOk result (AllByRecursion (IsKnown places.new) (digests_of children.now)) }
{
    let mut rest = table;
    for child in children {
        let Some((place, after)) = Place::split(rest) else {
            return Ok(());
        };
        remember(*child, place, limit, places)?;
        rest = after;
    }
    Ok(())
}

/// The places that are known before any node was read: that of the node with the root, if it is below a limit.
pub(crate) fn first_places(
    alloc: Global,
    root: Digest,
    manifest: Place,
    limit: u64,
) -> Result<HashMap<Digest, Place>, AllocError>
    ensures only { IfOk result (λ places. (key : List ℕ) → IsKnown places key → key ≡ root.0) }
    ensures few { IfOk result (λ places. hash_map_len places ≤ 1) }
    ensures trues { (place_of : List ℕ → Option Place) → place_of root.0 ≡ Some manifest
        → IfOk result (AreTrue place_of) }
    ensures known { manifest.at < limit → IfOk result (λ places. IsKnown places root.0) }
{
    let mut places = HashMap::new(alloc);
    remember(root, manifest, limit, &mut places)?;
    Ok(places)
}

/// Remembers a place, if it is below a limit.
fn remember(
    key: Digest,
    place: Place,
    limit: u64,
    places: &mut HashMap<Digest, Place>,
) -> Result<(), AllocError>
    ensures keeps { (other : List ℕ) → IsKnown places.old other → IsKnown places.new other }
    ensures only { (other : List ℕ) → IsKnown places.new other
        → IsKnown places.old other ⊎ (other ≡ key.0) }
    ensures one { hash_map_len places.new ≤ hash_map_len places.old + 1 }
    ensures trues { (place_of : List ℕ → Option Place) → AreTrue place_of places.old
        → place_of key.0 ≡ Some place → AreTrue place_of places.new }
    ensures known { place.at < limit → OnOk result (IsKnown places.new key.0) }
{
    if place.at < limit {
        places.insert(key, place)?;
    }
    Ok(())
}
