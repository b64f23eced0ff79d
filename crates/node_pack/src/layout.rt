//! Where the records of a file will stand.

ghost use Rattle.std.specs.HashMap.{IsEmpty, get};
ghost use Rattle.std.specs.List.{AllByRecursion};
ghost use Rattle.std.specs.Prelude.{◌≡◌, ◌<◌, ◌≤◌, ◌+◌, ◌*◌, ◌^◌, ℕ, IfErr, IfOk, List, OnOk, unwrap_or};
ghost use Rattle.tree_node.specs.Keys.{digest_eq};
ghost use Rattle.node_pack.specs.Packs.{AreApart, no_place, pack_len, place_from};
ghost use Rattle.node_pack.specs.internal.Gathering.{IsLayoutFault, IsMeasured, kepts, place_by};

use crate::gathered::Gathered;
use crate::header::HEADER_LEN;
use crate::learn::FILE_LIMIT;
use crate::place::Place;
use crate::write_fault::WriteFault;
use std::collections::HashMap;
use tree_node::Digest;

/// Puts the places of these nodes' records, one after the other in the file with a number, into an empty map, and gives the length
/// of the file.
///
/// Refused with `TooLong` where that would pass 2^48 bytes, with `Malformed` where two nodes have one digest, and where memory is
/// refused.
pub(crate) fn lay_out(
    number: u16,
    nodes: &[Gathered<'_>],
    places: &mut HashMap<Digest, Place>,
) -> Result<u64, WriteFault>
    requires number { number < 65535 }
    requires measured { AllByRecursion IsMeasured nodes.now }
    requires empty { IsEmpty places.old }
    ensures len { IfOk result (λ len. len ≡ pack_len (kepts nodes.now)) }
    ensures short { IfOk result (λ len. len ≤ 2 ^ 48) }
    ensures apart { OnOk result (AreApart (kepts nodes.now)) }
    ensures places { OnOk result ((key : List ℕ) → place_by places.new key
        ≡ place_from (number * 2 ^ 48 + HEADER_LEN) (kepts nodes.now) key) }
    ensures refused { IfErr result (IsLayoutFault (kepts nodes.now)) }
{
    let file = u64::from(number) * FILE_LIMIT;
    let mut at = HEADER_LEN as u64;
    for node in nodes {
        let end = at + u64::from(node.len);
        if end > FILE_LIMIT {
            return Err(WriteFault::TooLong);
        }
        let place = Place {
            at: file + at,
            len: node.len,
        };
        let before = places.insert(node.key, place)?;
        if before.is_some() {
            return Err(WriteFault::Malformed);
        }
        at = end;
    }
    Ok(at)
}

/// The place under a digest. Each child of a node of a pack has one.
pub(crate) fn place_of(places: &HashMap<Digest, Place>, key: &Digest) -> Place
    ensures { result ≡ unwrap_or (get digest_eq places.now key.now) no_place }
{
    match places.get(key) {
        Some(place) => *place,
        None => Place { at: 0, len: 0 },
    }
}
