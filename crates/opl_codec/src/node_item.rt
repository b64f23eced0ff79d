//! Nodes of ways, as fields spell them.

ghost use Rattle.std.specs.Prelude.{◌≤◌, ◌∷◌, length, IfOk, IfErr, IsTrue, ◌↔◌};
ghost use Rattle.osm_model.specs.Letters.{node_letter};
ghost use Rattle.osm_model.specs.declared.limits.TheConstants.{LIST_LIMIT};
ghost use Rattle.opl_codec.specs.Values.{SpellsNodes};
ghost use Rattle.opl_codec.specs.ValueFaults.{IsLocated, NodesFault};

use crate::list_item::{ListItem, read_list};
use crate::number::read_number;
use crate::value_fault::ValueFault;
use byte_io::split_once;
use std::alloc::Global;

/// The nodes of a text, in their order.
///
/// Refused with `Limit` where they are more than [`osm_model::LIST_LIMIT`].
pub(crate) fn read_nodes(alloc: Global, text: &str) -> Result<Vec<i64>, ValueFault>
    ensures read { IfOk result (λ ids. SpellsNodes text.now ids.items
        × (length ids.items ≤ LIST_LIMIT)) }
    ensures refused { IfErr result (λ fault. NodesFault text.now fault) }
{
    read_list(alloc, text)
}

impl ListItem for i64 {
    ghost use Rattle.opl_codec.specs.Values.{SpellsNode};
    ghost use Rattle.opl_codec.specs.ValueFaults.{NodeFault};
    ghost use Rattle.opl_codec.specs.internal.ItemPlaces.{node_within};

    ghost spells = { SpellsNode };

    ghost bad = { NodeFault };

    ghost unlimited = { λ _ limit. limit };

    ghost within = { node_within };

    fn read(_alloc: Global, spelled: &str) -> Result<i64, ValueFault> {
        let [b'n', text @ ..] = spelled.as_bytes() else {
            return Err(ValueFault::Form);
        };
        match read_number(text) {
            Some(id) => Ok(id),
            None if is_located(text) => Err(ValueFault::NodeLocation),
            None => Err(ValueFault::Form),
        }
    }
}

/// Whether the text is an id and an `x` after it, with which a location begins.
fn is_located(text: &[u8]) -> bool
    ensures { IsTrue result ↔ IsLocated (node_letter ∷ text.now) }
{
    match split_once(text, b'x') {
        Some((digits, _)) => read_number(digits).is_some(),
        None => false,
    }
}
