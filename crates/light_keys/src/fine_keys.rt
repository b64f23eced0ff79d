//! The keys and values of fine cells, written.

ghost use Rattle.std.specs.Prelude.{◌≡◌, ◌++◌};
ghost use Rattle.osm_keys.specs.Keys.{id_bytes};
ghost use Rattle.osm_keys.specs.FineKeys.{fine_cell_key, fine_cell_value, fine_corner};

use crate::fine_grid::{fine_column, fine_row};
use osm_keys::reference_key;
use osm_model::{Coord, Kind, Ref};
use tree_node::Digest;

/// The key of a node of the map in the tree of fine cells, fourteen bytes: its row in two, which is its latitude above
/// the south pole in hundredths of a degree, rounded down (0 to 18000); its longitude above -180 degrees in 1e-7 degree in
/// four (0 to 3,600,000,000); and its id in eight, as in `osm_keys::reference_key`. The greatest byte of each comes first.
/// It takes no memory.
pub fn fine_cell_key(place: Coord, id: i64) -> [u8; 14]
    ensures { result ≡ fine_cell_key place id }
{
    let [a, b, c, d, e, f] = fine_corner(fine_row(place.lat()), fine_column(place.lon()));
    let [g, h, i, j, k, l, m, n] = id_bytes(id);
    [a, b, c, d, e, f, g, h, i, j, k, l, m, n]
}

/// What the tree of fine cells has under a node's key, 36 bytes: the latitude in 1e-7 degree, in four bytes as two's
/// complement with the greatest byte first, and the digest of the node's line. It takes no memory.
pub fn fine_cell_value(latitude: i32, line: &Digest) -> [u8; 36]
    ensures { result ≡ fine_cell_value latitude line.now.0 }
{
    let mut value = [0; 36];
    value[..4].copy_from_slice(&latitude.to_be_bytes());
    value[4..].copy_from_slice(&line.0);
    value
}

/// A row and a column in six bytes.
#[tactic(auto, unfolding(osm_keys::specs::FineKeys::fine_corner))]
pub(crate) fn fine_corner(row: u16, column: u32) -> [u8; 6]
    ensures { result ≡ fine_corner row column }
{
    let [a, b] = row.to_be_bytes();
    let [c, d, e, f] = column.to_be_bytes();
    [a, b, c, d, e, f]
}

/// An id in eight bytes, as in the keys of references.
fn id_bytes(id: i64) -> [u8; 8]
    ensures { result ≡ id_bytes id }
{
    let kind = Kind::Node;
    let [_, a, b, c, d, e, f, g, h] = reference_key(Ref { kind, id });
    [a, b, c, d, e, f, g, h]
}
