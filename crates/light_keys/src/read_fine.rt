//! The keys and values of fine cells, read.

ghost use Rattle.std.specs.Prelude.{◌≡◌, ◌≢◌, ◌≤◌, ◌++◌, ℕ, ℤ, IfSome, IsNone, List, length, unsigned_abs};
ghost use Rattle.osm_keys.specs.Keys.{id_bytes};
ghost use Rattle.osm_model.specs.Degrees.{limit};
ghost use Rattle.osm_model.specs.Places.{Place};
ghost use Rattle.osm_keys.specs.FineKeys.{IsFineCell, SaysFineCell, fine_cell_value, fine_corner};

use crate::fine_grid::{LAST_COLUMN, LAST_ROW, longitude};
use osm_model::{Axis, Coord};
use tree_node::Digest;

/// What an entry of the tree of fine cells says: a node of the map, where it lies, and its line.
#[derive(Clone, Copy, Debug, PartialEq, Eq)]
pub struct FineCell {
    /// The row that the key states, from the south: at most 18000. `read_fine_cell` doesn't compare it with the place.
    pub row: u16,
    /// Where the node lies: the key states the longitude, the value the latitude.
    pub place: Coord,
    /// The id of the node.
    pub id: i64,
    /// The digest of the node's line.
    pub line: Digest,
}

/// What a key of a fine cell says.
#[derive(Clone, Copy)]
struct FineKey {
    row: u16,
    column: u32,
    id: i64,
}

/// What an entry of the tree of fine cells says. The key is of fourteen bytes: a row of at most 18000, a longitude of at
/// most 3,600,000,000 above -180 degrees, and an id. The value is of 36: a latitude from -900,000,000 to 900,000,000, and
/// a digest. `None` exactly if one of the two isn't so. Whether the latitude lies in the row isn't looked at, as
/// `osm_keys::read_cell_key` and `read_cell_value` don't compare cell and location: the stated location is where the node
/// lies, and a caller that wants the two to agree compares them. It takes no memory.
pub fn read_fine_cell(key: &[u8], value: &[u8]) -> Option<FineCell>
    ensures some { IfSome result (λ found. SaysFineCell key.now value.now
        found.row found.place found.id found.line.0) }
    ensures none { IsNone result → (row : ℕ) (place : Place) (id : ℤ) (line : List ℕ)
        → ¬ SaysFineCell key.now value.now row place id line }
{
    let found = read_key(key)?;
    let (lat, line) = read_value(value)?;
    let place = Coord::new(longitude(found.column), lat);
    Some(FineCell {
        row: found.row,
        place,
        id: found.id,
        line,
    })
}

/// What these fourteen bytes say; none where they aren't such a key.
fn read_key(key: &[u8]) -> Option<FineKey>
    ensures some { IfSome result (λ found. key.now ≡ fine_corner found.row found.column
        ++ id_bytes found.id) }
    ensures cell { IfSome result (λ found. IsFineCell found.row found.column) }
    ensures none { IsNone result → (row column : ℕ) (id : ℤ) → IsFineCell row column
        → key.now ≢ fine_corner row column ++ id_bytes id }
{
    let (row, rest) = key.split_first_chunk()?;
    let (column, id) = rest.split_first_chunk()?;
    let row = u16::from_be_bytes(*row);
    let column = u32::from_be_bytes(*column);
    let id = id_of(id.as_array()?);
    if row > LAST_ROW || column > LAST_COLUMN {
        return None;
    }
    Some(FineKey { row, column, id })
}

/// The latitude and the digest that these 36 bytes say; none where they aren't such a value.
fn read_value(value: &[u8]) -> Option<(i32, Digest)>
    ensures some { IfSome result (λ found. value.now ≡ fine_cell_value found.0 found.1.0) }
    ensures within { IfSome result (λ found. unsigned_abs found.0 ≤ limit Axis.Lat) }
    ensures wide { IfSome result (λ found. length found.1.0 ≡ 32) }
    ensures none { IsNone result → (latitude : ℤ) (line : List ℕ)
        → unsigned_abs latitude ≤ limit Axis.Lat → length line ≡ 32
        → value.now ≢ fine_cell_value latitude line }
{
    let (lat, line) = value.split_first_chunk()?;
    let lat = i32::from_be_bytes(*lat);
    let line = Digest::from_slice(line)?;
    if u64::from(lat.unsigned_abs()) > Axis::Lat.limit() {
        return None;
    }
    Some((lat, line))
}

/// The id that these eight bytes say.
fn id_of(bytes: &[u8; 8]) -> i64
    ensures { id_bytes result ≡ bytes.now }
{
    u64::from_be_bytes(*bytes)
        .wrapping_sub(1 << 63)
        .cast_signed()
}
