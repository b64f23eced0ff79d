//! The keys of the four trees, read.

ghost use Rattle.std.specs.Prelude.{◌≡◌, ◌≢◌, ◌↔◌, ◌∷◌, ◌++◌, ℕ, ℤ, IfSome, IsNone, IsTrue, List};
ghost use Rattle.osm_model.specs.Elements.{kind_byte};
ghost use Rattle.osm_model.specs.Places.{IsPlace, Place};
ghost use Rattle.osm_model.specs.declared.kind.Kind.{Kind};
ghost use Rattle.osm_model.specs.declared.reference.Ref.{Ref};
ghost use Rattle.osm_keys.specs.Keys.{IsCell, IsTagText, back_key, cell_bytes, cell_value, id_bytes, ref_key, tag_key};

use crate::grid::{LAST_COLUMN, LAST_ROW};
use byte_io::split_once;
use osm_model::{Axis, Coord, Kind, Ref, TEXT_LIMIT};
use simdutf8::compat::from_utf8;

/// What the key of a back reference says.
#[derive(Clone, Copy, Debug, PartialEq, Eq)]
pub struct BackKey {
    /// The object that is listed.
    pub target: Ref,
    /// The object that lists it.
    pub referrer: Ref,
}

/// What the key of a node in the cell tree says.
#[derive(Clone, Copy, Debug, PartialEq, Eq)]
pub struct CellKey {
    /// The row of the cell, from the south: at most 1800.
    pub row: u16,
    /// The column of the cell, from the west: at most 3600.
    pub column: u16,
    /// The id of the node.
    pub id: i64,
}

/// What the key of a tag says. Both texts are UTF-8 without NUL, of at most 4,096 bytes.
#[derive(Clone, Copy, Debug, PartialEq, Eq)]
pub struct TagKey<'k> {
    /// The key of the tag.
    pub key: &'k [u8],
    /// The value of the tag.
    pub value: &'k [u8],
    /// The object that has the tag.
    pub name: Ref,
}

/// The reference that a key of the object tree says: nine bytes, the first of which is the kind's, from 1
/// to 3; none where it isn't such a key (this project's trees, docs/FORMATS.md). It takes no memory.
pub fn read_reference_key(key: &[u8]) -> Option<Ref>
    ensures some { IfSome result (λ name. key.now ≡ ref_key name) }
    ensures none { IsNone result → (name : Ref) → key.now ≢ ref_key name }
{
    let (kind, id) = key.split_first()?;
    let kind = kind_of(*kind)?;
    let id = id_of(id.as_array()?);
    Some(Ref { kind, id })
}

/// What a key of the back tree says: eighteen bytes, two references; none where it isn't such a key (this
/// project's trees, docs/FORMATS.md). It takes no memory.
pub fn read_back_key(key: &[u8]) -> Option<BackKey>
    ensures some { IfSome result (λ found. key.now ≡ back_key found.target found.referrer) }
    ensures none { IsNone result → (target referrer : Ref) → key.now ≢ back_key target referrer }
{
    let (target, referrer) = key.split_at_checked(9)?;
    let target = read_reference_key(target)?;
    let referrer = read_reference_key(referrer)?;
    Some(BackKey { target, referrer })
}

/// What a key of the cell tree says: twelve bytes, a row of at most 1800, a column of at most 3600 and the
/// id of a node; none where it isn't such a key (this project's trees, docs/FORMATS.md). Whether the node's
/// location lies in the cell isn't known from the key. It takes no memory.
pub fn read_cell_key(key: &[u8]) -> Option<CellKey>
    ensures some { IfSome result (λ found. key.now ≡ cell_bytes found.row found.column
        ++ id_bytes found.id) }
    ensures cell { IfSome result (λ found. IsCell found.row found.column) }
    ensures none { IsNone result → (row column : ℕ) (id : ℤ) → IsCell row column
        → key.now ≢ cell_bytes row column ++ id_bytes id }
{
    let (row, rest) = key.split_first_chunk()?;
    let (column, id) = rest.split_first_chunk()?;
    let row = u16::from_be_bytes(*row);
    let column = u16::from_be_bytes(*column);
    let id = id_of(id.as_array()?);
    if row > LAST_ROW || column > LAST_COLUMN {
        return None;
    }
    Some(CellKey { row, column, id })
}

/// The location that a value of the cell tree says: eight bytes, the longitude and the latitude in 1e-7
/// degree; none where it isn't such a value, or one of the two is out of its range (this project's trees,
/// docs/FORMATS.md). It takes no memory.
pub fn read_cell_value(value: &[u8]) -> Option<Coord>
    ensures some { IfSome result (λ place. value.now ≡ cell_value place) }
    ensures none { IsNone result → (place : Place) → IsPlace place → value.now ≢ cell_value place }
{
    let (lon, lat) = value.split_first_chunk()?;
    let lon = i32::from_be_bytes(*lon);
    let lat = i32::from_be_bytes(*lat.as_array()?);
    if !is_place(lon, lat) {
        return None;
    }
    Some(Coord::new(lon, lat))
}

/// Whether these two numbers, in 1e-7 degree, are a location.
fn is_place(lon: i32, lat: i32) -> bool
    ensures { IsTrue result ↔ IsPlace (record { lon = lon; lat = lat }) }
{
    u64::from(lon.unsigned_abs()) <= Axis::Lon.limit()
        && u64::from(lat.unsigned_abs()) <= Axis::Lat.limit()
}

/// What a key of the tag tree says: two texts, each ended by a NUL, and a reference. The texts are UTF-8
/// without NUL, of at most 4,096 bytes, and may be empty. It is none where the bytes aren't such a key (this
/// project's trees, docs/FORMATS.md). Linear in the bytes; it takes no memory.
pub fn read_tag_key(key: &[u8]) -> Option<TagKey<'_>>
    ensures some { IfSome result
        (λ found. key.now ≡ tag_key found.key.now found.value.now found.name) }
    ensures texts { IfSome result (λ found. IsTagText found.key.now × IsTagText found.value.now) }
    ensures none { IsNone result → (text value : List ℕ) (name : Ref) → IsTagText text
        → IsTagText value → key.now ≢ tag_key text value name }
{
    let (text, rest) = read_ended(key)?;
    let (value, name) = read_ended(rest)?;
    let name = read_reference_key(name)?;
    Some(TagKey {
        key: text,
        value,
        name,
    })
}

/// The text of a tag that is ended by the first NUL of these bytes, and the bytes after the NUL.
fn read_ended(bytes: &[u8]) -> Option<(&[u8], &[u8])>
    ensures some { IfSome result (λ found. bytes.now ≡ found.0.now ++ 0 ∷ found.1.now) }
    ensures text { IfSome result (λ found. IsTagText found.0.now) }
    ensures none { IsNone result → (text rest : List ℕ) → IsTagText text
        → bytes.now ≢ text ++ 0 ∷ rest }
{
    let (text, rest) = split_once(bytes, 0)?;
    if text.len() > TEXT_LIMIT {
        return None;
    }
    match from_utf8(text) {
        Ok(_) => Some((text, rest)),
        Err(_) => None,
    }
}

/// The kind with this byte.
fn kind_of(byte: u8) -> Option<Kind>
    ensures some { IfSome result (λ kind. kind_byte kind ≡ byte) }
    ensures none { IsNone result → (kind : Kind) → kind_byte kind ≢ byte }
{
    match byte {
        1 => Some(Kind::Node),
        2 => Some(Kind::Way),
        3 => Some(Kind::Rel),
        _ => None,
    }
}

/// The id that these eight bytes say.
fn id_of(bytes: &[u8; 8]) -> i64
    ensures { id_bytes result ≡ bytes.now }
{
    u64::from_be_bytes(*bytes)
        .wrapping_sub(1 << 63)
        .cast_signed()
}
