//! The keys of the four trees, written.

ghost use Rattle.std.specs.Prelude.{◌≡◌, [], ◌∷◌, ◌++◌, ◌^◌, OnErr, OnOk, length, take};
ghost use Rattle.osm_keys.specs.Keys.{above, back_key, cell_bytes, cell_key, cell_value, id_bytes, ref_key, tag_key};

use crate::grid::{column, row};
use osm_model::{Coord, Ref};
use std::alloc::AllocError;

/// A reference as a key of the object tree, nine bytes: its kind's byte, and `id + 2^63` with the
/// greatest byte first (this project's trees, docs/FORMATS.md). It takes no memory.
pub fn reference_key(name: Ref) -> [u8; 9]
    ensures { result ≡ ref_key name }
{
    let [a, b, c, d, e, f, g, h] = id_bytes(name.id);
    [name.kind as u8, a, b, c, d, e, f, g, h]
}

/// The key of a node of the map in the cell tree, twelve bytes: its cell's row and column, and its id
/// as in `reference_key` (this project's trees, docs/FORMATS.md). It takes no memory.
pub fn cell_key(place: Coord, id: i64) -> [u8; 12]
    ensures { result ≡ cell_key place id }
{
    let [a, b, c, d] = cell_bytes(row(place.lat()), column(place.lon()));
    let [e, f, g, h, i, j, k, l] = id_bytes(id);
    [a, b, c, d, e, f, g, h, i, j, k, l]
}

/// What the cell tree has under a node's key, eight bytes: its longitude and its latitude in 1e-7
/// degree, as two's complement with the greatest byte first. It takes no memory.
#[tactic(auto, unfolding(crate::specs::Keys::cell_value))]
pub fn cell_value(place: Coord) -> [u8; 8]
    ensures { result ≡ cell_value place }
{
    let [a, b, c, d] = place.lon().to_be_bytes();
    let [e, f, g, h] = place.lat().to_be_bytes();
    [a, b, c, d, e, f, g, h]
}

/// The key of an object that lists another one, eighteen bytes: the listed object, then the one that
/// lists it (this project's trees, docs/FORMATS.md). It takes no memory.
pub fn back_key(target: Ref, referrer: Ref) -> [u8; 18]
    ensures { result ≡ back_key target referrer }
{
    let [a, b, c, d, e, f, g, h, i] = reference_key(target);
    let [j, k, l, m, n, o, p, q, r] = reference_key(referrer);
    [a, b, c, d, e, f, g, h, i, j, k, l, m, n, o, p, q, r]
}

/// Appends the key of a tag of an object to `out`: the tag's key, a NUL, its value, a NUL, and the
/// object's reference (this project's trees, docs/FORMATS.md). Where memory is refused `out` has its
/// old bytes.
pub fn append_tag_key(
    key: &[u8],
    value: &[u8],
    name: Ref,
    out: &mut Vec<u8>,
) -> Result<(), AllocError>
    ensures written { OnOk result (out.new.items ≡ out.old.items
        ++ tag_key key.now value.now name) }
    ensures unchanged { OnErr result (out.new.items ≡ out.old.items) }
{
    let start = out.len();
    let appended = append_parts(key, value, name, out);
    if appended.is_err() {
        out.truncate(start);
    }
    appended
}

/// Appends the parts of a tag's key; out of memory it leaves what it wrote.
fn append_parts(key: &[u8], value: &[u8], name: Ref, out: &mut Vec<u8>) -> Result<(), AllocError>
    ensures written { OnOk result (out.new.items ≡ out.old.items
        ++ tag_key key.now value.now name) }
    ensures extended { OnErr result (take (length out.old.items) out.new.items ≡ out.old.items) }
{
    append_ended(key, out)?;
    append_ended(value, out)?;
    out.extend_from_slice(&reference_key(name))
}

/// Appends a text and a NUL; out of memory it leaves what it wrote.
pub(crate) fn append_ended(text: &[u8], out: &mut Vec<u8>) -> Result<(), AllocError>
    ensures written { OnOk result (out.new.items ≡ out.old.items ++ (text.now ++ 0 ∷ [])) }
    ensures extended { OnErr result (take (length out.old.items) out.new.items ≡ out.old.items) }
{
    out.extend_from_slice(text)?;
    out.push(0)?;
    Ok(())
}

/// A cell in four bytes.
#[tactic(auto, unfolding(crate::specs::Keys::cell_bytes))]
pub(crate) fn cell_bytes(row: u16, column: u16) -> [u8; 4]
    ensures { result ≡ cell_bytes row column }
{
    let [a, b] = row.to_be_bytes();
    let [c, d] = column.to_be_bytes();
    [a, b, c, d]
}

/// An id in eight bytes.
#[tactic(auto, unfolding(crate::specs::Keys::id_bytes))]
fn id_bytes(id: i64) -> [u8; 8]
    ensures { result ≡ id_bytes id }
{
    id_number(id).to_be_bytes()
}

/// How many ids there are below an id.
fn id_number(id: i64) -> u64
    ensures { result ≡ above (2 ^ 63) id }
{
    id.cast_unsigned().wrapping_add(1 << 63)
}
